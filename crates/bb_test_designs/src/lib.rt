//! Tests of netlists and pairs of designs that need calls below the top one: names, values and orders that no report
//! shows. What a report shows is a row of bb_test_cases.
#![tactic(auto)]

#[cfg(test)]
mod bits;
#[cfg(test)]
mod designs;
#[cfg(test)]
mod event_tests;
#[cfg(test)]
mod fill_tests;
#[cfg(test)]
mod fitting;
#[cfg(test)]
mod miter_tests;
#[cfg(test)]
mod order_tests;
#[cfg(test)]
mod pair_tests;
#[cfg(test)]
mod printing;
#[cfg(test)]
mod reading;
#[cfg(test)]
mod value_tests;
