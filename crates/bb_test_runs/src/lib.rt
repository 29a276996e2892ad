//! Tests of the top call that cannot be rows of data: files and sinks that fail, texts and reports that are too long, a
//! report of which only a part is fixed, and a call without a report.
#![tactic(auto)]

#[cfg(test)]
mod in_memory;
#[cfg(test)]
mod long_tests;
#[cfg(test)]
mod outside_tests;
#[cfg(test)]
mod quiet_tests;
#[cfg(test)]
mod stop_tests;
