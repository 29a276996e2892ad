//! Designs whose boxes are finished by modules, as definitions and laws.
//!
//! Contents of boxes are tables, of as many rows as their inputs have values; modules give contents of any width. That
//! a design with such modules is the design with boxes under the contents that they compute is proved here, once and
//! for all ways in which modules are made.
#![tactic(auto)]

pub mod laws;
