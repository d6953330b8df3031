//! Intervals of numbers, by unsigned and signed bounds, as abstract values.
#![tactic(auto)]

mod bounds;
mod domain;
mod order;
mod results;
mod signed_order;
mod signed_results;
mod signs;
mod span;
mod value;

pub use value::Interval;
