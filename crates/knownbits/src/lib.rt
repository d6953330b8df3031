//! Numbers with some known bits, as abstract values.
#![tactic(auto)]

mod bits;
mod domain;
mod shift;
mod sum;
mod value;

pub use value::KnownBits;
