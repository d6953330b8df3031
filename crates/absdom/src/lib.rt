//! Abstract values of a register: sets of numbers below 2^64, with the effect of an instruction's
//! arithmetic or a jump's test on them.
#![tactic(auto)]

pub mod arithmetic;
mod domain;
mod narrowing;
mod pair;
mod test;
mod unary;

pub use domain::Domain;
pub use pair::Pair;
pub use test::opposite;
pub use unary::UnaryOperation;
