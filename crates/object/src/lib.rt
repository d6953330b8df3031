//! Object files: a program's code with what is stated at some of its slots, as bytes and as a type
//! that holds only well-formed ones.
#![tactic(auto)]

mod error;
mod fields;
mod kind;
mod lawful;
pub mod laws;
mod number;
mod object;
mod offset;
mod rank;
mod reading;
mod stack;
mod statement;
mod writing;

pub use error::ObjectError;
pub use kind::StatedKind;
pub use number::StatedNumber;
pub use object::Object;
pub use offset::{ContextOffset, StackOffset};
pub use rank::{Rank, RankTerm};
pub use reading::read;
pub use stack::StackBytes;
pub use statement::Statement;
pub use writing::write;
