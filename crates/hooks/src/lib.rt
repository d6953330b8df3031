//! Programs that a loader publishes at the hooks, and askers that run them.
//!
//! The programs of the four hooks stand in two copies (the kit's `left_right`): askers read one
//! while the loader writes the other. `attach` and `detach` add the operation, swap the copies and
//! wait until nobody reads the one that was swapped out; an asker sees the operation when it is
//! asked next.
//!
//! An asker runs the program that is attached at a hook in the calling thread, and never locks or
//! blocks; only `Asker::vetoes` allocates, for the list of its answers. The operations that it sees
//! begin with all those that it saw before, and with all that a notice told it.
#![tactic(auto)]

mod answer;
mod asker;
mod defaults;
mod error;
mod history;
mod input;
pub mod laws;
mod loader;
mod numbered;
mod operation;
mod question;
mod rule;
mod slot;
mod start;
mod value;
mod veto_answers;
mod vetoes;

pub use answer::{PriceAnswer, TagAnswer, VetoAnswer};
pub use asker::{Asker, HookAnswer};
pub use error::HookError;
pub use loader::{Loader, Notice};
pub use operation::LoaderOperation;
pub use start::programs;
pub use veto_answers::VetoAnswers;

/// The maximum number of askers of one loader.
pub const MAX_ASKERS: usize = 64;
