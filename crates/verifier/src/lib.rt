//! The verifier: it accepts only programs that are safe within their bound. It passes over the
//! segments of a program, and knows after each instruction what registers and stack may hold. At a
//! jump back, the rank has to be below the segment's own. A verdict on an object file goes from its
//! bytes to the verifier's answer about its program.
#![tactic(auto)]

mod accepted;
mod bound;
mod checking;
pub mod edge;
mod entry;
mod error;
mod fall;
pub mod follow;
mod gap;
pub mod known;
pub mod laws;
mod line;
mod pass;
pub mod places;
mod range;
mod refusal;
mod region;
pub mod starts;
mod verdict;

pub use accepted::Accepted;
pub use bound::bound_of;
pub use checking::{BUDGET, verify};
pub use error::VerifyError;
pub use fall::falls;
pub use line::LinearBound;
pub use refusal::Refusal;
pub use verdict::verify_object;
// Names from the crates below that crates above use.
pub use transfer::rule::Rule;
