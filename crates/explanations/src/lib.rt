//! What the verifier knows at each slot of a program, in words, and why it refuses one.
#![tactic(auto)]

mod edges;
mod explaining;
mod lines;
mod page;
mod phrases;
mod reasons;
mod rules;
mod text;
mod walk;

pub use explaining::{ExplainError, Explanation, explain};
pub use lines::{instruction_lines, line_at};
pub use text::Text;
