//! What a command prints.

/// The text that a command prints, and whether that is a refusal: of a program that is refused, or
/// of a run that is stuck.
#[derive(Drop)]
pub struct CommandOutput {
    pub text: String,
    pub is_refused: bool,
}
