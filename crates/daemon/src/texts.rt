//! The texts of the console's output.
ghost use Rattle.std.specs.Prelude.{ℕ, List, IfSome, OnErr, OnOk};
ghost use Rattle.std.specs.Io.KnownBytes.{Appends};

use std::fmt::Display;
use std::io::Write;

/// The output can't be written.
#[derive(Clone, Copy)]
pub struct Unwritable {}

/// Output, text by text.
///
/// `takes` (a text) and `fails` are relations that each implementation defines. Code that is
/// generic over the output can establish them only by the call, so a contract that has them shows
/// what was written.
pub trait WritesTexts {
    ghost takes: { Self → List ℕ → Self → Type 0 };

    ghost fails: { Self → Self → Type 0 };

    /// Writes the text, and flushes it.
    ///
    /// # Errors
    /// `Unwritable` if it can't be written: some of it may have been.
    fn write_text<D: Display + Drop>(&mut self, text: D) -> Result<(), Unwritable>
        ensures taken { OnOk result (IfSome (D.output text)
            (λ text. takes self.old text self.new)) }
        ensures failed { OnErr result (fails self.old self.new) };
}

/// Of a writer whose bytes contracts know, `takes` says that the bytes of the text are appended.
impl<W: Write> WritesTexts for W {
    ghost takes = { λ before text after. Appends (W.contents before) (W.contents after) text };

    ghost fails = { λ before after. Unit {0} };

    fn write_text<D: Display + Drop>(&mut self, text: D) -> Result<(), Unwritable> {
        if self.write_fmt(text).is_err() {
            return Err(Unwritable {});
        }
        match self.flush() {
            Ok(()) => Ok(()),
            Err(_) => Err(Unwritable {}),
        }
    }
}
