//! The words of a line. Numbers, addresses and prefixes are parsed by `address_texts`.
ghost use Rattle.std.specs.Prelude.{◌≡◌, ◌↔◌, IfOk, IsTrue};
ghost use Rattle.console.specs.Words.{words_in};
ghost use Rattle.console.specs.Views.{views};

use std::alloc::{AllocError, Global};

/// The words of a line, separated by single spaces.
///
/// # Errors
/// `AllocError` if an allocation is refused.
pub fn words_of<'a>(alloc: Global, line: &'a str) -> Result<Vec<&'a str>, AllocError>
    ensures { IfOk result (λ words. views words.items ≡ words_in line.now) }
{
    line.split(' ').collect(alloc)
}

/// Whether the word is this text.
pub fn is_text(word: &str, text: &str) -> bool
    ensures { IsTrue result ↔ (word.now ≡ text.now) }
{
    word == text
}
