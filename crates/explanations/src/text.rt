//! A text under construction.

use std::alloc::{AllocError, Global};

/// A text that grows. If an allocation is refused for a part of it, there is no text at the end.
#[derive(Drop)]
pub struct Text {
    pub(crate) words: String,
    /// Whether an allocation was refused for a part of it.
    pub(crate) is_cut: bool,
}

impl Text {
    pub fn new(alloc: Global) -> Text {
        Text {
            words: String::new(alloc),
            is_cut: false,
        }
    }

    /// Adds these words.
    pub fn push(&mut self, words: &str) {
        self.is_cut |= self.words.push_str(words).is_err();
    }

    /// Adds the number.
    pub fn number(&mut self, number: u128) {
        self.is_cut |= write!(self.words, "{number}").is_err();
    }

    /// Adds the number, with a minus if it is below 0.
    pub fn signed(&mut self, number: i64) {
        self.is_cut |= write!(self.words, "{number}").is_err();
    }

    /// Adds the number between two texts.
    pub fn numbered(&mut self, before: &str, number: u64, behind: &str) {
        self.push(before);
        self.number(number as u128);
        self.push(behind);
    }

    /// Adds the words, with the numbers in place of their `{}`, in order. Numbers without a place
    /// are left out.
    pub fn fill(&mut self, words: &str, numbers: &[u128]) {
        let mut rest = words;
        for number in numbers {
            if let Some((before, behind)) = rest.split_once("{}") {
                self.push(before);
                self.number(*number);
                rest = behind;
            }
        }
        self.push(rest);
    }

    /// Adds these words, and ends the line.
    pub fn line(&mut self, before: &str, words: &str) {
        self.push(before);
        self.push(words);
        self.push("\n");
    }

    /// The whole text.
    ///
    /// # Errors
    /// `AllocError` if an allocation was refused for a part of it.
    pub fn finish(self) -> Result<String, AllocError> {
        let Text { words, is_cut } = self;
        if is_cut { Err(AllocError) } else { Ok(words) }
    }
}
