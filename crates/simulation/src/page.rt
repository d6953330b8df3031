//! What is printed, piece by piece.
use std::fmt::Display;
use std::io::{self, Write};

/// What is written to, and whether that failed: then nothing more is written.
#[derive(Drop)]
pub struct Page<O> {
    output: O,
    written: io::Result<()>,
}

impl<O: Write> Page<O> {
    /// Nothing is written yet.
    pub fn new(output: O) -> Page<O> {
        Page {
            output,
            written: Ok(()),
        }
    }

    /// Whether all could be written.
    ///
    /// # Errors
    /// The first error of the writer.
    pub fn written(&self) -> io::Result<()> {
        self.written
    }

    /// Writes a text.
    pub fn text(&mut self, text: &str) {
        if self.written.is_ok() {
            self.written = self.output.write_all(text.as_bytes());
        }
    }

    fn value<T: Display>(&mut self, before: &str, value: &T) {
        if self.written.is_ok() {
            self.written = write!(self.output, "{before}{value}");
        }
    }

    /// Writes a text with values in the places of its `{}`, and leaves out values behind the last.
    pub fn fill<T: Display>(&mut self, text: &str, values: &[T]) {
        let mut rest = text;
        for value in values {
            let Some((before, behind)) = rest.split_once("{}") else {
                break;
            };
            self.value(before, value);
            rest = behind;
        }
        self.text(rest);
    }
}
