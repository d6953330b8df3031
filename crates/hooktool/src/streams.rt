//! Streams that texts are written to, and that know whether a write failed.

ghost use Rattle.std.specs.Prelude.{◌≡◌, false, true, IfSome, OnErr, OnOk};
ghost use Rattle.std.specs.Io.KnownBytes.{Appends};
ghost use Rattle.hooktool.specs.Streams.{StreamState};

use std::fmt::Display;
use std::io::Write;

/// A write failed, for an unknown cause.
#[derive(Clone, Copy)]
pub struct StreamFault {}

/// A stream that texts are written to. It remembers whether a write failed. Code that is generic
/// over the stream can establish that one failed only by a call that did.
pub trait Stream {
    ghost state: { Self → StreamState };

    /// Writes the text.
    ///
    /// # Errors
    /// `StreamFault` if the write failed.
    fn print<D: Display + Drop>(&mut self, text: D) -> Result<(), StreamFault>
        ensures printed { OnOk result (IfSome (D.output text)
            (Appends (state self.old).contents (state self.new).contents)) }
        ensures fine { OnOk result ((state self.new).has_failed ≡ (state self.old).has_failed) }
        ensures fault { OnErr result ((state self.new).has_failed ≡ true) };
}

/// A writer, as a stream.
#[derive(Drop)]
pub struct Written<W> {
    writer: W,
    has_failed: bool,
}

impl<W> Written<W> {
    /// The stream that texts are written to by this writer.
    pub fn new(writer: W) -> Written<W>
        ensures { result.has_failed ≡ false }
    {
        Written {
            writer,
            has_failed: false,
        }
    }
}

impl<W: Write> Stream for Written<W> {
    ghost state = { λ s. record { contents = W.contents s.writer; has_failed = s.has_failed } };

    fn print<D: Display + Drop>(&mut self, text: D) -> Result<(), StreamFault> {
        match self.writer.write_fmt(text) {
            Ok(()) => Ok(()),
            Err(_) => {
                self.has_failed = true;
                Err(StreamFault {})
            }
        }
    }
}
