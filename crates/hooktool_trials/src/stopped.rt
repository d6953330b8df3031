//! Why a test isn't played to its end.
use crate::captures::CaptureError;
use crate::error::TrialError;
use std::fmt;
use thiserror::Error;

/// Why a test isn't played to its end. Its `Display` is the message after the line's number.
#[derive(Clone, Copy, Error)]
pub enum PlayError {
    /// A question comes before any `program` that could be asked.
    #[error("no line before it names a program OBJECT")]
    NoProgram,
    /// A file can't be read.
    #[error("cannot read the file that it names")]
    Unreadable,
    /// The file of a program isn't one.
    #[error("its file is no object (hooktool annotate and build make them)")]
    Object(TrialError),
    /// The file of packets isn't one.
    #[error("the capture: {0}")]
    Capture(CaptureError),
    /// A packet of the capture isn't whole.
    #[error("a packet of the capture isn't whole (tcpdump -s 0)")]
    CutPacket,
    /// An allocation was refused.
    #[error("out of memory")]
    Memory,
}

impl fmt::Debug for PlayError {
    fn fmt<W: fmt::Write>(&self, f: &mut fmt::Formatter<W>) -> fmt::Result {
        fmt::Display::fmt(self, f)
    }
}

/// The line that can't be played, by its number, and why.
#[derive(Clone, Copy)]
pub struct Stopped {
    pub number: u64,
    pub error: PlayError,
}
