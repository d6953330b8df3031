//! Why bytes are no capture.
ghost use Rattle.std.specs.Prelude.{◌≡◌};

use std::alloc::AllocFailed;
use std::fmt;
use thiserror::Error;

/// Why bytes are no capture that can be read. Its `Display` is the message about the file.
#[derive(Clone, Copy, Error)]
pub enum CaptureError {
    /// Fewer than 24 bytes, another magic number in front, or another version than 2.
    #[error("it is no pcap file of version 2")]
    NotCapture,
    /// Frames of a link that isn't known, by its number.
    #[error("its link type is {link}: known are 1 (Ethernet), 101, 228 (IP), 113, 276 (Linux)")]
    Link { link: u32 },
    /// The file ends inside of a record. Records are counted from 1.
    #[error("it ends inside of record {record}")]
    Short { record: usize },
    /// An allocation was refused.
    #[error("out of memory")]
    Memory,
}

impl fmt::Debug for CaptureError {
    fn fmt<W: fmt::Write>(&self, f: &mut fmt::Formatter<W>) -> fmt::Result {
        fmt::Display::fmt(self, f)
    }
}

impl<T: Drop> From<AllocFailed<T>> for CaptureError {
    ghost use Rattle.hooktool_trials.specs.declared.captures.fault.CaptureError.TheVariants.{Memory};

    ghost from_gives = { λ _ error. error ≡ Memory };

    fn from(_error: AllocFailed<T>) -> CaptureError {
        CaptureError::Memory
    }
}
