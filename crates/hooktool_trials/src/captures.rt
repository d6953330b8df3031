//! Captures of packets in libpcap's classic form (pcap-savefile(5)).

mod fault;
mod file;
mod frame;
mod number;

pub use fault::CaptureError;
pub(crate) use file::{Capture, Record, read};
pub(crate) use frame::{FrameContent, LinkType, content_of};
