//! The instructions of RFC 9669 that this project takes, and their encoding.
#![tactic(auto)]

pub mod arithmetic;
mod builder;
mod code;
mod decoding;
mod encoding;
mod fields;
mod hook;
mod instruction;
pub mod laws;
mod map;
mod register;
mod shape;
mod slot;

pub use builder::{BuildError, CodeBuilder};
pub use code::{Code, MAX_SLOTS, Slot};
pub use decoding::{DecodeError, DecodeFault, decode};
pub use encoding::encode;
pub use hook::Hook;
pub use instruction::{
    ByteOrder, Extension, Instruction, LoadSize, Operation, Source, StoreSize, SwapWidth, Test,
    Width,
};
pub use map::Map;
pub use register::Register;
