//! The contexts of questions: the 64 bytes that a program is run on, hook by hook.
//!
//! Numbers are little-endian, and bytes outside of all fields are 0. A prefix's address and a
//! Router ID are their 32-bit numbers.

/// The bytes of a context.
pub type Context = [u8; 64];
