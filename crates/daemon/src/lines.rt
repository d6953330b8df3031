//! The lines of the console's input.
ghost use Rattle.std.specs.Prelude.{◌≡◌, ℕ, ◌<◌, ◌++◌, ◌∷◌, [], List, Option, IfOk, IsTrue};
ghost use Rattle.std.specs.Prelude.{MatchOption, OnErr, slice_index};
ghost use Rattle.daemon.specs.Lines.{IsGiven, IsKeptOf, IsLast, IsNext, IsWhole};

use std::alloc::Global;
use std::io::{BufRead, ErrorKind};
use std::sync::Wait;

/// A line of more bytes than this is no command, and isn't kept.
const MAX_BYTES: usize = 4_096;

/// The input can't be read.
#[derive(Clone, Copy)]
pub struct Unreadable {}

/// Input, byte by byte.
///
/// `gives` (a byte, or the end) and `fails` are relations that each implementation defines. Code
/// that is generic over the input can establish them only by the call, so a contract that has them
/// shows what was read.
pub trait ReadsBytes {
    ghost gives: { Self → Option ℕ → Self → Type 0 };

    ghost fails: { Self → Self → Type 0 };

    /// The next byte, or `None` at the end.
    ///
    /// # Errors
    /// `Unreadable` if the input can't be read.
    fn next_byte(&mut self) -> Result<Option<u8>, Unreadable>
        ensures given { IfOk result (λ byte. gives self.old byte self.new) }
        ensures failed { OnErr result (fails self.old self.new) };
}

/// Of a reader whose bytes contracts know, `gives` says that the byte is the first of those that
/// are left, or that none is.
impl<I: BufRead> ReadsBytes for I {
    ghost gives = { λ before byte after. IsNext (I.remaining before) byte (I.remaining after) };

    ghost fails = { λ before after. Unit {0} };

    fn next_byte(&mut self) -> Result<Option<u8>, Unreadable> {
        read_byte(self)
    }
}

// The first of this number of bytes.
fn first(bytes: &[u8; 1], count: usize) -> Option<u8>
    ensures { MatchOption result (count ≡ 0)
        (λ byte. (0 < count) × (byte ≡ slice_index bytes.now 0)) }
{
    if count == 0 { None } else { Some(bytes[0]) }
}

// The next byte, which is read again if a signal interrupts that.
#[tactic(auto, using(crate::proofs::Reading::keeps_self, crate::proofs::Reading::keeps_still, crate::proofs::Reading::next_read))]
fn read_byte<I: BufRead>(input: &mut I) -> Result<Option<u8>, Unreadable>
    ensures { IfOk result (λ byte.
        IsNext (I.remaining input.old) byte (I.remaining input.new)) }
{
    let mut one = [0u8; 1];
    for _tries in 0..u64::MAX {
        match input.read(&mut one) {
            Ok(count) => return Ok(first(&one, count)),
            Err(error) => match error.kind() {
                ErrorKind::Interrupted => {}
                _ => return Err(Unreadable {}),
            },
        }
    }
    Err(Unreadable {})
}

/// What the input gave.
#[derive(Drop)]
pub enum Given {
    /// A line without its line feed. It is empty if the line can be no command, since it isn't
    /// UTF-8 or has more than 4,096 bytes.
    Line(String),
    /// There was no memory for the line, which is passed over.
    Memory,
    /// There is no more.
    End,
    /// It can't be read.
    Failed,
}

// Keeps one more byte of a line, unless more than 4,096 are kept. The answer is whether there was
// memory.
#[tactic(auto, using(crate::proofs::Reading::kept_all, crate::proofs::Reading::kept_enough))]
fn keep(bytes: &mut Vec<u8>, byte: u8) -> bool
    ensures { IsTrue result → (line : List ℕ) → IsKeptOf bytes.old.items line
        → IsKeptOf bytes.new.items (line ++ byte ∷ []) }
{
    if bytes.len() > MAX_BYTES {
        return true;
    }
    bytes.push(byte).is_ok()
}

// The line of which these bytes are kept, if there was memory for each of them.
#[tactic(auto, using(crate::proofs::Reading::text_same, crate::proofs::Reading::text_long, crate::proofs::Reading::text_unread))]
fn whole(alloc: Global, bytes: Vec<u8>, is_lost: bool) -> Given
    ensures { IsWhole bytes.items is_lost result }
{
    if is_lost {
        return Given::Memory;
    }
    if bytes.len() > MAX_BYTES {
        return Given::Line(String::new(alloc));
    }
    match String::from_utf8(bytes) {
        Ok(line) => Given::Line(line),
        Err(_) => Given::Line(String::new(alloc)),
    }
}

// The line that stands before the end of the input. Without bytes there is none: an input that ends
// with a line feed has no empty line after it.
fn last(alloc: Global, bytes: Vec<u8>, is_lost: bool) -> Given
    ensures { IsLast bytes.items is_lost result }
{
    if !is_lost && bytes.is_empty() {
        return Given::End;
    }
    whole(alloc, bytes, is_lost)
}

/// Reads the next line. One that is longer than 4,096 bytes is read to its end and answered as an
/// empty line; one for which there is no memory is read to its end too, and dropped.
#[tactic(auto, using(crate::proofs::Reading::not_begun, crate::proofs::Reading::given_failed))]
pub fn next_line<I: ReadsBytes, R: Wait>(rt: &R, alloc: Global, input: &mut I) -> Given
    ensures { IsGiven I.gives I.fails input.old result input.new }
{
    let mut bytes = Vec::new(alloc);
    let mut is_lost = false;
    for _ in rt.forever() {
        match input.next_byte() {
            Ok(Some(byte)) => {
                if byte == b'\n' {
                    return whole(alloc, bytes, is_lost);
                }
                if !keep(&mut bytes, byte) {
                    is_lost = true;
                }
            }
            Ok(None) => return last(alloc, bytes, is_lost),
            Err(_) => return Given::Failed,
        }
    }
    unreachable!()
}
