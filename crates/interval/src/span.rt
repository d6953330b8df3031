//! The numbers between two bounds.
ghost use Rattle.std.specs.Prelude.{◌≤◌};

/// The numbers from low to high.
#[derive(Clone, Copy)]
pub struct Span {
    pub low: u64,
    pub high: u64,
    ghost ordered: { low ≤ high },
}
