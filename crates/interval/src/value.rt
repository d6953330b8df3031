//! An interval of numbers, by unsigned and by signed bounds.
ghost use Rattle.interval.specs.Bounds.{bounds_of};
ghost use Rattle.interval.specs.Signs.{AreNarrowed};

use crate::span::Span;

/// The numbers below 2^64 that lie between two unsigned bounds and, read as signed numbers, between
/// two signed bounds.
///
/// A signed bound is stored biased, as the signed number plus 2^63, so that the order of biased
/// numbers is the signed order: 0 stands for the least signed number, 2^63 for 0.
#[derive(Clone, Copy)]
pub struct Interval {
    pub(crate) unsigned: Span,
    pub(crate) signed: Span,
    ghost narrowed: { AreNarrowed (bounds_of unsigned) (bounds_of signed) },
}
