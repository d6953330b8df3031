//! The arithmetic instructions that read one number.
use isa::{ByteOrder, Extension, SwapWidth, Width};

/// An arithmetic instruction on one number.
#[derive(Clone, Copy)]
pub enum UnaryOperation {
    /// NEG: the number whose sum with this one is 0, modulo the width's power of two.
    Negate(Width),
    /// MOVSX: the low bits, sign-extended.
    Extend(Extension),
    /// END: the low bits, with their bytes in this order.
    Reorder(ByteOrder, SwapWidth),
}
