//! The fields of a context.
ghost use Rattle.std.specs.Prelude.{◌≡◌, ◌+◌, ◌≤◌};
ghost use Rattle.machine.specs.Contexts.{with_field, four_bytes, eight_bytes};

use crate::contexts::Context;

/// Writes the low 32 bits of the number into the four bytes from `offset` on.
pub fn put_four(context: &mut Context, offset: usize, number: u64)
    requires { offset + 4 ≤ 64 }
    ensures { context.new ≡ with_field context.old (four_bytes offset number) }
{
    let bytes = number.to_le_bytes();
    context[offset..offset + 4].copy_from_slice(&bytes[..4]);
}

/// Writes the number into the eight bytes from `offset` on.
pub fn put_eight(context: &mut Context, offset: usize, number: u64)
    requires { offset + 8 ≤ 64 }
    ensures { context.new ≡ with_field context.old (eight_bytes offset number) }
{
    context[offset..offset + 8].copy_from_slice(&number.to_le_bytes());
}
