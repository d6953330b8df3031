//! The functions that programs may call.
use isa::Hook;

/// A function that programs may call (RFC 9669, section 4.3.1). It takes its arguments from r1 on
/// and returns its answer in r0.
#[derive(Clone, Copy, PartialEq, Eq)]
pub enum Helper {
    /// 1, at every hook: adds an amount below 2^24 to a counter below 256. Returns 0, or 1 if the
    /// seat has used up its additions, in which case nothing is added.
    CounterAdd,
    /// 2, at every hook: the value of a counter below 256.
    CounterRead,
    /// 3, at `count`: the byte of the packet at an offset, or 256 past its end.
    PacketByte,
    /// 4, at `tag`, `price` and `veto`: the cost of the first row with exactly this prefix and
    /// length, or 2^32 if there is none.
    TableCost,
}

impl Helper {
    ghost use Rattle.std.specs.Prelude.{◌≡◌};
    ghost use Rattle.machine.specs.Helpers.{helper_of};

    /// The helper with this number; `None` if the hook has none.
    pub fn at(hook: Hook, number: i32) -> Option<Helper>
        ensures { result ≡ helper_of hook number }
    {
        match (number, hook) {
            (1, _) => Some(Helper::CounterAdd),
            (2, _) => Some(Helper::CounterRead),
            (3, Hook::Count) => Some(Helper::PacketByte),
            (4, Hook::Tag | Hook::Price | Hook::Veto) => Some(Helper::TableCost),
            _ => None,
        }
    }
}
