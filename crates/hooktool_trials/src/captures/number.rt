//! Numbers of a capture.
ghost use Rattle.std.specs.Prelude.{◌≡◌, ◌+◌, ◌≤◌, length};
ghost use Rattle.hooktool_trials.specs.CaptureNumbers.{half, word};

/// Which byte of a number comes first: the least significant one, or the most.
#[derive(Clone, Copy)]
pub enum Order {
    Little,
    Big,
}

#[tactic(auto, unfolding(crate::specs::CaptureNumbers::half))]
pub(crate) fn half(order: Order, bytes: &[u8], at: usize) -> u16
    requires { at + 2 ≤ length bytes.now }
    ensures { result ≡ half order bytes.now at }
{
    match order {
        Order::Little => u16::from_le_bytes([bytes[at], bytes[at + 1]]),
        Order::Big => u16::from_le_bytes([bytes[at + 1], bytes[at]]),
    }
}

#[tactic(auto, unfolding(crate::specs::CaptureNumbers::word))]
pub(crate) fn word(order: Order, bytes: &[u8], at: usize) -> u32
    requires { at + 4 ≤ length bytes.now }
    ensures { result ≡ word order bytes.now at }
{
    let first = u32::from(half(order, bytes, at));
    let second = u32::from(half(order, bytes, at + 2));
    match order {
        Order::Little => first + 0x1_0000 * second,
        Order::Big => second + 0x1_0000 * first,
    }
}
