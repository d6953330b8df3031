//! Numbers and strings, the least significant byte first.
ghost use Rattle.std.specs.Prelude.{◌≡◌, ◌+◌, ◌≤◌, ◌==◌, length};
ghost use Rattle.std.specs.List.{before_first};
ghost use Rattle.elf.specs.Numbers.{half, word, xword, string_at};

#[tactic(auto, unfolding(crate::specs::Numbers::half))]
pub(crate) fn half(bytes: &[u8], at: usize) -> u16
    requires { at + 2 ≤ length bytes.now }
    ensures { result ≡ half bytes.now at }
{
    u16::from_le_bytes([bytes[at], bytes[at + 1]])
}

#[tactic(auto, unfolding(crate::specs::Numbers::word))]
pub(crate) fn word(bytes: &[u8], at: usize) -> u32
    requires { at + 4 ≤ length bytes.now }
    ensures { result ≡ word bytes.now at }
{
    u32::from(half(bytes, at)) + 0x1_0000 * u32::from(half(bytes, at + 2))
}

#[tactic(auto, unfolding(crate::specs::Numbers::xword))]
pub(crate) fn xword(bytes: &[u8], at: usize) -> u64
    requires { at + 8 ≤ length bytes.now }
    ensures { result ≡ xword bytes.now at }
{
    u64::from(word(bytes, at)) + 0x1_0000_0000 * u64::from(word(bytes, at + 4))
}

/// The bytes in front of the first null byte; all of them if there is none.
fn first_string(bytes: &[u8]) -> &[u8]
    ensures { result.now ≡ before_first (λ byte. byte == 0) bytes.now }
{
    for (i, byte) in bytes.iter().enumerate() {
        if *byte == 0 {
            return &bytes[..i];
        }
    }
    bytes
}

/// The string at a place of a string table.
#[tactic(auto, unfolding(crate::specs::Numbers::string_at))]
pub(crate) fn string_at(table: &[u8], at: usize) -> &[u8]
    requires { at ≤ length table.now }
    ensures { result.now ≡ string_at table.now at }
{
    first_string(&table[at..])
}
