//! The names of labels.
ghost use Rattle.std.specs.Prelude.{◌≡◌};
ghost use Rattle.asm.specs.Names.{is_name, are_name_characters, is_name_character};

/// Whether the byte may stand in a label's name.
fn is_name_character(byte: u8) -> bool
    ensures { result ≡ is_name_character byte }
{
    byte.is_ascii_alphanumeric() || byte == b'_'
}

/// Whether each byte may stand in a label's name.
fn are_name_characters(bytes: &[u8]) -> bool
    ensures { result ≡ are_name_characters bytes.now }
{
    for byte in bytes {
        if !is_name_character(*byte) {
            return false;
        }
    }
    true
}

/// Whether the word can be a label's name: letters, digits and `_`, first a letter.
pub fn is_name(word: &str) -> bool
    ensures { result ≡ is_name word.now }
{
    match word.as_bytes() {
        [first, rest @ ..] => first.is_ascii_alphabetic() && are_name_characters(rest),
        [] => false,
    }
}
