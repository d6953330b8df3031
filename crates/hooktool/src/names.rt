//! Names out of a file, as they are shown and as a file's own name.

ghost use Rattle.std.specs.Prelude.{◌≡◌, IfSome, true};
ghost use Rattle.hooktool.specs.Builds.{is_file_name};

/// The name, if each of its characters can be printed and none is a space.
pub(crate) fn shown(name: &[u8]) -> &str {
    for byte in name {
        if !byte.is_ascii_graphic() {
            return "(a name that can't be printed)";
        }
    }
    match str::from_utf8(name) {
        Ok("") => "(without a name)",
        Ok(name) => name,
        Err(_) => "(a name that can't be printed)",
    }
}

/// Whether it is made of letters, digits, `_` and `.`: no sign that leads into another folder.
fn is_file_name(name: &[u8]) -> bool
    ensures { result ≡ is_file_name name.now }
{
    name.iter().all(|byte| byte.is_ascii_alphanumeric() || *byte == b'_' || *byte == b'.')
}

/// The name, if it is made of letters, digits, `_` and `.`.
pub(crate) fn as_file_name(name: &[u8]) -> Option<&str>
    ensures text { IfSome result (λ text. text.now ≡ name.now) }
    ensures plain { IfSome result (λ text. is_file_name text.now ≡ true) }
{
    if !is_file_name(name) {
        return None;
    }
    match str::from_utf8(name) {
        Ok("") => None,
        Ok(name) => Some(name),
        Err(_) => None,
    }
}
