//! A text of CURRENT that isn't renamed to it yet.

ghost use Rattle.std.specs.Prelude.{◌≡◌, map, string_bytes};
ghost use Rattle.std.specs.List.{find};
ghost use Rattle.std.specs.Option.{option_map};
ghost use Rattle.install.specs.PendingCurrent.{are_digits, is_digit, is_pending_current};

/// What the name of such a text begins with. The number of the manifest that it names follows.
const PENDING: &[u8] = b"CURRENT.";

/// The first of these `names` of a folder's files that is `CURRENT.` and digits. None if there is
/// none.
///
/// goleveldb replaces CURRENT by writing `CURRENT.N` and renaming it. If it is interrupted between
/// the two, then the version that it opens is that of `CURRENT.N`, and not that of CURRENT. What
/// changes a folder by CURRENT can lose that version: its tables are no files of this one. So
/// whoever is to change a folder refuses it if there is such a file, until goleveldb has opened it.
pub fn pending_current<'a>(names: &'a [String]) -> Option<&'a str>
    ensures { option_map (λ name. name.now) result
        ≡ find is_pending_current (map string_bytes names.now) }
{
    for name in names {
        if is_pending(name.as_str()) {
            return Some(name.as_str());
        }
    }
    None
}

/// Whether a name is `CURRENT.` and digits.
fn is_pending(name: &str) -> bool
    ensures { result ≡ is_pending_current name.now }
{
    let bytes = name.as_bytes();
    bytes.starts_with(PENDING) && are_digits(&bytes[PENDING.len()..])
}

/// Whether bytes are one decimal digit or more.
fn are_digits(bytes: &[u8]) -> bool
    ensures { result ≡ are_digits bytes.now }
{
    for byte in bytes {
        if !is_digit(*byte) {
            return false;
        }
    }
    !bytes.is_empty()
}

/// Whether a byte is a decimal digit.
fn is_digit(byte: u8) -> bool
    ensures { result ≡ is_digit byte }
{
    b'0' <= byte && byte <= b'9'
}
