//! Plain paths, which need no quotes.

ghost use Rattle.std.specs.Prelude.{◌≡◌};
ghost use Rattle.std.specs.List.{list_all};
ghost use Rattle.cc_quote.specs.PlainPath.{is_path_byte, is_plain_path};

/// Returns whether `path` is plain: not empty, with only ASCII letters, digits and `/._-`. The
/// contracts of the registrations for Elvish and PowerShell promise that a completer with a plain
/// path reads back.
#[tactic(auto, unfolding(crate::specs::PlainPath::is_plain_path))]
pub fn is_plain_path(path: &str) -> bool
    ensures { result ≡ is_plain_path path.now }
{
    !path.is_empty() && are_path_bytes(path.as_bytes())
}

// Returns whether each byte may occur in a plain path.
fn are_path_bytes(bytes: &[u8]) -> bool
    ensures { result ≡ list_all is_path_byte bytes.now }
{
    for byte in bytes {
        if !is_path_byte(*byte) {
            return false;
        }
    }
    true
}

// Returns whether a byte may occur in a plain path.
#[tactic(auto, unfolding(crate::specs::PlainPath::is_path_byte))]
fn is_path_byte(byte: u8) -> bool
    ensures { result ≡ is_path_byte byte }
{
    byte.is_ascii_alphanumeric() || matches!(byte, b'/' | b'.' | b'_' | b'-')
}
