//! Plain names, which need no quotes.

ghost use Rattle.std.specs.Prelude.{◌≡◌, ◌&&◌, ◌||◌, ◌==◌};
ghost use Rattle.std.specs.Char.{is_ascii_alphanumeric};
ghost use Rattle.cc_base.specs.Bytes.{dash, underscore};
ghost use Rattle.cc_base.specs.PlainName.{is_plain_name};

/// Returns whether `name` is plain: ASCII letters and digits, with single `-` or `_` between them.
#[tactic(auto, using(crate::proofs::PlainNames::plain_after_start))]
pub fn is_plain_name(name: &str) -> bool
    ensures { result ≡ is_plain_name name.now }
{
    let mut after_letter = false;
    for byte in name.as_bytes() {
        if !may_follow(*byte, after_letter) {
            return false;
        }
        after_letter = byte.is_ascii_alphanumeric();
    }
    after_letter
}

// A letter or a digit may come anywhere in a name. A `-` or a `_` must follow one of those.
fn may_follow(byte: u8, after_letter: bool) -> bool
    ensures { result ≡ (is_ascii_alphanumeric byte
        || (after_letter && (byte == dash || byte == underscore))) }
{
    byte.is_ascii_alphanumeric() || (after_letter && matches!(byte, b'-' | b'_'))
}
