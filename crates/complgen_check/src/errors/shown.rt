//! Shows texts of a file on one line, and cuts long ones.

ghost use Rattle.std.specs.Prelude.{◌≡◌, ◌++◌, OnOk, encode_utf8_all, map, take};
ghost use Rattle.std.specs.Str.{chars};
ghost use Rattle.std.specs.String.{string_bytes};
ghost use Rattle.cc_base.specs.Shown.{visible};
ghost use Rattle.complgen_check.specs.Shown.{shown_text};

use cc_base::visible;
use std::alloc::AllocError;

// The greatest number of characters that are shown of a text.
const MOST_SHOWN: usize = 60;

/// Appends `text` to `shown`, with each control character as `?`. Cuts it after 60 characters, and
/// then appends `..`.
///
/// # Errors
///
/// `AllocError` if an allocation fails.
pub(crate) fn push_shown(shown: &mut String, text: &str) -> Result<(), AllocError>
    ensures { OnOk result (string_bytes shown.new
        ≡ string_bytes shown.old ++ shown_text text.now) }
{
    push_first(shown, text)?;
    if text.chars().count() <= MOST_SHOWN {
        return Ok(());
    }
    shown.push_str("..")?;
    Ok(())
}

// Appends the characters of a text that are shown.
fn push_first(shown: &mut String, text: &str) -> Result<(), AllocError>
    ensures { OnOk result (string_bytes shown.new
        ≡ string_bytes shown.old ++ encode_utf8_all (map visible (take 60 (chars text.now)))) }
{
    for character in text.chars().take(MOST_SHOWN) {
        shown.push(visible(character))?;
    }
    Ok(())
}
