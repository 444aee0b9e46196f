//! Texts that fit into a line of a reply. A control character could end the line, or be a command
//! to the terminal.

ghost use Rattle.std.specs.Prelude.{◌≡◌, ◌<◌, drop, length, slice_index, ◌+◌};
ghost use Rattle.std.specs.Option.{option_copied};
ghost use Rattle.std.specs.Char.{is_ascii};
ghost use Rattle.std.specs.List.{list_all};
ghost use Rattle.cc_replies.specs.SafeValues.{begins_control, is_found, is_in_locale};
ghost use Rattle.cc_replies.specs.SafeValues.{is_safe_text, safe_help};

use crate::reply::first_line;

/// Returns whether the text is not empty and has no control character: none below U+0020, no
/// U+007F, and none from U+0080 to U+009F.
pub(crate) fn is_safe_text(text: &str) -> bool
    ensures { result ≡ is_safe_text text.now }
{
    !text.is_empty() && !has_control(text.as_bytes())
}

/// Returns whether a shell takes the text as it is: whether it is ASCII, if the shell's locale is
/// safe for nothing else.
pub(crate) fn is_in_locale(ascii_only: bool, text: &str) -> bool
    ensures { result ≡ is_in_locale ascii_only text.now }
{
    !ascii_only || is_ascii(text.as_bytes())
}

fn is_ascii(bytes: &[u8]) -> bool
    ensures { result ≡ list_all is_ascii bytes.now }
{
    for byte in bytes {
        if !byte.is_ascii() {
            return false;
        }
    }
    true
}

/// Returns the first line of the help text, unless that line is empty or has a control character.
#[tactic(auto, unfolding(crate::specs::SafeValues::safe_help))]
pub(crate) fn safe_help(help: Option<&str>) -> Option<&str>
    ensures { option_copied result ≡ safe_help (option_copied help.entry) }
{
    let line = first_line(help?);
    if is_safe_text(line) { Some(line) } else { None }
}

fn has_control(text: &[u8]) -> bool
    ensures { result ≡ is_found begins_control text.now }
{
    for at in 0..text.len() {
        if begins_control_at(text, at) {
            return true;
        }
    }
    false
}

fn begins_control_at(text: &[u8], at: usize) -> bool
    requires { at < length text.now }
    ensures { result ≡ begins_control (slice_index text.now at) (drop (at + 1) text.now) }
{
    match &text[at..] {
        [0xC2, 0x80..=0x9F, ..] => true,
        [byte, ..] => byte.is_ascii_control(),
        [] => false,
    }
}
