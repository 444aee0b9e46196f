//! Checks whether a shell may run a value or a name, or a part of it.

/// Returns whether bash may run the possible value `value`, or a part of it, when a user presses
/// Tab. The bash script has possible values between `"`, and bash reads them twice:
///
/// - It expands what a `$` and a backtick begin.
/// - After a `"`, or a backslash at the end of the list, the text that follows leaves the list.
/// - The second reading takes `<(` and `>(` for a command, even if braces or line ends put these
///   together.
pub(crate) fn may_run_value(value: &str) -> bool {
    let bytes = value.as_bytes();
    holds_one_of(b"$`\"", bytes)
        || matches!(bytes.last(), Some(b'\\'))
        || (holds_one_of(b"<>", bytes) && holds_one_of(b"(", bytes))
}

/// Returns whether a shell may run `name`, or a part of it, if a script writes it without quotes:
/// it contains something other than ASCII letters, digits, `+-./:@_,=%?*`, spaces and characters
/// beyond ASCII.
pub(crate) fn may_run_name(name: &str) -> bool {
    !name.as_bytes().iter().all(is_word_byte)
}

fn is_word_byte(byte: &u8) -> bool {
    byte.is_ascii_alphanumeric() || b"+-./:@_,=%?* ".contains(byte) || *byte > 127
}

/// Returns whether `bytes` contains one of `signs`.
pub(crate) fn holds_one_of(signs: &[u8], bytes: &[u8]) -> bool {
    bytes.iter().any(|byte| signs.contains(byte))
}
