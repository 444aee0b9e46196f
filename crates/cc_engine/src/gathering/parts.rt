//! Divides a word that contains several values.

ghost use Rattle.std.specs.Prelude.{◌≡◌, ◌<◌, length, take, drop};
ghost use Rattle.cc_engine.specs.Parts.{front, last_position, part, through};

/// Divides `word` after its last delimiter. Without a delimiter, the first part is empty.
#[tactic(auto, unfolding(crate::specs::Parts::front_length))]
pub(crate) fn split_at_delimiter(word: &str, delimiter: Option<char>) -> (&str, &str)
    ensures front { result.0.now ≡ front delimiter word.now }
    ensures part { result.1.now ≡ part delimiter word.now }
{
    let Some(delimiter) = delimiter else {
        return ("", word);
    };
    let mut buffer = [0; 4];
    split_after_last(word, delimiter.encode_utf8(&mut buffer))
}

// Divides a text after the last occurrence of another.
fn split_after_last<'a>(text: &'a str, sought: &str) -> (&'a str, &'a str)
    requires { 0 < length sought.now }
    ensures front { result.0.now
        ≡ take (through sought.now (last_position sought.now text.now)) text.now }
    ensures part { result.1.now
        ≡ drop (through sought.now (last_position sought.now text.now)) text.now }
{
    match text.rfind(sought) {
        Some(position) => text.split_at(position + sought.len()),
        None => ("", text),
    }
}
