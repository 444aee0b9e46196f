//! Recognizes negative numbers.

ghost use Rattle.std.specs.Prelude.{◌≡◌, ◌==◌, None, nat_le};
ghost use Rattle.std.specs.List.{after_first, count_by, last_or, list_all, list_any};
ghost use Rattle.cc_engine.specs.Numbers.{begins_with_digit, is_e, is_number, is_of_numbers};
ghost use Rattle.cc_engine.specs.Numbers.{is_point, is_some_e};

/// Returns whether `text` is a number: digits, at most one `.` and at most one `e`. It begins with
/// a digit, has no `.` after the `e`, and does not end in `e`.
#[tactic(auto, unfolding(crate::specs::Numbers::is_number))]
pub(crate) fn is_number(text: &str) -> bool
    ensures { result ≡ is_number text.now }
{
    let bytes = text.as_bytes();
    begins_with_digit(bytes)
        && are_of_numbers(bytes)
        && has_at_most_one(bytes, b'.')
        && has_at_most_one(bytes, b'e')
        && !has_point(after_e(text).as_bytes())
        && !ends_in_e(bytes)
}

fn begins_with_digit(bytes: &[u8]) -> bool
    ensures { result ≡ begins_with_digit bytes.now }
{
    match bytes.first() {
        Some(byte) => byte.is_ascii_digit(),
        None => false,
    }
}

fn is_of_numbers(byte: u8) -> bool
    ensures { result ≡ is_of_numbers byte }
{
    byte.is_ascii_digit() || byte == b'.' || byte == b'e'
}

fn are_of_numbers(bytes: &[u8]) -> bool
    ensures { result ≡ list_all is_of_numbers bytes.now }
{
    for byte in bytes {
        if !is_of_numbers(*byte) {
            return false;
        }
    }
    true
}

fn has_at_most_one(bytes: &[u8], wanted: u8) -> bool
    ensures { result ≡ nat_le (count_by (λ byte. byte == wanted) bytes.now) 1 }
{
    let mut count: usize = 0;
    for byte in bytes {
        if *byte != wanted {
            continue;
        }
        count += 1;
    }
    count <= 1
}

fn has_point(bytes: &[u8]) -> bool
    ensures { result ≡ list_any is_point bytes.now }
{
    for byte in bytes {
        if *byte == b'.' {
            return true;
        }
    }
    false
}

// Returns the text after the first `e`, or an empty text if no `e` occurs.
fn after_e(text: &str) -> &str
    ensures { result.now ≡ after_first is_e text.now }
{
    match text.split_once('e') {
        Some((_, after)) => after,
        None => "",
    }
}

fn ends_in_e(bytes: &[u8]) -> bool
    ensures { result ≡ is_some_e (last_or None bytes.now) }
{
    match bytes.last() {
        Some(byte) => *byte == b'e',
        None => false,
    }
}
