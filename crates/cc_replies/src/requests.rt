//! Recognizes the requests of shells.

ghost use Rattle.std.specs.Prelude.{◌≡◌, codes, map, string_bytes};
ghost use Rattle.std.specs.Option.{option_copied};
ghost use Rattle.cc_replies.specs.Environment.{value_of};
ghost use Rattle.cc_replies.specs.Requests.{begins_request, is_request, names_shell};
ghost use Rattle.cc_replies.specs.Requests.{wants_nothing};

use crate::environment::EnvValues;

/// Returns whether a shell requests registrations or candidates. In a request, the variable
/// `COMPLETE` of `env` is set, and is neither empty nor `0`. The first of `words` is the program's
/// name. In a request, no word follows it, or the next word is `--`.
pub fn is_request(env: &EnvValues, words: &[String]) -> bool
    ensures { result
        ≡ is_request (value_of (codes "COMPLETE") env.now) (map string_bytes words.now) }
{
    names_shell(env.get("COMPLETE")) && begins_request(words)
}

fn names_shell(value: Option<&str>) -> bool
    ensures { result ≡ names_shell (option_copied value.entry) }
{
    match value {
        Some(value) => !wants_nothing(value),
        None => false,
    }
}

/// Returns whether a value of `COMPLETE` requests nothing: whether it is empty or `0`.
pub fn wants_nothing(value: &str) -> bool
    ensures { result ≡ wants_nothing value.now }
{
    value == "" || value == "0"
}

fn begins_request(words: &[String]) -> bool
    ensures { result ≡ begins_request (map string_bytes words.now) }
{
    match words {
        [_program, word, ..] => word.as_str() == "--",
        _ => true,
    }
}
