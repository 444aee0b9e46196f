//! Checks whether a shell certainly reads a reply back as the candidates in it.

ghost use Rattle.std.specs.Prelude.{◌≡◌, option_map};
ghost use Rattle.std.specs.Option.{option_copied};
ghost use Rattle.std.specs.List.{list_all};
ghost use Rattle.cc_replies.specs.PowershellEntries.{are_readable_entries, is_help_piece, is_piece};
ghost use Rattle.cc_replies.specs.PowershellEntries.{is_readable_entry};
ghost use Rattle.cc_replies.specs.Reply.{are_readable_lines, are_readable_values};
ghost use Rattle.cc_replies.specs.Reply.{are_readable_zsh_items, first_line, is_help_without};
ghost use Rattle.cc_replies.specs.Reply.{is_readable_line, is_readable_value, is_readable_zsh_item};
ghost use Rattle.cc_replies.specs.Reply.{is_without, shown};

use crate::reply::first_line;
use cc_candidates::CompletionCandidate;

/// Returns whether each value has a byte, and none contains the `separator`. bash and Elvish then
/// read a reply with this separator back as the values.
pub fn are_readable_values(candidates: &[CompletionCandidate], separator: u8) -> bool
    ensures { result ≡ are_readable_values separator candidates.now }
{
    for candidate in candidates {
        if !is_readable_value(candidate.get_value(), separator) {
            return false;
        }
    }
    true
}

/// Returns whether zsh reads a reply with this `separator` back as the values and the first lines
/// of the help texts: the separator is neither a colon nor a backslash, each value has a byte, and
/// no value and no such line contains the separator.
pub fn are_readable_zsh_items(candidates: &[CompletionCandidate], separator: u8) -> bool
    ensures { result ≡ are_readable_zsh_items separator candidates.now }
{
    separator != b':' && separator != b'\\' && is_each_readable(candidates, separator)
}

/// Returns whether no value contains a line feed or a tab. fish then reads a reply back as the
/// values and the first lines of the help texts.
pub fn are_readable_lines(candidates: &[CompletionCandidate]) -> bool
    ensures { result ≡ are_readable_lines candidates.now }
{
    for candidate in candidates {
        if !is_readable_line(candidate.get_value()) {
            return false;
        }
    }
    true
}

/// Returns whether PowerShell reads a reply back as the values and the first lines of the help
/// texts, or the value where there is no help text: each value and each such line has a byte, and
/// contains no line feed, carriage return or tab.
pub fn are_readable_entries(candidates: &[CompletionCandidate]) -> bool
    ensures { result ≡ are_readable_entries candidates.now }
{
    for candidate in candidates {
        if !is_readable_entry(candidate) {
            return false;
        }
    }
    true
}

fn is_readable_value(value: &str, separator: u8) -> bool
    ensures { result ≡ is_readable_value separator value.now }
{
    !value.is_empty() && is_without(value, separator)
}

fn is_each_readable(candidates: &[CompletionCandidate], separator: u8) -> bool
    ensures { result
        ≡ list_all (λ candidate. is_readable_zsh_item separator (shown candidate)) candidates.now }
{
    for candidate in candidates {
        if !is_readable_zsh_item(candidate, separator) {
            return false;
        }
    }
    true
}

fn is_readable_zsh_item(candidate: &CompletionCandidate, separator: u8) -> bool
    ensures { result ≡ is_readable_zsh_item separator (shown candidate.now) }
{
    is_readable_value(candidate.get_value(), separator)
        && is_help_without(candidate.get_help(), separator)
}

fn is_readable_line(value: &str) -> bool
    ensures { result ≡ is_readable_line value.now }
{
    is_without(value, b'\n') && is_without(value, b'\t')
}

fn is_readable_entry(candidate: &CompletionCandidate) -> bool
    ensures { result ≡ is_readable_entry (shown candidate.now) }
{
    is_piece(candidate.get_value()) && is_help_piece(candidate.get_help())
}

fn is_help_piece(help: Option<&str>) -> bool
    ensures { result ≡ is_help_piece (option_map first_line (option_copied help.entry)) }
{
    match help {
        Some(help) => is_piece(first_line(help)),
        None => true,
    }
}

// Returns whether the text has a byte, and ends neither a line nor a piece of one.
fn is_piece(text: &str) -> bool
    ensures { result ≡ is_piece text.now }
{
    !text.is_empty()
        && is_without(text, b'\n')
        && is_without(text, b'\r')
        && is_without(text, b'\t')
}

// Returns whether the first line of the help text, if there is one, does not contain the byte.
fn is_help_without(help: Option<&str>, special: u8) -> bool
    ensures { result
        ≡ is_help_without special (option_map first_line (option_copied help.entry)) }
{
    match help {
        Some(help) => is_without(first_line(help), special),
        None => true,
    }
}

pub(crate) fn is_without(text: &str, special: u8) -> bool
    ensures { result ≡ is_without special text.now }
{
    for byte in text.as_bytes() {
        if *byte == special {
            return false;
        }
    }
    true
}
