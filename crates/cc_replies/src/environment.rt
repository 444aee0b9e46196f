//! Environment variables as the program receives them.

ghost use Rattle.std.specs.Prelude.{◌≡◌, Some};
ghost use Rattle.std.specs.Char.{is_ascii_digit};
ghost use Rattle.std.specs.List.{list_all};
ghost use Rattle.std.specs.Option.{option_copied};
ghost use Rattle.std.specs.Prelude.{option_map, find};
ghost use Rattle.std.specs.Str.{bytes_eq};
ghost use Rattle.std.specs.String.{string_bytes};
ghost use Rattle.cc_replies.specs.Environment.{asks_safely, ascii_only_of, index_name, kept_of};
ghost use Rattle.cc_replies.specs.Environment.{is_short_number, quote_of, separator_of};
ghost use Rattle.cc_replies.specs.Environment.{short_number, value_of, width_in, width_of};
ghost use Rattle.cc_replies.specs.Environment.{IsIndex, IsNumberOf};

use crate::cursor::OpenQuote;
use cc_base::Items;

/// The names and values of environment variables.
#[derive(Drop, Debug)]
pub struct EnvValues {
    variables: Items<(String, String)>,
}

impl EnvValues {
    /// Creates the values from `variables`, pairs of a name and a value.
    pub fn new(variables: Vec<(String, String)>) -> EnvValues
        ensures { result.variables ≡ variables.items }
    {
        EnvValues {
            variables: Items::from(variables),
        }
    }

    /// Returns the value of the first variable with this `name`.
    pub fn get(&self, name: &str) -> Option<&str>
        ensures { option_copied result ≡ value_of name.now self.now }
    {
        let (_, value) = self.find(name)?;
        Some(value.as_str())
    }

    fn find(&self, name: &str) -> Option<&(String, String)>
        ensures { option_map (λ v. v.now) result
            ≡ find (λ v. bytes_eq (string_bytes v.0) name.now) self.now.variables }
    {
        for variable in self.variables.as_slice() {
            if is_named(variable, name) {
                return Some(variable);
            }
        }
        None
    }

    /// Returns the index of the word to complete: the number in `_CLAP_COMPLETE_INDEX`, which
    /// consists of digits after at most one `+`. Returns 0 if there is no such number, or if it
    /// does not fit in a `usize`.
    pub fn index(&self) -> usize
        ensures { IsIndex (value_of index_name self.now) result }
    {
        let Some(text) = self.get("_CLAP_COMPLETE_INDEX") else {
            return 0;
        };
        number(text)
    }

    /// Returns the separator between the values of a reply: the value of `_CLAP_IFS`, or else a
    /// line feed.
    pub fn separator(&self) -> &str
        ensures { result.now ≡ separator_of self.now }
    {
        self.get("_CLAP_IFS").unwrap_or("\n")
    }

    /// Returns whether the request comes from a safe registration, which sets `_COMPLGEN_VALUES`.
    pub fn asks_safely(&self) -> bool
        ensures { result ≡ asks_safely self.now }
    {
        self.get("_COMPLGEN_VALUES").is_some()
    }

    /// Returns whether the locale of bash or zsh is safe for nothing but ASCII: whether
    /// `_COMPLGEN_ASCII` is set to a text that is not empty.
    pub fn ascii_only(&self) -> bool
        ensures { result ≡ ascii_only_of self.now }
    {
        match self.get("_COMPLGEN_ASCII") {
            Some(text) => !text.is_empty(),
            None => false,
        }
    }

    /// Returns the part of the word that bash keeps: the value of `_COMPLGEN_KEPT`, or else an
    /// empty text.
    pub fn kept(&self) -> &str
        ensures { result.now ≡ kept_of self.now }
    {
        self.get("_COMPLGEN_KEPT").unwrap_or("")
    }

    /// Returns the quote that is open in bash's line, by the value of `_COMPLGEN_QUOTE`. If the
    /// variable is not set, no quote is open. PowerShell sets it to `"` if it passes a `"` to
    /// programs as it is.
    pub fn open_quote(&self) -> OpenQuote
        ensures { result ≡ quote_of self.now }
    {
        OpenQuote::of(self.get("_COMPLGEN_QUOTE").unwrap_or(""))
    }

    /// Returns the width of the terminal in which bash lists candidates and inserts none: the
    /// number in `_COMPLGEN_WIDTH`, which has at most five digits. Returns 0 if there is no such
    /// number, as if bash may insert what the reply contains.
    pub fn list_width(&self) -> usize
        ensures { result ≡ width_of self.now }
    {
        match self.get("_COMPLGEN_WIDTH") {
            Some(text) => width(text),
            None => 0,
        }
    }
}

// Returns the number that one to five digits spell, or 0.
fn width(text: &str) -> usize
    ensures { result ≡ width_in (Some text.now) }
{
    short_number(text).unwrap_or(0)
}

/// Returns the number that the text spells if it has one to five digits and nothing else.
pub(crate) fn short_number(text: &str) -> Option<usize>
    ensures { result ≡ short_number text.now }
{
    if !is_short_number(text) {
        return None;
    }
    Some(number(text))
}

fn is_named(variable: &(String, String), name: &str) -> bool
    ensures { result ≡ bytes_eq (string_bytes variable.now.0) name.now }
{
    variable.0.as_str() == name
}

// Returns whether the text has one to five digits, and nothing else.
fn is_short_number(text: &str) -> bool
    ensures { result ≡ is_short_number text.now }
{
    matches!(text.len(), 1..=5) && are_digits(text.as_bytes())
}

fn are_digits(text: &[u8]) -> bool
    ensures { result ≡ list_all is_ascii_digit text.now }
{
    for byte in text {
        if !byte.is_ascii_digit() {
            return false;
        }
    }
    true
}

// Returns the number that the text spells, or 0 if it spells none.
fn number(text: &str) -> usize
    ensures { IsNumberOf text.now result }
{
    text.parse::<usize>().unwrap_or(0)
}
