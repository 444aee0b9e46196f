//! The check for quotes in descriptions that a PowerShell script does not escape.

ghost use Rattle.std.specs.Prelude.{◌≡◌};
ghost use Rattle.std.specs.List.{list_all};
ghost use Rattle.std.specs.Option.{option_copied};
ghost use Rattle.cc_command.specs.Escaped.{is_escaped_argument, is_escaped_forest};
ghost use Rattle.cc_command.specs.Escaped.{is_escaped_node, is_escaped_text, is_escaped_tree};
ghost use Rattle.cc_command.specs.Escaped.{quote_at, quote_of_third, unescaped_quote};
ghost use Rattle.cc_command.specs.Plain.{passes_if_some};
ghost use Rattle.cc_command.specs.Tree.{forest_of};

use crate::command::Command;
use cc_arg::Arg;

impl Command {
    /// Returns whether a PowerShell script escapes each quote in the descriptions of the commands
    /// and in the help texts of their arguments. This holds if none of these texts contains U+2018,
    /// U+201A or U+201B: PowerShell treats these characters as quotes, but the script does not
    /// escape them. Other texts of the tree do not count.
    ///
    /// Allocates nothing.
    #[cycle(escaped)]
    pub fn has_escaped_quotes(&self) -> bool
        ensures { result ≡ is_escaped_tree self.now }
    {
        self.has_escaped_descriptions() && is_escaped_forest(&self.children)
    }

    fn has_escaped_descriptions(&self) -> bool
        ensures { result ≡ is_escaped_node self.now.node }
    {
        is_escaped_if_some(self.get_about()) && are_escaped_arguments(self.get_arguments())
    }
}

#[cycle(escaped)]
fn is_escaped_forest(siblings: &[Command]) -> bool
    ensures { result ≡ is_escaped_forest (forest_of siblings.now) }
{
    for sibling in siblings {
        if !sibling.has_escaped_quotes() {
            return false;
        }
    }
    true
}

fn are_escaped_arguments(arguments: &[Arg]) -> bool
    ensures { result ≡ list_all is_escaped_argument arguments.now }
{
    for argument in arguments {
        if !is_escaped_argument(argument) {
            return false;
        }
    }
    true
}

fn is_escaped_argument(argument: &Arg) -> bool
    ensures { result ≡ is_escaped_argument argument.now }
{
    is_escaped_if_some(argument.get_help())
}

fn is_escaped_if_some(text: Option<&str>) -> bool
    ensures { result ≡ passes_if_some is_escaped_text (option_copied text.entry) }
{
    match text {
        Some(text) => unescaped_quote(text).is_none(),
        None => true,
    }
}

/// Returns the first character of a text that PowerShell treats as a quote and its script does not
/// escape: U+2018, U+201A or U+201B.
pub fn unescaped_quote(text: &str) -> Option<char>
    ensures { result ≡ unescaped_quote text.now }
{
    let mut left = text.as_bytes();
    while let [byte, rest @ ..] = left {
        if let Some(quote) = quote_at(*byte, rest) {
            return Some(quote);
        }
        left = rest;
    }
    None
}

// Returns the quote that begins with `byte` and continues in `rest`.
fn quote_at(byte: u8, rest: &[u8]) -> Option<char>
    ensures { result ≡ quote_at byte rest.now }
{
    match (byte, rest) {
        (226, [128, third, ..]) => quote_of_third(*third),
        _ => None,
    }
}

fn quote_of_third(byte: u8) -> Option<char>
    ensures { result ≡ quote_of_third byte }
{
    match byte {
        152 => Some('\u{2018}'),
        154 => Some('\u{201A}'),
        155 => Some('\u{201B}'),
        _ => None,
    }
}
