//! The description of an argument.

ghost use Rattle.std.specs.Prelude.{◌≡◌, Some, true};
ghost use Rattle.cc_program.specs.Described.{arg_of, described_values, flag_of, new_described};
ghost use Rattle.cc_program.specs.Described.{one_or_more, option_of, positional_of};

use cc_arg::{ArgAction, ValueHint, ValueRange};
use cc_base::ArgValueCompleter;

/// An argument as most programs have it, described by borrowed texts. It allocates nothing, and its
/// methods return a changed copy. `command`, `group` and `arg` make the argument.
#[derive(Clone, Copy)]
pub struct ArgDescription<'a> {
    pub(crate) id: &'a str,
    pub(crate) help: &'a str,
    pub(crate) long: Option<&'a str>,
    pub(crate) value_name: Option<&'a str>,
    pub(crate) values: Option<&'a [(&'a str, &'a str)]>,
    pub(crate) short: Option<char>,
    pub(crate) action: Option<ArgAction>,
    pub(crate) num_args: Option<ValueRange>,
    pub(crate) value_hint: ValueHint,
    pub(crate) completer: Option<ArgValueCompleter>,
    pub(crate) required: bool,
    pub(crate) global: bool,
}

/// Returns the flag `--name` with a help text. Its id is the name.
pub fn flag<'a>(name: &'a str, help: &'a str) -> ArgDescription<'a>
    ensures { arg_of result ≡ flag_of name.entry.now help.entry.now }
{
    let mut described = described(name, help);
    described.long = Some(name);
    described.action = Some(ArgAction::SetTrue);
    described
}

/// Returns the option `--name VALUE` with a help text. Its id is the name.
pub fn option<'a>(name: &'a str, value_name: &'a str, help: &'a str) -> ArgDescription<'a>
    ensures { arg_of result ≡ option_of name.entry.now value_name.entry.now help.entry.now }
{
    let mut described = positional(name, value_name, help);
    described.long = Some(name);
    described
}

/// Returns the positional `VALUE` with an id and a help text.
pub fn positional<'a>(id: &'a str, value_name: &'a str, help: &'a str) -> ArgDescription<'a>
    ensures { arg_of result ≡ positional_of id.entry.now value_name.entry.now help.entry.now }
{
    let mut described = described(id, help);
    described.value_name = Some(value_name);
    described
}

// Returns a description with an id and a help text alone.
fn described<'a>(id: &'a str, help: &'a str) -> ArgDescription<'a>
    ensures { result ≡ new_described id.entry help.entry }
{
    ArgDescription {
        id,
        help,
        long: None,
        value_name: None,
        values: None,
        short: None,
        action: None,
        num_args: None,
        value_hint: ValueHint::Unknown,
        completer: None,
        required: false,
        global: false,
    }
}

impl<'a> ArgDescription<'a> {
    /// Sets the short, such as the `c` of `-c`.
    pub fn short(mut self, short: char) -> ArgDescription<'a>
        ensures { arg_of result ≡ record (arg_of self.entry) { short = Some short } }
    {
        self.short = Some(short);
        self
    }

    /// Sets the possible values, each a name and its help text.
    pub fn values(mut self, with_helps: &'a [(&'a str, &'a str)]) -> ArgDescription<'a>
        ensures { arg_of result ≡ record (arg_of self.entry) {
          possible_values = Some (described_values with_helps.entry.now);
        } }
    {
        self.values = Some(with_helps);
        self
    }

    /// Sets the value hint.
    pub fn value_hint(mut self, hint: ValueHint) -> ArgDescription<'a>
        ensures { arg_of result ≡ record (arg_of self.entry) { value_hint = hint } }
    {
        self.value_hint = hint;
        self
    }

    /// Sets the completer of its values, by its number.
    pub fn completer(mut self, completer: ArgValueCompleter) -> ArgDescription<'a>
        ensures { arg_of result ≡ record (arg_of self.entry) { completer = Some completer } }
    {
        self.completer = Some(completer);
        self
    }

    /// Makes it take one value or more in each use.
    pub fn many(mut self) -> ArgDescription<'a>
        ensures { arg_of result ≡ record (arg_of self.entry) { num_args = Some one_or_more } }
    {
        self.num_args = Some(ValueRange::new(1, usize::MAX));
        self
    }

    /// Makes it required.
    pub fn required(mut self) -> ArgDescription<'a>
        ensures { arg_of result ≡ record (arg_of self.entry) { required = true } }
    {
        self.required = true;
        self
    }

    /// Makes it an argument of the command and of all commands below it.
    pub fn global(mut self) -> ArgDescription<'a>
        ensures { arg_of result ≡ record (arg_of self.entry) { global = true } }
    {
        self.global = true;
        self
    }
}
