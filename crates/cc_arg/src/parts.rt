//! The fields of an argument.

ghost use Rattle.std.specs.Prelude.{◌≡◌, Some, IfOk, OnOk};
ghost use Rattle.std.specs.String.{string_bytes};
ghost use Rattle.std.specs.Option.{option_copied};
ghost use Rattle.cc_arg.specs.Arguments.{new_arg};

use crate::action::ArgAction;
use crate::possible_value::{PossibleValue, copy_of_given};
use crate::range::ValueRange;
use crate::value_hint::ValueHint;
use crate::values_protocol::ValuesProtocol;
use cc_base::{ArgValueCandidates, ArgValueCompleter, Items, Text};
use std::alloc::{AllocError, Global};

/// The fields of an argument, from which a crate above can make one.
#[derive(Drop)]
pub struct ArgParts {
    /// The id, by which commands and conflicts refer to it.
    pub id: Text,
    /// The short: the `c` of `-c`.
    pub short: Option<char>,
    /// Hidden aliases of the short, which a parser accepts.
    pub short_aliases: Items<char>,
    /// Visible aliases of the short, shown only if there is a short.
    pub visible_short_aliases: Items<char>,
    /// The long: the `name` of `--name`.
    pub long: Option<Text>,
    /// Hidden aliases of the long, which a parser accepts.
    pub aliases: Items<Text>,
    /// Visible aliases of the long, shown only if there is a long.
    pub visible_aliases: Items<Text>,
    /// The help text.
    pub help: Option<Text>,
    /// The action.
    pub action: Option<ArgAction>,
    /// How many values each use takes.
    pub num_args: Option<ValueRange>,
    /// The names of the values.
    pub value_names: Items<Text>,
    /// The possible values, if they are limited to a list.
    pub possible_values: Option<Items<PossibleValue>>,
    /// The value hint.
    pub value_hint: ValueHint,
    /// The program that prints the values, and its arguments.
    pub values_from: Option<Items<Text>>,
    /// The path of the file that lists the values.
    pub values_file: Option<Text>,
    /// The text at which the value of a line ends and its description begins.
    pub values_split: Option<Text>,
    /// True if the words of the command line are passed to the program that prints the values.
    pub values_words: bool,
    /// The form of the lines that the program prints.
    pub values_protocol: ValuesProtocol,
    /// The word that ends the values.
    pub value_terminator: Option<Text>,
    /// The value that a parser uses if the argument is not given.
    pub default_value: Option<Text>,
    /// The help heading, which tags candidates.
    pub help_heading: Option<Text>,
    /// The character that separates several values in one word.
    pub value_delimiter: Option<char>,
    /// The number of the completer of the values.
    pub completer: Option<ArgValueCompleter>,
    /// The number of the list of candidates for the values.
    pub candidates: Option<ArgValueCandidates>,
    /// The index of a positional, counted from 1.
    pub index: Option<usize>,
    /// The display order, either set or filled in when the argument was added to a command.
    pub display_order: Option<usize>,
    /// The ids of arguments that cannot be given together with this one.
    pub conflicts: Items<Text>,
    /// True if the argument must be given.
    pub required: bool,
    /// True if the argument can be given only after `--`.
    pub last: bool,
    /// True if building the command also adds the argument to the commands below it.
    pub global: bool,
    /// True if the argument is hidden.
    pub hide: bool,
    /// True if words that begin with `-` are accepted as values.
    pub allow_hyphen_values: bool,
}

// One line for each field except the id: its kind. In a new argument, a field has the value
// `first!` of its kind, and `copied!` copies it.
macro_rules! each_field {
    ($all:ident! $($with:ident),*) => {
        $all! {
            [$($with),*]
            short given,
            short_aliases characters,
            visible_short_aliases characters,
            long text,
            aliases texts,
            visible_aliases texts,
            help text,
            action given,
            num_args given,
            value_names texts,
            possible_values values,
            value_hint hint,
            values_from words,
            values_file text,
            values_split text,
            values_words flag,
            values_protocol protocol,
            value_terminator text,
            default_value text,
            help_heading text,
            value_delimiter given,
            completer given,
            candidates given,
            index given,
            display_order given,
            conflicts texts,
            required flag,
            last flag,
            global flag,
            hide flag,
            allow_hyphen_values flag,
        }
    };
}

// Makes an argument from its id.
macro_rules! new_fields {
    ([$alloc:ident, $id:ident] $($field:ident $kind:ident,)*) => {
        ArgParts { id: $id, $($field: first!($kind $alloc)),* }
    };
}

// Sets each field to a copy of that of another argument.
macro_rules! copy_each {
    ([$alloc:ident, $copy:ident, $of:ident] $($field:ident $kind:ident,)*) => {
        $($copy.$field = copied!($kind $alloc $of $field);)*
    };
}

macro_rules! first {
    (characters $alloc:ident) => { Items::new($alloc) };
    (flag $alloc:ident) => { false };
    (hint $alloc:ident) => { ValueHint::Unknown };
    (protocol $alloc:ident) => { ValuesProtocol::Lines };
    (texts $alloc:ident) => { Items::new($alloc) };
    ($kind:ident $alloc:ident) => { None };
}

macro_rules! copied {
    (characters $alloc:ident $of:ident $field:ident) => {
        Items::copy_of($alloc, $of.$field.as_slice())?
    };
    (text $alloc:ident $of:ident $field:ident) => {
        Text::copy_of_some($alloc, text_of(&$of.$field))?
    };
    (texts $alloc:ident $of:ident $field:ident) => {
        Items::copy_of_texts($alloc, $of.$field.as_slice())?
    };
    (values $alloc:ident $of:ident $field:ident) => {
        copy_of_given($alloc, &$of.$field)?
    };
    (words $alloc:ident $of:ident $field:ident) => {
        copy_of_words($alloc, &$of.$field)?
    };
    ($kind:ident $alloc:ident $of:ident $field:ident) => { $of.$field };
}

impl ArgParts {
    /// Makes the fields of an argument with this id, in which nothing else is set. The lists
    /// allocate from `alloc`.
    pub fn new(alloc: Global, id: Text) -> ArgParts
        ensures { result ≡ new_arg id }
    {
        each_field!(new_fields! alloc, id)
    }

    // Returns an equal copy.
    pub(crate) fn try_clone(&self, alloc: Global) -> Result<ArgParts, AllocError>
        ensures { IfOk result (λ copy. copy ≡ self.now) }
    {
        let mut copy = ArgParts::new(alloc, self.id.try_clone(alloc)?);
        match copy_fields(alloc, &mut copy, self) {
            Ok(()) => Ok(copy),
            Err(error) => {
                // One call here, instead of a drop of each field.
                drop(copy);
                Err(error)
            }
        }
    }
}

// Copies all fields except the id.
fn copy_fields(alloc: Global, copy: &mut ArgParts, of: &ArgParts) -> Result<(), AllocError>
    ensures { OnOk result (copy.new ≡ record of.now { id = copy.old.id }) }
{
    each_field!(copy_each! alloc, copy, of);
    Ok(())
}

// Copies the words of a command, if there are any.
fn copy_of_words(
    alloc: Global,
    words: &Option<Items<Text>>,
) -> Result<Option<Items<Text>>, AllocError>
    ensures { IfOk result (λ copy. copy ≡ words.now) }
{
    match words {
        Some(words) => Ok(Some(Items::copy_of_texts(alloc, words.as_slice())?)),
        None => Ok(None),
    }
}

// Sets the text of a field.
pub(crate) fn set_text(field: &mut Option<Text>, text: String)
    ensures { field.new ≡ Some (string_bytes text) }
{
    *field = Some(Text::from(text));
}

// Returns the text of a field, if it is set.
pub(crate) fn text_of(field: &Option<Text>) -> Option<&str>
    ensures { option_copied result ≡ field.now }
{
    field.as_ref().map(Text::as_str)
}

// Returns the items of a field, if it is set.
pub(crate) fn items_of<T>(field: &Option<Items<T>>) -> Option<&[T]>
    ensures { option_copied result ≡ field.now }
{
    field.as_ref().map(Items::as_slice)
}
