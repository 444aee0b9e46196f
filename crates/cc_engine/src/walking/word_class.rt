//! Classifies a word by the arguments of a node, whatever precedes the word.

ghost use Rattle.std.specs.Prelude.{◌≡◌, chars, IfSome};
ghost use Rattle.cc_engine.specs.Blocks.{follows};
ghost use Rattle.cc_engine.specs.WordClasses.{cluster_class, class_of, class_of_form, value_character};
ghost use Rattle.cc_engine.specs.Words.{EndsWith, Long};

use crate::walking::lookup::{value_argument, with_long};
use cc_arg::Arg;
use cc_base::TextRef;
use std::marker::Model;

/// A borrowed argument, as the type of a field. Clauses see only the argument, so an enum that
/// contains it is the same type in code and in definitions.
#[derive(Drop)]
pub struct ArgRef<'a> {
    argument: &'a Arg,
}

impl<'a> Model for ArgRef<'a> {
    ghost use Rattle.cc_arg.specs.declared.parts.ArgParts.{ArgParts};

    ghost Value = { ArgParts };

    ghost view = { λ borrowed. borrowed.argument.now };
}

impl<'a> ArgRef<'a> {
    /// Wraps the borrowed `argument`.
    pub fn new(argument: &'a Arg) -> ArgRef<'a>
        ensures { result ≡ argument.now }
    {
        ArgRef { argument }
    }

    /// Returns the borrowed argument.
    pub fn get(&self) -> &'a Arg
        ensures { result.now ≡ self.now }
    {
        self.argument
    }
}

/// The class of a word, by the arguments of a node, whatever precedes the word.
#[derive(Drop)]
pub enum WordClass<'a> {
    /// The word `--`.
    Escape,
    /// A long word without `=`, or a short word that ends in the short of this option.
    Opens(ArgRef<'a>),
    /// A long word with an unknown flag, or a short word without an option.
    Unknown,
    /// Any other long or short word: a flag, or an option with its value.
    Closed,
    /// Any other word.
    Plain,
}

impl<'a> WordClass<'a> {
    /// Returns whether an open option takes the word.
    pub(crate) fn follows(&self, option: &Arg) -> bool
        ensures { result ≡ follows option.now self.now }
    {
        match self {
            WordClass::Escape => false,
            WordClass::Plain => true,
            WordClass::Opens(_) | WordClass::Unknown | WordClass::Closed =>
                option.is_allow_hyphen_values_set(),
        }
    }
}

/// A character of a short word whose argument takes values.
#[derive(Drop)]
pub struct ValueCharacter<'a, 'w> {
    /// The argument that has the character as a short.
    pub argument: ArgRef<'a>,
    /// The rest of the word after the character. It may begin with `=`.
    pub after: TextRef<'w>,
}

/// Finds the first of `characters`, a short word without its hyphen, whose argument takes values.
///
/// The first argument that has the character as a short decides. If it takes no values, the search
/// continues with the next character.
pub fn value_character<'a, 'w>(
    arguments: &'a [Arg],
    characters: &'w str,
) -> Option<ValueCharacter<'a, 'w>>
    ensures value { result ≡ value_character arguments.now (chars characters.now) }
    ensures after { IfSome result (λ found. EndsWith characters.now found.after) }
{
    let mut rest = characters.chars();
    while let Some(character) = rest.next() {
        if let Some(argument) = value_argument(arguments, character) {
            return Some(ValueCharacter {
                argument: ArgRef::new(argument),
                after: TextRef::new(rest.as_str()),
            });
        }
    }
    None
}

#[tactic(auto, using(crate::proofs::Cluster::opens_last, crate::proofs::Cluster::closed_before))]
fn cluster_class<'a>(arguments: &'a [Arg], characters: &str) -> WordClass<'a>
    ensures { result ≡ cluster_class (value_character arguments.now (chars characters.now)) }
{
    match value_character(arguments, characters) {
        None => WordClass::Unknown,
        Some(found) => {
            if found.after.as_str().is_empty() {
                WordClass::Opens(found.argument)
            } else {
                WordClass::Closed
            }
        }
    }
}

fn flag_class<'a>(arguments: &'a [Arg], flag: &str, with_equals: bool) -> WordClass<'a>
    ensures { result ≡ class_of_form arguments.now (Long flag.now with_equals) }
{
    match with_long(arguments, flag) {
        None => WordClass::Unknown,
        Some(argument) => {
            if argument.takes_values() && !with_equals {
                WordClass::Opens(ArgRef::new(argument))
            } else {
                WordClass::Closed
            }
        }
    }
}

/// Returns the class of the word at a node with these arguments.
pub(crate) fn class_of<'a>(arguments: &'a [Arg], word: &str) -> WordClass<'a>
    ensures { result ≡ class_of arguments.now word.now }
{
    let Some(after) = word.strip_prefix('-') else {
        return WordClass::Plain;
    };
    if after.is_empty() {
        return WordClass::Plain;
    }
    let Some(long) = after.strip_prefix('-') else {
        return cluster_class(arguments, after);
    };
    if long.is_empty() {
        return WordClass::Escape;
    }
    match long.split_once('=') {
        None => flag_class(arguments, long, false),
        Some((flag, _)) => flag_class(arguments, flag, true),
    }
}
