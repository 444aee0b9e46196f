//! Finds the arguments of a node by a long, a short or a position.

ghost use Rattle.std.specs.Prelude.{◌≡◌, ◌<◌, find, ◌==◌};
ghost use Rattle.std.specs.Option.{option_copied};
ghost use Rattle.std.specs.List.{list_any};
ghost use Rattle.cc_command.specs.Names.{contains_name};
ghost use Rattle.cc_engine.specs.Lookup.{has_long, has_short, is_at, positional_at, capacity_at};
ghost use Rattle.cc_engine.specs.Lookup.{allows_hyphens_at, max_values};
ghost use Rattle.cc_engine.specs.WordClasses.{value_argument};

use cc_arg::{Arg, counted_range};
use cc_command::contains_name;

fn contains_char(characters: &[char], character: char) -> bool
    ensures { result ≡ list_any (λ c. c == character) characters.now }
{
    for one in characters {
        if *one == character {
            return true;
        }
    }
    false
}

/// Returns whether `flag` is the long of `argument` or a visible alias of it. An argument without a
/// long has none.
pub fn has_long(argument: &Arg, flag: &str) -> bool
    ensures { result ≡ has_long flag.now argument.now }
{
    match argument.get_long() {
        Some(long) => long == flag || contains_name(argument.get_visible_aliases(), flag),
        None => false,
    }
}

/// Returns whether `character` is the short of `argument` or a visible alias of it. An argument
/// without a short has none.
pub fn has_short(argument: &Arg, character: char) -> bool
    ensures { result ≡ has_short character argument.now }
{
    match argument.get_short() {
        Some(short) => {
            short == character || contains_char(argument.get_visible_short_aliases(), character)
        }
        None => false,
    }
}

fn is_at(argument: &Arg, position: usize) -> bool
    ensures { result ≡ is_at position argument.now }
{
    argument.is_positional() && argument.get_index() == Some(position)
}

/// Returns the first of the `arguments` whose long, or a visible alias of it, is `flag`.
pub fn with_long<'a>(arguments: &'a [Arg], flag: &str) -> Option<&'a Arg>
    ensures { option_copied result ≡ find (has_long flag.now) arguments.now }
{
    for argument in arguments {
        if has_long(argument, flag) {
            return Some(argument);
        }
    }
    None
}

fn with_short(arguments: &[Arg], character: char) -> Option<&Arg>
    ensures { option_copied result ≡ find (has_short character) arguments.now }
{
    for argument in arguments {
        if has_short(argument, character) {
            return Some(argument);
        }
    }
    None
}

/// Returns the first argument with this short or a visible alias of it, if that argument takes
/// values.
pub(crate) fn value_argument(arguments: &[Arg], character: char) -> Option<&Arg>
    ensures { option_copied result ≡ value_argument arguments.now character }
{
    match with_short(arguments, character) {
        Some(argument) if argument.takes_values() => Some(argument),
        _ => None,
    }
}

/// Returns the maximum number of values in one use of the argument.
pub(crate) fn max_values(argument: &Arg) -> usize
    ensures { result ≡ max_values argument.now }
{
    counted_range(argument).max_values()
}

/// Returns the first positional of `arguments` whose index is `position`.
#[tactic(auto, unfolding(crate::specs::Lookup::positional_at))]
pub fn positional_at(arguments: &[Arg], position: usize) -> Option<&Arg>
    ensures { option_copied result ≡ positional_at arguments.now position }
{
    for argument in arguments {
        if is_at(argument, position) {
            return Some(argument);
        }
    }
    None
}

/// Returns the greatest number of values of the positional at `position`, but at least 1. Returns 1
/// if there is no such positional.
#[tactic(auto, unfolding(crate::specs::Lookup::capacity_at))]
pub(crate) fn capacity_at(arguments: &[Arg], position: usize) -> usize
    ensures value { result ≡ capacity_at arguments.now position }
    ensures some { 0 < result }
{
    match positional_at(arguments, position) {
        Some(argument) => max_values(argument).max(1),
        None => 1,
    }
}

/// Returns whether the positional at the position accepts words that begin with a hyphen.
#[tactic(auto, unfolding(crate::specs::Lookup::allows_hyphens_at))]
pub(crate) fn allows_hyphens_at(arguments: &[Arg], position: usize) -> bool
    ensures { result ≡ allows_hyphens_at arguments.now position }
{
    match positional_at(arguments, position) {
        Some(argument) => argument.is_allow_hyphen_values_set(),
        None => false,
    }
}
