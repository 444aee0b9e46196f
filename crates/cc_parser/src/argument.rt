//! Converts an argument for the parser.

ghost use Rattle.std.specs.Prelude.{◌≡◌, ◌+◌, ◌++◌, ◌∷◌, [], Some, None, IfOk, true, is_some, length, map};
ghost use Rattle.std.specs.Prelude.{option_map, unwrap_or};
ghost use Rattle.std.specs.Option.{option_copied};
ghost use Rattle.clap.specs.Walk.{is_empty, rule_of};
ghost use Rattle.cc_parser.specs.Arguments.{ArePossible, IsPossible, IsRuleOf, TakesPossible, default_or, given};
ghost use Rattle.cc_parser.specs.Arguments.{parser_action, parser_range, reads_simply};

use bumpalo::Bump;
use cc_arg::{Arg, ArgAction, PossibleValue, ValueRange, conflicting_ids, possible_values};
use cc_base::Text;
use clap::builder::ValueParser;
use std::alloc::{AllocError, Global};

/// Converts the argument for `clap`. It is global there if `global` is true. Its lists are kept in
/// `store`.
///
/// # Errors
///
/// `AllocError` if an allocation fails.
pub(crate) fn argument<'a>(
    alloc: Global,
    store: &'a Bump,
    argument: &'a Arg,
    global: bool,
) -> Result<clap::Arg<'a>, AllocError>
    ensures rule { IfOk result (λ arg. IsRuleOf
        (record argument.now { global = global }) (rule_of arg)) }
    ensures global { IfOk result (λ arg. arg.global ≡ global) }
{
    let names = stored_names(alloc, store, argument.get_value_names())?;
    let parser = parser_of_values(alloc, store, possible_values(argument))?;
    let arg = with_settings(clap::Arg::new(alloc, argument.get_id()), argument, global);
    let arg = with_use(arg, argument);
    let arg = with_default(arg, argument.get_default_value());
    let arg = with_texts(arg, argument);
    let arg = with_parser(arg.value_names(names), parser);
    let arg = with_shorts(arg, argument)?;
    let arg = with_longs(arg, argument)?;
    with_conflicts(arg, conflicting_ids(argument))
}

// Adds the settings that change how words are read.
fn with_settings<'a>(arg: clap::Arg<'a>, argument: &'a Arg, global: bool) -> clap::Arg<'a>
    requires { (rule_of arg).is_simple ≡ true }
    ensures rule { rule_of result ≡ record (rule_of arg.entry) {
      is_simple = reads_simply (record argument.now { global = global });
    } }
    ensures global { result.global ≡ global }
{
    let arg = arg
        .last(argument.is_last_set())
        .global(global)
        .allow_hyphen_values(argument.is_allow_hyphen_values_set());
    let arg = with_delimiter(arg, argument.get_value_delimiter());
    with_terminator(arg, argument.get_value_terminator())
}

fn with_delimiter<'a>(arg: clap::Arg<'a>, delimiter: Option<char>) -> clap::Arg<'a>
    ensures { result ≡ record arg.entry { val_delim = given delimiter arg.entry.val_delim } }
{
    match delimiter {
        Some(delimiter) => arg.value_delimiter(delimiter),
        None => arg,
    }
}

fn with_terminator<'a>(arg: clap::Arg<'a>, terminator: Option<&'a str>) -> clap::Arg<'a>
    ensures { result
        ≡ record arg.entry { terminator = given terminator.entry arg.entry.terminator } }
{
    match terminator {
        Some(terminator) => arg.value_terminator(terminator),
        None => arg,
    }
}

// Adds the action, the position and the number of values.
fn with_use<'a>(arg: clap::Arg<'a>, argument: &'a Arg) -> clap::Arg<'a>
    ensures rule { rule_of result ≡ record (rule_of arg.entry) {
      action = Some (parser_action (unwrap_or argument.now.action ArgAction.Set));
      required = argument.now.required;
      index = given argument.now.index (rule_of arg.entry).index;
      range = given (option_map parser_range argument.now.num_args) (rule_of arg.entry).range;
    } }
    ensures global { result.global ≡ arg.entry.global }
{
    let arg = arg
        .action(action(argument.get_action()))
        .required(argument.is_required_set());
    let arg = with_index(arg, argument.get_index());
    with_range(arg, argument.get_num_args())
}

fn action(action: ArgAction) -> clap::ArgAction
    ensures { result ≡ parser_action action }
{
    match action {
        ArgAction::Set => clap::ArgAction::Set,
        ArgAction::Append => clap::ArgAction::Append,
        ArgAction::SetTrue => clap::ArgAction::SetTrue,
        ArgAction::SetFalse => clap::ArgAction::SetFalse,
        ArgAction::Count => clap::ArgAction::Count,
        ArgAction::Help => clap::ArgAction::Help,
        ArgAction::HelpShort => clap::ArgAction::HelpShort,
        ArgAction::HelpLong => clap::ArgAction::HelpLong,
        ArgAction::Version => clap::ArgAction::Version,
    }
}

fn with_index<'a>(arg: clap::Arg<'a>, index: Option<usize>) -> clap::Arg<'a>
    ensures { result ≡ record arg.entry { index = given index arg.entry.index } }
{
    match index {
        Some(index) => arg.index(index),
        None => arg,
    }
}

fn with_range<'a>(arg: clap::Arg<'a>, range: Option<ValueRange>) -> clap::Arg<'a>
    ensures { result ≡ record arg.entry {
      num_vals = given (option_map parser_range range) arg.entry.num_vals;
    } }
{
    match range {
        Some(range) => arg.num_args(range.min_values()..=range.max_values()),
        None => arg,
    }
}

// Adds the default value, if there is one.
fn with_default<'a>(arg: clap::Arg<'a>, default: Option<&'a str>) -> clap::Arg<'a>
    ensures rule { rule_of result ≡ record (rule_of arg.entry) {
      defaults = default_or (option_copied default.entry) (rule_of arg.entry).defaults;
    } }
    ensures global { result.global ≡ arg.entry.global }
{
    match default {
        Some(default) => arg.default_value(default),
        None => arg,
    }
}

// Adds the help texts and display settings.
fn with_texts<'a>(arg: clap::Arg<'a>, argument: &'a Arg) -> clap::Arg<'a>
    ensures rule { rule_of result ≡ rule_of arg.entry }
    ensures global { result.global ≡ arg.entry.global }
{
    let arg = with_help(arg.hide(argument.is_hide_set()), argument.get_help());
    with_order(with_heading(arg, argument.get_help_heading()), argument)
}

fn with_help<'a>(arg: clap::Arg<'a>, help: Option<&'a str>) -> clap::Arg<'a>
    ensures rule { rule_of result ≡ rule_of arg.entry }
    ensures global { result.global ≡ arg.entry.global }
{
    match help {
        Some(help) => arg.help(help),
        None => arg,
    }
}

fn with_heading<'a>(arg: clap::Arg<'a>, heading: Option<&'a str>) -> clap::Arg<'a>
    ensures rule { rule_of result ≡ rule_of arg.entry }
    ensures global { result.global ≡ arg.entry.global }
{
    match heading {
        Some(heading) => arg.help_heading(heading),
        None => arg,
    }
}

// Sets the display order of an option or a flag. The index of a positional decides its place.
fn with_order<'a>(arg: clap::Arg<'a>, argument: &Arg) -> clap::Arg<'a>
    ensures rule { rule_of result ≡ rule_of arg.entry }
    ensures global { result.global ≡ arg.entry.global }
{
    if argument.is_positional() {
        return arg;
    }
    arg.display_order(argument.get_display_order())
}

// Adds the short and its aliases, the visible ones first.
fn with_shorts<'a>(arg: clap::Arg<'a>, argument: &'a Arg) -> Result<clap::Arg<'a>, AllocError>
    ensures rule { IfOk result (λ arg_with. rule_of arg_with ≡ record (rule_of arg.entry) {
      short = given argument.now.short (rule_of arg.entry).short;
      short_aliases = (rule_of arg.entry).short_aliases
          ++ (argument.now.visible_short_aliases ++ argument.now.short_aliases);
    }) }
    ensures global { IfOk result (λ arg_with. arg_with.global ≡ arg.entry.global) }
{
    let arg = with_short(arg, argument.get_short());
    let arg = with_short_aliases(arg, argument.get_visible_short_aliases(), true)?;
    with_short_aliases(arg, argument.get_short_aliases(), false)
}

fn with_short<'a>(arg: clap::Arg<'a>, short: Option<char>) -> clap::Arg<'a>
    ensures { result ≡ record arg.entry { short = given short arg.entry.short } }
{
    match short {
        Some(short) => arg.short(short),
        None => arg,
    }
}

fn with_short_aliases<'a>(
    arg: clap::Arg<'a>,
    aliases: &[char],
    shown: bool,
) -> Result<clap::Arg<'a>, AllocError>
    ensures rule { IfOk result (λ arg_with. rule_of arg_with ≡ record (rule_of arg.entry) {
      short_aliases = (rule_of arg.entry).short_aliases ++ aliases.now;
    }) }
    ensures global { IfOk result (λ arg_with. arg_with.global ≡ arg.entry.global) }
{
    let mut arg = arg;
    for alias in aliases {
        arg = with_short_alias(arg, *alias, shown)?;
    }
    Ok(arg)
}

fn with_short_alias<'a>(
    arg: clap::Arg<'a>,
    alias: char,
    shown: bool,
) -> Result<clap::Arg<'a>, AllocError>
    ensures rule { IfOk result (λ arg_with. rule_of arg_with ≡ record (rule_of arg.entry) {
      short_aliases = (rule_of arg.entry).short_aliases ++ alias ∷ [];
    }) }
    ensures global { IfOk result (λ arg_with. arg_with.global ≡ arg.entry.global) }
{
    if shown {
        arg.visible_short_alias(alias)
    } else {
        arg.short_alias(alias)
    }
}

// Adds the long and its aliases, the visible ones first.
fn with_longs<'a>(arg: clap::Arg<'a>, argument: &'a Arg) -> Result<clap::Arg<'a>, AllocError>
    ensures rule { IfOk result (λ arg_with. rule_of arg_with ≡ record (rule_of arg.entry) {
      long = given argument.now.long (rule_of arg.entry).long;
      aliases = (rule_of arg.entry).aliases
          ++ (argument.now.visible_aliases ++ argument.now.aliases);
    }) }
    ensures global { IfOk result (λ arg_with. arg_with.global ≡ arg.entry.global) }
{
    let arg = with_long(arg, argument.get_long());
    let arg = with_long_aliases(arg, argument.get_visible_aliases(), true)?;
    with_long_aliases(arg, argument.get_aliases(), false)
}

fn with_long<'a>(arg: clap::Arg<'a>, long: Option<&'a str>) -> clap::Arg<'a>
    ensures { result ≡ record arg.entry { long = given long.entry arg.entry.long } }
{
    match long {
        Some(long) => arg.long(long),
        None => arg,
    }
}

fn with_long_aliases<'a>(
    arg: clap::Arg<'a>,
    aliases: &'a [Text],
    shown: bool,
) -> Result<clap::Arg<'a>, AllocError>
    ensures rule { IfOk result (λ arg_with. rule_of arg_with ≡ record (rule_of arg.entry) {
      aliases = (rule_of arg.entry).aliases ++ aliases.now;
    }) }
    ensures global { IfOk result (λ arg_with. arg_with.global ≡ arg.entry.global) }
{
    let mut arg = arg;
    for alias in aliases {
        arg = with_long_alias(arg, alias.as_str(), shown)?;
    }
    Ok(arg)
}

fn with_long_alias<'a>(
    arg: clap::Arg<'a>,
    alias: &'a str,
    shown: bool,
) -> Result<clap::Arg<'a>, AllocError>
    ensures rule { IfOk result (λ arg_with. rule_of arg_with ≡ record (rule_of arg.entry) {
      aliases = (rule_of arg.entry).aliases ++ alias.entry.now ∷ [];
    }) }
    ensures global { IfOk result (λ arg_with. arg_with.global ≡ arg.entry.global) }
{
    if shown {
        arg.visible_alias(alias)
    } else {
        arg.alias(alias)
    }
}

fn with_conflicts<'a>(arg: clap::Arg<'a>, ids: &'a [Text]) -> Result<clap::Arg<'a>, AllocError>
    requires { (rule_of arg).is_free ≡ true }
    ensures rule { IfOk result (λ arg_with. rule_of arg_with
        ≡ record (rule_of arg.entry) { is_free = is_empty ids.now }) }
    ensures global { IfOk result (λ arg_with. arg_with.global ≡ arg.entry.global) }
{
    let mut arg = arg;
    for id in ids {
        arg = arg.conflicts_with(id.as_str())?;
    }
    Ok(arg)
}

// Returns the names as a list in `store`.
fn stored_names<'a>(
    alloc: Global,
    store: &'a Bump,
    names: &'a [Text],
) -> Result<&'a [&'a str], AllocError>
    ensures { IfOk result (λ stored. length stored.now ≡ length names.now) }
{
    let mut texts: Vec<&'a str> = Vec::new(alloc);
    for name in names {
        texts.push(name.as_str())?;
    }
    Ok(store.try_alloc_slice_copy(texts.as_slice())?)
}

// Returns the parser that accepts the possible values, if there are any. They are in `store`.
fn parser_of_values<'a>(
    alloc: Global,
    store: &'a Bump,
    possible: Option<&'a [PossibleValue]>,
) -> Result<Option<ValueParser<'a>>, AllocError>
    ensures { IfOk result (λ parser. TakesPossible (option_copied possible.entry) parser) }
{
    let Some(possible) = possible else {
        return Ok(None);
    };
    let values = values(alloc, possible)?;
    Ok(Some(ValueParser::Values(store.try_alloc_slice_copy(values.as_slice())?)))
}

fn with_parser<'a>(arg: clap::Arg<'a>, parser: Option<ValueParser<'a>>) -> clap::Arg<'a>
    requires { (rule_of arg).parser ≡ None }
    ensures rule { rule_of result ≡ record (rule_of arg.entry) { parser = parser.entry } }
    ensures global { result.global ≡ arg.entry.global }
{
    match parser {
        Some(parser) => arg.value_parser(parser),
        None => arg,
    }
}

fn values<'a>(
    alloc: Global,
    possible: &'a [PossibleValue],
) -> Result<Vec<clap::builder::PossibleValue<'a>>, AllocError>
    ensures { IfOk result (λ values. ArePossible possible.now values.items) }
{
    let mut values = Vec::new(alloc);
    for value in possible {
        values.push(possible_value(value))?;
    }
    Ok(values)
}

fn possible_value<'a>(value: &'a PossibleValue) -> clap::builder::PossibleValue<'a>
    ensures { IsPossible value.now result }
{
    let possible = clap::builder::PossibleValue::new(value.get_name()).hide(value.is_hide_set());
    match value.get_help() {
        Some(help) => possible.help(help),
        None => possible,
    }
}
