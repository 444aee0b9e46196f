//! The names and descriptions of a command or an argument, each with its key.

ghost use Rattle.std.specs.Prelude.{◌≡◌, ◌∷◌, [], ◌++◌, None, OnOk, Some};
ghost use Rattle.std.specs.Option.{option_copied};
ghost use Rattle.complgen_lints.specs.Parts.{label_parts, listed_shorts, listed_texts, long_parts};
ghost use Rattle.complgen_lints.specs.Parts.{name_parts, short_part, short_parts};
ghost use Rattle.complgen_lints.specs.Parts.{some_short, some_text, text_part, value_names};
ghost use Rattle.complgen_lints.specs.Parts.{values_of};

use crate::found::Added;
use crate::place::Key;
use cc_arg::{Arg, PossibleValue, possible_values};
use cc_base::{Text, TextRef};
use cc_command::Command;

/// A text or a short.
#[derive(Drop)]
pub(crate) enum Content<'a> {
    Text(TextRef<'a>),
    Short(char),
}

/// A name or a description, with its key.
#[derive(Drop)]
pub(crate) struct Part<'a> {
    pub(crate) key: Key,
    /// The index of an item in the key's list, counted from 0.
    pub(crate) item: Option<usize>,
    pub(crate) content: Content<'a>,
}

/// Adds the name of `command` and its aliases.
pub(crate) fn push_name_parts<'a>(parts: &mut Vec<Part<'a>>, command: &'a Command) -> Added
    ensures { OnOk result (parts.new.items ≡ parts.old.items ++ name_parts command.now.node) }
{
    push_text(parts, Key::Name, None, command.get_name())?;
    push_texts(parts, Key::VisibleAliases, command.get_visible_aliases())?;
    push_texts(parts, Key::Aliases, command.get_aliases())
}

/// Adds the long of `argument` and its aliases.
pub(crate) fn push_long_parts<'a>(parts: &mut Vec<Part<'a>>, argument: &'a Arg) -> Added
    ensures { OnOk result (parts.new.items ≡ parts.old.items ++ long_parts argument.now) }
{
    push_some_text(parts, Key::Long, None, argument.get_long())?;
    push_texts(parts, Key::VisibleAliases, argument.get_visible_aliases())?;
    push_texts(parts, Key::Aliases, argument.get_aliases())
}

/// Adds the short of `argument` and its aliases.
pub(crate) fn push_short_parts<'a>(parts: &mut Vec<Part<'a>>, argument: &'a Arg) -> Added
    ensures { OnOk result (parts.new.items ≡ parts.old.items ++ short_parts argument.now) }
{
    push_some_short(parts, Key::Short, argument.get_short())?;
    let visible = argument.get_visible_short_aliases();
    push_shorts(parts, Key::VisibleShortAliases, visible)?;
    push_shorts(parts, Key::ShortAliases, argument.get_short_aliases())
}

/// Adds the id of `argument` and its value names.
pub(crate) fn push_label_parts<'a>(parts: &mut Vec<Part<'a>>, argument: &'a Arg) -> Added
    ensures { OnOk result (parts.new.items ≡ parts.old.items ++ label_parts argument.now) }
{
    push_text(parts, Key::Id, None, argument.get_id())?;
    push_texts(parts, Key::ValueNames, argument.get_value_names())
}

/// Adds `text` at `key`, or at `item` of the key's list.
pub(crate) fn push_text<'a>(
    parts: &mut Vec<Part<'a>>,
    key: Key,
    item: Option<usize>,
    text: &'a str,
) -> Added
    ensures { OnOk result (parts.new.items ≡ parts.old.items ++ text_part key item text.now ∷ []) }
{
    let content = Content::Text(TextRef::new(text));
    parts.push(Part { key, item, content })?;
    Ok(())
}

/// Adds `text`, unless it is `None`, at `key`, or at `item` of the key's list.
pub(crate) fn push_some_text<'a>(
    parts: &mut Vec<Part<'a>>,
    key: Key,
    item: Option<usize>,
    text: Option<&'a str>,
) -> Added
    ensures { OnOk result (parts.new.items
        ≡ parts.old.items ++ some_text key item (option_copied text.entry)) }
{
    match text {
        Some(text) => push_text(parts, key, item, text),
        None => Ok(()),
    }
}

/// Adds `texts`, the list at `key`.
pub(crate) fn push_texts<'a>(parts: &mut Vec<Part<'a>>, key: Key, texts: &'a [Text]) -> Added
    ensures { OnOk result (parts.new.items ≡ parts.old.items ++ listed_texts key texts.now) }
{
    for (item, text) in texts.iter().enumerate() {
        push_text(parts, key, Some(item), text.as_str())?;
    }
    Ok(())
}

fn push_short(parts: &mut Vec<Part<'_>>, key: Key, item: Option<usize>, short: char) -> Added
    ensures { OnOk result (parts.new.items ≡ parts.old.items ++ short_part key item short ∷ []) }
{
    let content = Content::Short(short);
    parts.push(Part { key, item, content })?;
    Ok(())
}

fn push_some_short(parts: &mut Vec<Part<'_>>, key: Key, short: Option<char>) -> Added
    ensures { OnOk result (parts.new.items ≡ parts.old.items ++ some_short key short) }
{
    match short {
        Some(short) => push_short(parts, key, None, short),
        None => Ok(()),
    }
}

fn push_shorts(parts: &mut Vec<Part<'_>>, key: Key, shorts: &[char]) -> Added
    ensures { OnOk result (parts.new.items ≡ parts.old.items ++ listed_shorts key shorts.now) }
{
    for (item, short) in shorts.iter().enumerate() {
        push_short(parts, key, Some(item), *short)?;
    }
    Ok(())
}

/// Adds the names of the possible values `values`.
pub(crate) fn push_value_names<'a>(parts: &mut Vec<Part<'a>>, values: &'a [PossibleValue]) -> Added
    ensures { OnOk result (parts.new.items
        ≡ parts.old.items ++ value_names values.now) }
{
    for (item, value) in values.iter().enumerate() {
        push_text(parts, Key::PossibleValues, Some(item), value.get_name())?;
    }
    Ok(())
}

/// Adds the help texts of the possible values `values`.
pub(crate) fn push_value_helps<'a>(
    parts: &mut Vec<Part<'a>>,
    values: &'a [PossibleValue],
) -> Added {
    for (item, value) in values.iter().enumerate() {
        push_some_text(parts, Key::PossibleValues, Some(item), value.get_help())?;
    }
    Ok(())
}

/// Returns the possible values of `argument`, hidden ones too.
pub(crate) fn values_of(argument: &Arg) -> &[PossibleValue]
    ensures { result.now ≡ values_of argument.now }
{
    match possible_values(argument) {
        Some(values) => values,
        None => &[],
    }
}
