//! Finds names and descriptions for which a premise of the promises about scripts does not hold.

ghost use Rattle.std.specs.Prelude.{◌≡◌, ◌++◌, IfOk, OnOk};
ghost use Rattle.complgen_lints.specs.TextLints.{argument_list, argument_parts, begins_with_hyphen};
ghost use Rattle.complgen_lints.specs.TextLints.{command_parts, content_premise, is_label, is_long};
ghost use Rattle.complgen_lints.specs.TextLints.{part_list, parts_list, plain_premise, text_list};
ghost use Rattle.complgen_lints.specs.TextLints.{text_premise};
ghost use Rattle.complgen_lints.specs.Lists.{each_from};

use crate::found::{Added, Found, Spot};
use crate::parts::{
    Content, Part, push_label_parts, push_long_parts, push_name_parts, push_short_parts,
    push_some_text, push_value_names, values_of,
};
use crate::place::Key;
use crate::warning::Premise;
use cc_arg::Arg;
use cc_base::{Text, is_plain_name};
use cc_command::{Command, has_no_quote, is_quiet_value, unescaped_quote};
use std::alloc::{AllocError, Global};

/// A test of names and descriptions.
#[derive(Clone, Copy)]
pub(crate) enum TextLint {
    /// Names that are not plain.
    Plain,
    /// Possible values that bash may split, change or run.
    Quiet,
    /// Quotes that a PowerShell script does not escape.
    Quotes,
}

/// Adds what `lint` finds in the names and descriptions of `command` and of its arguments.
pub(crate) fn push_text_findings(
    found: &mut Found<Premise>,
    lint: TextLint,
    command: &Command,
) -> Added
    ensures { OnOk result (found.new ≡ found.old ++ text_list lint command.now) }
{
    let mut parts = Vec::new(found.allocator());
    push_command_parts(&mut parts, lint, command)?;
    push_parts(found, lint, Spot::Command, &parts)?;
    push_arguments(found, &mut parts, lint, command.get_arguments())
}

fn push_arguments<'a>(
    found: &mut Found<Premise>,
    parts: &mut Vec<Part<'a>>,
    lint: TextLint,
    arguments: &'a [Arg],
) -> Added
    ensures { OnOk result (found.new
        ≡ found.old ++ each_from (argument_list lint) 0 arguments.now) }
{
    for (index, argument) in arguments.iter().enumerate() {
        push_argument(found, parts, lint, index, argument)?;
    }
    Ok(())
}

// Adds what `lint` finds in `argument`. Uses the room of `parts`.
fn push_argument<'a>(
    found: &mut Found<Premise>,
    parts: &mut Vec<Part<'a>>,
    lint: TextLint,
    index: usize,
    argument: &'a Arg,
) -> Added
    ensures { OnOk result (found.new ≡ found.old ++ argument_list lint index argument.now) }
{
    parts.clear();
    push_argument_parts(parts, lint, argument)?;
    push_parts(found, lint, Spot::Argument(index), parts)
}

// Adds the parts of `command` that `lint` examines.
fn push_command_parts<'a>(parts: &mut Vec<Part<'a>>, lint: TextLint, command: &'a Command) -> Added
    ensures { OnOk result (parts.new.items
        ≡ parts.old.items ++ command_parts lint command.now.node) }
{
    match lint {
        TextLint::Plain => push_name_parts(parts, command),
        TextLint::Quiet => Ok(()),
        TextLint::Quotes => push_some_text(parts, Key::About, None, command.get_about()),
    }
}

// Adds the parts of `argument` that `lint` examines.
fn push_argument_parts<'a>(parts: &mut Vec<Part<'a>>, lint: TextLint, argument: &'a Arg) -> Added
    ensures { OnOk result (parts.new.items ≡ parts.old.items ++ argument_parts lint argument.now) }
{
    match lint {
        TextLint::Plain => {
            push_label_parts(parts, argument)?;
            push_short_parts(parts, argument)?;
            push_long_parts(parts, argument)
        }
        TextLint::Quiet => push_value_names(parts, values_of(argument)),
        TextLint::Quotes => push_some_text(parts, Key::Help, None, argument.get_help()),
    }
}

fn push_parts(found: &mut Found<Premise>, lint: TextLint, spot: Spot, parts: &[Part<'_>]) -> Added
    ensures { OnOk result (found.new ≡ found.old ++ parts_list lint spot parts.now) }
{
    for part in parts {
        push_part(found, lint, spot, part)?;
    }
    Ok(())
}

fn push_part(found: &mut Found<Premise>, lint: TextLint, spot: Spot, part: &Part<'_>) -> Added
    ensures { OnOk result (found.new ≡ found.old ++ part_list lint spot part.now) }
{
    match content_premise(found.allocator(), lint, part.key, &part.content)? {
        Some(premise) => found.note(spot, part.key, part.item, premise),
        None => Ok(()),
    }
}

// Returns the premise that a text or a short at `key` breaks, if it breaks one.
fn content_premise(
    alloc: Global,
    lint: TextLint,
    key: Key,
    content: &Content<'_>,
) -> Result<Option<Premise>, AllocError>
    ensures { IfOk result (λ premise. premise ≡ content_premise lint key content.now) }
{
    match content {
        Content::Text(text) => text_premise(alloc, lint, key, text.as_str()),
        Content::Short(short) if short.is_ascii_alphanumeric() => Ok(None),
        Content::Short(short) => Ok(Some(Premise::ShortNotPlain(*short))),
    }
}

fn text_premise(
    alloc: Global,
    lint: TextLint,
    key: Key,
    text: &str,
) -> Result<Option<Premise>, AllocError>
    ensures { IfOk result (λ premise. premise ≡ text_premise lint key text.now) }
{
    match lint {
        TextLint::Plain => plain_premise(alloc, key, text),
        TextLint::Quiet if is_quiet_value(text) => Ok(None),
        TextLint::Quiet => Ok(Some(Premise::LoudValue(Text::copy_of(alloc, text)?))),
        TextLint::Quotes => Ok(unescaped_quote(text).map(Premise::UnescapedQuote)),
    }
}

fn plain_premise(alloc: Global, key: Key, text: &str) -> Result<Option<Premise>, AllocError>
    ensures { IfOk result (λ premise. premise ≡ plain_premise key text.now) }
{
    if is_label(key) {
        return Ok(if has_no_quote(text) {
            None
        } else {
            Some(Premise::Quote)
        });
    }
    if is_plain_name(text) {
        return Ok(None);
    }
    let copy = Text::copy_of(alloc, text)?;
    if is_long(key) && begins_with_hyphen(text) {
        return Ok(Some(Premise::LongWithHyphen(copy)));
    }
    Ok(Some(Premise::NotPlain(copy)))
}

fn is_label(key: Key) -> bool
    ensures { result ≡ is_label key }
{
    matches!(key, Key::Id | Key::ValueNames)
}

fn is_long(key: Key) -> bool
    ensures { result ≡ is_long key }
{
    matches!(key, Key::Long)
}

fn begins_with_hyphen(text: &str) -> bool
    ensures { result ≡ begins_with_hyphen text.now }
{
    matches!(text.as_bytes(), [b'-', ..])
}
