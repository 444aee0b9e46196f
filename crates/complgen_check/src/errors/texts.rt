//! The messages of findings.

ghost use Rattle.std.specs.Prelude.{◌≡◌, ◌<◌, IfOk, IfSome, length, map};
ghost use Rattle.std.specs.String.{string_bytes};
ghost use Rattle.complgen_check.specs.Findings.{double_text, last_key};
ghost use Rattle.complgen_check.specs.Places.{shown_step};

use crate::errors::nearest::{nearest, same_letters};
use crate::errors::places::inside;
use crate::errors::shown::push_shown;
use crate::errors::source_texts::source_text;
use complgen_tree_file::{Fault, FaultKind, ObjectKind, Step, Value, ValueKind};
use std::alloc::{AllocError, Global};

/// Returns the message about `fault`, whose path leads from `whole`.
///
/// # Errors
///
/// `AllocError` if an allocation fails.
pub(crate) fn fault_text(
    alloc: Global,
    fault: &Fault<'_>,
    whole: &Value<'_>,
) -> Result<String, AllocError> {
    let path = fault.path.as_slice();
    let (key, value) = (last_key(path), value_at(whole, path));
    match fault.kind {
        FaultKind::OtherKind(kind) => other_kind(alloc, kind, key, value),
        FaultKind::NoList(kind) => no_list(alloc, kind, value),
        FaultKind::UnknownKey(kind) => unknown_key(alloc, kind, key),
        FaultKind::MissingKey(kind, key) => {
            let name = kind.name();
            format!(in alloc; "missing key `{key}`, which {name} needs")
        }
        FaultKind::BadSource(reason) => {
            let found = found_text(alloc, value)?;
            source_text(alloc, reason, key, found.as_str())
        }
    }
}

/// Returns the message that a later member hides the member at `path`.
///
/// # Errors
///
/// `AllocError` if an allocation fails.
pub(crate) fn double_text(alloc: Global, path: &[Step<'_>]) -> Result<String, AllocError>
    ensures { IfOk result (λ text. string_bytes text ≡ double_text (map shown_step path.now)) }
{
    let mut text = String::from_str(alloc, "duplicate key `")?;
    push_shown(&mut text, last_key(path))?;
    text.push_str("`; the last one is used")?;
    Ok(text)
}

// Returns the key of the last step; nothing if that step leads to an item.
fn last_key<'t>(path: &[Step<'t>]) -> &'t str
    ensures { result.now ≡ last_key (map shown_step path.now) }
{
    match path.last() {
        Some(Step::Key(key)) | Some(Step::Member(key, _)) => *key,
        _ => "",
    }
}

// Returns the value that a path leads to, or `None` if there is no such value.
fn value_at<'v, 't>(whole: &'v Value<'t>, path: &[Step<'_>]) -> Option<&'v Value<'t>> {
    let Some((step, rest)) = path.split_first() else {
        return Some(whole);
    };
    let (_, inner) = inside(whole, *step)?;
    value_at(inner, rest)
}

// Returns a value in words.
fn found_text(alloc: Global, value: Option<&Value<'_>>) -> Result<String, AllocError> {
    let mut found = String::new(alloc);
    push_found(&mut found, value)?;
    Ok(found)
}

fn push_found(found: &mut String, value: Option<&Value<'_>>) -> Result<(), AllocError> {
    match value {
        Some(Value::String(text)) => push_quoted(found, *text),
        Some(Value::Number(text)) => push_shown(found, *text),
        Some(Value::Bool(true)) => found.push_str("true"),
        Some(Value::Bool(false)) => found.push_str("false"),
        Some(Value::Array(_)) => found.push_str("a list"),
        Some(Value::Object(_)) => found.push_str("an object"),
        Some(Value::Null) | None => found.push_str("null"),
    }
}

fn push_quoted(found: &mut String, text: &str) -> Result<(), AllocError> {
    found.push_str("\"")?;
    push_shown(found, text)?;
    found.push_str("\"")
}

// Returns the message about a value at `key` that is not of `kind`.
fn other_kind(
    alloc: Global,
    kind: ValueKind,
    key: &str,
    value: Option<&Value<'_>>,
) -> Result<String, AllocError> {
    let found = found_text(alloc, value)?;
    let found = found.as_str();
    match (kind, value) {
        (ValueKind::ValueRange, Some(Value::Number(_))) => format!(in alloc;
            "expected a list of the least and the greatest number of values, found {found}; \
            write [{found}, {found}]"
        ),
        (ValueKind::Object(ObjectKind::PossibleValue), Some(Value::String(_))) => {
            format!(in alloc;
                "expected an object for a possible value, found {found}; write \
                {{\"name\": {found}}}"
            )
        }
        (
            ValueKind::Action | ValueKind::ValueHint | ValueKind::ValuesProtocol,
            Some(Value::String(name)),
        ) => no_such_name(alloc, kind.names(), key, *name, found),
        (ValueKind::Action | ValueKind::ValueHint | ValueKind::ValuesProtocol, _) => {
            no_name(alloc, kind.names(), found)
        }
        _ => {
            let expected = expected(kind);
            format!(in alloc; "expected {expected}, found {found}")
        }
    }
}

// Returns what is expected if a value should be of `kind`.
fn expected(kind: ValueKind) -> &'static str {
    match kind {
        ValueKind::Text => "a string",
        ValueKind::Boolean => "true or false",
        ValueKind::WholeNumber => "a whole number from 0 to 2^64 - 1",
        ValueKind::Character => "a string of one character",
        ValueKind::ValueRange => {
            "[least, greatest] with 0 <= least <= 255 and least <= greatest, or [least, null]"
        }
        ValueKind::Action => "the name of an action",
        ValueKind::ValueHint => "the name of a value hint",
        ValueKind::ValuesProtocol => "the name of a protocol",
        ValueKind::Object(ObjectKind::Command) => "an object for a command",
        ValueKind::Object(ObjectKind::Argument) => "an object for an argument",
        ValueKind::Object(ObjectKind::PossibleValue) => "an object for a possible value",
    }
}

// Returns the message about a value that is not a list of values of `kind`.
fn no_list(
    alloc: Global,
    kind: ValueKind,
    value: Option<&Value<'_>>,
) -> Result<String, AllocError> {
    let (expected, found) = (expected_list(kind), found_text(alloc, value)?);
    let found = found.as_str();
    match (kind, value) {
        (ValueKind::Text, Some(Value::String(_))) => {
            format!(in alloc; "expected {expected}, found {found}; write [{found}]")
        }
        _ => format!(in alloc; "expected {expected}, found {found}"),
    }
}

fn expected_list(kind: ValueKind) -> &'static str {
    match kind {
        ValueKind::Text => "a list of strings",
        ValueKind::Character => "a list of strings of one character each",
        ValueKind::Object(ObjectKind::Command) => "a list of commands",
        ValueKind::Object(ObjectKind::Argument) => "a list of arguments",
        ValueKind::Object(ObjectKind::PossibleValue) => "a list of possible values",
        _ => "a list",
    }
}

// Returns the message about a text at `key` that should be one of `names`.
fn no_such_name(
    alloc: Global,
    names: &[&str],
    key: &str,
    name: &str,
    found: &str,
) -> Result<String, AllocError> {
    match meant(alloc, name, names)? {
        Some(index) => {
            let meant = names[index];
            format!(in alloc; "no such {key}: {found}; did you mean \"{meant}\"?")
        }
        None => no_name(alloc, names, found),
    }
}

// Returns the message that lists the expected names.
fn no_name(alloc: Global, names: &[&str], found: &str) -> Result<String, AllocError> {
    let names = listed(alloc, names)?;
    let names = names.as_str();
    format!(in alloc; "expected one of {names}; found {found}")
}

// Returns the names with commas between them.
fn listed(alloc: Global, names: &[&str]) -> Result<String, AllocError> {
    let mut list = String::new(alloc);
    for (index, name) in names.iter().enumerate() {
        if index > 0 {
            list.push_str(", ")?;
        }
        list.push_str(*name)?;
    }
    Ok(list)
}

// Returns the index of the name that is probably meant by `name`: what another tool calls so, the
// one with the same letters, or a similar one.
fn meant(alloc: Global, name: &str, names: &[&str]) -> Result<Option<usize>, AllocError>
    ensures { IfOk result (λ found. IfSome found (λ index. index < length names.now)) }
{
    let name = match name {
        "store" => "Set",
        "store_true" => "SetTrue",
        "store_false" => "SetFalse",
        other => other,
    };
    match same_letters(alloc, name, names)? {
        Some(index) => Ok(Some(index)),
        None => nearest(alloc, name, names),
    }
}

// The hint for a list of possible values.
const OF_VALUES: &str = ", a list of objects such as {\"name\": \"fast\"}";

// Keys of other tools, the keys to write instead, and hints to add.
const OTHERS: &[(&str, &str, &str)] = &[
    ("description", "about", ""),
    ("value_name", "value_names", ", a list"),
    ("visible_alias", "visible_aliases", ", a list"),
    ("alias", "aliases", ", a list"),
    ("short_alias", "short_aliases", ", a list"),
    ("value_parser", "possible_values", OF_VALUES),
    ("choices", "possible_values", OF_VALUES),
    ("value", "name", ""),
    ("hidden", "hide", ""),
    ("commands", "subcommands", ""),
    ("children", "subcommands", ""),
    ("arguments", "args", ""),
    ("options", "args", ""),
    ("flags", "args", ""),
];

fn unknown_key(alloc: Global, kind: ObjectKind, key: &str) -> Result<String, AllocError> {
    let name = kind.name();
    let mut text = format!(in alloc; "{name} has no key `")?;
    push_shown(&mut text, key)?;
    text.push_str("`")?;
    push_suggestion(alloc, &mut text, kind.keys(), key)?;
    Ok(text)
}

fn push_suggestion(
    alloc: Global,
    text: &mut String,
    keys: &[&str],
    key: &str,
) -> Result<(), AllocError> {
    if let Some((here, hint)) = key_here(keys, key) {
        return push_each(text, &["; write ", here, hint]);
    }
    match nearest(alloc, key, keys)? {
        Some(index) => push_each(text, &["; did you mean `", keys[index], "`?"]),
        None => Ok(()),
    }
}

fn push_each(text: &mut String, parts: &[&str]) -> Result<(), AllocError> {
    for part in parts {
        text.push_str(*part)?;
    }
    Ok(())
}

// Returns the key to write instead of another tool's key, and a hint. The object must have that
// key.
fn key_here(keys: &[&str], key: &str) -> Option<(&'static str, &'static str)> {
    for (other, here, hint) in OTHERS {
        if *other == key && keys.iter().any(|known| *known == *here) {
            return Some((*here, *hint));
        }
    }
    None
}
