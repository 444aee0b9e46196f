//! Arguments, from their descriptions.

ghost use Rattle.std.specs.Prelude.{◌≡◌, IfErr, IfOk};
ghost use Rattle.std.specs.Option.{option_map};
ghost use Rattle.cc_program.specs.Described.{arg_of, described_values, names_of, said_parts};
ghost use Rattle.cc_program.specs.Described.{value_of};

use crate::description::ArgDescription;
use cc_arg::{Arg, ArgParts, PossibleValue};
use cc_base::{Error, Items, Text};
use std::alloc::Global;

/// Returns the argument that `described` describes.
///
/// # Errors
///
/// `Memory` if an allocation fails.
pub fn arg(alloc: Global, described: &ArgDescription<'_>) -> Result<Arg, Error>
    ensures ok { IfOk result (λ arg. arg ≡ arg_of described.now) }
    ensures memory { IfErr result (λ error. error ≡ Error.Memory) }
{
    let long = Text::copy_of_some(alloc, described.long)?;
    let names = value_names(alloc, described.value_name)?;
    let values = some_values(alloc, described.values)?;
    let mut parts = said_parts(alloc, described)?;
    parts.long = long;
    parts.value_names = names;
    parts.possible_values = values;
    Ok(Arg::from(parts))
}

// Returns the argument without its long, the names of its values and the values.
fn said_parts(alloc: Global, described: &ArgDescription<'_>) -> Result<ArgParts, Error>
    ensures ok { IfOk result (λ parts. parts ≡ said_parts described.now) }
    ensures memory { IfErr result (λ error. error ≡ Error.Memory) }
{
    let id = Text::copy_of(alloc, described.id)?;
    let help = Text::copy_of(alloc, described.help)?;
    let mut parts = ArgParts::new(alloc, id);
    parts.help = Some(help);
    parts.short = described.short;
    parts.action = described.action;
    parts.num_args = described.num_args;
    parts.value_hint = described.value_hint;
    parts.completer = described.completer;
    parts.required = described.required;
    parts.global = described.global;
    Ok(parts)
}

fn value_names(alloc: Global, name: Option<&str>) -> Result<Items<Text>, Error>
    ensures ok { IfOk result (λ names. names ≡ names_of name.entry) }
    ensures memory { IfErr result (λ error. error ≡ Error.Memory) }
{
    let mut names = Items::new(alloc);
    let Some(name) = name else {
        return Ok(names);
    };
    names.push(Text::copy_of(alloc, name)?)?;
    Ok(names)
}

fn some_values(
    alloc: Global,
    with_helps: Option<&[(&str, &str)]>,
) -> Result<Option<Items<PossibleValue>>, Error>
    ensures ok { IfOk result (λ values.
        values ≡ option_map (λ pairs. described_values pairs.now) with_helps.entry) }
    ensures memory { IfErr result (λ error. error ≡ Error.Memory) }
{
    match with_helps {
        Some(with_helps) => Ok(Some(Items::from(possible_values(alloc, with_helps)?))),
        None => Ok(None),
    }
}

/// Returns possible values, each from a name and its help text.
///
/// # Errors
///
/// `Memory` if an allocation fails.
pub fn possible_values(
    alloc: Global,
    with_helps: &[(&str, &str)],
) -> Result<Vec<PossibleValue>, Error>
    ensures ok { IfOk result (λ values. values.items ≡ described_values with_helps.now) }
    ensures memory { IfErr result (λ error. error ≡ Error.Memory) }
{
    let mut values = Vec::new(alloc);
    for (name, help) in with_helps {
        values.push(possible_value(alloc, name, help)?)?;
    }
    Ok(values)
}

fn possible_value(alloc: Global, name: &str, help: &str) -> Result<PossibleValue, Error>
    ensures ok { IfOk result (λ value. value ≡ value_of name.now help.now) }
    ensures memory { IfErr result (λ error. error ≡ Error.Memory) }
{
    let name = String::from_str(alloc, name)?;
    let help = String::from_str(alloc, help)?;
    Ok(PossibleValue::new(name).help(help))
}
