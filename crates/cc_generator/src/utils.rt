//! Lists of names, in the forms in which `clap_complete` returns them.

ghost use Rattle.std.specs.Prelude.{◌≡◌, ◌++◌, ◌∷◌, [], map, true, IfOk, IfErr, OnOk};
ghost use Rattle.std.specs.Option.{option_copied};
ghost use Rattle.std.specs.String.{string_bytes};
ghost use Rattle.cc_command.specs.ArgumentLists.{flags};
ghost use Rattle.cc_command.specs.Tree.{forest_of};
ghost use Rattle.cc_generator.specs.ArgumentNames.{all_longs, all_shorts, aliases_then};
ghost use Rattle.cc_generator.specs.Subcommands.{all_named, find_path, named, named_siblings, texts_of};

use cc_arg::Arg;
pub use cc_arg::possible_values;
use cc_base::{Error, Text};
use cc_command::{Command, full_name};
use std::alloc::{AllocError, Global};

/// Returns the visible names of the children of `command`: for each child its name and then its
/// visible aliases. Each comes with the full name of the child.
///
/// # Errors
///
/// `Memory` if an allocation fails.
pub fn subcommands(alloc: Global, command: &Command) -> Result<Vec<(String, String)>, Error>
    requires built { command.now.node.built ≡ true }
    ensures ok { IfOk result (λ found. texts_of found.items
        ≡ named_siblings command.now.children) }
    ensures memory { IfErr result (λ error. error ≡ Error.Memory) }
{
    let mut found = Vec::new(alloc);
    push_siblings(&mut found, alloc, command.get_subcommands())?;
    Ok(found)
}

/// Returns the names of all commands below `command`: those that [`subcommands`] returns, then for
/// each child the names of all commands below it.
///
/// # Errors
///
/// `Memory` if an allocation fails.
pub fn all_subcommands(alloc: Global, command: &Command) -> Result<Vec<(String, String)>, Error>
    requires built { command.now.node.built ≡ true }
    ensures ok { IfOk result (λ found. texts_of found.items
        ≡ all_named command.now.children) }
    ensures memory { IfErr result (λ error. error ≡ Error.Memory) }
{
    let mut found = Vec::new(alloc);
    push_all(&mut found, alloc, command.get_subcommands())?;
    Ok(found)
}

/// Returns the command to which a `path` of words leads. Each word leads to the first child with
/// that name or alias. Returns `None` if a word leads to no child.
pub fn find_subcommand_with_path<'a>(command: &'a Command, path: &[&str]) -> Option<&'a Command>
    ensures { option_copied result ≡ find_path command.now (map (λ word. word.now) path.now) }
{
    let mut found = command;
    for word in path {
        found = found.find_subcommand(word)?;
    }
    Some(found)
}

// Adds the names of siblings, then those of all commands below them.
fn push_all(
    found: &mut Vec<(String, String)>,
    alloc: Global,
    siblings: &[Command],
) -> Result<(), AllocError>
    ensures { OnOk result (texts_of found.new.items
        ≡ texts_of found.old.items
        ++ all_named (forest_of siblings.now)) }
{
    push_siblings(found, alloc, siblings)?;
    for sibling in siblings {
        push_all(found, alloc, sibling.get_subcommands())?;
    }
    Ok(())
}

fn push_siblings(
    found: &mut Vec<(String, String)>,
    alloc: Global,
    siblings: &[Command],
) -> Result<(), AllocError>
    ensures { OnOk result (texts_of found.new.items
        ≡ texts_of found.old.items
        ++ named_siblings (forest_of siblings.now)) }
{
    for sibling in siblings {
        push_named(found, alloc, sibling)?;
    }
    Ok(())
}

// Adds the visible names of a command.
#[tactic(auto, unfolding(crate::specs::Subcommands::named))]
fn push_named(
    found: &mut Vec<(String, String)>,
    alloc: Global,
    command: &Command,
) -> Result<(), AllocError>
    ensures { OnOk result (texts_of found.new.items
        ≡ texts_of found.old.items ++ named command.now.node) }
{
    let full_name = full_name(command);
    for name in command.get_name_and_visible_aliases() {
        push_pair(found, alloc, name, full_name)?;
    }
    Ok(())
}

// Adds a name and the full name of its command.
fn push_pair(
    found: &mut Vec<(String, String)>,
    alloc: Global,
    name: &str,
    full_name: &str,
) -> Result<(), AllocError>
    ensures { OnOk result (texts_of found.new.items
        ≡ texts_of found.old.items
        ++ (name.now, full_name.now) ∷ []) }
{
    let name = String::from_str(alloc, name)?;
    let full_name = String::from_str(alloc, full_name)?;
    found.push((name, full_name))?;
    Ok(())
}

/// Returns the arguments of `command` that are not positional and take no values, in order.
///
/// # Errors
///
/// `Memory` if an allocation fails.
pub fn flags<'a>(alloc: Global, command: &'a Command) -> Result<Vec<&'a Arg>, Error>
    ensures ok { IfOk result
        (λ found. map (λ argument. argument.now) found.items ≡ flags command.now.node) }
    ensures memory { IfErr result (λ error. error ≡ Error.Memory) }
{
    let mut found = Vec::new(alloc);
    for flag in command.get_flags() {
        found.push(flag)?;
    }
    Ok(found)
}

/// Returns the shorts of `command`: for each argument with a short its visible aliases, then the
/// short itself.
///
/// # Errors
///
/// `Memory` if an allocation fails.
#[tactic(auto, unfolding(crate::specs::ArgumentNames::all_shorts))]
pub fn shorts_and_visible_aliases(alloc: Global, command: &Command) -> Result<Vec<char>, Error>
    ensures ok { IfOk result (λ shorts. shorts.items ≡ all_shorts command.now.node.arguments) }
    ensures memory { IfErr result (λ error. error ≡ Error.Memory) }
{
    let mut shorts = Vec::new(alloc);
    for argument in command.get_arguments() {
        push_shorts(&mut shorts, argument)?;
    }
    Ok(shorts)
}

// Adds the visible aliases of a short, then the short.
fn push_shorts(shorts: &mut Vec<char>, argument: &Arg) -> Result<(), AllocError>
    ensures { OnOk result (shorts.new.items
        ≡ shorts.old.items ++ aliases_then argument.now.visible_short_aliases argument.now.short) }
{
    let Some(short) = argument.get_short() else {
        return Ok(());
    };
    shorts.extend_from_slice(argument.get_visible_short_aliases())?;
    shorts.push(short)?;
    Ok(())
}

/// Returns the longs of `command`: for each argument with a long its visible aliases, then the long
/// itself.
///
/// # Errors
///
/// `Memory` if an allocation fails.
#[tactic(auto, unfolding(crate::specs::ArgumentNames::all_longs))]
pub fn longs_and_visible_aliases(alloc: Global, command: &Command) -> Result<Vec<String>, Error>
    ensures ok { IfOk result
        (λ longs. map string_bytes longs.items ≡ all_longs command.now.node.arguments) }
    ensures memory { IfErr result (λ error. error ≡ Error.Memory) }
{
    let mut longs = Vec::new(alloc);
    for argument in command.get_arguments() {
        push_longs(&mut longs, alloc, argument)?;
    }
    Ok(longs)
}

// Adds the visible aliases of a long, then the long.
fn push_longs(longs: &mut Vec<String>, alloc: Global, argument: &Arg) -> Result<(), AllocError>
    ensures { OnOk result (map string_bytes longs.new.items
        ≡ map string_bytes longs.old.items
        ++ aliases_then argument.now.visible_aliases argument.now.long) }
{
    let Some(long) = argument.get_long() else {
        return Ok(());
    };
    push_texts(longs, alloc, argument.get_visible_aliases())?;
    longs.push(String::from_str(alloc, long)?)?;
    Ok(())
}

fn push_texts(longs: &mut Vec<String>, alloc: Global, texts: &[Text]) -> Result<(), AllocError>
    ensures { OnOk result
        (map string_bytes longs.new.items ≡ map string_bytes longs.old.items ++ texts.now) }
{
    for text in texts {
        longs.push(String::from_str(alloc, text.as_str())?)?;
    }
    Ok(())
}
