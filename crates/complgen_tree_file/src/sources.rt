//! Reads the keys for the source of an argument's values: the possible values, a command that
//! prints them, or a file, and what separates a value from its description.

ghost use Rattle.std.specs.Prelude.{◌≡◌, IfOk, false, is_some, not};
ghost use Rattle.cc_arg.specs.ValueSources.{has_byte, is_runnable, nul};
ghost use Rattle.complgen_tree_file.specs.JsonSeen.{view};
ghost use Rattle.complgen_tree_file.specs.JsonSlots.{Hold, values_at};
ghost use Rattle.complgen_tree_file.specs.Slots.{AreHeldFrom};
ghost use Rattle.complgen_tree_file.specs.ArgumentForm.{argument_keys, sources, sources_fit};
ghost use Rattle.complgen_tree_file.specs.Faults.{FindsUnless, Makes, has_none};
ghost use Rattle.complgen_tree_file.specs.SourceForm.{has_one_source, is_path, is_separator};
ghost use Rattle.complgen_tree_file.specs.SourceForm.{is_well_sourced, passes_if_there};
ghost use Rattle.complgen_tree_file.specs.TreeForm.{all_fit, set_all};

use crate::args::each_key;
use crate::faults::{FaultKind, Faults, SourceFault, Step};
use crate::json_values::Value;
use crate::keys::{only_in, set_group};
use crate::values::{MOST_KEYS, set};
use cc_arg::{ArgParts, is_runnable};
use cc_base::Text;
use std::alloc::AllocError;

/// Sets the fields of the keys for the source of the values. Notes what is wrong with them, also if
/// they name more than one source, or one that cannot be used.
///
/// # Errors
///
/// `AllocError` if an allocation fails.
pub(crate) fn set_sources<'t>(
    parts: &mut ArgParts,
    faults: &mut Faults<'t>,
    tree: &Value<'t>,
    slots: &[Option<&Value<'t>>; MOST_KEYS],
) -> Result<(), AllocError>
    requires { Hold slots.now (values_at argument_keys (view tree.now)) }
    ensures { IfOk result (λ _. Makes (set_all sources (view tree.now) parts.old)
        (sources_fit (view tree.now) parts.old) parts.new faults.old faults.new) }
{
    set_source_keys(parts, faults, tree, slots)?;
    check_given(faults, parts)
}

fn set_source_keys<'t>(
    parts: &mut ArgParts,
    faults: &mut Faults<'t>,
    tree: &Value<'t>,
    slots: &[Option<&Value<'t>>; MOST_KEYS],
) -> Result<(), AllocError>
    requires { AreHeldFrom 11 sources slots.now (view tree.now) }
    ensures { IfOk result (λ _. Makes (set_all sources (view tree.now) parts.old)
        (all_fit sources (view tree.now)) parts.new faults.old faults.new) }
{
    each_key!(set_group! sources, parts, faults, tree, slots);
    Ok(())
}

// Checks the sources that were read.
fn check_given(faults: &mut Faults<'_>, parts: &ArgParts) -> Result<(), AllocError>
    ensures { IfOk result (λ _. has_none faults.new
        ≡ is_well_sourced parts.now (has_none faults.old)) }
{
    check_command(faults, parts)?;
    check_file(faults, parts)?;
    check_separator(faults, parts)?;
    check_number(faults, parts)
}

fn check_command(faults: &mut Faults<'_>, parts: &ArgParts) -> Result<(), AllocError>
    ensures { IfOk result (λ _. FindsUnless
        (passes_if_there is_runnable parts.now.values_from) faults.old faults.new) }
{
    match &parts.values_from {
        Some(words) => check_words(faults, words.as_slice()),
        None => Ok(()),
    }
}

// Notes the first word that keeps a shell from running `words`, or that there is none.
fn check_words(faults: &mut Faults<'_>, words: &[Text]) -> Result<(), AllocError>
    ensures { IfOk result (λ _. FindsUnless (is_runnable words.now) faults.old faults.new) }
{
    if is_runnable(words) {
        return Ok(());
    }
    let before = faults.count();
    note_words(faults, words)?;
    faults.put_before(before, Step::Key("values_from"))
}

// Notes why a shell cannot run `words`.
fn note_words(faults: &mut Faults<'_>, words: &[Text]) -> Result<(), AllocError>
    ensures { IfOk result (λ _. has_none faults.new ≡ false) }
{
    if words.is_empty() {
        return faults.note(FaultKind::BadSource(SourceFault::NoProgram));
    }
    for (index, word) in words.iter().enumerate() {
        if is_cut(word) {
            return note_word(faults, index, SourceFault::CutWord);
        }
    }
    note_word(faults, 0, SourceFault::NotProgram)
}

fn note_word(faults: &mut Faults<'_>, index: usize, reason: SourceFault) -> Result<(), AllocError>
    ensures { IfOk result (λ _. has_none faults.new ≡ false) }
{
    faults.note_at(Step::Item(index), FaultKind::BadSource(reason))
}

// Returns whether a word would be cut where it is passed on: at a NUL or a vertical tab.
fn is_cut(word: &Text) -> bool {
    for byte in word.as_str().as_bytes() {
        if matches!(*byte, 0 | 0x0b) {
            return true;
        }
    }
    false
}

fn check_file(faults: &mut Faults<'_>, parts: &ArgParts) -> Result<(), AllocError>
    ensures { IfOk result (λ _. FindsUnless
        (passes_if_there is_path parts.now.values_file) faults.old faults.new) }
{
    if has_good_file(parts) {
        return Ok(());
    }
    note_at(faults, "values_file", SourceFault::NotPath)
}

fn check_separator(faults: &mut Faults<'_>, parts: &ArgParts) -> Result<(), AllocError>
    ensures { IfOk result (λ _. FindsUnless
        (passes_if_there is_separator parts.now.values_split) faults.old faults.new) }
{
    if has_good_separator(parts) {
        return Ok(());
    }
    note_at(faults, "values_split", SourceFault::NoSeparator)
}

// Notes that the argument names more than one source.
fn check_number(faults: &mut Faults<'_>, parts: &ArgParts) -> Result<(), AllocError>
    ensures { IfOk result (λ _. FindsUnless (has_one_source parts.now) faults.old faults.new) }
{
    match two_sources(parts) {
        Some((key, other)) => note_at(faults, key, SourceFault::SecondSource(other)),
        None => Ok(()),
    }
}

// Returns the keys of two sources, if an argument has more than one.
fn two_sources(parts: &ArgParts) -> Option<(&'static str, &'static str)>
    ensures { is_some result ≡ not (has_one_source parts.now) }
{
    let values = parts.possible_values.is_some();
    match (parts.values_from.is_some(), parts.values_file.is_some()) {
        (true, true) => Some(("values_file", "values_from")),
        (true, false) => values.then_some(("values_from", "possible_values")),
        (false, true) => values.then_some(("values_file", "possible_values")),
        (false, false) => None,
    }
}

fn note_at(
    faults: &mut Faults<'_>,
    key: &'static str,
    reason: SourceFault,
) -> Result<(), AllocError>
    ensures { IfOk result (λ _. has_none faults.new ≡ false) }
{
    faults.note_at(Step::Key(key), FaultKind::BadSource(reason))
}

fn has_good_file(parts: &ArgParts) -> bool
    ensures { result ≡ passes_if_there is_path parts.now.values_file }
{
    match &parts.values_file {
        Some(path) => is_path(path.as_str()),
        None => true,
    }
}

fn is_path(path: &str) -> bool
    ensures { result ≡ is_path path.now }
{
    match path.as_bytes() {
        [] => false,
        [_, ..] => !has_nul(path.as_bytes()),
    }
}

fn has_nul(bytes: &[u8]) -> bool
    ensures { result ≡ has_byte nul bytes.now }
{
    for byte in bytes {
        if *byte == 0 {
            return true;
        }
    }
    false
}

fn has_good_separator(parts: &ArgParts) -> bool
    ensures { result ≡ passes_if_there is_separator parts.now.values_split }
{
    match &parts.values_split {
        Some(separator) => is_separator(separator.as_str()),
        None => true,
    }
}

fn is_separator(text: &str) -> bool
    ensures { result ≡ is_separator text.now }
{
    match text.as_bytes() {
        [] => false,
        [_, ..] => true,
    }
}
