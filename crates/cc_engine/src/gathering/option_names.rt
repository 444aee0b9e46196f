//! The names of options as candidates: longs, shorts and their aliases.

ghost use Rattle.std.specs.Prelude.{◌≡◌, ◌++◌, [], ◌∷◌, codes, filter, find, flat_map, map};
ghost use Rattle.std.specs.Prelude.{IfOk, OnOk};
ghost use Rattle.std.specs.Option.{option_copied, option_map};
ghost use Rattle.std.specs.String.{string_bytes};
ghost use Rattle.cc_candidates.specs.Beginning.{begins};
ghost use Rattle.cc_engine.specs.OwnLongs.{has_own_long};
ghost use Rattle.cc_engine.specs.Options.{hidden_beginning, long_candidate, longs, longs_beginning};
ghost use Rattle.cc_engine.specs.Options.{option_candidate, short_candidate, short_candidates};
ghost use Rattle.cc_engine.specs.Options.{short_help, shorts};

use crate::gathering::joined::{concat, push_candidate};
use cc_arg::Arg;
use cc_base::Text;
use cc_candidates::{CompletionCandidate, begins_with, copy_of_some};
use std::alloc::{AllocError, Global};

// Returns the candidates for all longs and their visible aliases, then for all hidden aliases.
#[tactic(auto, using(crate::proofs::LongNames::longs_begin))]
pub(crate) fn longs(
    alloc: Global,
    arguments: &[Arg],
) -> Result<Vec<CompletionCandidate>, AllocError>
    ensures { IfOk result (λ found. found.items ≡ longs arguments.now) }
{
    longs_beginning(alloc, arguments, "")
}

// Returns those candidates that begin with `--` and `long`.
pub(crate) fn longs_beginning(
    alloc: Global,
    arguments: &[Arg],
    long: &str,
) -> Result<Vec<CompletionCandidate>, AllocError>
    ensures { IfOk result (λ found. found.items
        ≡ filter (begins (codes "--" ++ long.now)) (longs arguments.now)) }
{
    let mut found = Vec::new(alloc);
    push_longs(&mut found, alloc, arguments, long)?;
    push_hidden_longs(&mut found, alloc, arguments, long)?;
    Ok(found)
}

fn push_longs(
    found: &mut Vec<CompletionCandidate>,
    alloc: Global,
    arguments: &[Arg],
    long: &str,
) -> Result<(), AllocError>
    ensures { OnOk result (found.new.items
        ≡ found.old.items ++ flat_map (longs_beginning long.now) arguments.now) }
{
    for argument in arguments {
        push_own_longs(found, alloc, argument, long)?;
    }
    Ok(())
}

fn push_hidden_longs(
    found: &mut Vec<CompletionCandidate>,
    alloc: Global,
    arguments: &[Arg],
    long: &str,
) -> Result<(), AllocError>
    ensures { OnOk result (found.new.items
        ≡ found.old.items ++ flat_map (hidden_beginning long.now) arguments.now) }
{
    for argument in arguments {
        push_names(found, alloc, argument, argument.get_aliases(), true, long)?;
    }
    Ok(())
}

// Adds the candidates for the long and its visible aliases that begin with `--` and `long`.
fn push_own_longs(
    found: &mut Vec<CompletionCandidate>,
    alloc: Global,
    argument: &Arg,
    long: &str,
) -> Result<(), AllocError>
    ensures { OnOk result (found.new.items ≡ found.old.items
        ++ longs_beginning long.now argument.now) }
{
    let Some(own) = argument.get_long() else {
        return Ok(());
    };
    let hidden = argument.is_hide_set();
    push_name(found, alloc, argument, own, hidden, long)?;
    push_names(
        found,
        alloc,
        argument,
        argument.get_visible_aliases(),
        hidden,
        long,
    )
}

// Adds a candidate for each of the `names` that begins with `long`.
fn push_names(
    found: &mut Vec<CompletionCandidate>,
    alloc: Global,
    argument: &Arg,
    names: &[Text],
    hidden: bool,
    long: &str,
) -> Result<(), AllocError>
    ensures { OnOk result (found.new.items ≡ found.old.items
        ++ filter (begins (codes "--" ++ long.now))
        (map (long_candidate argument.now hidden) names.now)) }
{
    for name in names {
        push_name(found, alloc, argument, name.as_str(), hidden, long)?;
    }
    Ok(())
}

// Adds the candidate for a name, if it begins with `long`.
fn push_name(
    found: &mut Vec<CompletionCandidate>,
    alloc: Global,
    argument: &Arg,
    name: &str,
    hidden: bool,
    long: &str,
) -> Result<(), AllocError>
    ensures { OnOk result (found.new.items ≡ found.old.items
        ++ filter (begins (codes "--" ++ long.now))
        (long_candidate argument.now hidden name.now ∷ [])) }
{
    if !begins_with(name, long) {
        return Ok(());
    }
    push_candidate(found, long_candidate(alloc, argument, name, hidden)?)
}

fn long_candidate(
    alloc: Global,
    argument: &Arg,
    name: &str,
    hidden: bool,
) -> Result<CompletionCandidate, AllocError>
    ensures { IfOk result (λ candidate. candidate ≡ long_candidate argument.now hidden name.now) }
{
    let value = concat(alloc, "--", name)?;
    let help = copy_of_some(alloc, argument.get_help())?;
    option_candidate(alloc, argument, value, help, hidden)
}

// Returns the candidates for the shorts of all arguments and their visible aliases, after the text
// `before`.
#[tactic(auto, unfolding(crate::specs::Options::shorts))]
pub(crate) fn shorts(
    alloc: Global,
    arguments: &[Arg],
    before: &str,
) -> Result<Vec<CompletionCandidate>, AllocError>
    ensures { IfOk result (λ found. found.items ≡ shorts before.now arguments.now) }
{
    let mut found = Vec::new(alloc);
    push_shorts(&mut found, alloc, arguments, before)?;
    Ok(found)
}

// Adds those candidates.
pub(crate) fn push_shorts(
    found: &mut Vec<CompletionCandidate>,
    alloc: Global,
    arguments: &[Arg],
    prefix: &str,
) -> Result<(), AllocError>
    ensures { OnOk result (found.new.items ≡ found.old.items
        ++ flat_map (short_candidates prefix.now) arguments.now) }
{
    for argument in arguments {
        push_own_shorts(found, alloc, argument, prefix)?;
    }
    Ok(())
}

fn push_own_shorts(
    found: &mut Vec<CompletionCandidate>,
    alloc: Global,
    argument: &Arg,
    prefix: &str,
) -> Result<(), AllocError>
    ensures { OnOk result (found.new.items ≡ found.old.items
        ++ short_candidates prefix.now argument.now) }
{
    let Some(short) = argument.get_short() else {
        return Ok(());
    };
    push_candidate(found, short_candidate(alloc, argument, prefix, short)?)?;
    push_short_names(
        found,
        alloc,
        argument,
        argument.get_visible_short_aliases(),
        prefix,
    )
}

fn push_short_names(
    found: &mut Vec<CompletionCandidate>,
    alloc: Global,
    argument: &Arg,
    names: &[char],
    prefix: &str,
) -> Result<(), AllocError>
    ensures { OnOk result (found.new.items ≡ found.old.items
        ++ map (short_candidate prefix.now argument.now) names.now) }
{
    for name in names {
        push_candidate(found, short_candidate(alloc, argument, prefix, *name)?)?;
    }
    Ok(())
}

fn short_candidate(
    alloc: Global,
    argument: &Arg,
    prefix: &str,
    short: char,
) -> Result<CompletionCandidate, AllocError>
    ensures { IfOk result (λ candidate. candidate ≡ short_candidate prefix.now argument.now short) }
{
    let mut value = String::from_str(alloc, prefix)?;
    value.push(short)?;
    let help = short_help(alloc, argument)?;
    option_candidate(alloc, argument, value, help, argument.is_hide_set())
}

// Returns the help text, or else the long.
fn short_help(alloc: Global, argument: &Arg) -> Result<Option<String>, AllocError>
    ensures { IfOk result (λ help. option_map string_bytes help ≡ short_help argument.now) }
{
    if let Some(help) = argument.get_help() {
        return Ok(Some(String::from_str(alloc, help)?));
    }
    let Some(long) = argument.get_long() else {
        return Ok(None);
    };
    Ok(Some(concat(alloc, "--", long)?))
}

// Creates a candidate with this value and help text. Its other fields come from the argument.
pub(crate) fn option_candidate(
    alloc: Global,
    argument: &Arg,
    value: String,
    help: Option<String>,
    hidden: bool,
) -> Result<CompletionCandidate, AllocError>
    ensures { IfOk result (λ candidate. candidate ≡ option_candidate argument.now
        (option_map string_bytes help) hidden (string_bytes value)) }
{
    let id = concat(alloc, "arg::", argument.get_id())?;
    let tag = String::from_str(alloc, argument.get_help_heading().unwrap_or("Options"))?;
    Ok(
        CompletionCandidate::new(value)
            .help(help)
            .id(Some(id))
            .tag(Some(tag))
            .display_order(Some(argument.get_display_order()))
            .hide(hidden),
    )
}

// Returns the first argument with this long, ignoring aliases.
pub(crate) fn with_own_long<'a>(arguments: &'a [Arg], flag: &str) -> Option<&'a Arg>
    ensures { option_copied result ≡ find (has_own_long flag.now) arguments.now }
{
    for argument in arguments {
        if argument.get_long() == Some(flag) {
            return Some(argument);
        }
    }
    None
}
