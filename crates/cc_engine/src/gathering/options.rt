//! Matches a word against the options of a command.

ghost use Rattle.std.specs.Prelude.{◌≡◌, ◌++◌, [], ◌==◌, map, codes, find, length, IfOk, if◌then◌else◌};
ghost use Rattle.std.specs.String.{string_bytes};
ghost use Rattle.cc_engine.specs.OwnLongs.{has_own_long};
ghost use Rattle.cc_engine.specs.Options.{longs, shorts};
ghost use Rattle.cc_engine.specs.OptionMatches.{after_equals, value_query_after, flag_match, long_match, with_prefix, match_of, short_match, without_end};
ghost use Rattle.cc_engine.specs.Words.{EndsWith};

use crate::gathering::joined::{concat, push_candidate};
use crate::gathering::negative_numbers::is_number;
use crate::gathering::option_names::{longs, longs_beginning, push_shorts, shorts, with_own_long};
use crate::walking::{ArgRef, ValueCharacter, value_character};
use cc_arg::Arg;
use cc_base::{Items, Text, TextRef};
use cc_candidates::CompletionCandidate;
use std::alloc::{AllocError, Global};

/// The result of matching a word against the options of a command.
#[derive(Drop)]
pub enum OptionMatch<'a> {
    /// The candidates themselves.
    Listed(Items<CompletionCandidate>),
    /// A request for the values of an argument.
    ValuesOf(ValueQuery<'a>),
}

/// A request for the values of an argument. A candidate for the word is a value after the text
/// `before`.
#[derive(Drop)]
pub struct ValueQuery<'a> {
    /// The argument.
    pub argument: ArgRef<'a>,
    /// The part of the word before the value: a flag with its `=`, or a hyphen and shorts.
    pub before: Text,
    /// The text to complete.
    pub text: TextRef<'a>,
}

/// Matches `word` against the options among the `arguments` of a command.
///
/// # Errors
///
/// `AllocError` if an allocation fails.
pub fn match_options<'a>(
    alloc: Global,
    arguments: &'a [Arg],
    word: &'a str,
) -> Result<OptionMatch<'a>, AllocError>
    ensures { IfOk result (λ matched. matched ≡ match_of arguments.now word.now) }
{
    let Some(rest) = word.strip_prefix('-') else {
        return Ok(OptionMatch::Listed(Items::from(without_dash(alloc, arguments, word)?)));
    };
    if rest.is_empty() {
        return Ok(OptionMatch::Listed(Items::from(shorts_then_longs(alloc, arguments)?)));
    }
    let Some(long) = rest.strip_prefix('-') else {
        return short_options(alloc, arguments, word, rest);
    };
    if long.is_empty() {
        return Ok(OptionMatch::Listed(Items::from(longs(alloc, arguments)?)));
    }
    long_options(alloc, arguments, long)
}

/// Puts the text `before` in front of the value of each candidate.
///
/// # Errors
///
/// `AllocError` if an allocation fails.
pub fn all_with_prefix(
    alloc: Global,
    candidates: Vec<CompletionCandidate>,
    before: &str,
) -> Result<Vec<CompletionCandidate>, AllocError>
    ensures { IfOk result (λ found. found.items ≡ map (with_prefix before.now) candidates.items) }
{
    let mut found = Vec::new(alloc);
    for candidate in candidates {
        push_candidate(&mut found, candidate.with_prefix(alloc, before)?)?;
    }
    Ok(found)
}

fn without_dash(
    alloc: Global,
    arguments: &[Arg],
    word: &str,
) -> Result<Vec<CompletionCandidate>, AllocError>
    ensures { IfOk result (λ found. found.items
        ≡ (if length word.now == 0 then longs arguments.now ++ shorts (codes "-") arguments.now
        else [])) }
{
    if word.is_empty() {
        return longs_then_shorts(alloc, arguments);
    }
    Ok(Vec::new(alloc))
}

#[tactic(auto, unfolding(crate::specs::Options::shorts))]
fn longs_then_shorts(
    alloc: Global,
    arguments: &[Arg],
) -> Result<Vec<CompletionCandidate>, AllocError>
    ensures { IfOk result (λ found. found.items ≡ longs arguments.now
        ++ shorts (codes "-") arguments.now) }
{
    let mut found = longs(alloc, arguments)?;
    push_shorts(&mut found, alloc, arguments, "-")?;
    Ok(found)
}

fn shorts_then_longs(
    alloc: Global,
    arguments: &[Arg],
) -> Result<Vec<CompletionCandidate>, AllocError>
    ensures { IfOk result (λ found. found.items ≡ shorts (codes "-") arguments.now
        ++ longs arguments.now) }
{
    let mut found = shorts(alloc, arguments, "-")?;
    found.append(&mut longs(alloc, arguments)?)?;
    Ok(found)
}

// Matches a word that begins with `--`.
fn long_options<'a>(
    alloc: Global,
    arguments: &'a [Arg],
    long: &'a str,
) -> Result<OptionMatch<'a>, AllocError>
    ensures { IfOk result
        (λ matched. matched ≡ long_match arguments.now long.now (after_equals long.now)) }
{
    match long.split_once('=') {
        None => Ok(OptionMatch::Listed(Items::from(longs_beginning(alloc, arguments, long)?))),
        Some((flag, text)) => flag_values(alloc, arguments, flag, text),
    }
}

fn flag_values<'a>(
    alloc: Global,
    arguments: &'a [Arg],
    flag: &str,
    text: &'a str,
) -> Result<OptionMatch<'a>, AllocError>
    ensures { IfOk result (λ matched. matched
        ≡ flag_match (find (has_own_long flag.now) arguments.now) flag.now text.now) }
{
    let Some(argument) = with_own_long(arguments, flag) else {
        return Ok(OptionMatch::Listed(Items::new(alloc)));
    };
    let before = flag_before(alloc, flag)?;
    Ok(OptionMatch::ValuesOf(ValueQuery {
        argument: ArgRef::new(argument),
        before,
        text: TextRef::new(text),
    }))
}

fn flag_before(alloc: Global, flag: &str) -> Result<Text, AllocError>
    ensures { IfOk result (λ before. before ≡ codes "--" ++ flag.now ++ codes "=") }
{
    let mut before = concat(alloc, "--", flag)?;
    before.push_str("=")?;
    Ok(Text::from(before))
}

// Matches a word that begins with a single `-`.
fn short_options<'a>(
    alloc: Global,
    arguments: &'a [Arg],
    word: &str,
    rest: &'a str,
) -> Result<OptionMatch<'a>, AllocError>
    requires { word.now ≡ codes "-" ++ rest.now }
    ensures { IfOk result (λ matched. matched ≡ short_match arguments.now rest.now) }
{
    if is_number(rest) {
        return Ok(OptionMatch::Listed(Items::new(alloc)));
    }
    match value_character(arguments, rest) {
        Some(found) => Ok(OptionMatch::ValuesOf(character_values(alloc, word, found)?)),
        None => Ok(OptionMatch::Listed(Items::from(shorts(alloc, arguments, word)?))),
    }
}

// Requests the values of a character in the word whose argument takes values.
fn character_values<'a>(
    alloc: Global,
    word: &str,
    found: ValueCharacter<'a, 'a>,
) -> Result<ValueQuery<'a>, AllocError>
    requires { EndsWith word.now found.after }
    ensures { IfOk result (λ wanted. wanted
        ≡ value_query_after found.entry.argument (without_end word.now found.entry.after)
        found.entry.after) }
{
    let after = found.after.as_str();
    let before = String::from_str(alloc, without_end(word, after))?;
    value_query_after(found.argument.get(), before, after)
}

// Returns the text without its ending `end`.
fn without_end<'a>(text: &'a str, end: &str) -> &'a str
    requires { EndsWith text.now end.now }
    ensures { result.now ≡ without_end text.now end.now }
{
    &text[..text.len() - end.len()]
}

// Requests the values of the argument. A `=` in front of the value belongs to the text before it.
fn value_query_after<'a>(
    argument: &'a Arg,
    mut before: String,
    rest: &'a str,
) -> Result<ValueQuery<'a>, AllocError>
    ensures { IfOk result (λ wanted. wanted
        ≡ value_query_after argument.now (string_bytes before) rest.now) }
{
    let Some(text) = rest.strip_prefix('=') else {
        return Ok(ValueQuery {
            argument: ArgRef::new(argument),
            before: Text::from(before),
            text: TextRef::new(rest),
        });
    };
    before.push_str("=")?;
    Ok(ValueQuery {
        argument: ArgRef::new(argument),
        before: Text::from(before),
        text: TextRef::new(text),
    })
}
