//! Candidates from given lines: the output of a command, or the contents of a file.

ghost use Rattle.std.specs.Prelude.{◌≡◌, ◌∷◌, ◌++◌, ◌==◌, [], IfOk, MatchOption, None, OnOk, Some};
ghost use Rattle.std.specs.Prelude.{filter, if◌then◌else◌, length, map};
ghost use Rattle.std.specs.Option.{option_copied, option_map, option_to_list};
ghost use Rattle.std.specs.String.{string_bytes};
ghost use Rattle.cc_base.specs.Bytes.{is_blank};
ghost use Rattle.cc_base.specs.Found.{after, cut_at, without_blanks};
ghost use Rattle.cc_replies.specs.GivenLines.{begins_dash, candidates_of_lines, cut_entry};
ghost use Rattle.cc_replies.specs.GivenLines.{description_help};
ghost use Rattle.cc_replies.specs.GivenLines.{entry_candidate, first_of_values, given_entries};
ghost use Rattle.cc_replies.specs.GivenLines.{if_given, is_given_text, line_entry, trimmed};
ghost use Rattle.cc_replies.specs.GivenLines.{trimmed_entry, without_controls, without_last_blanks};
ghost use Rattle.cc_replies.specs.Reply.{without_return};

use crate::safe::is_safe_text;
use cc_base::{CandidateSources, Items, TextRef};
use cc_candidates::{CompletionCandidate, copy_of_some};
use std::alloc::{AllocError, Global};
use std::collections::BTreeSet;
use std::marker::Model;

/// The candidates in given lines, as the list with the number 0. There are no other lists, and no
/// completers.
#[derive(Drop)]
pub struct GivenLines {
    candidates: Items<CompletionCandidate>,
}

impl GivenLines {
    /// Reads the candidates in the lines of `bytes`. The text `split` ends the value of a line, and
    /// its description follows. Without `split`, the first tab does.
    ///
    /// Leaves out a line whose value is empty, is not UTF-8, has a control character, begins with
    /// `-`, or is the value of an earlier line.
    ///
    /// # Errors
    ///
    /// `AllocError` if an allocation fails.
    pub fn new(alloc: Global, bytes: &[u8], split: Option<&str>) -> Result<GivenLines, AllocError>
        ensures { IfOk result (λ lines. lines.candidates
            ≡ candidates_of_lines (option_copied split.entry) bytes.now) }
    {
        let entries = first_of_values(alloc, given_entries(alloc, bytes, split)?)?;
        GivenLines::of_entries(alloc, entries.as_slice())
    }

    /// Makes the candidates of entries.
    pub(crate) fn of_entries(
        alloc: Global,
        entries: &[GivenEntry],
    ) -> Result<GivenLines, AllocError>
        ensures { IfOk result (λ lines. lines.candidates ≡ map entry_candidate entries.now) }
    {
        Ok(GivenLines {
            candidates: Items::from(candidates_of(alloc, entries)?),
        })
    }

    /// Returns whether there is no candidate.
    pub(crate) fn is_empty(&self) -> bool
        ensures { result ≡ (length self.now.candidates == 0) }
    {
        self.candidates.as_slice().is_empty()
    }
}

impl CandidateSources for GivenLines {
    ghost use Rattle.std.specs.Prelude.{◌≡◌, []};
    ghost use Rattle.cc_replies.specs.GivenLines.{listed_at};

    type Candidate = CompletionCandidate;

    ghost may_complete = { λ lines completer number text found. found ≡ [] };

    ghost may_list = { λ lines list found. found ≡ listed_at lines.candidates list };

    fn complete_at(
        &self,
        alloc: Global,
        _completer: usize,
        _number: usize,
        _text: &str,
    ) -> Result<Vec<CompletionCandidate>, AllocError> {
        Ok(Vec::new(alloc))
    }

    fn candidates(
        &self,
        alloc: Global,
        list: usize,
    ) -> Result<Vec<CompletionCandidate>, AllocError> {
        if list == 0 {
            return copies_of(alloc, self.candidates.as_slice());
        }
        Ok(Vec::new(alloc))
    }
}

fn copies_of(
    alloc: Global,
    candidates: &[CompletionCandidate],
) -> Result<Vec<CompletionCandidate>, AllocError>
    ensures { IfOk result (λ copies. copies.items ≡ candidates.now) }
{
    let mut copies = Vec::with_capacity(alloc, candidates.len())?;
    for candidate in candidates {
        copies.push(copy_of(alloc, candidate)?)?;
    }
    Ok(copies)
}

fn copy_of(
    alloc: Global,
    candidate: &CompletionCandidate,
) -> Result<CompletionCandidate, AllocError>
    ensures { IfOk result (λ copy. copy ≡ candidate.now) }
{
    let value = String::from_str(alloc, candidate.get_value())?;
    let help = copy_of_some(alloc, candidate.get_help())?;
    let id = copy_of_some(alloc, candidate.get_id())?;
    let tag = copy_of_some(alloc, candidate.get_tag())?;
    Ok(
        CompletionCandidate::new(value)
            .help(help)
            .id(id)
            .tag(tag)
            .display_order(candidate.get_display_order())
            .hide(candidate.is_hide_set()),
    )
}

// A value and its description, as the bytes of a line.
#[derive(Drop)]
struct Cut<'a> {
    value: &'a [u8],
    description: &'a [u8],
}

impl<'a> Model for Cut<'a> {
    ghost use Rattle.cc_replies.specs.GivenLines.{Entry};

    ghost Value = { Entry };

    ghost view = { λ cut. record { value = cut.value.now; description = cut.description.now } };
}

/// A value that is UTF-8, and its description.
#[derive(Drop)]
pub(crate) struct GivenEntry<'a> {
    pub(crate) value: &'a str,
    pub(crate) description: &'a [u8],
}

impl<'a> Model for GivenEntry<'a> {
    ghost use Rattle.cc_replies.specs.GivenLines.{Entry};

    ghost Value = { Entry };

    ghost view = { λ given. record {
      value = given.value.now;
      description = given.description.now;
    } };
}

fn candidates_of(
    alloc: Global,
    entries: &[GivenEntry],
) -> Result<Vec<CompletionCandidate>, AllocError>
    ensures { IfOk result (λ candidates. candidates.items ≡ map entry_candidate entries.now) }
{
    let mut candidates = Vec::with_capacity(alloc, entries.len())?;
    for entry in entries {
        candidates.push(candidate_of(alloc, entry)?)?;
    }
    Ok(candidates)
}

fn candidate_of(alloc: Global, entry: &GivenEntry) -> Result<CompletionCandidate, AllocError>
    ensures { IfOk result (λ candidate. candidate ≡ entry_candidate entry.now) }
{
    let value = String::from_str(alloc, entry.value)?;
    let help = description_help(alloc, entry.description)?;
    Ok(CompletionCandidate::new(value).help(help))
}

#[tactic(auto, unfolding(crate::specs::GivenLines::description_help))]
fn description_help(alloc: Global, description: &[u8]) -> Result<Option<String>, AllocError>
    ensures { IfOk result (λ help.
        option_map string_bytes help ≡ description_help description.now) }
{
    let Ok(description) = std::str::from_utf8(description) else {
        return Ok(None);
    };
    let help = without_controls(alloc, description)?;
    if help.is_empty() {
        return Ok(None);
    }
    Ok(Some(help))
}

fn without_controls(alloc: Global, text: &str) -> Result<String, AllocError>
    ensures { IfOk result (λ shown. string_bytes shown ≡ without_controls text.now) }
{
    text.chars()
        .filter(|character| !character.is_control())
        .collect(alloc)
}

/// Keeps the entries whose value no earlier one has.
pub(crate) fn first_of_values<'a>(
    alloc: Global,
    entries: Vec<GivenEntry<'a>>,
) -> Result<Vec<GivenEntry<'a>>, AllocError>
    ensures { IfOk result (λ kept. kept.items ≡ first_of_values entries.entry.items) }
{
    let mut seen = BTreeSet::new(alloc);
    let mut kept = Vec::new(alloc);
    for entry in entries {
        if !seen.insert(TextRef::new(entry.value))? {
            continue;
        }
        kept.push(entry)?;
    }
    Ok(kept)
}

/// Returns the entries of the lines that count.
pub(crate) fn given_entries<'a>(
    alloc: Global,
    text: &'a [u8],
    split: Option<&str>,
) -> Result<Vec<GivenEntry<'a>>, AllocError>
    ensures { IfOk result (λ entries. entries.items
        ≡ given_entries (option_copied split.entry) text.now) }
{
    let mut entries = Vec::new(alloc);
    let mut rest = text;
    while let Some((line, next)) = cut_at(b"\n", rest) {
        push_line(&mut entries, line, split)?;
        rest = next;
    }
    push_line(&mut entries, rest, split)?;
    Ok(entries)
}

// Adds the entry of a line if it counts.
fn push_line<'a>(
    entries: &mut Vec<GivenEntry<'a>>,
    line: &'a [u8],
    split: Option<&str>,
) -> Result<(), AllocError>
    ensures { OnOk result (entries.new.items ≡ entries.old.items
        ++ if_given (line_entry (option_copied split.entry) (without_return line.now))) }
{
    match given_entry(line_entry(without_return(line), split)) {
        Some(entry) => Ok(entries.push(entry)?),
        None => Ok(()),
    }
}

fn given_entry<'a>(entry: Cut<'a>) -> Option<GivenEntry<'a>>
    ensures { option_to_list result ≡ if_given entry.entry }
{
    let Ok(value) = std::str::from_utf8(entry.value) else {
        return None;
    };
    if !is_given_text(value) {
        return None;
    }
    Some(GivenEntry {
        value,
        description: entry.description,
    })
}

fn is_given_text(value: &str) -> bool
    ensures { result ≡ is_given_text value.now }
{
    is_safe_text(value) && !begins_dash(value.as_bytes())
}

fn begins_dash(text: &[u8]) -> bool
    ensures { result ≡ begins_dash text.now }
{
    match text {
        [first, ..] => *first == b'-',
        [] => false,
    }
}

#[tactic(auto, unfolding(crate::specs::GivenLines::line_entry))]
fn line_entry<'a>(line: &'a [u8], split: Option<&str>) -> Cut<'a>
    ensures { result ≡ line_entry (option_copied split.entry) line.now }
{
    match split {
        None => cut_entry(b"\t", line),
        Some(separator) => trimmed_entry(cut_entry(separator.as_bytes(), without_blanks(line))),
    }
}

fn trimmed_entry<'a>(entry: Cut<'a>) -> Cut<'a>
    ensures { result ≡ trimmed_entry entry.entry }
{
    Cut {
        value: trimmed(entry.value),
        description: trimmed(entry.description),
    }
}

#[tactic(auto, unfolding(crate::specs::GivenLines::cut_entry))]
fn cut_entry<'a>(mark: &[u8], text: &'a [u8]) -> Cut<'a>
    ensures { result ≡ cut_entry mark.now text.now }
{
    match cut_at(mark, text) {
        Some((value, description)) => Cut { value, description },
        None => Cut {
            value: text,
            description: b"",
        },
    }
}

// Returns the texts before and after the first occurrence of a mark.
fn cut_at<'a>(mark: &[u8], text: &'a [u8]) -> Option<(&'a [u8], &'a [u8])>
    ensures { MatchOption result (cut_at mark.now text.now ≡ None)
        (λ cut. cut_at mark.now text.now ≡ Some (cut.0.now, cut.1.now)) }
{
    for at in 0..text.len() {
        let (before, rest) = text.split_at(at);
        if let Some(after) = after(mark, rest) {
            return Some((before, after));
        }
    }
    None
}

#[tactic(auto, using(crate::proofs::Beginnings::bytes_stripped))]
fn after<'a>(mark: &[u8], text: &'a [u8]) -> Option<&'a [u8]>
    ensures { option_copied result ≡ after mark.now text.now }
{
    text.strip_prefix(mark)
}

// Cuts a carriage return at the end of a line.
fn without_return(line: &[u8]) -> &[u8]
    ensures { result.now ≡ without_return line.now }
{
    line.strip_suffix(b"\r").unwrap_or(line)
}

fn trimmed(text: &[u8]) -> &[u8]
    ensures { result.now ≡ trimmed text.now }
{
    without_last_blanks(without_blanks(text))
}

fn without_blanks(text: &[u8]) -> &[u8]
    ensures { result.now ≡ without_blanks text.now }
{
    let mut rest = text;
    while let Some((first, others)) = rest.split_first() {
        if !is_blank(*first) {
            return rest;
        }
        rest = others;
    }
    rest
}

fn without_last_blanks(text: &[u8]) -> &[u8]
    ensures { result.now ≡ without_last_blanks text.now }
{
    let mut rest = text;
    while let Some((last, others)) = rest.split_last() {
        if !is_blank(*last) {
            return rest;
        }
        rest = others;
    }
    rest
}

fn is_blank(byte: u8) -> bool
    ensures { result ≡ is_blank byte }
{
    matches!(byte, b' ' | b'\t' | b'\n')
}
