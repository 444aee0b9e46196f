//! Candidates from the lines that a Cobra program answers to a request for completions.

ghost use Rattle.std.specs.Prelude.{◌≡◌, ◌==◌, [], IfOk, filter, if◌then◌else◌, length, not};
ghost use Rattle.cc_replies.specs.CobraReply.{cobra_reply, cobra_values, directed, directive_of};
ghost use Rattle.cc_replies.specs.CobraReply.{has_bit, is_active_help, offered_paths};
ghost use Rattle.cc_replies.specs.CobraReply.{offers_values, undirected};

use crate::bash_words::rest_after;
use crate::environment::short_number;
use crate::given_lines::{GivenEntry, GivenLines, first_of_values, given_entries};
use cc_candidates::begins_with;
use std::alloc::{AllocError, Global};

// The bits of a directive. An error occurred.
const ERROR: usize = 1;

// No space follows a value.
const NO_SPACE: usize = 2;

// Without a value, no paths are offered.
const NO_PATHS: usize = 4;

// The values are file extensions.
const EXTENSIONS: usize = 8;

// The values are directories to look in, and only directories are wanted.
const DIRECTORIES: usize = 16;

/// A kind of paths.
#[derive(Clone, Copy, PartialEq, Eq, Debug)]
pub enum PathKind {
    /// Files and directories.
    Any,
    /// Files, and the directories that lead to them.
    Files,
    /// Directories alone.
    Directories,
}

/// The values that the lines of a Cobra program offer, or the paths.
#[derive(Drop)]
pub struct CobraReply {
    /// The values.
    pub values: GivenLines,
    /// The paths that are offered. If there are any, there are no values.
    pub paths: Option<PathKind>,
    /// Whether no space follows a value.
    pub no_space: bool,
}

impl CobraReply {
    /// Reads `bytes`, the lines that a Cobra program answers.
    ///
    /// Lines count as for `GivenLines` without `split`. The last one is a directive if it is `:`
    /// and one to five digits. The others are values, but for those that begin with
    /// `_activeHelp_ `. The bits of the directive's number say what is offered:
    ///
    /// - 1, an error: nothing.
    /// - 8, file extensions: files in place of the values.
    /// - 16: directories in place of the values.
    /// - none of these: the values, or paths of all kinds if there is no value and bit 4 is not
    ///   set.
    ///
    /// Bit 2 says that no space follows a value.
    ///
    /// Without a directive, all lines are values, as `GivenLines` reads them.
    ///
    /// # Errors
    ///
    /// `AllocError` if an allocation fails.
    pub fn new(alloc: Global, bytes: &[u8]) -> Result<CobraReply, AllocError>
        ensures { IfOk result (λ reply. reply ≡ cobra_reply bytes.now) }
    {
        let mut lines = given_entries(alloc, bytes, None)?;
        let Some(last) = lines.pop() else {
            return undirected(alloc, bytes);
        };
        match directive_of(&last) {
            Some(directive) => directed(alloc, directive, lines),
            None => undirected(alloc, bytes),
        }
    }
}

fn undirected(alloc: Global, bytes: &[u8]) -> Result<CobraReply, AllocError>
    ensures { IfOk result (λ reply. reply ≡ undirected bytes.now) }
{
    Ok(CobraReply {
        values: GivenLines::new(alloc, bytes, None)?,
        paths: None,
        no_space: false,
    })
}

fn directed(
    alloc: Global,
    directive: usize,
    lines: Vec<GivenEntry>,
) -> Result<CobraReply, AllocError>
    ensures { IfOk result (λ reply. reply ≡ directed directive (cobra_values lines.entry.items)) }
{
    let values = offered_values(alloc, directive, lines)?;
    let paths = offered_paths(directive, values.is_empty());
    Ok(CobraReply {
        values,
        paths,
        no_space: has_bit(directive, NO_SPACE) && !has_bit(directive, ERROR),
    })
}

fn offered_values(
    alloc: Global,
    directive: usize,
    lines: Vec<GivenEntry>,
) -> Result<GivenLines, AllocError>
    ensures { IfOk result (λ values. values.candidates
        ≡ (if offers_values directive then cobra_values lines.entry.items else [])) }
{
    if !offers_values(directive) {
        return GivenLines::of_entries(alloc, &[]);
    }
    let values = first_of_values(alloc, without_active_help(lines))?;
    GivenLines::of_entries(alloc, values.as_slice())
}

fn offers_values(directive: usize) -> bool
    ensures { result ≡ offers_values directive }
{
    !has_bit(directive, ERROR)
        && !has_bit(directive, EXTENSIONS)
        && !has_bit(directive, DIRECTORIES)
}

// Returns the paths that are offered under a directive, by whether there is no value.
fn offered_paths(directive: usize, none: bool) -> Option<PathKind>
    ensures { result ≡ offered_paths directive none }
{
    if has_bit(directive, ERROR) {
        None
    } else if has_bit(directive, EXTENSIONS) {
        Some(PathKind::Files)
    } else if has_bit(directive, DIRECTORIES) {
        Some(PathKind::Directories)
    } else if none && !has_bit(directive, NO_PATHS) {
        Some(PathKind::Any)
    } else {
        None
    }
}

fn has_bit(directive: usize, bit: usize) -> bool
    ensures { result ≡ has_bit directive bit }
{
    directive & bit != 0
}

fn without_active_help<'a>(mut lines: Vec<GivenEntry<'a>>) -> Vec<GivenEntry<'a>>
    ensures { result.items ≡ filter (λ line. not (is_active_help line)) lines.entry.items }
{
    lines.retain(|line| !is_active_help(line));
    lines
}

fn is_active_help(line: &GivenEntry) -> bool
    ensures { result ≡ is_active_help line.now }
{
    begins_with(line.value, "_activeHelp_ ")
}

#[tactic(auto, unfolding(crate::specs::CobraReply::directive_of))]
fn directive_of(line: &GivenEntry) -> Option<usize>
    ensures { result ≡ directive_of line.now }
{
    if !line.description.is_empty() {
        return None;
    }
    short_number(rest_after(":", line.value)?)
}
