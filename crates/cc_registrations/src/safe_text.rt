//! The text of a safe registration for bash, zsh or fish. These have the same parts: a first line,
//! which names the programs, and a function, which asks for candidates.

ghost use Rattle.std.specs.Prelude.{◌≡◌, map};
ghost use Rattle.cc_base.specs.Writes.{Writes};
ghost use Rattle.cc_registrations.specs.SafeText.{function_front, function_text, names_line};
ghost use Rattle.cc_registrations.specs.SafeText.{safe_text};

use crate::names::put_identifier_after;
use crate::words::{Quoting, put_names, put_quoted};
use cc_base::{Error, Sink, TextRef, put_text};
use std::alloc::Global;

/// The parts that differ between shells: the fixed texts, and the quoting of words.
#[derive(Drop)]
pub struct SafeFrame<'a> {
    /// The quoting of words in this shell.
    pub quoting: Quoting,
    /// The text before the name in the first line.
    pub names_begin: TextRef<'a>,
    /// The text between the name and the programs.
    pub names_follow: TextRef<'a>,
    /// The text between two programs.
    pub names_between: TextRef<'a>,
    /// The text before the name of the function.
    pub function_begins: TextRef<'a>,
    /// The text between that name and the variable.
    pub function_head: TextRef<'a>,
    /// The text between the variable and the completer.
    pub call_begins: TextRef<'a>,
    /// The text after the completer.
    pub call_ends: TextRef<'a>,
}

/// The texts that are filled in, except for the programs.
#[derive(Drop)]
pub struct SafeNames<'a> {
    /// The variable that requests completions.
    pub variable: TextRef<'a>,
    /// The name of the function.
    pub name: TextRef<'a>,
    /// The program that the shell runs for candidates.
    pub completer: TextRef<'a>,
}

impl<'a> SafeNames<'a> {
    /// Returns these names.
    pub fn new(variable: &'a str, name: &'a str, completer: &'a str) -> SafeNames<'a>
        ensures variable { result.variable ≡ variable.now }
        ensures name { result.name ≡ name.now }
        ensures completer { result.completer ≡ completer.now }
    {
        SafeNames {
            variable: TextRef::new(variable),
            name: TextRef::new(name),
            completer: TextRef::new(completer),
        }
    }
}

/// Writes the registration of the programs `bins`.
///
/// # Errors
///
/// `Write` if the sink fails, `Memory` if an allocation fails.
#[tactic(auto, unfolding(crate::specs::SafeText::safe_text))]
pub(crate) fn write_safe<W: Sink>(
    alloc: Global,
    sink: &mut W,
    frame: &SafeFrame<'_>,
    names: &SafeNames<'_>,
    bins: &[&str],
) -> Result<(), Error>
    ensures { Writes W.taken W.failed result sink.old sink.new
        (safe_text frame.now names.now.variable names.now.name (map (λ bin. bin.now) bins.now)
        names.now.completer) }
{
    write_names_line(alloc, sink, frame, names.name.as_str(), bins)?;
    write_function(alloc, sink, frame, names)
}

// Writes the first line, which names the programs.
#[tactic(auto, unfolding(crate::specs::SafeText::names_line))]
fn write_names_line<W: Sink>(
    alloc: Global,
    sink: &mut W,
    frame: &SafeFrame<'_>,
    name: &str,
    bins: &[&str],
) -> Result<(), Error>
    ensures { Writes W.taken W.failed result sink.old sink.new
        (names_line frame.now name.now (map (λ bin. bin.now) bins.now)) }
{
    put_identifier_after(sink, frame.names_begin.as_str(), name)?;
    put_text(sink, frame.names_follow.as_str())?;
    put_names(
        alloc,
        sink,
        frame.quoting,
        frame.names_between.as_str(),
        bins,
    )?;
    put_text(sink, "\n")
}

// Writes the function.
#[tactic(auto, unfolding(crate::specs::SafeText::function_text))]
fn write_function<W: Sink>(
    alloc: Global,
    sink: &mut W,
    frame: &SafeFrame<'_>,
    names: &SafeNames<'_>,
) -> Result<(), Error>
    ensures { Writes W.taken W.failed result sink.old sink.new
        (function_text frame.now names.now.variable names.now.name names.now.completer) }
{
    write_front(sink, frame, names)?;
    put_quoted(alloc, sink, frame.quoting, names.completer.as_str())?;
    put_text(sink, frame.call_ends.as_str())
}

// Writes the function up to the completer.
#[tactic(auto, unfolding(crate::specs::SafeText::function_front))]
fn write_front<W: Sink>(
    sink: &mut W,
    frame: &SafeFrame<'_>,
    names: &SafeNames<'_>,
) -> Result<(), Error>
    ensures { Writes W.taken W.failed result sink.old sink.new
        (function_front frame.now names.now.variable names.now.name) }
{
    put_identifier_after(sink, frame.function_begins.as_str(), names.name.as_str())?;
    put_identifier_after(sink, frame.function_head.as_str(), names.variable.as_str())?;
    put_text(sink, frame.call_begins.as_str())
}
