//! Reads the lines of a source in the form of an argument.

ghost use Rattle.std.specs.Prelude.{◌≡◌, IfErr, IfOk};
ghost use Rattle.std.specs.Option.{option_copied};
ghost use Rattle.cc_env.specs.ValuesRead.{AreRead, directed_values, hint_of, plain_values};
ghost use Rattle.cc_env.specs.ValuesRead.{is_one, omits_space, read_values, values_of};

use crate::asking::line_source::LineSource;
use crate::asking::with_lines::lines_list;
use cc_arg::{Arg, SourceValues, ValueHint, ValuesProtocol};
use cc_base::Error;
use cc_replies::{CobraReply, EnvValues, GivenLines, PathKind};
use std::alloc::{AllocError, Global};

// The variable that a safe registration sets to `1` if it can leave out the space after a value.
const SPACE: &str = "_COMPLGEN_SPACE";

/// What the lines of a source say of its values.
#[derive(Drop)]
pub struct ValuesRead {
    /// The candidates in the lines.
    pub lines: GivenLines,
    /// The values: the list of the lines, or paths.
    pub values: SourceValues,
    /// True if no space is to follow a value.
    pub no_space: bool,
}

/// Reads the lines that `source` has for the values of `asked`.
///
/// # Errors
///
/// `Memory` if an allocation fails.
pub(crate) fn read_from<S: LineSource>(
    alloc: Global,
    source: &S,
    asked: &Arg,
) -> Result<ValuesRead, Error>
    ensures ok { IfOk result (λ read. AreRead (S.gives source.now) asked.now read) }
    ensures memory { IfErr result (λ error. error ≡ Error.Memory) }
{
    let lines = source.lines(alloc, asked)?;
    Ok(read_values(alloc, asked, lines.as_slice())?)
}

/// Reads lines that are the values of `asked`, in the form that its program prints.
///
/// # Errors
///
/// `AllocError` if an allocation fails.
pub(crate) fn read_values(
    alloc: Global,
    asked: &Arg,
    lines: &[u8],
) -> Result<ValuesRead, AllocError>
    ensures { IfOk result (λ read. read ≡ read_values asked.now lines.now) }
{
    match asked.get_values_protocol() {
        ValuesProtocol::Lines => plain_values(alloc, lines, asked.get_values_split()),
        ValuesProtocol::Cobra => Ok(directed_values(CobraReply::new(alloc, lines)?)),
    }
}

// Reads lines each of which is a value.
fn plain_values(alloc: Global, lines: &[u8], split: Option<&str>) -> Result<ValuesRead, AllocError>
    ensures { IfOk result
        (λ read. read ≡ plain_values (option_copied split.entry) lines.now) }
{
    Ok(ValuesRead {
        lines: GivenLines::new(alloc, lines, split)?,
        values: SourceValues::Listed(lines_list()),
        no_space: false,
    })
}

// Returns what a program with Cobra replied.
fn directed_values(reply: CobraReply) -> ValuesRead
    ensures { result ≡ directed_values reply }
{
    ValuesRead {
        lines: reply.values,
        values: values_of(reply.paths),
        no_space: reply.no_space,
    }
}

fn values_of(paths: Option<PathKind>) -> SourceValues
    ensures { result ≡ values_of paths }
{
    match paths {
        Some(kind) => SourceValues::Paths(hint_of(kind)),
        None => SourceValues::Listed(lines_list()),
    }
}

fn hint_of(kind: PathKind) -> ValueHint
    ensures { result ≡ hint_of kind }
{
    match kind {
        PathKind::Any => ValueHint::AnyPath,
        PathKind::Files => ValueHint::FilePath,
        PathKind::Directories => ValueHint::DirPath,
    }
}

/// Returns whether no space is to follow a value, and the registration can leave it out.
pub(crate) fn omits_space(env: &EnvValues, read: &ValuesRead) -> bool
    ensures { result ≡ omits_space env.now read.now }
{
    read.no_space && is_one(env.get(SPACE))
}

fn is_one(value: Option<&str>) -> bool
    ensures { result ≡ is_one (option_copied value.entry) }
{
    match value {
        Some(value) => value == "1",
        None => false,
    }
}
