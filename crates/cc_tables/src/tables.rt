//! A script that consists of tables: a frame with a table for each visible path.

ghost use Rattle.std.specs.Prelude.{◌++◌, flat_map};
ghost use Rattle.cc_base.specs.Writes.{Writes, as_write};
ghost use Rattle.cc_tables.specs.Script.{head_text, named_text, node_text, tree_script};

use cc_base::{Error, Sink, Text, TextRef, put_around, put_piece, put_text};
use cc_command::{Command, full_name};
use cc_generator::{Flat, Joined, KeyScheme, TableVisits};
use std::alloc::{AllocError, Global};
use std::io::ErrorKind;

/// The fixed texts of a script, and the separator between the names of a key.
#[derive(Drop)]
pub struct Frame<'a> {
    /// The beginning of the script.
    pub head: TextRef<'a>,
    /// The text after the head, if the script names the program.
    pub named: Option<Named<'a>>,
    /// The text before the key of a table.
    pub key_begin: TextRef<'a>,
    /// The text after the key.
    pub key_end: TextRef<'a>,
    /// The text after the rows of a table.
    pub table_end: TextRef<'a>,
    /// The text between two names of a key.
    pub separator: TextRef<'a>,
    /// The text after the tables.
    pub tail: TextRef<'a>,
}

impl<'a> KeyScheme for Frame<'a> {
    ghost use Rattle.cc_generator.specs.Visits.{joined};

    ghost child_key = { λ frame. joined frame.separator };

    fn child_key(&self, alloc: Global, key: &str, name: &str) -> Result<Text, AllocError> {
        let separator = self.separator.as_str();
        Joined { separator }.child_key(alloc, key, name)
    }
}

/// The fixed texts of a script that names the program twice before its tables.
#[derive(Drop)]
pub struct Named<'a> {
    /// The text between the two occurrences of the name.
    pub between: TextRef<'a>,
    /// The text from the second name to the tables.
    pub completions: TextRef<'a>,
}

/// A way to write the rows of a table.
pub trait TableRows {
    ghost use Rattle.std.specs.Prelude.{List, ℕ, flat_map};
    ghost use Rattle.cc_base.specs.Writes.{Writes, as_write};
    ghost use Rattle.cc_command.specs.Tree.{Tree};

    // the type of a row
    ghost Row: { Type 0 };

    // the rows at a node
    ghost rows: { Self → Tree → List Self.Row };

    // the text of a row
    ghost text: { Self → Self.Row → List ℕ };

    /// Writes the rows at the node of `command`.
    ///
    /// # Errors
    ///
    /// The kind of the put that failed.
    fn write_rows<W: Sink>(&self, sink: &mut W, command: &Command) -> Result<(), ErrorKind>
        ensures { Writes W.taken W.failed (as_write result) sink.old sink.new
            (flat_map (text self.now) (rows self.now command.now)) };
}

/// Writes the script of the tree of `command` to `sink`, with the texts of `frame` and the rows of
/// `rows`.
///
/// # Errors
///
/// `Write` if the sink fails, and `Memory` if an allocation fails.
pub fn write_tables<R: TableRows, W: Sink>(
    alloc: Global,
    sink: &mut W,
    command: &Command,
    frame: &Frame<'_>,
    rows: &R,
) -> Result<(), Error>
    ensures { Writes W.taken W.failed result sink.old sink.new
        (tree_script frame.now (R.text rows.now) (R.rows rows.now) command.now) }
{
    let flat = Flat::new(alloc, command)?;
    let bin_name = full_name(command);
    let visits = TableVisits::new(alloc, &flat, bin_name, frame)?;
    write_frame(alloc, sink, bin_name, visits, frame, rows)
}

// Writes the frame, with a table for each visit.
fn write_frame<R: TableRows, W: Sink>(
    alloc: Global,
    sink: &mut W,
    bin_name: &str,
    visits: TableVisits<'_, '_, Frame<'_>>,
    frame: &Frame<'_>,
    rows: &R,
) -> Result<(), Error>
    ensures { Writes W.taken W.failed result sink.old sink.new (head_text frame.now bin_name.now
        ++ flat_map (λ visit. node_text frame.now (R.text rows.now) (R.rows rows.now) visit.key
        visit.tree) visits.entry ++ frame.now.tail) }
{
    write_head(sink, frame, bin_name)?;
    write_visits(alloc, sink, visits, frame, rows)?;
    put_text(sink, frame.tail.as_str())
}

// Writes the frame up to the tables.
#[tactic(auto, unfolding(crate::specs::Script::head_text, crate::specs::Script::named_text))]
fn write_head<W: Sink>(sink: &mut W, frame: &Frame<'_>, bin_name: &str) -> Result<(), Error>
    ensures { Writes W.taken W.failed result sink.old sink.new
        (head_text frame.now bin_name.now) }
{
    put_text(sink, frame.head.as_str())?;
    match &frame.named {
        Some(named) => write_named(sink, named, bin_name),
        None => Ok(()),
    }
}

// Writes the part that names the program.
fn write_named<W: Sink>(sink: &mut W, named: &Named<'_>, bin_name: &str) -> Result<(), Error>
    ensures { Writes W.taken W.failed result sink.old sink.new
        (bin_name.now ++ named.now.between ++ bin_name.now ++ named.now.completions) }
{
    let between = named.between.as_str();
    put_around(sink, bin_name, between, bin_name)?;
    put_text(sink, named.completions.as_str())
}

// Writes a table for each remaining visit.
#[tactic(auto, using(cc_base::proofs::WrittenTexts::in_steps))]
fn write_visits<R: TableRows, W: Sink>(
    alloc: Global,
    sink: &mut W,
    mut visits: TableVisits<'_, '_, Frame<'_>>,
    frame: &Frame<'_>,
    rows: &R,
) -> Result<(), Error>
    ensures { Writes W.taken W.failed result sink.old sink.new
        (flat_map (λ visit. node_text frame.now (R.text rows.now) (R.rows rows.now) visit.key
        visit.tree) visits.entry) }
{
    while let Some(visit) = visits.next(alloc)? {
        write_table(sink, visit.key.as_str(), visit.command, frame, rows)?;
    }
    Ok(())
}

#[tactic(auto, unfolding(crate::specs::Script::node_text, crate::specs::Script::table_text))]
fn write_table<R: TableRows, W: Sink>(
    sink: &mut W,
    key: &str,
    command: &Command,
    frame: &Frame<'_>,
    rows: &R,
) -> Result<(), ErrorKind>
    ensures { Writes W.taken W.failed (as_write result) sink.old sink.new
        (node_text frame.now (R.text rows.now) (R.rows rows.now) key.now command.now) }
{
    put_around(sink, frame.key_begin.as_str(), key, frame.key_end.as_str())?;
    rows.write_rows(sink, command)?;
    put_piece(sink, frame.table_end.as_str())
}
