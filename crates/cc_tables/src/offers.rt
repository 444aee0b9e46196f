//! The names that a table offers at a node.

ghost use Rattle.std.specs.Prelude.{◌≡◌, List, ℕ, flat_map};
ghost use Rattle.std.specs.Option.{option_copied};
ghost use Rattle.cc_base.specs.Writes.{Writes, as_write};
ghost use Rattle.cc_tables.specs.Offers.{argument_offer, argument_offers, child_offer};
ghost use Rattle.cc_tables.specs.Offers.{child_offers, children_offers, short_offer};
ghost use Rattle.cc_command.specs.Iterators.{arguments_left};
ghost use Rattle.cc_command.specs.Tree.{forest_of};

use crate::tables::TableRows;
use cc_arg::{Arg, ShownName, shown_names};
use cc_base::{Sink, TextRef};
use cc_command::{Arguments, Command};
use std::io::ErrorKind;

/// The kind of a name.
#[derive(Clone, Copy)]
pub enum Kind {
    /// A short of an argument.
    Short,
    /// A long of an argument.
    Long,
    /// A name of a child.
    Subcommand,
}

/// A name that is offered at a node.
#[derive(Drop)]
pub struct Offer<'a> {
    /// The kind of the name.
    pub kind: Kind,
    /// The name, without its dashes.
    pub name: TextRef<'a>,
    /// The help text of the argument, or the description of the child.
    pub description: Option<TextRef<'a>>,
    /// The text to show if there is no description.
    pub fallback: TextRef<'a>,
}

/// A way to write the rows of offers.
pub trait Rows {
    ghost use Rattle.std.specs.Prelude.{List, ℕ};
    ghost use Rattle.cc_base.specs.Writes.{Writes};
    ghost use Rattle.cc_base.specs.Writes.{as_write};
    ghost use Rattle.cc_tables.specs.declared.offers.Offer.{Offer};

    // the text of the row of an offer
    ghost row_text: { Self → Offer → List ℕ };

    /// Writes the row of an `offer`. Inline an impl into the code that builds the offer, because
    /// the kind, and with it the fixed texts, is known there.
    ///
    /// # Errors
    ///
    /// The kind of the put that failed.
    fn write_row<W: Sink>(&self, sink: &mut W, offer: &Offer<'_>) -> Result<(), ErrorKind>
        ensures { Writes W.taken W.failed (as_write result) sink.old sink.new
            (row_text self.now offer.now) };
}

// The rows of a table are the offers at a node: of its options, of its flags and of its children.
impl<R: Rows> TableRows for R {
    ghost use Rattle.cc_tables.specs.Offers.{node_offers};
    ghost use Rattle.cc_tables.specs.declared.offers.Offer.{Offer};

    ghost Row = { Offer };

    ghost rows = { λ _. node_offers };

    ghost text = { R.row_text };

    #[tactic(auto, unfolding(crate::specs::Offers::node_offers))]
    fn write_rows<W: Sink>(&self, sink: &mut W, command: &Command) -> Result<(), ErrorKind> {
        write_arguments(sink, self, command.get_opts())?;
        write_arguments(sink, self, command.get_flags())?;
        write_children(sink, self, command.get_subcommands())
    }
}

/// Writes a row for each shown name of the `arguments`.
///
/// # Errors
///
/// The kind of the put that failed.
#[tactic(auto, using(cc_base::proofs::WrittenTexts::in_steps))]
pub fn write_arguments<R: Rows, W: Sink>(
    sink: &mut W,
    rows: &R,
    arguments: Arguments<'_>,
) -> Result<(), ErrorKind>
    ensures { Writes W.taken W.failed (as_write result) sink.old sink.new
        (flat_map (R.row_text rows.now)
        (flat_map argument_offers (arguments_left arguments.entry))) }
{
    for argument in arguments {
        write_argument(sink, rows, argument)?;
    }
    Ok(())
}

// Writes a row for each shown name of an argument.
#[tactic(auto, using(cc_base::proofs::WrittenTexts::in_steps))]
fn write_argument<R: Rows, W: Sink>(sink: &mut W, rows: &R, argument: &Arg) -> Result<(), ErrorKind>
    ensures { Writes W.taken W.failed (as_write result) sink.old sink.new
        (flat_map (R.row_text rows.now) (argument_offers argument.now)) }
{
    for name in shown_names(argument) {
        write_name(sink, rows, argument, name)?;
    }
    Ok(())
}

fn write_name<R: Rows, W: Sink>(
    sink: &mut W,
    rows: &R,
    argument: &Arg,
    name: ShownName<'_>,
) -> Result<(), ErrorKind>
    ensures { Writes W.taken W.failed (as_write result) sink.old sink.new
        (R.row_text rows.now (argument_offer argument.now name.entry)) }
{
    match name {
        ShownName::Short(short) => write_short(sink, rows, argument, short),
        ShownName::Long(long) => {
            let fallback = TextRef::new(argument.get_long().unwrap_or(long.as_str()));
            let description = help_of(argument.get_help());
            let offer = Offer {
                kind: Kind::Long,
                name: long,
                description,
                fallback,
            };
            rows.write_row(sink, &offer)
        }
    }
}

fn write_short<R: Rows, W: Sink>(
    sink: &mut W,
    rows: &R,
    argument: &Arg,
    short: char,
) -> Result<(), ErrorKind>
    ensures { Writes W.taken W.failed (as_write result) sink.old sink.new
        (R.row_text rows.now (short_offer argument.now short)) }
{
    let mut name = [0; 4];
    let mut fallback = [0; 4];
    let own = argument.get_short().unwrap_or(short);
    let offer = Offer {
        kind: Kind::Short,
        name: TextRef::new(short.encode_utf8(&mut name)),
        description: help_of(argument.get_help()),
        fallback: TextRef::new(own.encode_utf8(&mut fallback)),
    };
    rows.write_row(sink, &offer)
}

fn help_of<'a>(help: Option<&'a str>) -> Option<TextRef<'a>>
    ensures { result ≡ option_copied help.entry }
{
    match help {
        Some(help) => Some(TextRef::new(help)),
        None => None,
    }
}

#[tactic(auto, using(cc_base::proofs::WrittenTexts::in_steps))]
fn write_children<R: Rows, W: Sink>(
    sink: &mut W,
    rows: &R,
    children: &[Command],
) -> Result<(), ErrorKind>
    ensures { Writes W.taken W.failed (as_write result) sink.old sink.new
        (flat_map (R.row_text rows.now) (children_offers (forest_of children.now))) }
{
    for child in children {
        write_child(sink, rows, child)?;
    }
    Ok(())
}

// Writes a row for each visible name of a child.
#[tactic(auto, using(cc_base::proofs::WrittenTexts::in_steps))]
fn write_child<R: Rows, W: Sink>(sink: &mut W, rows: &R, child: &Command) -> Result<(), ErrorKind>
    ensures { Writes W.taken W.failed (as_write result) sink.old sink.new
        (flat_map (R.row_text rows.now) (child_offers child.now.node)) }
{
    for name in child.get_name_and_visible_aliases() {
        write_child_name(sink, rows, child, name)?;
    }
    Ok(())
}

fn write_child_name<R: Rows, W: Sink>(
    sink: &mut W,
    rows: &R,
    child: &Command,
    name: &str,
) -> Result<(), ErrorKind>
    ensures { Writes W.taken W.failed (as_write result) sink.old sink.new
        (R.row_text rows.now (child_offer child.now.node name.now)) }
{
    let offer = Offer {
        kind: Kind::Subcommand,
        name: TextRef::new(name),
        description: help_of(child.get_about()),
        fallback: TextRef::new(name),
    };
    rows.write_row(sink, &offer)
}
