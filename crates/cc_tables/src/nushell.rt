//! The Nushell script: a frame with a block for each visible path.

ghost use Rattle.std.specs.Prelude.{◌≡◌, ◌++◌, false, flat_map, true};
ghost use Rattle.cc_base.specs.Writes.{Writes, as_write};
ghost use Rattle.cc_quote.specs.QuotedWord.{line_feeds_as_spaces};
ghost use Rattle.cc_tables.specs.NushellScript.{help_text, line_begin};
ghost use Rattle.cc_tables.specs.NushellScript.{nushell_frame, offer_text, type_text};
ghost use Rattle.cc_command.specs.ArgumentLists.{flags, options};
ghost use Rattle.cc_tables.specs.Offers.{argument_offers, dashes};

use crate::offers::{Kind, Offer, Rows, write_arguments};
use crate::tables::{Frame, TableRows, write_tables};
use cc_base::{Error, Sink, TextRef, put_around, put_piece};
use cc_command::Command;
use cc_generator::Generator;
use cc_quote::{Replace, put_escaped};
use std::alloc::Global;
use std::io::ErrorKind;

// ---- fixed texts

// Returns the frame, and the texts around a key and around the lines of a block.
#[tactic(auto, unfolding(crate::specs::NushellScript::nushell_frame))]
fn frame() -> Frame<'static>
    ensures { result ≡ nushell_frame }
{
    Frame {
        head: TextRef::new("module completions {\n\n"),
        named: None,
        key_begin: TextRef::new("  export extern \""),
        key_end: TextRef::new("\" [\n"),
        table_end: TextRef::new("  ]\n\n"),
        separator: TextRef::new(" "),
        tail: TextRef::new("}\n\nexport use completions *\n"),
    }
}

// Returns the text before a name of the given kind, including its dashes.
#[tactic(auto, unfolding(crate::specs::NushellScript::line_begin))]
fn line_begin(kind: Kind) -> &'static str
    ensures { result.now ≡ line_begin ++ dashes kind }
{
    match kind {
        Kind::Short => "    -",
        Kind::Long => "    --",
        Kind::Subcommand => "    ",
    }
}

// Returns the text after a name.
#[tactic(auto, unfolding(crate::specs::NushellScript::type_text, crate::specs::NushellScript::value_text))]
fn type_text(takes_value: bool) -> &'static str
    ensures { result.now ≡ type_text takes_value }
{
    if takes_value { ": string" } else { "" }
}

/// The generator of Nushell scripts. The script of a program `N` goes into the file `N.nu`.
#[derive(Clone, Copy, PartialEq, Eq, Debug)]
pub struct Nushell;

impl Generator for Nushell {
    ghost use Rattle.cc_tables.specs.NushellReader.{nushell_spec};

    ghost spec = { λ _. nushell_spec };

    fn file_name(&self, alloc: Global, name: &str) -> Result<String, Error> {
        Ok([name, ".nu"].concat(alloc)?)
    }

    #[tactic(auto, using(crate::proofs::NushellPlain::nushell_plain_reads))]
    fn generate<W: Sink>(
        &self,
        alloc: Global,
        command: &Command,
        sink: &mut W,
    ) -> Result<(), Error> {
        write_tables(alloc, sink, command, &frame(), self)
    }
}

impl TableRows for Nushell {
    ghost use Rattle.cc_tables.specs.NushellScript.{Line, line_text, node_lines};

    ghost Row = { Line };

    ghost rows = { λ _. node_lines };

    ghost text = { λ _. line_text };

    #[tactic(auto, using(crate::proofs::NushellTexts::lines_of_node))]
    fn write_rows<W: Sink>(&self, sink: &mut W, command: &Command) -> Result<(), ErrorKind> {
        write_lines(sink, command)
    }
}

// Writes the lines of the options, then those of the flags.
fn write_lines<W: Sink>(sink: &mut W, command: &Command) -> Result<(), ErrorKind>
    ensures { Writes W.taken W.failed (as_write result) sink.old sink.new
        (flat_map (offer_text true) (flat_map argument_offers (options command.now.node))
        ++ flat_map (offer_text false) (flat_map argument_offers (flags command.now.node))) }
{
    write_arguments(sink, &Lines { takes_value: true }, command.get_opts())?;
    write_arguments(sink, &Lines { takes_value: false }, command.get_flags())
}

// The lines of options, which take a value, or of flags.
struct Lines {
    pub takes_value: bool,
}

impl Rows for Lines {
    ghost use Rattle.cc_tables.specs.NushellScript.{offer_text};

    ghost row_text = { λ lines. offer_text lines.takes_value };

    #[tactic(auto, unfolding(crate::specs::NushellScript::offer_text, crate::specs::NushellScript::line_text, crate::specs::NushellScript::content))]
    #[inline(always)]
    fn write_row<W: Sink>(&self, sink: &mut W, offer: &Offer<'_>) -> Result<(), ErrorKind> {
        let name = offer.name.as_str();
        let shown_type = type_text(self.takes_value);
        put_around(sink, line_begin(offer.kind), name, shown_type)?;
        write_help(sink, offer)?;
        put_piece(sink, "\n")
    }
}

// Writes the help text, if there is one.
#[tactic(auto, using(cc_base::proofs::WrittenTexts::after_bytes), unfolding(crate::specs::NushellScript::help_text, crate::specs::NushellScript::help_begin))]
fn write_help<W: Sink>(sink: &mut W, offer: &Offer<'_>) -> Result<(), ErrorKind>
    ensures { Writes W.taken W.failed (as_write result) sink.old sink.new
        (help_text offer.now.description) }
{
    match &offer.description {
        Some(help) => {
            put_piece(sink, " # ")?;
            put_one_line(sink, help.as_str())
        }
        None => Ok(()),
    }
}

// Writes a text on one line, with each line feed as a space.
fn put_one_line<W: Sink>(sink: &mut W, text: &str) -> Result<(), ErrorKind>
    ensures { Writes W.taken W.failed (as_write result) sink.old sink.new
        (line_feeds_as_spaces text.now) }
{
    let escape = Replace {
        byte: b'\n',
        by: " ",
    };
    put_escaped(sink, &escape, text)
}
