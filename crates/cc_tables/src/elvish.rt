//! The Elvish script: a frame with a table for each visible path.

ghost use Rattle.std.specs.Prelude.{◌≡◌, ◌++◌};
ghost use Rattle.cc_tables.specs.ElvishScript.{elvish_frame, offer_row, row_begin};
ghost use Rattle.cc_tables.specs.Offers.{dashes};

use crate::offers::{Kind, Offer, Rows};
use crate::tables::{Frame, Named, write_tables};
use cc_base::{Error, Sink, TextRef, put_around, put_piece};
use cc_command::Command;
use cc_generator::Generator;
use cc_quote::{ElvishEscape, put_escaped};
use std::alloc::Global;
use std::io::ErrorKind;

// ---- fixed texts

// Returns the frame, and the texts around a key and around the rows of a table.
#[tactic(auto, unfolding(crate::specs::ElvishScript::elvish_frame, crate::specs::ElvishScript::elvish_named))]
fn frame() -> Frame<'static>
    ensures { result ≡ elvish_frame }
{
    let head = "
use builtin;
use str;

set edit:completion:arg-completer[";
    let between = "] = {|@words|
    fn spaces {|n|
        builtin:repeat $n ' ' | str:join ''
    }
    fn cand {|text desc|
        edit:complex-candidate $text &display=$text' '(spaces (- 14 (wcswidth $text)))$desc
    }
    var command = '";
    let completions = "'
    for word $words[1..-1] {
        if (str:has-prefix $word '-') {
            break
        }
        set command = $command';'$word
    }
    var completions = [";
    let tail = "
    ]
    $completions[$command]
}
";
    Frame {
        head: TextRef::new(head),
        named: Some(Named {
            between: TextRef::new(between),
            completions: TextRef::new(completions),
        }),
        key_begin: TextRef::new("\n        &'"),
        key_end: TextRef::new("'= {"),
        table_end: TextRef::new("\n        }"),
        separator: TextRef::new(";"),
        tail: TextRef::new(tail),
    }
}

// Returns the text before a name of the given kind, including its dashes.
#[tactic(auto, unfolding(crate::specs::ElvishScript::row_begin))]
fn row_begin(kind: Kind) -> &'static str
    ensures { result.now ≡ row_begin ++ dashes kind }
{
    match kind {
        Kind::Short => "\n            cand -",
        Kind::Long => "\n            cand --",
        Kind::Subcommand => "\n            cand ",
    }
}

/// The generator of Elvish scripts. The script of a program `N` goes into the file `N.elv`.
#[derive(Clone, Copy, PartialEq, Eq, Debug)]
pub struct Elvish;

impl Generator for Elvish {
    ghost use Rattle.cc_tables.specs.ElvishReader.{elvish_spec};

    ghost spec = { λ _. elvish_spec };

    fn file_name(&self, alloc: Global, name: &str) -> Result<String, Error> {
        Ok([name, ".elv"].concat(alloc)?)
    }

    #[tactic(auto, using(crate::proofs::ElvishPlain::elvish_plain_reads))]
    fn generate<W: Sink>(
        &self,
        alloc: Global,
        command: &Command,
        sink: &mut W,
    ) -> Result<(), Error> {
        write_tables(alloc, sink, command, &frame(), self)
    }
}

impl Rows for Elvish {
    ghost use Rattle.cc_tables.specs.ElvishScript.{offer_text};

    ghost row_text = { λ _. offer_text };

    #[tactic(auto, unfolding(crate::specs::ElvishScript::offer_text, crate::specs::ElvishScript::row_text, crate::specs::ElvishScript::text_begin, crate::specs::ElvishScript::row_end))]
    #[inline(always)]
    fn write_row<W: Sink>(&self, sink: &mut W, offer: &Offer<'_>) -> Result<(), ErrorKind> {
        let name = offer.name.as_str();
        put_around(sink, row_begin(offer.kind), name, " '")?;
        put_escaped(sink, &ElvishEscape, shown_text(offer))?;
        put_piece(sink, "'")
    }
}

// Returns the description of an offer, or the fallback if it has no description.
fn shown_text<'a>(offer: &'a Offer<'_>) -> &'a str
    ensures { result.now ≡ (offer_row offer.now).text }
{
    match &offer.description {
        Some(description) => description.as_str(),
        None => offer.fallback.as_str(),
    }
}
