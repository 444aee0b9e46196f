//! Escapes, by which texts of a tree become roff.

ghost use Rattle.std.specs.Prelude.{◌≡◌, ◌++◌, Some, None, codes, if◌then◌else◌};
ghost use Rattle.std.specs.Option.{option_copied};
ghost use Rattle.cc_base.specs.Writes.{Writes, as_write};
ghost use Rattle.complgen_man.specs.Page.{bold_text, further_bold, paragraph_text, request_text};
ghost use Rattle.complgen_man.specs.Roff.{escaped_prose, escaped_word, is_control};

use cc_base::{Sink, put_piece, put_pieces};
use cc_quote::{ByteEscape, put_escaped};
use std::io::ErrorKind;

// The escape of a text on one line. A control character becomes a space.
struct WordEscape;

impl ByteEscape for WordEscape {
    ghost use Rattle.complgen_man.specs.Roff.{is_escaped, word_replacement};

    ghost escapes = { λ _. is_escaped };

    ghost replacement = { λ _. word_replacement };

    fn replacement(&self, byte: u8) -> Option<&'static str> {
        match byte {
            b'\\' => Some("\\(rs"),
            b'-' => Some("\\-"),
            b'"' => Some("\\(dq"),
            b'\'' => Some("\\(aq"),
            b'`' => Some("\\(ga"),
            b'^' => Some("\\(ha"),
            b'~' => Some("\\(ti"),
            _ => control_replacement(byte),
        }
    }
}

// The escape of a text of several lines, which begin on lines of their own.
struct ProseEscape;

impl ByteEscape for ProseEscape {
    ghost use Rattle.complgen_man.specs.Roff.{is_escaped, prose_replacement};

    ghost escapes = { λ _. is_escaped };

    ghost replacement = { λ _. prose_replacement };

    fn replacement(&self, byte: u8) -> Option<&'static str> {
        match byte {
            b'\n' => Some("\n.br\n\\&"),
            _ => WordEscape.replacement(byte),
        }
    }
}

// Returns a space instead of a control character.
fn control_replacement(byte: u8) -> Option<&'static str>
    ensures { option_copied result ≡ (if is_control byte then Some (codes " ") else None) }
{
    if byte < 32 || byte == 127 {
        return Some(" ");
    }
    None
}

/// Puts a name, or another text that is shown on one line.
#[tactic(auto, unfolding(crate::specs::Roff::escaped_word))]
pub(crate) fn put_word<W: Sink>(sink: &mut W, text: &str) -> Result<(), ErrorKind>
    ensures { Writes W.taken W.failed (as_write result) sink.old sink.new (escaped_word text.now) }
{
    put_escaped(sink, &WordEscape, text)
}

#[tactic(auto, unfolding(crate::specs::Roff::escaped_prose))]
fn put_prose<W: Sink>(sink: &mut W, text: &str) -> Result<(), ErrorKind>
    ensures { Writes W.taken W.failed (as_write result) sink.old sink.new (escaped_prose text.now) }
{
    put_escaped(sink, &ProseEscape, text)
}

/// Puts a text that begins with a request: a period at the start of a line, and its name.
#[tactic(auto, using(cc_base::proofs::WrittenTexts::after_bytes), unfolding(crate::specs::Page::request_text))]
pub(crate) fn put_request<W: Sink>(sink: &mut W, text: &str) -> Result<(), ErrorKind>
    ensures { Writes W.taken W.failed (as_write result) sink.old sink.new (request_text text.now) }
{
    put_pieces(sink, &[".", text])
}

/// Puts a name, or another text that is shown on one line, between two texts.
pub(crate) fn put_word_between<'a, W: Sink>(
    sink: &mut W,
    before: &'a str,
    word: &'a str,
    after: &'a str,
) -> Result<(), ErrorKind>
    ensures { Writes W.taken W.failed (as_write result) sink.old sink.new
        (before.now ++ escaped_word word.now ++ after.now) }
{
    put_piece(sink, before)?;
    put_word(sink, word)?;
    put_piece(sink, after)
}

/// Writes a text in bold.
#[tactic(auto, unfolding(crate::specs::Page::bold_text))]
pub(crate) fn write_bold<W: Sink>(sink: &mut W, text: &str) -> Result<(), ErrorKind>
    ensures { Writes W.taken W.failed (as_write result) sink.old sink.new (bold_text text.now) }
{
    put_word_between(sink, "\\fB", text, "\\fR")
}

/// Writes a text in bold that follows another.
#[tactic(auto, unfolding(crate::specs::Page::further_bold, crate::specs::Page::bold_text))]
pub(crate) fn write_further_bold<W: Sink>(sink: &mut W, text: &str) -> Result<(), ErrorKind>
    ensures { Writes W.taken W.failed (as_write result) sink.old sink.new (further_bold text.now) }
{
    put_word_between(sink, ", \\fB", text, "\\fR")
}

/// Writes a help text on lines of its own.
#[tactic(auto, using(cc_base::proofs::WrittenTexts::after_bytes), unfolding(crate::specs::Page::paragraph_text))]
pub(crate) fn write_paragraph<W: Sink>(sink: &mut W, text: &str) -> Result<(), ErrorKind>
    ensures { Writes W.taken W.failed (as_write result) sink.old sink.new
        (paragraph_text text.now) }
{
    put_piece(sink, "\\&")?;
    put_prose(sink, text)?;
    put_piece(sink, "\n")
}
