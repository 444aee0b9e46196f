//! Names between two quotes of PowerShell, which takes `'` and U+2018, U+2019, U+201A and U+201B as
//! quotes. `cc_quote` escapes two of them, as the original does.

ghost use Rattle.std.specs.Prelude.{◌≡◌};
ghost use Rattle.cc_base.specs.Writes.{Writes};
ghost use Rattle.cc_registrations.specs.AllQuotes.{all_escaped, before_byte, begins_any_quote};
ghost use Rattle.cc_registrations.specs.Names.{powershell_quoted};

use cc_base::{Error, Sink, put_all, put_text};

/// Writes `text` between two `'`, for PowerShell: a `'` before each of the five quotes. PowerShell
/// takes any other character there as itself, also a line feed.
#[tactic(auto, using(cc_base::proofs::WrittenTexts::after_bytes), unfolding(crate::specs::Names::powershell_quoted))]
pub(crate) fn put_powershell_quoted<W: Sink>(sink: &mut W, text: &str) -> Result<(), Error>
    ensures { Writes W.taken W.failed result sink.old sink.new (powershell_quoted text.now) }
{
    put_text(sink, "'")?;
    put_all_escaped(sink, text)?;
    put_text(sink, "'")
}

// Writes `text` with a `'` before each quote.
#[tactic(auto, using(crate::proofs::InLoops::in_parts), unfolding(crate::specs::AllQuotes::all_escaped))]
fn put_all_escaped<W: Sink>(sink: &mut W, text: &str) -> Result<(), Error>
    ensures { Writes W.taken W.failed result sink.old sink.new (all_escaped text.now) }
{
    let mut rest = text.as_bytes();
    while let Some((byte, next)) = rest.split_first() {
        put_text(sink, before_byte(*byte, next))?;
        put_all(sink, &[*byte])?;
        rest = next;
    }
    Ok(())
}

// Returns the text before a byte: a `'` if a quote begins there. `rest` is the text after the byte.
#[tactic(auto, unfolding(crate::specs::AllQuotes::before_byte))]
fn before_byte(byte: u8, rest: &[u8]) -> &'static str
    ensures { result.now ≡ before_byte byte rest.now }
{
    if begins_any_quote(byte, rest) {
        "'"
    } else {
        ""
    }
}

// Returns whether a quote begins at a byte. The first byte of U+2018 to U+201B is 226, the second
// 128, and the third between 152 and 155.
fn begins_any_quote(byte: u8, rest: &[u8]) -> bool
    ensures { result ≡ begins_any_quote byte rest.now }
{
    match byte {
        b'\'' => true,
        226 => matches!(rest, [128, 152 | 153 | 154 | 155, ..]),
        _ => false,
    }
}
