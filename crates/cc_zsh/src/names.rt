//! Names of arguments as a user types them, and names of commands without spaces.

ghost use Rattle.std.specs.Prelude.{◌++◌, codes};
ghost use Rattle.cc_base.specs.Bytes.{space};
ghost use Rattle.cc_base.specs.Writes.{Writes, as_write};
ghost use Rattle.cc_quote.specs.Escapes.{replace_byte};
ghost use Rattle.cc_zsh.specs.Nested.{function_label};
ghost use Rattle.cc_zsh.specs.Options.{name_word};

use cc_arg::ShownName;
use cc_base::{Sink, put_piece, put_pieces};
use cc_quote::{Replace, put_escaped};
use std::io::ErrorKind;

/// Writes the name of an argument with its dashes.
pub(crate) fn write_name<W: Sink>(sink: &mut W, name: &ShownName<'_>) -> Result<(), ErrorKind>
    ensures { Writes W.taken W.failed (as_write result) sink.old sink.new (name_word name.now) }
{
    match name {
        ShownName::Short(short) => {
            let mut buffer = [0; 4];
            let short = short.encode_utf8(&mut buffer);
            put_pieces(sink, &["-", short])
        }
        ShownName::Long(long) => put_pieces(sink, &["--", long.as_str()]),
    }
}

/// Writes the name of a function without its first `_`. The text before the name ends with that
/// `_`.
pub(crate) fn write_label<W: Sink>(sink: &mut W, name: &str) -> Result<(), ErrorKind>
    ensures { Writes W.taken W.failed (as_write result) sink.old sink.new
        (function_label name.now) }
{
    let escape = Replace {
        byte: b' ',
        by: "__subcmd__",
    };
    put_escaped(sink, &escape, name)?;
    put_piece(sink, "_commands")
}

/// Writes the name of a function as [`write_label`] does, between two texts.
pub(crate) fn write_label_between<W: Sink>(
    sink: &mut W,
    before: &str,
    name: &str,
    after: &str,
) -> Result<(), ErrorKind>
    ensures { Writes W.taken W.failed (as_write result) sink.old sink.new
        (before.now ++ function_label name.now ++ after.now) }
{
    put_piece(sink, before)?;
    write_label(sink, name)?;
    put_piece(sink, after)
}

pub(crate) fn write_dashed<W: Sink>(sink: &mut W, name: &str) -> Result<(), ErrorKind>
    ensures { Writes W.taken W.failed (as_write result) sink.old sink.new
        (replace_byte space (codes "-") name.now) }
{
    let escape = Replace {
        byte: b' ',
        by: "-",
    };
    put_escaped(sink, &escape, name)
}
