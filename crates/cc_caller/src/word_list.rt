//! A generator outside the library.

ghost use Rattle.std.specs.Prelude.{flat_map, map, string_bytes};
ghost use Rattle.clap_complete.specs.cc_base.Writes.{Writes};
ghost use Rattle.cc_caller.specs.WordList.{line};

use clap_complete::Error;
use clap_complete::aot::{Generator, Sink, put_all, utils};
use clap_complete::command::Command;
use std::alloc::Global;

/// Writes a line for each long of a command, such as `--help`. The file of a program `N` is
/// `N.words`.
#[derive(Clone, Copy)]
pub struct WordList;

impl Generator for WordList {
    ghost use Rattle.cc_caller.specs.WordList.{word_list_spec};

    ghost spec = { λ _. word_list_spec };

    fn file_name(&self, alloc: Global, name: &str) -> Result<String, Error> {
        Ok([name, ".words"].concat(alloc)?)
    }

    #[tactic(auto, using(crate::proofs::LinesRead::lists_longs))]
    fn generate<W: Sink>(
        &self,
        alloc: Global,
        command: &Command,
        sink: &mut W,
    ) -> Result<(), Error> {
        let longs = utils::longs_and_visible_aliases(alloc, command)?;
        write_lines(longs.as_slice(), sink)
    }
}

#[tactic(auto, using(cc_base::proofs::WrittenTexts::in_steps))]
fn write_lines<W: Sink>(longs: &[String], sink: &mut W) -> Result<(), Error>
    ensures { Writes W.taken W.failed result sink.old sink.new
        (flat_map line (map string_bytes longs.now)) }
{
    for long in longs {
        write_line(long.as_str(), sink)?;
    }
    Ok(())
}

#[tactic(auto, using(cc_base::proofs::WrittenTexts::after_bytes))]
fn write_line<W: Sink>(long: &str, sink: &mut W) -> Result<(), Error>
    ensures { Writes W.taken W.failed result sink.old sink.new (line long.now) }
{
    put_all(sink, "--".as_bytes())?;
    put_all(sink, long.as_bytes())?;
    put_all(sink, "\n".as_bytes())
}
