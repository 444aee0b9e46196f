//! The candidates for a word, written as a shell reads them. All adapters share this.

ghost use Rattle.std.specs.Prelude.{ℕ, IfErr, List, map, string_bytes};
ghost use Rattle.cc_env.specs.WantedWords.{WantsAtLast, WantsThese};
ghost use Rattle.cc_env.specs.Replies.{Replies};
ghost use Rattle.cc_env.specs.SafeShells.{safe_reply};
ghost use Rattle.cc_base.specs.Writes.{IsWrite, Writes};
ghost use Rattle.cc_candidates.specs.declared.candidate.CompletionCandidate.{CompletionCandidate};
ghost use Rattle.cc_engine.specs.Completion.{Completes};
ghost use Rattle.cc_replies.specs.Reply.{lines_reply, values_reply, zsh_reply};

use crate::builtin::Builtin;
use cc_base::{Error, Sink};
use cc_candidates::CompletionCandidate;
use cc_command::Command;
use cc_engine::{Lookup, complete_from};
use cc_replies::{
    Cursor, write_bash_list, write_lines, write_powershell_words, write_safe_lines,
    write_safe_values, write_safe_zsh_items, write_values, write_zsh_items,
};
use std::alloc::Global;

/// The format in which a shell reads candidates.
pub(crate) trait ReplyFormat {
    // the text of some candidates
    ghost text: { Self → List CompletionCandidate → List ℕ };

    /// Writes some candidates.
    ///
    /// # Errors
    ///
    /// `Write` if the sink fails, and no other error.
    fn write<W: Sink>(&self, found: &[CompletionCandidate], sink: &mut W) -> Result<(), Error>
        ensures written { Writes W.taken W.failed result sink.old sink.new
            (text self.now found.now) }
        ensures write_only { IfErr result IsWrite };
}

/// Writes the values, with this text between two.
#[derive(Drop)]
pub(crate) struct Values<'s>(pub &'s str);

impl ReplyFormat for Values<'_> {
    ghost text = { λ format found. values_reply format.0.now found };

    fn write<W: Sink>(&self, found: &[CompletionCandidate], sink: &mut W) -> Result<(), Error> {
        write_values(sink, self.0, found)
    }
}

/// Writes the values and their help texts as zsh reads them, with this text between two.
#[derive(Drop)]
pub(crate) struct ZshItems<'s>(pub &'s str);

impl ReplyFormat for ZshItems<'_> {
    ghost text = { λ format found. zsh_reply format.0.now found };

    fn write<W: Sink>(&self, found: &[CompletionCandidate], sink: &mut W) -> Result<(), Error> {
        write_zsh_items(sink, self.0, found)
    }
}

/// Writes a line for each candidate.
#[derive(Drop)]
pub(crate) struct Lines;

impl ReplyFormat for Lines {
    ghost text = { λ _ found. lines_reply found };

    fn write<W: Sink>(&self, found: &[CompletionCandidate], sink: &mut W) -> Result<(), Error> {
        write_lines(sink, found)
    }
}

/// Writes texts that the shell inserts as the values that they mean.
#[derive(Drop)]
pub(crate) struct SafeReply<'s> {
    /// The shell.
    pub(crate) shell: Builtin,
    /// The shell's line.
    pub(crate) cursor: Cursor<'s>,
}

impl ReplyFormat for SafeReply<'_> {
    ghost text = { λ format found. safe_reply format.shell format.cursor found };

    fn write<W: Sink>(&self, found: &[CompletionCandidate], sink: &mut W) -> Result<(), Error> {
        match self.shell {
            Builtin::Bash => write_bash_list(sink, &self.cursor, found),
            Builtin::Elvish => write_safe_values(sink, found),
            Builtin::Fish => write_safe_lines(sink, found),
            Builtin::Powershell => {
                write_powershell_words(sink, self.cursor.quote.is_double(), found)
            }
            Builtin::Zsh => write_safe_zsh_items(sink, self.cursor.ascii_only, found),
        }
    }
}

/// The words of a command line, and the index of the one to complete.
#[derive(Drop)]
pub(crate) struct WantedWords {
    pub(crate) words: Vec<String>,
    pub(crate) index: usize,
}

impl WantedWords {
    /// Asks for the last word; for index 0 if there are no words.
    pub(crate) fn at_last(words: Vec<String>) -> WantedWords
        ensures { WantsAtLast (map string_bytes words.items)
            (map string_bytes result.words.items) result.index }
    {
        let index = words.len().saturating_sub(1);
        WantedWords { words, index }
    }
}

/// Writes the candidates for the wanted word in `format`.
///
/// # Errors
///
/// Those of `EnvCompleter::write_complete`.
pub(crate) fn reply_at<L: Lookup, F: ReplyFormat, W: Sink>(
    alloc: Global,
    command: &mut Command,
    wanted: WantedWords,
    lookup: &L,
    format: &F,
    sink: &mut W,
) -> Result<(), Error>
    ensures { Replies W.taken W.failed result sink.old sink.new command.old command.new
        (WantsThese (map string_bytes wanted.words.items) wanted.index)
        (Completes (L.may_return lookup.now) command.new) (F.text format.now) }
{
    let found = complete_from(alloc, command, wanted.words, wanted.index, lookup)?;
    format.write(found.as_slice(), sink)
}
