//! Writes the words of the command that lists the values for a word.

ghost use Rattle.std.specs.Prelude.{◌≡◌, ◌++◌, IfErr, IfOk, OnOk, length, map, string_bytes};
ghost use Rattle.std.specs.Option.{option_copied};
ghost use Rattle.json.specs.Lex.{tokens};
ghost use Rattle.complgen_plans.specs.Replies.{FindsNone};
ghost use Rattle.complgen_plans.specs.Wanted.{EndsWanted, IsWanted, array_line, array_text};
ghost use Rattle.complgen_plans.specs.Wanted.{array_tokens, text_tokens};

use crate::word_at::WordAt;
use cc_base::{Error, Sink, Text, put_all};
use cc_command::{Command, Release};
use cc_env::wanted_command;
use complgen_scripts::{Refusal, error_refusal, tree};
use json::{Token, Writer};
use std::alloc::{AllocError, Global};

/// Writes the words of the command that lists the values for `word` to `out`, as a JSON array on
/// one line. Writes nothing if the word asks for no values, or if they do not come from a command.
/// Runs no command. `file` has the bytes of the tree file, or is `None` if it cannot be read.
///
/// # Errors
///
/// A refusal with status 1 if the file cannot be read or describes no command, if the index is out
/// of range, if a write fails, or if an allocation fails.
pub(crate) fn write_wanted<W: Sink>(
    alloc: Global,
    word: WordAt<'_>,
    file: Option<&[u8]>,
    out: &mut W,
) -> Result<(), Refusal>
    ensures { EndsWanted W.taken W.failed (map string_bytes word.entry.words.now)
        word.entry.index (option_copied file.entry) out.old out.new result }
{
    let command = tree(alloc, file, Release::AtExit)?;
    let text = match wanted_text(alloc, command, word) {
        Ok(text) => text,
        Err(error) => return Err(error_refusal(alloc, &error)),
    };
    match put_all(out, text.as_slice()) {
        Ok(()) => Ok(()),
        Err(error) => Err(error_refusal(alloc, &error)),
    }
}

// Returns what is written for `word`.
fn wanted_text(alloc: Global, mut command: Command, word: WordAt<'_>) -> Result<Vec<u8>, Error>
    ensures ok { IfOk result (λ text. IsWanted (map string_bytes word.entry.words.now)
        word.entry.index command text.items) }
    ensures err { IfErr result
        (FindsNone (length word.entry.words.now) word.entry.index command) }
{
    let words = wanted_command(alloc, &mut command, word.words, word.index);
    // One call here, instead of a drop of each field at each return.
    drop(command);
    match words? {
        Some(words) => Ok(array_line(alloc, words.as_slice())?),
        None => Ok(Vec::new(alloc)),
    }
}

// Returns the JSON array of these texts as a line.
fn array_line(alloc: Global, texts: &[Text]) -> Result<Vec<u8>, AllocError>
    ensures line { IfOk result (λ line. line.items ≡ array_line texts.now) }
    ensures reads { IfOk result (λ line.
        tokens (array_text texts.now) ≡ array_tokens texts.now) }
{
    let mut line = Writer::new(Vec::new(alloc));
    write_array(&mut line, texts)?;
    let mut line = line.into_inner();
    line.push(b'\n')?;
    Ok(line)
}

#[tactic(auto, unfolding(crate::specs::Wanted::array_tokens))]
fn write_array(line: &mut Writer, texts: &[Text]) -> Result<(), AllocError>
    ensures tokens { OnOk result (line.new.tokens ≡ line.old.tokens ++ array_tokens texts.now) }
    ensures before { OnOk result (line.new.before ≡ line.old.before) }
{
    line.begin_array()?;
    write_texts(line, texts)?;
    line.end_array()
}

fn write_texts(line: &mut Writer, texts: &[Text]) -> Result<(), AllocError>
    ensures tokens { OnOk result (line.new.tokens ≡ line.old.tokens ++ text_tokens texts.now) }
    ensures before { OnOk result (line.new.before ≡ line.old.before) }
{
    for text in texts {
        line.string(text.as_str())?;
    }
    Ok(())
}
