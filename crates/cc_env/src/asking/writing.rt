//! Writes the answer to a request.

ghost use Rattle.std.specs.Prelude.{◌≡◌, IfErr};
ghost use Rattle.cc_base.specs.Writes.{IsWrite, Writes, as_write};
ghost use Rattle.cc_env.specs.Answers.{seen};
ghost use Rattle.cc_env.specs.RunWords.{ReadBack, written_word, written_words};
ghost use Rattle.cc_env.specs.WrittenAnswers.{status_of, written_bytes};

use crate::asking::answers::Answer;
use cc_base::{Error, Sink, Text, put_all, put_piece};
use std::io::ErrorKind;

impl Answer {
    /// Returns the exit status after the answer: 0 after a text, 3 after the words of a command for
    /// the shell to run, and 4 after a reply after whose values no space follows.
    pub fn status(&self) -> u8
        ensures { result ≡ status_of (seen self.now) }
    {
        match self {
            Answer::Text(_) => 0,
            Answer::TextWithoutSpace(_) => 4,
            Answer::Run(_) => 3,
        }
    }
}

/// Writes the answer to `out`: the text, or the words as `write_run_words` writes them.
///
/// # Errors
///
/// `Write` if `out` fails, which then holds a beginning of the answer.
pub fn write_answer<W: Sink>(answer: &Answer, out: &mut W) -> Result<(), Error>
    ensures written { Writes W.taken W.failed result out.old out.new
        (written_bytes (seen answer.now)) }
    ensures write_only { IfErr result IsWrite }
{
    match answer {
        Answer::Text(text) => put_all(out, text.as_slice()),
        Answer::TextWithoutSpace(text) => put_all(out, text.as_slice()),
        Answer::Run(words) => write_run_words(words.as_slice(), out),
    }
}

/// Writes the words of a command, each with a vertical tab after it. A registration reads the words
/// back, if they can run.
///
/// # Errors
///
/// `Write` if the sink fails.
#[tactic(auto, using(crate::proofs::WordsRead::words_back))]
pub fn write_run_words<W: Sink>(words: &[Text], out: &mut W) -> Result<(), Error>
    ensures written { Writes W.taken W.failed result out.old out.new (written_words words.now) }
    ensures write_only { IfErr result IsWrite }
    ensures read_back { ReadBack words.now }
{
    Ok(put_words(words, out)?)
}

#[tactic(auto, using(cc_base::proofs::WrittenTexts::in_steps))]
fn put_words<W: Sink>(words: &[Text], out: &mut W) -> Result<(), ErrorKind>
    ensures { Writes W.taken W.failed (as_write result) out.old out.new (written_words words.now) }
{
    for word in words {
        put_word(word.as_str(), out)?;
    }
    Ok(())
}

fn put_word<W: Sink>(word: &str, out: &mut W) -> Result<(), ErrorKind>
    ensures { Writes W.taken W.failed (as_write result) out.old out.new (written_word word.now) }
{
    put_piece(out, word)?;
    put_piece(out, "\x0b")
}
