//! The replies of the original, each as its shell reads it.

ghost use Rattle.std.specs.Prelude.{◌≡◌, IfErr, option_map};
ghost use Rattle.std.specs.Option.{option_copied};
ghost use Rattle.cc_base.specs.Writes.{IsWrite, Writes, as_write};
ghost use Rattle.cc_replies.specs.PowershellEntries.{EntriesRead};
ghost use Rattle.cc_replies.specs.Reply.{LinesRead, ValuesRead, ZshReplyRead, colon_help};
ghost use Rattle.cc_replies.specs.Reply.{first_line, lines_reply, shown_line, tab_help};
ghost use Rattle.cc_replies.specs.Reply.{values_reply, without_return, zsh_item, zsh_reply};

use cc_base::{Error, Sink, put_piece, put_pieces, put_separator};
use cc_candidates::CompletionCandidate;
use cc_quote::{ZshReplyHelp, ZshReplyValue, put_escaped};
use std::io::ErrorKind;

/// Writes the values, with the text `between` between two of them: the reply to bash and Elvish.
///
/// # Errors
///
/// `Write` if the sink fails.
#[tactic(auto, using(crate::proofs::ReplyReadings::values_back))]
pub fn write_values<W: Sink>(
    sink: &mut W,
    between: &str,
    candidates: &[CompletionCandidate],
) -> Result<(), Error>
    ensures written { Writes W.taken W.failed result sink.old sink.new
        (values_reply between.now candidates.now) }
    ensures write_only { IfErr result IsWrite }
    ensures read_back { ValuesRead between.now candidates.now }
{
    Ok(put_values(sink, between, candidates)?)
}

/// Writes the values, each with the first line of its help text after a colon, and with the text
/// `between` between two of them: the reply to zsh.
///
/// # Errors
///
/// `Write` if the sink fails.
#[tactic(auto, using(crate::proofs::ReplyReadings::zsh_back))]
pub fn write_zsh_items<W: Sink>(
    sink: &mut W,
    between: &str,
    candidates: &[CompletionCandidate],
) -> Result<(), Error>
    ensures written { Writes W.taken W.failed result sink.old sink.new
        (zsh_reply between.now candidates.now) }
    ensures write_only { IfErr result IsWrite }
    ensures read_back { ZshReplyRead between.now candidates.now }
{
    Ok(put_zsh_items(sink, between, candidates)?)
}

/// Writes a line for each candidate: its value and, if it has a help text, a tab and the first line
/// of that text. Nothing is escaped or left out. fish and PowerShell get this reply, and read it by
/// rules of their own.
///
/// # Errors
///
/// `Write` at the first put that fails. The sink then holds a beginning of the reply.
#[tactic(auto, using(crate::proofs::ReplyReadings::lines_back, crate::proofs::EntryReadings::entries_back))]
pub fn write_lines<W: Sink>(sink: &mut W, candidates: &[CompletionCandidate]) -> Result<(), Error>
    ensures written { Writes W.taken W.failed result sink.old sink.new
        (lines_reply candidates.now) }
    ensures write_only { IfErr result IsWrite }
    ensures read_back { LinesRead candidates.now }
    ensures entries { EntriesRead candidates.now }
{
    Ok(put_lines(sink, candidates)?)
}

#[tactic(auto, using(crate::proofs::InLoops::in_parts))]
fn put_values<W: Sink>(
    sink: &mut W,
    between: &str,
    candidates: &[CompletionCandidate],
) -> Result<(), ErrorKind>
    ensures { Writes W.taken W.failed (as_write result) sink.old sink.new
        (values_reply between.now candidates.now) }
{
    let mut begun = false;
    for candidate in candidates {
        let value = candidate.get_value();
        put_separator(sink, between, &mut begun)?;
        put_piece(sink, value)?;
    }
    Ok(())
}

#[tactic(auto, using(crate::proofs::InLoops::in_parts))]
fn put_zsh_items<W: Sink>(
    sink: &mut W,
    between: &str,
    candidates: &[CompletionCandidate],
) -> Result<(), ErrorKind>
    ensures { Writes W.taken W.failed (as_write result) sink.old sink.new
        (zsh_reply between.now candidates.now) }
{
    let mut begun = false;
    for candidate in candidates {
        let value = candidate.get_value();
        put_separator(sink, between, &mut begun)?;
        put_zsh_item(sink, value, help_line(candidate.get_help()))?;
    }
    Ok(())
}

/// Writes a value as zsh reads it, with its help text after a colon.
#[tactic(auto, unfolding(crate::specs::Reply::zsh_item))]
pub(crate) fn put_zsh_item<W: Sink>(
    sink: &mut W,
    value: &str,
    help: Option<&str>,
) -> Result<(), ErrorKind>
    ensures { Writes W.taken W.failed (as_write result) sink.old sink.new
        (zsh_item (record { value = value.now; help = option_copied help.entry })) }
{
    put_escaped(sink, &ZshReplyValue, value)?;
    put_colon_help(sink, help)
}

#[tactic(auto, using(cc_base::proofs::WrittenTexts::after_bytes), unfolding(crate::specs::Reply::colon_help))]
fn put_colon_help<W: Sink>(sink: &mut W, help: Option<&str>) -> Result<(), ErrorKind>
    ensures { Writes W.taken W.failed (as_write result) sink.old sink.new
        (colon_help (option_copied help.entry)) }
{
    let Some(help) = help else {
        return Ok(());
    };
    put_piece(sink, ":")?;
    put_escaped(sink, &ZshReplyHelp, help)
}

#[tactic(auto, using(cc_base::proofs::WrittenTexts::in_steps))]
fn put_lines<W: Sink>(sink: &mut W, candidates: &[CompletionCandidate]) -> Result<(), ErrorKind>
    ensures { Writes W.taken W.failed (as_write result) sink.old sink.new
        (lines_reply candidates.now) }
{
    for candidate in candidates {
        put_shown_line(sink, candidate.get_value(), help_line(candidate.get_help()))?;
    }
    Ok(())
}

/// Writes a line with a value, and with its help text after a tab.
#[tactic(auto, unfolding(crate::specs::Reply::shown_line))]
pub(crate) fn put_shown_line<W: Sink>(
    sink: &mut W,
    value: &str,
    help: Option<&str>,
) -> Result<(), ErrorKind>
    ensures { Writes W.taken W.failed (as_write result) sink.old sink.new
        (shown_line (record { value = value.now; help = option_copied help.entry })) }
{
    put_piece(sink, value)?;
    put_tab_help(sink, help)?;
    put_piece(sink, "\n")
}

#[tactic(auto, using(cc_base::proofs::WrittenTexts::after_bytes), unfolding(crate::specs::Reply::tab_help))]
fn put_tab_help<W: Sink>(sink: &mut W, help: Option<&str>) -> Result<(), ErrorKind>
    ensures { Writes W.taken W.failed (as_write result) sink.old sink.new
        (tab_help (option_copied help.entry)) }
{
    let Some(help) = help else {
        return Ok(());
    };
    put_pieces(sink, &["\t", help])
}

// Returns the first line of the help text.
fn help_line(help: Option<&str>) -> Option<&str>
    ensures { option_copied result ≡ option_map first_line (option_copied help.entry) }
{
    Some(first_line(help?))
}

// Returns the text before the first line feed, and without a carriage return directly before that.
pub(crate) fn first_line(text: &str) -> &str
    ensures { result.now ≡ first_line text.now }
{
    match text.split_once('\n') {
        Some((line, _)) => without_return(line),
        None => text,
    }
}

fn without_return(line: &str) -> &str
    ensures { result.now ≡ without_return line.now }
{
    line.strip_suffix('\r').unwrap_or(line)
}
