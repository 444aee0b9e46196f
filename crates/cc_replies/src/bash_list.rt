//! The list that bash shows when it inserts nothing: words, with descriptions in a column behind
//! them.

ghost use Rattle.std.specs.Prelude.{◌≡◌, ◌-◌, ◌++◌, IfErr, bytes_eq, not, replicate};
ghost use Rattle.std.specs.Fmt.{char_count};
ghost use Rattle.std.specs.Option.{option_copied};
ghost use Rattle.cc_base.specs.Writes.{IsWrite, Writes, as_write};
ghost use Rattle.cc_replies.specs.BashList.{BashListRead, bash_list_reply, closing_quote, space};

use crate::bash_words::{put_bash_text, rest_after, write_bash_words};
use crate::columns::{left_after, left_after_text, put_cut};
use crate::cursor::{Cursor, OpenQuote};
use crate::reply_lines::{ReplyLines, put_each};
use crate::safe::{is_in_locale, safe_help};
use cc_base::{Error, Sink, put_piece};
use cc_candidates::CompletionCandidate;
use std::io::ErrorKind;

// The least room for a description: 20 characters of one that is cut, and the `..` after them.
const LEAST_ROOM: usize = 22;

// The columns that a line has besides its word and its description: two spaces and two parentheses.
const FRAME: usize = 4;

/// Writes the reply to bash in a terminal of the cursor's width, where bash lists and inserts
/// nothing. A line has the word as `write_bash_words` writes it. If there is a description, the
/// quote that is open, spaces up to a common column, and the description between parentheses
/// follow. A description is the first line of a help text, if that has no control character.
///
/// A description that is too long for the terminal is cut, by characters, and then ends in `..`.
/// Writes no descriptions if fewer than 20 characters would remain of one that is cut, or if no two
/// words differ: bash may insert a single line. So it writes none for a width of 0, the width where
/// bash inserts what the reply contains.
///
/// # Errors
///
/// `Write` if the sink fails.
pub fn write_bash_list<W: Sink>(
    sink: &mut W,
    cursor: &Cursor,
    candidates: &[CompletionCandidate],
) -> Result<(), Error>
    ensures written { Writes W.taken W.failed result sink.old sink.new
        (bash_list_reply cursor.now candidates.now) }
    ensures write_only { IfErr result IsWrite }
    ensures read_back { BashListRead cursor.now candidates.now }
{
    let room = cursor.room(candidates);
    if room == 0 {
        return write_bash_words(sink, cursor, candidates);
    }
    let list = BashList {
        cursor,
        longest: cursor.width - FRAME - room,
        room,
    };
    list.write(sink, candidates)
}

impl Cursor<'_> {
    ghost use Rattle.std.specs.Prelude.{Some, find, option_map};
    ghost use Rattle.cc_replies.specs.BashList.{closed_word, description_of, has_other, has_two};
    ghost use Rattle.cc_replies.specs.BashList.{is_described, is_listed_word, list_room};
    ghost use Rattle.cc_replies.specs.BashList.{longest_word};

    // Returns how many characters a list has for a description, or 0 if the words are listed alone.
    fn room(&self, candidates: &[CompletionCandidate]) -> usize
        ensures { result ≡ list_room self.now candidates.now }
    {
        if self.width == 0 {
            return 0;
        }
        let room = self.width_left(candidates).saturating_sub(FRAME);
        if room >= LEAST_ROOM && self.has_two(candidates) {
            room
        } else {
            0
        }
    }

    // Returns the columns beside the longest word that has a description.
    fn width_left(&self, candidates: &[CompletionCandidate]) -> usize
        ensures { result ≡ self.now.width - longest_word self.now candidates.now }
    {
        let mut least = self.width;
        for candidate in candidates {
            if !self.is_described(candidate) {
                continue;
            }
            least = least.min(self.left_beside(self.width, candidate.get_value()));
        }
        least
    }

    fn is_described(&self, candidate: &CompletionCandidate) -> bool
        ensures { result ≡ is_described self.now candidate.now }
    {
        self.can_insert(candidate.get_value()) && self.description(candidate).is_some()
    }

    // Returns the description of a candidate.
    #[tactic(auto, unfolding(crate::specs::BashList::description_of))]
    fn description<'c>(&self, candidate: &'c CompletionCandidate) -> Option<&'c str>
        ensures { option_copied result ≡ description_of self.now.ascii_only candidate.now.help }
    {
        let help = safe_help(candidate.get_help())?;
        if is_in_locale(self.ascii_only, help) {
            Some(help)
        } else {
            None
        }
    }

    // Returns whether bash lists two words that differ.
    fn has_two(&self, candidates: &[CompletionCandidate]) -> bool
        ensures { result ≡ has_two (is_listed_word self.now) candidates.now }
    {
        match self.first_listed(candidates) {
            Some(first) => self.has_other(first, candidates),
            None => false,
        }
    }

    // Returns the first candidate that bash lists as a word.
    fn first_listed<'c>(
        &self,
        candidates: &'c [CompletionCandidate],
    ) -> Option<&'c CompletionCandidate>
        ensures { option_map (λ found. found.now) result
            ≡ find (λ candidate. is_listed_word self.now candidate.value) candidates.now }
    {
        for candidate in candidates {
            if self.is_listed(candidate) {
                return Some(candidate);
            }
        }
        None
    }

    // Returns whether bash lists a word with another value than that of `first`.
    fn has_other(&self, first: &CompletionCandidate, candidates: &[CompletionCandidate]) -> bool
        ensures { result ≡ has_other (is_listed_word self.now) (Some first.now) candidates.now }
    {
        for candidate in candidates {
            if self.is_listed(candidate) && is_other(candidate, first) {
                return true;
            }
        }
        false
    }

    fn is_listed(&self, candidate: &CompletionCandidate) -> bool
        ensures { result ≡ is_listed_word self.now candidate.now.value }
    {
        let value = candidate.get_value();
        self.can_insert(value) && value != self.kept.as_str()
    }

    // Returns how many of `left` columns remain beside the word of a value.
    #[tactic(auto, unfolding(crate::specs::BashList::closed_word))]
    fn left_beside(&self, left: usize, value: &str) -> usize
        ensures { result ≡ left - char_count (closed_word self.now value.now) }
    {
        let kept = self.kept.as_str();
        let Some(rest) = rest_after(kept, value) else {
            return left;
        };
        let left = left_after_text(left, self.quote, kept, rest);
        left_after(left, closing_quote(self.quote))
    }

    // Writes the word of a value that bash can insert, and the quote that ends it.
    #[tactic(auto, unfolding(crate::specs::BashList::closed_word))]
    fn put_closed<W: Sink>(&self, sink: &mut W, value: &str) -> Result<(), ErrorKind>
        ensures { Writes W.taken W.failed (as_write result) sink.old sink.new
            (closed_word self.now value.now) }
    {
        let kept = self.kept.as_str();
        let Some(rest) = rest_after(kept, value) else {
            return Ok(());
        };
        put_bash_text(sink, kept, self.quote, rest)?;
        put_piece(sink, closing_quote(self.quote))
    }
}

fn is_other(candidate: &CompletionCandidate, first: &CompletionCandidate) -> bool
    ensures { result ≡ not (bytes_eq candidate.now.value first.now.value) }
{
    candidate.get_value() != first.get_value()
}

// ---- lines

// The lines of a list, whose longest word with a description has `longest` characters.
#[derive(Drop)]
struct BashList<'a> {
    cursor: &'a Cursor<'a>,
    longest: usize,
    room: usize,
}

impl BashList<'_> {
    ghost use Rattle.std.specs.Prelude.{filter, flat_map};
    ghost use Rattle.cc_replies.specs.BashList.{closed_word, cut_description, described_text};
    ghost use Rattle.cc_replies.specs.BashList.{list_line};
    ghost use Rattle.cc_replies.specs.BashWords.{is_bash_insertable};

    fn write<W: Sink>(&self, sink: &mut W, candidates: &[CompletionCandidate]) -> Result<(), Error>
        ensures written { Writes W.taken W.failed result sink.old sink.new
            (flat_map (list_line self.now.cursor.now self.now.longest self.now.room)
            (filter (λ candidate. is_bash_insertable self.now.cursor.now candidate.value)
            candidates.now)) }
        ensures write_only { IfErr result IsWrite }
    {
        Ok(put_each(sink, self, candidates)?)
    }

    // Writes the word of a value, and a description behind it.
    fn put_described<W: Sink>(
        &self,
        sink: &mut W,
        value: &str,
        description: &str,
    ) -> Result<(), ErrorKind>
        ensures { Writes W.taken W.failed (as_write result) sink.old sink.new
            (described_text (closed_word self.now.cursor.now value.now) self.now.longest
            (cut_description self.now.room description.now)) }
    {
        self.put_padded(sink, value)?;
        put_piece(sink, "  (")?;
        put_cut(sink, self.room, description)?;
        put_piece(sink, ")")
    }

    // Writes the word of a value, and spaces up to the common column.
    fn put_padded<W: Sink>(&self, sink: &mut W, value: &str) -> Result<(), ErrorKind>
        ensures { Writes W.taken W.failed (as_write result) sink.old sink.new
            (closed_word self.now.cursor.now value.now ++ replicate (self.now.longest
            - char_count (closed_word self.now.cursor.now value.now)) space) }
    {
        self.cursor.put_closed(sink, value)?;
        put_spaces(sink, self.cursor.left_beside(self.longest, value))
    }
}

impl ReplyLines for BashList<'_> {
    ghost use Rattle.cc_replies.specs.BashList.{list_line};
    ghost use Rattle.cc_replies.specs.BashWords.{is_bash_insertable};

    ghost inserts = { λ list. is_bash_insertable list.cursor.now };

    ghost line = { λ list. list_line list.cursor.now list.longest list.room };

    fn can_insert(&self, value: &str) -> bool {
        self.cursor.can_insert(value)
    }

    #[tactic(auto, unfolding(crate::specs::BashList::list_line))]
    fn put_line<W: Sink>(
        &self,
        sink: &mut W,
        candidate: &CompletionCandidate,
    ) -> Result<(), ErrorKind> {
        let Some(description) = self.cursor.description(candidate) else {
            return self.cursor.put_line(sink, candidate);
        };
        self.put_described(sink, candidate.get_value(), description)?;
        put_piece(sink, "\n")
    }
}

// Returns the quote that ends a word.
fn closing_quote(quote: OpenQuote) -> &'static str
    ensures { result.now ≡ closing_quote quote }
{
    match quote {
        OpenQuote::Bare => "",
        OpenQuote::Single => "'",
        OpenQuote::Double => "\"",
    }
}

#[tactic(auto, using(crate::proofs::InLoops::in_spaces))]
fn put_spaces<W: Sink>(sink: &mut W, count: usize) -> Result<(), ErrorKind>
    ensures { Writes W.taken W.failed (as_write result) sink.old sink.new
        (replicate count space) }
{
    for _ in 0..count {
        put_piece(sink, " ")?;
    }
    Ok(())
}
