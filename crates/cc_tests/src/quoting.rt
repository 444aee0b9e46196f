//! Calls that write or read a quoted word succeed. The rows of `cc_quote/proofs` have words.

use clap_complete::Error;
use clap_complete::quote::{
    bash_double, bash_double_word, elvish_escape, elvish_word, fish_double, fish_escape,
    fish_help_for_eval, fish_quote, fish_quote_for_eval, fish_word, posix_quote, posix_word,
    powershell_escape, powershell_word, zsh_escape_help, zsh_escape_value, zsh_reply_help,
    zsh_reply_value, zsh_unescape,
};
use std::alloc::Global;

// The calls that write a word or a part of one.
enum Writer {
    BashDouble,
    ElvishEscape,
    FishEscape,
    FishHelpForEval,
    FishQuote,
    FishQuoteForEval,
    PosixQuote,
    PowershellEscape,
    ZshEscapeHelp,
    ZshEscapeValue,
    ZshReplyHelp,
    ZshReplyValue,
}

const WRITERS: &[Writer] = &[
    Writer::BashDouble,
    Writer::ElvishEscape,
    Writer::FishEscape,
    Writer::FishHelpForEval,
    Writer::FishQuote,
    Writer::FishQuoteForEval,
    Writer::PosixQuote,
    Writer::PowershellEscape,
    Writer::ZshEscapeHelp,
    Writer::ZshEscapeValue,
    Writer::ZshReplyHelp,
    Writer::ZshReplyValue,
];

fn write(alloc: Global, call: &Writer, text: &str) -> Result<String, Error> {
    match call {
        Writer::BashDouble => bash_double(alloc, text),
        Writer::ElvishEscape => elvish_escape(alloc, text),
        Writer::FishEscape => fish_escape(alloc, text),
        Writer::FishHelpForEval => fish_help_for_eval(alloc, text),
        Writer::FishQuote => fish_quote(alloc, text),
        Writer::FishQuoteForEval => fish_quote_for_eval(alloc, text),
        Writer::PosixQuote => posix_quote(alloc, text),
        Writer::PowershellEscape => powershell_escape(alloc, text),
        Writer::ZshEscapeHelp => zsh_escape_help(alloc, text),
        Writer::ZshEscapeValue => zsh_escape_value(alloc, text),
        Writer::ZshReplyHelp => zsh_reply_help(alloc, text),
        Writer::ZshReplyValue => zsh_reply_value(alloc, text),
    }
}

#[test]
fn words_are_quoted(rt: HostRuntime) {
    for call in WRITERS {
        assert!(rt; write(rt.alloc(), call, "'it' \"\\$x\"").is_ok());
    }
}

// The calls that read a word or a part of one.
enum Reader {
    BashDoubleWord,
    ElvishWord,
    FishDouble,
    FishWord,
    PosixWord,
    PowershellWord,
}

const READERS: &[Reader] = &[
    Reader::BashDoubleWord,
    Reader::ElvishWord,
    Reader::FishDouble,
    Reader::FishWord,
    Reader::PosixWord,
    Reader::PowershellWord,
];

fn read<'t>(
    alloc: Global,
    call: &Reader,
    text: &'t str,
) -> Result<Option<(String, &'t str)>, Error> {
    match call {
        Reader::BashDoubleWord => bash_double_word(alloc, text),
        Reader::ElvishWord => elvish_word(alloc, text),
        Reader::FishDouble => fish_double(alloc, text),
        Reader::FishWord => fish_word(alloc, text),
        Reader::PosixWord => posix_word(alloc, text),
        Reader::PowershellWord => powershell_word(alloc, text),
    }
}

#[test]
fn words_are_read(rt: HostRuntime) {
    for call in READERS {
        assert!(rt; read(rt.alloc(), call, "'it' \"\\$x\"").is_ok());
    }
    assert!(rt; zsh_unescape(rt.alloc(), "\\$x").is_ok());
}
