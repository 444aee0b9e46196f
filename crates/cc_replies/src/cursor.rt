//! The shell's line at the cursor, as the variables of a safe registration describe it.

ghost use Rattle.std.specs.Prelude.{◌≡◌};
ghost use Rattle.cc_replies.specs.BashWords.{is_double, open_quote};

use cc_base::TextRef;

/// The quote that is open in bash's line where the word is completed.
#[derive(Clone, Copy, PartialEq, Eq, Debug)]
pub enum OpenQuote {
    /// No quote is open.
    Bare,
    /// A `'` is open.
    Single,
    /// A `"` is open.
    Double,
}

impl OpenQuote {
    /// Returns the quote that `text` names, `'` or `"`. For any other text, no quote is open.
    pub fn of(text: &str) -> OpenQuote
        ensures { result ≡ open_quote text.now }
    {
        match text {
            "'" => OpenQuote::Single,
            "\"" => OpenQuote::Double,
            _ => OpenQuote::Bare,
        }
    }

    /// Returns whether the quote is `"`.
    pub fn is_double(self) -> bool
        ensures { result ≡ is_double self }
    {
        match self {
            OpenQuote::Double => true,
            _ => false,
        }
    }
}

/// The shell's line where a word is completed.
#[derive(Drop)]
pub struct Cursor<'a> {
    /// Whether the shell's locale is safe for nothing but ASCII.
    pub ascii_only: bool,
    /// The part of the word that bash keeps.
    pub kept: TextRef<'a>,
    /// The quote that is open in bash's line; in PowerShell `"` if a `"` reaches programs.
    pub quote: OpenQuote,
    /// The width of the terminal in which bash lists candidates, or 0 if it may insert them.
    pub width: usize,
}
