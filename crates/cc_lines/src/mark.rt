//! Parts of a text between marks.

ghost use Rattle.std.specs.Prelude.{◌≤◌, length};

/// The bytes at which a text is taken apart.
#[derive(Clone, Copy, Drop)]
pub(crate) enum Mark {
    // a line feed
    Feed,
    // a space, a tab or a line feed
    Blank,
    // a space, a tab, a line feed or `=`
    Setting,
    // any byte but a space, a tab and a line feed
    Visible,
    // `:`
    Colon,
    // `,`
    Comma,
    // `#`
    Hash,
    // `]`
    Bracket,
}

impl Mark {
    /// Returns whether the byte is such a mark.
    pub(crate) fn is(self, byte: u8) -> bool {
        let blank = matches!(byte, b' ' | b'\t' | b'\n');
        match self {
            Mark::Feed => byte == b'\n',
            Mark::Blank => blank,
            Mark::Visible => !blank,
            Mark::Setting => blank || byte == b'=',
            Mark::Colon => byte == b':',
            Mark::Comma => byte == b',',
            Mark::Hash => byte == b'#',
            Mark::Bracket => byte == b']',
        }
    }
}

/// Returns the text before the first mark, or the whole text if it has no mark.
pub(crate) fn before(mark: Mark, text: &[u8]) -> &[u8] {
    &text[..first(mark, text)]
}

/// Returns the text from the first mark on, or an empty text if it has no mark.
pub(crate) fn from(mark: Mark, text: &[u8]) -> &[u8] {
    &text[first(mark, text)..]
}

/// Returns the text after the first mark, or an empty text if it has no mark.
pub(crate) fn after(mark: Mark, text: &[u8]) -> &[u8] {
    match from(mark, text) {
        [_, rest @ ..] => rest,
        [] => b"",
    }
}

// Returns the index of the first mark, or the length of the text if it has no mark.
fn first(mark: Mark, text: &[u8]) -> usize
    ensures { result ≤ length text.now }
{
    for at in 0..text.len() {
        if mark.is(text[at]) {
            return at;
        }
    }
    text.len()
}
