//! A text for use as a field type.

ghost use Rattle.std.specs.Prelude.{◌≡◌, ℕ, List, IfOk};
ghost use Rattle.std.specs.Option.{option_copied};
ghost use Rattle.std.specs.String.{string_bytes};

use std::alloc::{AllocError, Global};
use std::fmt;
use std::marker::Model;

/// A text. Clauses see only its bytes, so two texts are equal if and only if their bytes are.
#[derive(Drop)]
pub struct Text {
    inner: String,
}

impl Model for Text {
    ghost Value = { List ℕ };

    ghost view = { λ text. string_bytes text.inner };
}

/// Formats the text as `str` does.
impl fmt::Debug for Text {
    fn fmt<W: fmt::Write>(&self, f: &mut fmt::Formatter<W>) -> fmt::Result {
        fmt::Debug::fmt(self.as_str(), f)
    }
}

impl From<String> for Text {
    ghost from_gives = { λ string text. text ≡ string_bytes string };

    fn from(string: String) -> Text {
        Text { inner: string }
    }
}

impl Text {
    /// Copies the borrowed `text`.
    ///
    /// # Errors
    ///
    /// `AllocError` if an allocation fails.
    pub fn copy_of(alloc: Global, text: &str) -> Result<Text, AllocError>
        ensures copied { IfOk result (λ copy. copy ≡ text.now) }
    {
        Ok(Text {
            inner: String::from_str(alloc, text)?,
        })
    }

    /// Returns the text.
    pub fn as_str(&self) -> &str
        ensures text { result.now ≡ self.now }
    {
        self.inner.as_str()
    }

    /// Returns the text as a `String`, without allocating.
    pub fn into_string(self) -> String
        ensures text { string_bytes result ≡ self }
    {
        self.inner
    }

    /// Copies the borrowed `text`, if there is one.
    ///
    /// # Errors
    ///
    /// `AllocError` if an allocation fails.
    pub fn copy_of_some(alloc: Global, text: Option<&str>) -> Result<Option<Text>, AllocError>
        ensures copied { IfOk result (λ copy. copy ≡ option_copied text.entry) }
    {
        match text {
            Some(text) => Ok(Some(Text::copy_of(alloc, text)?)),
            None => Ok(None),
        }
    }

    /// Copies the text.
    ///
    /// # Errors
    ///
    /// `AllocError` if an allocation fails.
    pub fn try_clone(&self, alloc: Global) -> Result<Text, AllocError>
        ensures equal { IfOk result (λ copy. copy ≡ self.now) }
    {
        Text::copy_of(alloc, self.as_str())
    }
}
