//! The check of a test. Proving what `assert_eq!` writes takes seconds, so it is here once.

use clap_complete::Error;
use std::process::Abort;

/// Fails unless the text was made and is `wanted`.
pub(crate) fn is(rt: &impl Abort, text: Result<String, Error>, wanted: &str) {
    let text = text.expect(rt, "no text");
    assert_eq!(rt; text.as_str(), wanted);
}
