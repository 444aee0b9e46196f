//! Compares the actual output with the expected output.

use std::alloc::{AllocError, Global};

/// The last line of an output that does not end with a line feed.
const NO_LINE_FEED: &str = "(no-eol)";

// Appends a line with a line feed before and after it, so that lines can be searched as texts.
fn push_line(text: &mut String, line: &str) -> Result<(), AllocError> {
    text.push('\n')?;
    text.push_str(line)?;
    text.push('\n')
}

/// Returns whether `text` consists of these `pieces`, in order, with any text between two of them,
/// even several lines. Each line has a line feed before and after it.
///
/// # Errors
///
/// `AllocError` if an allocation fails.
pub(crate) fn holds(alloc: Global, pieces: &[String], text: &str) -> Result<bool, AllocError> {
    let marked = marked(alloc, text)?;
    Ok(is_made_of(marked.as_str(), pieces))
}

// Returns the text with a line feed before and after each line.
fn marked(alloc: Global, text: &str) -> Result<String, AllocError> {
    let mut marked = String::new(alloc);
    let Some(lines) = text.strip_suffix('\n') else {
        if text.is_empty() {
            return Ok(marked);
        }
        push_lines(&mut marked, text)?;
        push_line(&mut marked, NO_LINE_FEED)?;
        return Ok(marked);
    };
    push_lines(&mut marked, lines)?;
    Ok(marked)
}

fn push_lines(text: &mut String, lines: &str) -> Result<(), AllocError> {
    for line in lines.split('\n') {
        push_line(text, line)?;
    }
    Ok(())
}

fn is_made_of(text: &str, pieces: &[String]) -> bool {
    let Some((first, others)) = pieces.split_first() else {
        return false;
    };
    let Some(rest) = text.strip_prefix(first.as_str()) else {
        return false;
    };
    match others.split_last() {
        None => rest.is_empty(),
        Some((last, middle)) => after(rest, middle).is_some_and(|rest| rest.ends_with(
            last.as_str(),
        )),
    }
}

// Returns the text after these pieces, each at its first occurrence.
fn after<'t>(text: &'t str, pieces: &[String]) -> Option<&'t str> {
    let mut rest = text;
    for piece in pieces {
        let (_, after) = rest.split_once(piece.as_str())?;
        rest = after;
    }
    Some(rest)
}
