//! A live request, whose words, variables and names the caller passes as bytes.

ghost use Rattle.std.specs.Prelude.{◌≡◌, IfOk, map, string_bytes};
ghost use Rattle.complgen_c.specs.Listings.{handed};
ghost use Rattle.complgen_c.specs.Requests.{AreTexts, IsRead, both_bytes, in_pairs};

use cc_replies::EnvValues;
use std::alloc::{AllocError, Global};

/// The texts of a request.
#[derive(Drop)]
pub struct RequestTexts {
    pub(crate) words: Vec<String>,
    pub(crate) env: EnvValues,
    pub(crate) names: Vec<String>,
}

/// Returns the request as texts: its `words`, its `variables`, which are names and values,
/// alternating, and the `names` in a directory. Returns `None` if one of them is not UTF-8.
///
/// # Errors
///
/// `AllocError` if an allocation fails.
pub(crate) fn read_request(
    alloc: Global,
    words: &[&[u8]],
    variables: &[&[u8]],
    names: &[&[u8]],
) -> Result<Option<RequestTexts>, AllocError>
    ensures { IfOk result (IsRead (handed words.now) (handed variables.now) (handed names.now)) }
{
    let Some(words) = texts(alloc, words)? else {
        return Ok(None);
    };
    let Some(variables) = texts(alloc, variables)? else {
        return Ok(None);
    };
    let Some(names) = texts(alloc, names)? else {
        return Ok(None);
    };
    let env = EnvValues::new(pairs(alloc, variables)?);
    Ok(Some(RequestTexts { words, env, names }))
}

/// Returns copies of the slices as texts, or `None` if one of them is not UTF-8.
///
/// # Errors
///
/// `AllocError` if an allocation fails.
pub(crate) fn texts(alloc: Global, slices: &[&[u8]]) -> Result<Option<Vec<String>>, AllocError>
    ensures { IfOk result (AreTexts (handed slices.now)) }
{
    let mut texts = Vec::new(alloc);
    for slice in slices {
        let Ok(text) = std::str::from_utf8(slice) else {
            return Ok(None);
        };
        texts.push(String::from_str(alloc, text)?)?;
    }
    Ok(Some(texts))
}

// Returns the texts in pairs, without a last one that has no partner.
fn pairs(alloc: Global, texts: Vec<String>) -> Result<Vec<(String, String)>, AllocError>
    ensures { IfOk result (λ pairs.
        map both_bytes pairs.items ≡ in_pairs (map string_bytes texts.items)) }
{
    let mut pairs = Vec::new(alloc);
    let mut left = texts.into_iter();
    while let Some(first) = left.next() {
        let Some(second) = left.next() else {
            return Ok(pairs);
        };
        pairs.push((first, second))?;
    }
    Ok(pairs)
}
