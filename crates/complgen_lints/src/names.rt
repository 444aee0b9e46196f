//! Names of arguments and subcommands, with their places and owners.

ghost use Rattle.std.specs.Prelude.{◌≡◌, ◌++◌, ◌∷◌, [], if◌then◌else◌};
ghost use Rattle.std.specs.Prelude.{IfOk, List, OnOk, Some, ℕ, map};
ghost use Rattle.std.specs.Str.{bytes_eq};
ghost use Rattle.complgen_lints.specs.Parts.{content_text};
ghost use Rattle.complgen_lints.specs.PlacedNames.{named_part, owner_in, placed_name};

use crate::found::Added;
use crate::parts::{Content, Part};
use crate::place::Key;
use cc_base::TextRef;
use std::alloc::{AllocError, Global};
use std::borrow::CowStr;
use std::collections::HashMap;
use std::marker::Model;

/// The text of a name: borrowed, or made from a short or an index. Clauses see only its bytes.
#[derive(Drop)]
pub(crate) struct Name<'a> {
    pub(crate) text: CowStr<'a, Global>,
}

impl<'a> Model for Name<'a> {
    ghost use Rattle.std.specs.Prelude.{ℕ, List};
    ghost use Rattle.std.specs.Cow.{cow_str_bytes};

    ghost Value = { List ℕ };

    ghost view = { λ name. cow_str_bytes name.text };
}

impl<'a> Name<'a> {
    /// Returns the text.
    pub(crate) fn as_str(&self) -> &str
        ensures { result.now ≡ self.now }
    {
        self.text.as_str()
    }
}

/// A name of an argument or subcommand, with its place and owner.
#[derive(Drop)]
pub(crate) struct PlacedName<'a> {
    /// The index of the argument or subcommand, counted from 0.
    pub(crate) index: usize,
    pub(crate) key: Key,
    /// The index of an item in the key's list, counted from 0.
    pub(crate) item: Option<usize>,
    pub(crate) name: Name<'a>,
    /// The id of the argument, or the name of the subcommand, which is not an alias.
    pub(crate) owner: TextRef<'a>,
}

/// Adds `parts` as names of `owner`, the argument or subcommand at `index`.
pub(crate) fn push_named_parts<'a>(
    names: &mut Vec<PlacedName<'a>>,
    alloc: Global,
    index: usize,
    owner: &'a str,
    parts: &[Part<'a>],
) -> Added
    ensures { OnOk result (names.new.items
        ≡ names.old.items ++ map (named_part index owner.now) parts.now) }
{
    for part in parts {
        let name = name_of(alloc, &part.content)?;
        push_name(names, index, part.key, part.item, name, owner)?;
    }
    Ok(())
}

fn name_of<'a>(alloc: Global, content: &Content<'a>) -> Result<Name<'a>, AllocError>
    ensures { IfOk result (λ name. name ≡ content_text content.now) }
{
    let text = match content {
        Content::Text(text) => CowStr::Borrowed(text.as_str()),
        Content::Short(short) => {
            let mut text = String::new(alloc);
            text.push(*short)?;
            CowStr::Owned(text)
        }
    };
    Ok(Name { text })
}

/// Adds `name`, which is at `key`, or at `item` of the key's list.
pub(crate) fn push_name<'a>(
    names: &mut Vec<PlacedName<'a>>,
    index: usize,
    key: Key,
    item: Option<usize>,
    name: Name<'a>,
    owner: &'a str,
) -> Added
    ensures { OnOk result (names.new.items
        ≡ names.old.items ++ placed_name index key item name.entry owner.now ∷ []) }
{
    let owner = TextRef::new(owner);
    names.push(PlacedName {
        index,
        key,
        item,
        name,
        owner,
    })?;
    Ok(())
}

/// Makes `owner` the owner of `name` in `seen`, and returns its previous owner.
#[tactic(auto, unfolding(crate::specs::PlacedNames::owner_in))]
pub(crate) fn keep<'a>(
    seen: &mut HashMap<&'a str, TextRef<'a>>,
    name: &'a str,
    owner: &'a str,
) -> Result<Option<TextRef<'a>>, AllocError>
    ensures earlier { IfOk result (λ earlier. earlier ≡ owner_in seen.old name.now) }
    ensures kept { OnOk result ((word : List ℕ) → owner_in seen.new word
        ≡ (if bytes_eq name.now word then Some owner.now else owner_in seen.old word)) }
{
    Ok(seen.insert(name, TextRef::new(owner))?)
}
