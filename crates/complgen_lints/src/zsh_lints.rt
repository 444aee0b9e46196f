//! Finds names and help texts that end a text of the zsh script, so that zsh may run what follows.

use crate::found::{Added, Found, Spot};
use crate::parts::{
    Content, Part, push_some_text, push_text, push_texts, push_value_helps, values_of,
};
use crate::place::Key;
use crate::running::holds_one_of;
use crate::warning::Advice;
use cc_arg::Arg;

/// Adds a finding for each name or help text of `arguments` that ends a text of the zsh script.
pub(crate) fn push_zsh_signs(found: &mut Found<Advice>, arguments: &[Arg]) -> Added {
    let mut parts = Vec::new(found.allocator());
    for (index, argument) in arguments.iter().enumerate() {
        parts.clear();
        push_parts(&mut parts, argument)?;
        push_signs(found, index, &parts)?;
    }
    Ok(())
}

// Adds the texts of `argument` that the zsh script has: the id and the help text of a positional, or
// the value names of an option, and then the help texts of its values.
fn push_parts<'a>(parts: &mut Vec<Part<'a>>, argument: &'a Arg) -> Added {
    if argument.is_positional() {
        push_text(parts, Key::Id, None, argument.get_id())?;
        push_some_text(parts, Key::Help, None, argument.get_help())?;
    } else {
        push_texts(parts, Key::ValueNames, argument.get_value_names())?;
    }
    push_value_helps(parts, values_of(argument))
}

fn push_signs(found: &mut Found<Advice>, index: usize, parts: &[Part<'_>]) -> Added {
    for part in parts {
        if ends_text(part) {
            found.note(Spot::Argument(index), part.key, part.item, Advice::ZshSign)?;
        }
    }
    Ok(())
}

fn ends_text(part: &Part<'_>) -> bool {
    match &part.content {
        Content::Text(text) => holds_one_of(ending_signs(part.key), text.as_str().as_bytes()),
        Content::Short(_) => false,
    }
}

// Returns the signs that end a text of the zsh script, depending on `key`: a help text, the help
// text of a possible value, or a name.
fn ending_signs(key: Key) -> &'static [u8] {
    match key {
        Key::Help => b"\\",
        Key::PossibleValues => b"\"",
        _ => b":\\",
    }
}
