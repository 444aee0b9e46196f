//! A test for hidden aliases among words.

ghost use Rattle.std.specs.Prelude.{◌≡◌, None, Some, if◌then◌else◌, map, string_bytes, unwrap_or};
ghost use Rattle.std.specs.Option.{option_copied};
ghost use Rattle.cc_command.specs.Names.{contains_name, find_child, visible_names};
ghost use Rattle.cc_engine.specs.Visible.{has_no_hidden_alias, shows};

use cc_command::{Command, contains_name};

/// Returns whether none of `words` is a hidden alias at the command that reads it. The words are
/// read from `command` on. A word that names a child, by its name or an alias, leads to the child.
/// It is a hidden alias if the child does not show it as a name.
///
/// If none is, live completion goes down the tree by the names that scripts show. The command may
/// be built or not. Allocates nothing.
pub fn has_no_hidden_alias(command: &Command, words: &[String]) -> bool
    ensures { result ≡ has_no_hidden_alias command.now (map string_bytes words.now) }
{
    let mut reached = command;
    for word in words {
        let Some(next) = shown_step(reached, word.as_str()) else {
            return false;
        };
        reached = next;
    }
    true
}

// Returns the child that `word` names, or the command itself if it names none; `None` if the child
// does not show the word.
fn shown_step<'c>(command: &'c Command, word: &str) -> Option<&'c Command>
    ensures { option_copied result
        ≡ (if shows (find_child command.now.children word.now) word.now
        then Some (unwrap_or (find_child command.now.children word.now) command.now) else None) }
{
    let Some(child) = command.find_subcommand(word) else {
        return Some(command);
    };
    if !shows(child, word) {
        return None;
    }
    Some(child)
}

fn shows(command: &Command, word: &str) -> bool
    ensures { result ≡ contains_name (visible_names command.now.node) word.now }
{
    command.get_name() == word || contains_name(command.get_visible_aliases(), word)
}
