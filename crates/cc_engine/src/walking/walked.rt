//! The node to which words lead, and the state there.

ghost use Rattle.std.specs.Prelude.{◌≡◌, ◌<◌, map, string_bytes};
ghost use Rattle.cc_engine.specs.Destination.{WordsLeadTo, WordsLeadOnlyTo};
ghost use Rattle.cc_engine.specs.Machine.{node_state_step};
ghost use Rattle.cc_engine.specs.NodeStates.{node_state_of};
ghost use Rattle.cc_engine.specs.Visible.{HasNoHiddenAlias, visible_end};

use crate::walking::state::State;
use cc_command::Command;

/// The node to which words lead, and the state there.
#[derive(Drop)]
pub struct Walked<'a> {
    /// The node.
    pub command: &'a Command,
    /// The state after the words that follow the last descent.
    pub state: State<'a>,
}

/// Follows `words` from `root`.
///
/// A word that names a child, by its name or an alias, leads to the child, whatever precedes it.
/// The words after the last such word belong to the node that is reached.
///
/// Allocates nothing. The time for a word grows with the number of names of the node's children and
/// with the number of its arguments.
pub fn walk<'a>(root: &'a Command, words: &[String]) -> Walked<'a>
    ensures leads { WordsLeadTo root.now (map string_bytes words.now) result.command.now
        result.state }
    ensures only { WordsLeadOnlyTo root.now (map string_bytes words.now) result.command.now
        result.state }

    // If no word is a hidden alias of a child of the node at which it is read, the visible names
    // lead to the same node.
    ensures visible { HasNoHiddenAlias root.now (map string_bytes words.now) →
        result.command.now ≡ visible_end root.now (map string_bytes words.now) }
{
    let mut walked = Walked {
        command: root,
        state: State::start(false),
    };
    for word in words {
        walked = walked.advance(word);
    }
    walked
}

impl<'a> Walked<'a> {
    /// Follows one more word. A word that names a child leads to it, even if an option is open or
    /// `--` has been read.
    fn advance(self, word: &str) -> Walked<'a>
        requires { self.state.position < usize.MAX }
        ensures { node_state_of result ≡ node_state_step (node_state_of self.entry) word.now }
    {
        if let Some(child) = self.command.find_subcommand(word) {
            return Walked {
                command: child,
                state: State::start(self.state.escaped),
            };
        }
        let arguments = self.command.get_arguments();
        Walked {
            command: self.command,
            state: self.state.step(arguments, word),
        }
    }
}
