//! Looks for global arguments.

ghost use Rattle.std.specs.Prelude.{◌≡◌, ◌||◌, not};
ghost use Rattle.cc_command.specs.Tree.{forest_of};
ghost use Rattle.cc_parser.specs.Parsers.{any_global, globals_below, has_globals};
ghost use Rattle.cc_parser.specs.Parsers.{is_disabled_below};

use crate::command::has_generated;
use cc_arg::Arg;
use cc_command::Command;

/// Returns whether an argument of the built `tree` is global: one of the root, or of a command
/// below it. Children that `build` added do not count if the parser leaves them out.
///
/// If none is, the parser of the tree reads the root and its children as the tree describes them.
/// Allocates nothing.
pub fn has_globals(tree: &Command) -> bool
    ensures { result ≡ has_globals tree.now }
{
    any_global(tree.get_arguments()) || has_globals_below(tree.get_subcommands(), false)
}

// Returns whether an argument of the children, or of a command below them, is global. `above` tells
// whether a command above their parent disables `clap`'s own `help`.
fn has_globals_below(children: &[Command], above: bool) -> bool
    ensures { result ≡ globals_below above (forest_of children.now) }
{
    let here = is_disabled_below(children, above);
    for child in children {
        if child.is_generated() && !above {
            continue;
        }
        let own = any_global(child.get_arguments());
        let below = has_globals_below(child.get_subcommands(), here);
        if own || below {
            return true;
        }
    }
    false
}

fn any_global(arguments: &[Arg]) -> bool
    ensures { result ≡ any_global arguments.now }
{
    for argument in arguments {
        if argument.is_global_set() {
            return true;
        }
    }
    false
}

/// Returns whether `clap`'s own `help` is disabled below a command with these children.
pub(crate) fn is_disabled_below(children: &[Command], above: bool) -> bool
    ensures { result ≡ is_disabled_below above (forest_of children.now) }
{
    above || !has_generated(children)
}
