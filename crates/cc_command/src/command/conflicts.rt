//! The arguments of a command that cannot be given together with one of them.

ghost use Rattle.std.specs.Prelude.{◌≡◌, map, IfOk, IfErr};
ghost use Rattle.std.specs.Option.{option_copied};
ghost use Rattle.cc_command.specs.ArgumentLists.{conflicting, first_with_id};

use crate::command::Command;
use cc_arg::{Arg, conflicting_ids};
use cc_base::Error;
use std::alloc::Global;

impl Command {
    /// Returns the arguments that cannot be given together with `argument`: for each id that it
    /// names, in order, the first argument of the command with that id. Skips an id that no
    /// argument of the command has.
    ///
    /// # Errors
    ///
    /// `Memory` if an allocation fails.
    pub fn get_arg_conflicts_with<'a>(
        &'a self,
        alloc: Global,
        argument: &Arg,
    ) -> Result<Vec<&'a Arg>, Error>
        ensures ok { IfOk result (λ found. map (λ other. other.now) found.items
            ≡ conflicting self.now.node.arguments argument.now) }
        ensures memory { IfErr result (λ error. error ≡ Error.Memory) }
    {
        let mut found = Vec::new(alloc);
        for id in conflicting_ids(argument) {
            let Some(other) = first_with_id(self.get_arguments(), id.as_str()) else {
                continue;
            };
            found.push(other)?;
        }
        Ok(found)
    }
}

/// Returns the first of the arguments that has the id.
pub fn first_with_id<'a>(arguments: &'a [Arg], id: &str) -> Option<&'a Arg>
    ensures { option_copied result ≡ first_with_id arguments.now id.now }
{
    for argument in arguments {
        if argument.get_id() == id {
            return Some(argument);
        }
    }
    None
}
