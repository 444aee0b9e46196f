//! The getters of a command that are not about one setting.

ghost use Rattle.std.specs.Prelude.{◌≡◌, ◌&&◌, is_some};
ghost use Rattle.cc_command.specs.Names.{has_name, contains_name, full_name, visible_names};
ghost use Rattle.cc_command.specs.ArgumentLists.{flags, options, positionals};
ghost use Rattle.cc_command.specs.Marked.{StaysIfMarked};
ghost use Rattle.cc_command.specs.Iterators.{arguments_left, names_left};

use crate::command::{Arguments, Command, NameAndVisibleAliases};
use cc_arg::Arg;
use cc_base::Text;

impl Command {
    /// Returns the name.
    pub fn get_name(&self) -> &str
        ensures { result.now ≡ self.now.node.name }
    {
        self.node.name.as_str()
    }

    /// Returns an iterator over the name, then its visible aliases.
    pub fn get_name_and_visible_aliases(&self) -> NameAndVisibleAliases<'_>
        ensures { names_left result ≡ visible_names self.now.node }
    {
        NameAndVisibleAliases::new(self.get_name(), self.get_visible_aliases())
    }

    /// Returns whether building made the command: a child `help`, or a copy below it. `clap` has no
    /// such getter.
    pub fn is_generated(&self) -> bool
        ensures { result ≡ self.now.node.generated }
    {
        self.node.generated
    }

    /// Returns the arguments, in the order in which they were added.
    pub fn get_arguments(&self) -> &[Arg]
        ensures { result.now ≡ self.now.node.arguments }
    {
        self.node.arguments.as_slice()
    }

    /// Returns an iterator over the options, in the order in which they were added. An option is an
    /// argument that takes values and is not a positional.
    pub fn get_opts(&self) -> Arguments<'_>
        ensures { arguments_left result ≡ options self.now.node }
    {
        Arguments::options(self.node.arguments.as_slice())
    }

    /// Returns an iterator over the flags, in the order in which they were added. A flag is an
    /// argument that takes no values and is not a positional. `clap` has no such iterator.
    pub fn get_flags(&self) -> Arguments<'_>
        ensures { arguments_left result ≡ flags self.now.node }
    {
        Arguments::flags(self.node.arguments.as_slice())
    }

    /// Returns an iterator over the positionals, in the order in which they were added.
    pub fn get_positionals(&self) -> Arguments<'_>
        ensures { arguments_left result ≡ positionals self.now.node }
    {
        Arguments::positionals(self.node.arguments.as_slice())
    }

    /// Returns whether the command was built, and nothing was set since then.
    pub fn is_built(&self) -> bool
        ensures value { result ≡ self.now.node.built }

        // Building it again would change nothing.
        ensures stays { StaysIfMarked self.now }
    {
        self.node.built
    }

    /// Returns whether the command is built and has a bin name, as generators require.
    pub fn is_ready(&self) -> bool
        ensures { result ≡ (self.now.node.built && is_some self.now.node.bin_name) }
    {
        self.node.built && self.node.bin_name.is_some()
    }
}

/// Returns whether the command has the word as its name or as an alias, visible or hidden.
pub fn has_name(command: &Command, word: &str) -> bool
    ensures { result ≡ has_name command.now.node word.now }
{
    command.get_name() == word
        || contains_name(command.get_visible_aliases(), word)
        || contains_name(command.get_aliases(), word)
}

/// Returns the bin name, or the name if there is no bin name.
pub fn full_name(command: &Command) -> &str
    ensures { result.now ≡ full_name command.now.node }
{
    command.get_bin_name().unwrap_or(command.get_name())
}

/// Returns whether one of the names is the word.
pub fn contains_name(names: &[Text], word: &str) -> bool
    ensures { result ≡ contains_name names.now word.now }
{
    for name in names {
        if name.as_str() == word {
            return true;
        }
    }
    false
}
