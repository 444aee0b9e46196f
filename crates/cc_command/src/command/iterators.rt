//! Iterators over the arguments of a command of one kind, and over its visible names.

ghost use Rattle.std.specs.Prelude.{◌≡◌};
ghost use Rattle.cc_command.specs.Iterators.{is_of_kind};

use cc_arg::Arg;
use cc_base::Text;

// A kind of argument.
#[derive(Clone, Copy)]
enum Kind {
    Option,
    Flag,
    Positional,
}

/// An iterator over the arguments of a command that are of one kind, in the order in which they
/// were added.
#[derive(Drop)]
pub struct Arguments<'a> {
    arguments: &'a [Arg],
    kind: Kind,
}

impl<'a> Arguments<'a> {
    ghost use Rattle.std.specs.Prelude.{◌≡◌, filter};
    ghost use Rattle.cc_arg.specs.Arguments.{is_positional};
    ghost use Rattle.cc_command.specs.ArgumentLists.{is_flag, is_option};
    ghost use Rattle.cc_command.specs.Iterators.{arguments_left};

    // Returns an iterator over the options among these arguments.
    pub(super) fn options(arguments: &'a [Arg]) -> Arguments<'a>
        ensures { arguments_left result ≡ filter is_option arguments.now }
    {
        let kind = Kind::Option;
        Arguments { arguments, kind }
    }

    // Returns an iterator over the flags among these arguments.
    pub(super) fn flags(arguments: &'a [Arg]) -> Arguments<'a>
        ensures { arguments_left result ≡ filter is_flag arguments.now }
    {
        let kind = Kind::Flag;
        Arguments { arguments, kind }
    }

    // Returns an iterator over the positionals among these arguments.
    pub(super) fn positionals(arguments: &'a [Arg]) -> Arguments<'a>
        ensures { arguments_left result ≡ filter is_positional arguments.now }
    {
        let kind = Kind::Positional;
        Arguments { arguments, kind }
    }
}

impl<'a> Iterator for Arguments<'a> {
    ghost use Rattle.std.specs.Iterator.{YieldsFirstRef, item_count};
    ghost use Rattle.cc_command.specs.Iterators.{arguments_left};

    type Item = &'a Arg;

    ghost next_gives = { YieldsFirstRef arguments_left };

    ghost remaining = { item_count arguments_left };

    fn next(&mut self) -> Option<&'a Arg> {
        while let [first, others @ ..] = self.arguments {
            self.arguments = others;
            if is_of_kind(self.kind, first) {
                return Some(first);
            }
        }
        None
    }
}

/// An iterator over the name of a command, then its visible aliases in the order in which they were
/// added.
#[derive(Drop)]
pub struct NameAndVisibleAliases<'a> {
    name: Option<&'a str>,
    visible_aliases: &'a [Text],
}

impl<'a> NameAndVisibleAliases<'a> {
    ghost use Rattle.std.specs.Prelude.{◌≡◌, ◌∷◌};
    ghost use Rattle.cc_command.specs.Iterators.{names_left};

    pub(super) fn new(name: &'a str, visible_aliases: &'a [Text]) -> NameAndVisibleAliases<'a>
        ensures { names_left result ≡ name.now ∷ visible_aliases.now }
    {
        NameAndVisibleAliases {
            name: Some(name),
            visible_aliases,
        }
    }
}

impl<'a> Iterator for NameAndVisibleAliases<'a> {
    ghost use Rattle.std.specs.Iterator.{YieldsFirstBy, item_count};
    ghost use Rattle.cc_command.specs.Iterators.{names_left};

    type Item = &'a str;

    ghost next_gives = { YieldsFirstBy (λ name. name.now) names_left };

    ghost remaining = { item_count names_left };

    fn next(&mut self) -> Option<&'a str> {
        if let Some(name) = self.name.take() {
            return Some(name);
        }
        let [first, others @ ..] = self.visible_aliases else {
            return None;
        };
        self.visible_aliases = others;
        Some(first.as_str())
    }
}

fn is_of_kind(kind: Kind, argument: &Arg) -> bool
    ensures { result ≡ is_of_kind kind argument.now }
{
    match kind {
        Kind::Option => !argument.is_positional() && argument.takes_values(),
        Kind::Flag => !argument.is_positional() && !argument.takes_values(),
        Kind::Positional => argument.is_positional(),
    }
}
