//! The place of a warning in a tree.

ghost use Rattle.std.specs.Prelude.{◌≡◌};
ghost use Rattle.complgen_lints.specs.Places.{key_text};

use cc_base::Items;

/// A key of a command or of an argument in a tree file.
#[derive(Clone, Copy, PartialEq, Eq, Debug)]
pub enum Key {
    /// `name`
    Name,
    /// `bin_name`
    BinName,
    /// `about`
    About,
    /// `aliases`
    Aliases,
    /// `visible_aliases`
    VisibleAliases,
    /// `hide`
    Hide,
    /// `id`
    Id,
    /// `short`
    Short,
    /// `long`
    Long,
    /// `short_aliases`
    ShortAliases,
    /// `visible_short_aliases`
    VisibleShortAliases,
    /// `help`
    Help,
    /// `action`
    Action,
    /// `num_args`
    NumArgs,
    /// `value_names`
    ValueNames,
    /// `possible_values`
    PossibleValues,
    /// `value_hint`
    ValueHint,
    /// `values_from`
    ValuesFrom,
    /// `values_file`
    ValuesFile,
    /// `values_split`
    ValuesSplit,
    /// `values_words`
    ValuesWords,
    /// `values_protocol`
    ValuesProtocol,
    /// `index`
    Index,
    /// `conflicts_with`
    ConflictsWith,
}

impl Key {
    /// Returns the key as a tree file spells it.
    pub fn as_str(self) -> &'static str
        ensures { result.now ≡ key_text self }
    {
        match self {
            Key::Name => "name",
            Key::BinName => "bin_name",
            Key::About => "about",
            Key::Aliases => "aliases",
            Key::VisibleAliases => "visible_aliases",
            Key::Hide => "hide",
            Key::Id => "id",
            Key::Short => "short",
            Key::Long => "long",
            Key::ShortAliases => "short_aliases",
            Key::VisibleShortAliases => "visible_short_aliases",
            Key::Help => "help",
            Key::Action => "action",
            Key::NumArgs => "num_args",
            Key::ValueNames => "value_names",
            Key::PossibleValues => "possible_values",
            Key::ValueHint => "value_hint",
            Key::ValuesFrom => "values_from",
            Key::ValuesFile => "values_file",
            Key::ValuesSplit => "values_split",
            Key::ValuesWords => "values_words",
            Key::ValuesProtocol => "values_protocol",
            Key::Index => "index",
            Key::ConflictsWith => "conflicts_with",
        }
    }
}

/// A place in a tree: a command, one of its arguments, a key of either, or an item of the key's
/// list.
#[derive(Drop, Debug)]
pub struct TreePlace {
    /// The path from the root to the command: indexes in `subcommands`, counted from 0.
    pub command: Items<usize>,
    /// The index of the argument in `args`, counted from 0, or `None` for the command itself.
    pub argument: Option<usize>,
    /// The key, or `None` for the whole command.
    pub key: Option<Key>,
    /// The index of an item in the key's list, counted from 0, or `None` for the whole value of the
    /// key.
    pub item: Option<usize>,
}
