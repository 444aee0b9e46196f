//! The kinds of value in a tree file.

ghost use Rattle.std.specs.Prelude.{◌≡◌, map};
ghost use Rattle.complgen_tree_file.specs.Kinds.{kind_keys, needed_key};

use crate::{args, commands, possible_values};

// The names of actions, with the variants of `ArgAction`.
macro_rules! each_action {
    ($all:ident! $($asked:tt)*) => {
        $all! {
            [$($asked)*]
            "Set" Set, "Append" Append, "SetTrue" SetTrue, "SetFalse" SetFalse, "Count" Count,
            "Help" Help, "HelpShort" HelpShort, "HelpLong" HelpLong, "Version" Version,
        }
    };
}

// The names of value hints, with the variants of `ValueHint`.
macro_rules! each_hint {
    ($all:ident! $($asked:tt)*) => {
        $all! {
            [$($asked)*]
            "Unknown" Unknown, "Other" Other, "AnyPath" AnyPath, "FilePath" FilePath,
            "DirPath" DirPath, "ExecutablePath" ExecutablePath, "CommandName" CommandName,
            "CommandString" CommandString, "CommandWithArguments" CommandWithArguments,
            "Username" Username, "Hostname" Hostname, "Url" Url, "EmailAddress" EmailAddress,
        }
    };
}

// The names of protocols, with the variants of `ValuesProtocol`. `Lines` has no name.
macro_rules! each_protocol {
    ($all:ident! $($asked:tt)*) => {
        $all! {
            [$($asked)*]
            "cobra" Cobra,
        }
    };
}

// Lists the names.
macro_rules! all_names {
    ([] $($name:literal $variant:ident,)*) => {
        &[$($name),*]
    };
}

pub(crate) use each_action;
pub(crate) use each_hint;
pub(crate) use each_protocol;

/// A kind of object in a tree file.
#[derive(Clone, Copy, Debug, Drop, PartialEq, Eq)]
pub enum ObjectKind {
    Command,
    Argument,
    PossibleValue,
}

impl ObjectKind {
    /// Returns the name of the kind in a message.
    pub fn name(self) -> &'static str {
        match self {
            ObjectKind::Command => "a command",
            ObjectKind::Argument => "an argument",
            ObjectKind::PossibleValue => "a possible value",
        }
    }

    /// Returns the keys that an object of the kind may have.
    #[tactic(auto, unfolding(crate::specs::ArgumentForm::argument_keys, crate::specs::CommandForm::command_keys, crate::specs::PossibleValueForm::value_keys))]
    pub fn keys(self) -> &'static [&'static str]
        ensures { map (λ key. key.now) result.now ≡ kind_keys self }
    {
        match self {
            ObjectKind::Command => commands::KEYS,
            ObjectKind::Argument => args::KEYS,
            ObjectKind::PossibleValue => possible_values::KEYS,
        }
    }

    /// Returns the key that an object of the kind needs.
    pub fn needed(self) -> &'static str
        ensures { result.now ≡ needed_key self }
    {
        match self {
            ObjectKind::Command | ObjectKind::PossibleValue => "name",
            ObjectKind::Argument => "id",
        }
    }
}

/// A kind of value in a tree file, lists left out.
#[derive(Clone, Copy, Debug, Drop, PartialEq, Eq)]
pub enum ValueKind {
    Text,
    Boolean,
    /// A whole number that fits in 64 bits.
    WholeNumber,
    /// A text of one character.
    Character,
    /// The least and the greatest number of values of an argument.
    ValueRange,
    /// The name of an action.
    Action,
    /// The name of a value hint.
    ValueHint,
    /// The name of a protocol.
    ValuesProtocol,
    Object(ObjectKind),
}

impl ValueKind {
    /// Returns the names that a text of the kind may be; none if the kind has no such list.
    pub fn names(self) -> &'static [&'static str] {
        match self {
            ValueKind::Action => ACTIONS,
            ValueKind::ValueHint => VALUE_HINTS,
            ValueKind::ValuesProtocol => PROTOCOLS,
            _ => &[],
        }
    }
}

const ACTIONS: &[&str] = each_action!(all_names!);

const VALUE_HINTS: &[&str] = each_hint!(all_names!);

const PROTOCOLS: &[&str] = each_protocol!(all_names!);
