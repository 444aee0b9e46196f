//! The lists that the words before the index leave open to the word there.

ghost use Rattle.std.specs.Prelude.{◌≡◌};
ghost use Rattle.std.specs.Option.{option_copied};
ghost use Rattle.cc_engine.specs.OpenLists.{all_open, has_enough, none_open, open_lists_by};

use crate::walking::{Pending, State, positional_at};
use cc_arg::{Arg, counted_range};

/// The lists that are offered in addition to the values of an open option.
#[derive(Drop)]
pub(crate) struct OpenLists {
    /// True if the children of the node are offered.
    pub children: bool,
    /// The number of the value of the positional at the position, if its values are offered.
    pub value: Option<usize>,
    /// True if the options of the node are offered.
    pub options: bool,
}

impl OpenLists {
    /// Returns the lists that words which lead to `state` leave open at a node with `arguments`.
    pub(crate) fn new(arguments: &[Arg], state: &State<'_>) -> OpenLists
        ensures { result ≡ open_lists_by arguments.now state.now.position state.now.escaped
            state.now.pending }
    {
        match &state.pending {
            Pending::Nothing => OpenLists::full(state.escaped),
            Pending::PositionalRun(count) => OpenLists {
                children: false,
                value: Some(*count),
                options: !state.escaped
                    && has_enough(positional_at(arguments, state.position), *count),
            },
            Pending::PositionMoved => OpenLists {
                children: false,
                value: Some(0),
                options: false,
            },
            Pending::OptionOpen(option, count) => {
                if counted_range(option.get()).min_values() <= *count {
                    OpenLists::full(state.escaped)
                } else {
                    OpenLists::none()
                }
            }
        }
    }

    fn full(escaped: bool) -> OpenLists
        ensures { result ≡ all_open escaped }
    {
        OpenLists {
            children: true,
            value: Some(0),
            options: !escaped,
        }
    }

    fn none() -> OpenLists
        ensures { result ≡ none_open }
    {
        OpenLists {
            children: false,
            value: None,
            options: false,
        }
    }
}

fn has_enough(positional: Option<&Arg>, count: usize) -> bool
    ensures { result ≡ has_enough (option_copied positional.entry) count }
{
    match positional {
        None => true,
        Some(argument) => counted_range(argument).min_values() <= count,
    }
}
