//! The state of the walk at one node.

ghost use Rattle.std.specs.Prelude.{◌≡◌, ◌<◌, suc};
ghost use Rattle.cc_engine.specs.Blocks.{start};
ghost use Rattle.cc_engine.specs.WordClasses.{class_of};
ghost use Rattle.cc_engine.specs.Machine.{value_state, option_state, closed_step, step, run_length};

use crate::walking::lookup::{allows_hyphens_at, capacity_at, max_values};
use crate::walking::word_class::{ArgRef, WordClass, class_of};
use cc_arg::Arg;

/// The option or positional that may take more values after the words read so far.
#[derive(Drop)]
pub enum Pending<'a> {
    /// No option takes more values, and no run of values has started.
    Nothing,
    /// The option has this many values, and takes more.
    OptionOpen(ArgRef<'a>, usize),
    /// The positional at the position has this many values in a row, and takes more.
    PositionalRun(usize),
    /// After `--`, the positional before the position has just received its last value.
    PositionMoved,
}

/// The effect of the words at a node, which are the words after the last descent.
#[derive(Drop)]
pub struct State<'a> {
    /// The index, from 1 on, of the positional to which the next positional value belongs.
    pub position: usize,
    /// Whether `--` has been read, at this node or at one above it.
    pub escaped: bool,
    /// The option or positional that may take more values.
    pub pending: Pending<'a>,
}

impl<'a> Pending<'a> {
    fn run_length(&self) -> usize
        ensures { result ≡ run_length self.now }
    {
        match self {
            Pending::PositionalRun(values) => *values,
            Pending::Nothing | Pending::OptionOpen(_, _) | Pending::PositionMoved => 0,
        }
    }
}

impl<'a> State<'a> {
    /// Returns the state before the first word at a node.
    pub(crate) fn start(escaped: bool) -> State<'a>
        ensures { result ≡ start escaped }
    {
        State {
            position: 1,
            escaped,
            pending: Pending::Nothing,
        }
    }

    // Reads one more value at the position, after a run of `values` values.
    fn after_value(arguments: &[Arg], position: usize, escaped: bool, values: usize) -> State<'a>
        requires { position < usize.MAX }
        ensures { result ≡ value_state arguments.now position escaped values }
    {
        let capacity = capacity_at(arguments, position);
        if values < capacity - 1 {
            return State {
                position,
                escaped,
                pending: Pending::PositionalRun(values + 1),
            };
        }
        let pending = if escaped {
            Pending::PositionMoved
        } else {
            Pending::Nothing
        };
        State {
            position: position + 1,
            escaped,
            pending,
        }
    }

    // Reads one more value of an open option, which has `values` values already.
    fn after_option(position: usize, option: ArgRef<'a>, values: usize) -> State<'a>
        ensures { result ≡ option_state position option.entry (suc values) }
    {
        let most = max_values(option.get());
        let pending = if values < most && values + 1 < most {
            Pending::OptionOpen(option, values + 1)
        } else {
            Pending::Nothing
        };
        State {
            position,
            escaped: false,
            pending,
        }
    }

    // Reads an unescaped word that no option takes, after a run of `values` values.
    fn after_other(
        arguments: &[Arg],
        position: usize,
        values: usize,
        class: WordClass<'a>,
    ) -> State<'a>
        requires { position < usize.MAX }
        ensures { result ≡ closed_step arguments.now position values class.entry }
    {
        let (escaped, pending) = match class {
            WordClass::Plain => return State::after_value(arguments, position, false, values),
            WordClass::Unknown => {
                if allows_hyphens_at(arguments, position) {
                    return State::after_value(arguments, position, false, values);
                }
                (false, Pending::Nothing)
            }
            WordClass::Escape => (true, Pending::Nothing),
            WordClass::Opens(option) => (false, Pending::OptionOpen(option, 0)),
            WordClass::Closed => (false, Pending::Nothing),
        };
        State {
            position,
            escaped,
            pending,
        }
    }

    /// Reads a word at a node with these arguments. The word names no child of the node.
    pub(crate) fn step(self, arguments: &'a [Arg], word: &str) -> State<'a>
        requires { self.position < usize.MAX }
        ensures { result ≡ step arguments.now self.entry.position self.entry.escaped
            self.entry.pending (class_of arguments.now word.now) }
    {
        let State {
            position,
            escaped,
            pending,
        } = self;
        if escaped {
            return State::after_value(arguments, position, true, pending.run_length());
        }
        let class = class_of(arguments, word);
        match pending {
            Pending::Nothing | Pending::PositionMoved => State::after_other(
                arguments, position, 0, class,
            ),
            Pending::PositionalRun(values) => State::after_other(
                arguments, position, values, class,
            ),
            Pending::OptionOpen(option, values) => {
                if class.follows(option.get()) {
                    State::after_option(position, option, values)
                } else {
                    State::after_other(arguments, position, 0, class)
                }
            }
        }
    }
}
