//! An argument, with its builders and getters.

ghost use Rattle.std.specs.Prelude.{◌≡◌, [], ◌∷◌, ◌++◌, Some, None, Option, unwrap_or};
ghost use Rattle.std.specs.Prelude.{IfOk, IfErr, is_ok};
ghost use Rattle.std.specs.Option.{option_map, option_copied};
ghost use Rattle.std.specs.String.{string_bytes};
ghost use Rattle.cc_arg.specs.Aliases.{shorts_left, longs_left};
ghost use Rattle.cc_arg.specs.Arguments.{new_arg, is_positional, range_of, action_of};
ghost use Rattle.cc_arg.specs.Arguments.{takes_values, filled, possible_values};

use crate::action::ArgAction;
use crate::aliases::{LongAndVisibleAliases, ShortAndVisibleAliases};
use crate::parts::{ArgParts, items_of, set_text, text_of};
use crate::possible_value::PossibleValue;
use crate::range::ValueRange;
use crate::value_hint::ValueHint;
use crate::values_protocol::ValuesProtocol;
use cc_base::{ArgValueCandidates, ArgValueCompleter, Error, Items, Text};
use std::alloc::{AllocError, AllocFailed, Global};
use std::marker::Model;

/// An argument of a command. If it has neither a short nor a long, it is a positional. Otherwise it
/// is an option if it takes values, and a flag if it takes none.
///
/// Builders take the argument and return the changed one. A builder that adds to a list can fail
/// with `Memory`; it then drops the argument. Visible aliases are shown only if the short (or long)
/// is set.
#[derive(Drop)]
pub struct Arg {
    parts: ArgParts,
}

impl Model for Arg {
    ghost use Rattle.cc_arg.specs.declared.parts.ArgParts.{ArgParts};

    ghost Value = { ArgParts };

    ghost view = { λ argument. argument.parts };
}

impl From<ArgParts> for Arg {
    ghost use Rattle.std.specs.Prelude.{◌≡◌};

    ghost from_gives = { λ parts argument. argument ≡ parts };

    fn from(parts: ArgParts) -> Arg {
        Arg { parts }
    }
}

impl Arg {
    /// Makes an argument with this id, in which nothing else is set. Its lists allocate from
    /// `alloc`.
    pub fn new(alloc: Global, id: String) -> Arg
        ensures { result ≡ new_arg (string_bytes id) }
    {
        Arg::from(ArgParts::new(alloc, Text::from(id)))
    }

    /// Returns the id.
    pub fn get_id(&self) -> &str
        ensures { result.now ≡ self.now.id }
    {
        self.parts.id.as_str()
    }

    /// Sets the short: the `c` of `-c`.
    pub fn short(mut self, short: char) -> Arg
        ensures { result ≡ record self { short = Some short } }
    {
        self.parts.short = Some(short);
        self
    }

    /// Returns the short.
    pub fn get_short(&self) -> Option<char>
        ensures { result ≡ self.now.short }
    {
        self.parts.short
    }

    /// Adds a visible alias of the short.
    ///
    /// # Errors
    ///
    /// `Memory` if an allocation fails.
    pub fn visible_short_alias(mut self, alias: char) -> Result<Arg, Error>
        ensures ok { IfOk result (λ arg. arg ≡
            record self { visible_short_aliases = self.visible_short_aliases ++ alias ∷ [] }) }
        ensures memory { IfErr result (λ error. error ≡ Error.Memory) }
    {
        let added = self.parts.visible_short_aliases.push(alias);
        if_added(added, self)
    }

    /// Returns the visible aliases of the short.
    pub fn get_visible_short_aliases(&self) -> &[char]
        ensures { result.now ≡ self.now.visible_short_aliases }
    {
        self.parts.visible_short_aliases.as_slice()
    }

    /// Returns an iterator over the short, then its visible aliases, or `None` if there is no
    /// short.
    pub fn get_short_and_visible_aliases(&self) -> Option<ShortAndVisibleAliases<'_>>
        ensures { option_map shorts_left result
            ≡ option_map (λ short. short ∷ self.now.visible_short_aliases) self.now.short }
    {
        let short = self.parts.short?;
        let aliases = self.parts.visible_short_aliases.as_slice();
        Some(ShortAndVisibleAliases::new(short, aliases))
    }

    /// Adds a hidden alias of the short: a parser accepts it, but it is not shown.
    ///
    /// # Errors
    ///
    /// `Memory` if an allocation fails.
    pub fn short_alias(mut self, alias: char) -> Result<Arg, Error>
        ensures ok { IfOk result (λ arg.
            arg ≡ record self { short_aliases = self.short_aliases ++ alias ∷ [] }) }
        ensures memory { IfErr result (λ error. error ≡ Error.Memory) }
    {
        let added = self.parts.short_aliases.push(alias);
        if_added(added, self)
    }

    /// Returns the hidden aliases of the short, which a parser accepts.
    pub fn get_short_aliases(&self) -> &[char]
        ensures { result.now ≡ self.now.short_aliases }
    {
        self.parts.short_aliases.as_slice()
    }

    /// Sets the long: the `name` of `--name`.
    pub fn long(mut self, long: String) -> Arg
        ensures { result ≡ record self { long = Some (string_bytes long) } }
    {
        set_text(&mut self.parts.long, long);
        self
    }

    /// Returns the long.
    pub fn get_long(&self) -> Option<&str>
        ensures { option_copied result ≡ self.now.long }
    {
        text_of(&self.parts.long)
    }

    /// Adds a visible alias of the long.
    ///
    /// # Errors
    ///
    /// `Memory` if an allocation fails.
    pub fn visible_alias(mut self, alias: String) -> Result<Arg, Error>
        ensures ok { IfOk result (λ arg. arg ≡
            record self { visible_aliases = self.visible_aliases ++ string_bytes alias ∷ [] }) }
        ensures memory { IfErr result (λ error. error ≡ Error.Memory) }
    {
        let added = self.parts.visible_aliases.push(Text::from(alias));
        if_added(added, self)
    }

    /// Returns the visible aliases of the long.
    pub fn get_visible_aliases(&self) -> &[Text]
        ensures { result.now ≡ self.now.visible_aliases }
    {
        self.parts.visible_aliases.as_slice()
    }

    /// Returns an iterator over the long, then its visible aliases, or `None` if there is no long.
    pub fn get_long_and_visible_aliases(&self) -> Option<LongAndVisibleAliases<'_>>
        ensures { option_map longs_left result
            ≡ option_map (λ long. long ∷ self.now.visible_aliases) self.now.long }
    {
        let long = self.get_long()?;
        let aliases = self.parts.visible_aliases.as_slice();
        Some(LongAndVisibleAliases::new(long, aliases))
    }

    /// Adds a hidden alias of the long, after those that it has: a parser accepts it, but it is not
    /// shown. It may be empty, and it may be there already.
    ///
    /// # Errors
    ///
    /// `Memory` if an allocation fails.
    pub fn alias(mut self, alias: String) -> Result<Arg, Error>
        ensures ok { IfOk result (λ arg.
            arg ≡ record self { aliases = self.aliases ++ string_bytes alias ∷ [] }) }
        ensures memory { IfErr result (λ error. error ≡ Error.Memory) }
    {
        let added = self.parts.aliases.push(Text::from(alias));
        if_added(added, self)
    }

    /// Returns the hidden aliases of the long, which a parser accepts.
    pub fn get_aliases(&self) -> &[Text]
        ensures { result.now ≡ self.now.aliases }
    {
        self.parts.aliases.as_slice()
    }

    /// Sets the help text.
    pub fn help(mut self, help: String) -> Arg
        ensures { result ≡ record self { help = Some (string_bytes help) } }
    {
        set_text(&mut self.parts.help, help);
        self
    }

    /// Returns the help text.
    pub fn get_help(&self) -> Option<&str>
        ensures { option_copied result ≡ self.now.help }
    {
        text_of(&self.parts.help)
    }

    /// Sets the help heading, with which live completion tags the candidates of this argument.
    pub fn help_heading(mut self, heading: String) -> Arg
        ensures { result ≡ record self { help_heading = Some (string_bytes heading) } }
    {
        set_text(&mut self.parts.help_heading, heading);
        self
    }

    /// Returns the help heading.
    pub fn get_help_heading(&self) -> Option<&str>
        ensures { option_copied result ≡ self.now.help_heading }
    {
        text_of(&self.parts.help_heading)
    }

    /// Sets the action.
    pub fn action(mut self, action: ArgAction) -> Arg
        ensures { result ≡ record self { action = Some action } }
    {
        self.parts.action = Some(action);
        self
    }

    /// Returns the action, or `Set` if none is set.
    pub fn get_action(&self) -> ArgAction
        ensures { result ≡ unwrap_or self.now.action ArgAction.Set }
    {
        self.parts.action.unwrap_or(ArgAction::Set)
    }

    /// Sets how many values each use takes.
    pub fn num_args(mut self, range: ValueRange) -> Arg
        ensures { result ≡ record self { num_args = Some range } }
    {
        self.parts.num_args = Some(range);
        self
    }

    /// Returns how many values each use takes, if that was set or the command is built.
    pub fn get_num_args(&self) -> Option<ValueRange>
        ensures { result ≡ self.now.num_args }
    {
        self.parts.num_args
    }

    /// Adds the name of a further value, under which it is shown.
    ///
    /// # Errors
    ///
    /// `Memory` if an allocation fails.
    pub fn value_name(mut self, name: String) -> Result<Arg, Error>
        ensures ok { IfOk result (λ arg.
            arg ≡ record self { value_names = self.value_names ++ string_bytes name ∷ [] }) }
        ensures memory { IfErr result (λ error. error ≡ Error.Memory) }
    {
        let added = self.parts.value_names.push(Text::from(name));
        if_added(added, self)
    }

    /// Returns the names of the values.
    pub fn get_value_names(&self) -> &[Text]
        ensures { result.now ≡ self.now.value_names }
    {
        self.parts.value_names.as_slice()
    }

    /// Sets the character that separates several values in one word.
    pub fn value_delimiter(mut self, delimiter: char) -> Arg
        ensures { result ≡ record self { value_delimiter = Some delimiter } }
    {
        self.parts.value_delimiter = Some(delimiter);
        self
    }

    /// Returns the character that separates several values in one word.
    pub fn get_value_delimiter(&self) -> Option<char>
        ensures { result ≡ self.now.value_delimiter }
    {
        self.parts.value_delimiter
    }

    /// Sets the possible values.
    pub fn value_parser(mut self, values: Vec<PossibleValue>) -> Arg
        ensures { result ≡ record self { possible_values = Some values.items } }
    {
        self.parts.possible_values = Some(Items::from(values));
        self
    }

    /// Sets the value hint.
    pub fn value_hint(mut self, hint: ValueHint) -> Arg
        ensures { result ≡ record self { value_hint = hint } }
    {
        self.parts.value_hint = hint;
        self
    }

    /// Returns the value hint.
    pub fn get_value_hint(&self) -> ValueHint
        ensures { result ≡ self.now.value_hint }
    {
        self.parts.value_hint
    }

    /// Sets the words of a command that prints the values: a program and its arguments. This
    /// library never starts a program: a caller has to run the words. Scripts do not change.
    pub fn values_from(mut self, words: Vec<Text>) -> Arg
        ensures { result ≡ record self { values_from = Some words.items } }
    {
        self.parts.values_from = Some(Items::from(words));
        self
    }

    /// Returns the words of the command that prints the values.
    pub fn get_values_from(&self) -> Option<&[Text]>
        ensures { option_copied result ≡ self.now.values_from }
    {
        items_of(&self.parts.values_from)
    }

    /// Sets the path of the file that lists the values. Scripts do not change.
    pub fn values_file(mut self, path: String) -> Arg
        ensures { result ≡ record self { values_file = Some (string_bytes path) } }
    {
        set_text(&mut self.parts.values_file, path);
        self
    }

    /// Returns the path of the file that lists the values.
    pub fn get_values_file(&self) -> Option<&str>
        ensures { option_copied result ≡ self.now.values_file }
    {
        text_of(&self.parts.values_file)
    }

    /// Sets the text at which the value of a line ends and its description begins, instead of a
    /// tab. It applies to the lines of `values_from` and `values_file`.
    pub fn values_split(mut self, separator: String) -> Arg
        ensures { result ≡ record self { values_split = Some (string_bytes separator) } }
    {
        set_text(&mut self.parts.values_split, separator);
        self
    }

    /// Returns the text at which the value of a line ends, if it is not a tab.
    pub fn get_values_split(&self) -> Option<&str>
        ensures { option_copied result ≡ self.now.values_split }
    {
        text_of(&self.parts.values_split)
    }

    /// Sets whether the words of the command line are passed to the program of `values_from`, after
    /// its own words: those behind the name of the completed program, up to the one to complete.
    pub fn values_words(mut self, pass: bool) -> Arg
        ensures { result ≡ record self { values_words = pass } }
    {
        self.parts.values_words = pass;
        self
    }

    /// Returns whether the words of the command line are passed to the program of `values_from`.
    pub fn is_values_words_set(&self) -> bool
        ensures { result ≡ self.now.values_words }
    {
        self.parts.values_words
    }

    /// Sets the form of the lines that the program of `values_from` prints.
    pub fn values_protocol(mut self, protocol: ValuesProtocol) -> Arg
        ensures { result ≡ record self { values_protocol = protocol } }
    {
        self.parts.values_protocol = protocol;
        self
    }

    /// Returns the form of the lines that the program of `values_from` prints.
    pub fn get_values_protocol(&self) -> ValuesProtocol
        ensures { result ≡ self.now.values_protocol }
    {
        self.parts.values_protocol
    }

    /// Sets the value that a parser uses if the argument is not given. Scripts and candidates do
    /// not change.
    pub fn default_value(mut self, value: String) -> Arg
        ensures { result ≡ record self { default_value = Some (string_bytes value) } }
    {
        set_text(&mut self.parts.default_value, value);
        self
    }

    /// Returns the value that a parser uses if the argument is not given.
    pub fn get_default_value(&self) -> Option<&str>
        ensures { option_copied result ≡ self.now.default_value }
    {
        text_of(&self.parts.default_value)
    }

    /// Sets the word that ends the values.
    pub fn value_terminator(mut self, terminator: String) -> Arg
        ensures { result ≡ record self { value_terminator = Some (string_bytes terminator) } }
    {
        set_text(&mut self.parts.value_terminator, terminator);
        self
    }

    /// Returns the word that ends the values.
    pub fn get_value_terminator(&self) -> Option<&str>
        ensures { option_copied result ≡ self.now.value_terminator }
    {
        text_of(&self.parts.value_terminator)
    }

    /// Adds the id of an argument that cannot be given together with this one.
    ///
    /// # Errors
    ///
    /// `Memory` if an allocation fails.
    pub fn conflicts_with(mut self, id: String) -> Result<Arg, Error>
        ensures ok { IfOk result (λ arg.
            arg ≡ record self { conflicts = self.conflicts ++ string_bytes id ∷ [] }) }
        ensures memory { IfErr result (λ error. error ≡ Error.Memory) }
    {
        let added = self.parts.conflicts.push(Text::from(id));
        if_added(added, self)
    }

    /// Sets the index of a positional, counted from 1. Building the command keeps it.
    pub fn index(mut self, index: usize) -> Arg
        ensures { result ≡ record self { index = Some index } }
    {
        self.parts.index = Some(index);
        self
    }

    /// Returns the index of a positional, counted from 1, if it was set or the command is built.
    pub fn get_index(&self) -> Option<usize>
        ensures { result ≡ self.now.index }
    {
        self.parts.index
    }

    /// Sets the display order, which sorts the candidates of live completion.
    pub fn display_order(mut self, order: usize) -> Arg
        ensures { result ≡ record self { display_order = Some order } }
    {
        self.parts.display_order = Some(order);
        self
    }

    /// Returns the display order, or 999 if none is set.
    pub fn get_display_order(&self) -> usize
        ensures { result ≡ unwrap_or self.now.display_order 999 }
    {
        self.parts.display_order.unwrap_or(999)
    }

    /// Sets whether the argument must be given.
    pub fn required(mut self, required: bool) -> Arg
        ensures { result ≡ record self { required = required } }
    {
        self.parts.required = required;
        self
    }

    /// Returns whether the argument must be given.
    pub fn is_required_set(&self) -> bool
        ensures { result ≡ self.now.required }
    {
        self.parts.required
    }

    /// Sets whether the parser accepts the argument only after `--`. Live completion does not look
    /// at it.
    pub fn last(mut self, last: bool) -> Arg
        ensures { result ≡ record self { last = last } }
    {
        self.parts.last = last;
        self
    }

    /// Returns whether the parser accepts the argument only after `--`.
    pub fn is_last_set(&self) -> bool
        ensures { result ≡ self.now.last }
    {
        self.parts.last
    }

    /// Sets whether building the command also adds the argument to the commands below it.
    pub fn global(mut self, global: bool) -> Arg
        ensures { result ≡ record self { global = global } }
    {
        self.parts.global = global;
        self
    }

    /// Returns whether building the command also adds the argument to the commands below it.
    pub fn is_global_set(&self) -> bool
        ensures { result ≡ self.now.global }
    {
        self.parts.global
    }

    /// Sets whether the argument is hidden. Live completion offers a hidden argument only if no
    /// visible candidate matches. Scripts contain it anyway.
    pub fn hide(mut self, hide: bool) -> Arg
        ensures { result ≡ record self { hide = hide } }
    {
        self.parts.hide = hide;
        self
    }

    /// Returns whether the argument is hidden.
    pub fn is_hide_set(&self) -> bool
        ensures { result ≡ self.now.hide }
    {
        self.parts.hide
    }

    /// Sets whether words that begin with `-` are accepted as values.
    pub fn allow_hyphen_values(mut self, allow: bool) -> Arg
        ensures { result ≡ record self { allow_hyphen_values = allow } }
    {
        self.parts.allow_hyphen_values = allow;
        self
    }

    /// Returns whether words that begin with `-` are accepted as values.
    pub fn is_allow_hyphen_values_set(&self) -> bool
        ensures { result ≡ self.now.allow_hyphen_values }
    {
        self.parts.allow_hyphen_values
    }

    /// Sets the completer of the values, by its number, instead of an earlier one. It takes
    /// precedence over a list of candidates, the possible values and the value hint.
    pub fn add(mut self, completer: ArgValueCompleter) -> Arg
        ensures { result ≡ record self { completer = Some completer } }
    {
        self.parts.completer = Some(completer);
        self
    }

    /// Returns the number of the completer of the values.
    pub fn get_completer(&self) -> Option<ArgValueCompleter>
        ensures { result ≡ self.now.completer }
    {
        self.parts.completer
    }

    /// Sets the list of candidates for the values, by its number in `Completers`. It takes
    /// precedence over the possible values and the value hint.
    pub fn add_candidates(mut self, candidates: ArgValueCandidates) -> Arg
        ensures { result ≡ record self { candidates = Some candidates } }
    {
        self.parts.candidates = Some(candidates);
        self
    }

    /// Returns the number of the list of candidates for the values.
    pub fn get_candidates(&self) -> Option<ArgValueCandidates>
        ensures { result ≡ self.now.candidates }
    {
        self.parts.candidates
    }

    /// Returns whether the argument is a positional: it has neither a short nor a long.
    pub fn is_positional(&self) -> bool
        ensures { result ≡ is_positional self.now }
    {
        self.parts.short.is_none() && self.parts.long.is_none()
    }

    /// Returns whether the argument takes values, by its range. If no range is set, the one that
    /// building the command would fill in decides.
    pub fn takes_values(&self) -> bool
        ensures { result ≡ takes_values self.now }
    {
        counted_range(self).takes_values()
    }

    /// Returns an equal argument, which allocates from `alloc`.
    ///
    /// # Errors
    ///
    /// `Memory` if an allocation fails.
    pub fn try_clone(&self, alloc: Global) -> Result<Arg, Error>
        ensures equal { IfOk result (λ copy. copy ≡ self.now) }
        ensures memory { IfErr result (λ error. error ≡ Error.Memory) }
    {
        Ok(copy_of(alloc, self)?)
    }

    // Returns the action in effect: the one that is set, or the one that the range and the kind of
    // argument imply.
    pub(crate) fn counted_action(&self) -> ArgAction
        ensures { result ≡ action_of self.now }
    {
        if let Some(action) = self.parts.action {
            return action;
        }
        let greatest = counted_range(self).max_values();
        if greatest == 0 {
            ArgAction::SetTrue
        } else if self.is_positional() && greatest == usize::MAX {
            ArgAction::Append
        } else {
            ArgAction::Set
        }
    }
}

// Returns the argument if the addition to one of its lists succeeded. Otherwise drops it.
fn if_added<F: Drop>(added: Result<(), AllocFailed<F>>, argument: Arg) -> Result<Arg, Error>
    ensures same { is_ok result ≡ is_ok added }
    ensures ok { IfOk result (λ arg. arg ≡ argument) }
    ensures memory { IfErr result (λ error. error ≡ Error.Memory) }
{
    match added {
        Ok(()) => Ok(argument),
        Err(_) => {
            drop(argument);
            Err(Error::Memory)
        }
    }
}

/// Returns the possible values, if they are set and the argument takes values.
pub fn possible_values(argument: &Arg) -> Option<&[PossibleValue]>
    ensures { option_copied result ≡ possible_values argument.now }
{
    if !argument.takes_values() {
        return None;
    }
    listed_values(argument)
}

/// Returns the list of possible values that was given, also if the argument takes no values. A free
/// function, since `clap` has no such getter.
pub fn listed_values(argument: &Arg) -> Option<&[PossibleValue]>
    ensures { option_copied result ≡ argument.now.possible_values }
{
    items_of(&argument.parts.possible_values)
}

/// Returns the number of values in effect: the range that is set, or the one that the action and
/// the value names imply. This is a free function because `clap` has no such getter.
pub fn counted_range(argument: &Arg) -> ValueRange
    ensures { result ≡ range_of argument.now }
{
    if let Some(range) = argument.parts.num_args {
        return range;
    }
    if let Some(action) = argument.parts.action
        && !action.takes_values()
    {
        return ValueRange::exactly(0);
    }
    ValueRange::exactly(argument.parts.value_names.as_slice().len().max(1))
}

/// Returns the ids of the arguments that cannot be given together with this one, in the order in
/// which they were added. This is a free function because `clap` has no such getter.
pub fn conflicting_ids(argument: &Arg) -> &[Text]
    ensures { result.now ≡ argument.now.conflicts }
{
    argument.parts.conflicts.as_slice()
}

// The functions with which `cc_command` builds a command are free functions, so that
// `clap_complete` does not re-export them.

/// Returns an equal argument, as `Arg::try_clone` does, for callers that fail with `AllocError`.
///
/// # Errors
///
/// `AllocError` if an allocation fails.
pub fn copy_of(alloc: Global, argument: &Arg) -> Result<Arg, AllocError>
    ensures ok { IfOk result (λ copy. copy ≡ argument.now) }
{
    Ok(Arg {
        parts: argument.parts.try_clone(alloc)?,
    })
}

/// Sets the range and the action to those in effect, as building a command does.
pub fn fill_range_and_action(argument: &mut Arg)
    ensures { argument.new ≡ filled argument.old }
{
    let range = counted_range(argument);
    let action = argument.counted_action();
    argument.parts.num_args = Some(range);
    argument.parts.action = Some(action);
}

/// Sets the index to `index` if none is set, as building a command does for a positional.
pub fn fill_index(argument: &mut Arg, index: usize)
    ensures { argument.new ≡
        record argument.old { index = Some (unwrap_or argument.old.index index) } }
{
    let filled = match argument.parts.index {
        Some(given) => given,
        None => index,
    };
    argument.parts.index = Some(filled);
}

/// Sets the display order to `order` if none is set, as adding an argument to a command does.
pub fn fill_display_order(argument: &mut Arg, order: usize)
    ensures { argument.new ≡
        record argument.old { display_order = Some (unwrap_or argument.old.display_order order) } }
{
    let filled = match argument.parts.display_order {
        Some(given) => given,
        None => order,
    };
    argument.parts.display_order = Some(filled);
}

/// Sets the list of candidates for the values, as `Arg::add_candidates` does.
pub(crate) fn set_candidates(argument: &mut Arg, candidates: ArgValueCandidates)
    ensures { argument.new ≡ record argument.old { candidates = Some candidates } }
{
    argument.parts.candidates = Some(candidates);
}

/// Sets the value hint, as `Arg::value_hint` does.
pub(crate) fn set_value_hint(argument: &mut Arg, hint: ValueHint)
    ensures { argument.new ≡ record argument.old { value_hint = hint } }
{
    argument.parts.value_hint = hint;
}
