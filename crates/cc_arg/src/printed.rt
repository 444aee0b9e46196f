//! The printed form of an argument.

ghost use Rattle.std.specs.Prelude.{◌≡◌, ◌++◌, replicate, Some, flat_map};
ghost use Rattle.std.specs.Fmt.{DisplaysOnOk};
ghost use Rattle.cc_arg.specs.Printed.{dots_where, further, is_count, is_optional, placeholder, printed, printed_after_name, printed_name, printed_names, printed_values, takes_more};

use crate::action::ArgAction;
use crate::arg::{Arg, counted_range};
use cc_base::Text;
use std::fmt;

impl fmt::Display for Arg {
    ghost output = { λ argument. Some (printed argument) };

    #[tactic(auto, unfolding(crate::specs::Printed::printed))]
    fn fmt<W: fmt::Write>(&self, f: &mut fmt::Formatter<W>) -> fmt::Result {
        if self.is_positional() {
            return write_values(self, f);
        }
        write_name(self, f)?;
        write_after_name(self, f)
    }
}

// Writes the long, or the short if there is no long.
fn write_name<W: fmt::Write>(argument: &Arg, f: &mut fmt::Formatter<W>) -> fmt::Result
    ensures { DisplaysOnOk W.write_str_gives f.old result
        (Some (printed_name argument.now.long argument.now.short)) f.new }
{
    if let Some(long) = argument.get_long() {
        return write!(f, "--{long}");
    }
    if let Some(short) = argument.get_short() {
        return write!(f, "-{short}");
    }
    Ok(())
}

// Writes the text after the name of an option or a flag.
#[tactic(auto, unfolding(crate::specs::Printed::printed_after_name))]
fn write_after_name<W: fmt::Write>(argument: &Arg, f: &mut fmt::Formatter<W>) -> fmt::Result
    ensures { DisplaysOnOk W.write_str_gives f.old result
        (Some (printed_after_name argument.now)) f.new }
{
    if !argument.takes_values() {
        return write_dots(counts(argument), f);
    }
    if counted_range(argument).min_values() > 0 {
        f.write_str(" ")?;
        return write_values(argument, f);
    }
    f.write_str(" [")?;
    write_values(argument, f)?;
    f.write_str("]")
}

#[tactic(auto, unfolding(crate::specs::Printed::printed_values))]
fn write_values<W: fmt::Write>(argument: &Arg, f: &mut fmt::Formatter<W>) -> fmt::Result
    ensures { DisplaysOnOk W.write_str_gives f.old result
        (Some (printed_values argument.now)) f.new }
{
    write_names(argument, f)?;
    write_dots(may_take_more(argument), f)
}

fn write_names<W: fmt::Write>(argument: &Arg, f: &mut fmt::Formatter<W>) -> fmt::Result
    ensures { DisplaysOnOk W.write_str_gives f.old result
        (Some (printed_names argument.now)) f.new }
{
    let optional = may_be_left_out(argument);
    let times = counted_range(argument).min_values().max(1);
    match argument.get_value_names().split_first() {
        None => write_repeated(argument.get_id(), times - 1, optional, f),
        Some((name, others)) => {
            if others.is_empty() {
                return write_repeated(name.as_str(), times - 1, optional, f);
            }
            write_placeholder(name.as_str(), optional, f)?;
            write_others(others, optional, f)
        }
    }
}

// Writes a name, then the same name `more` times.
fn write_repeated<W: fmt::Write>(
    name: &str,
    more: usize,
    optional: bool,
    f: &mut fmt::Formatter<W>,
) -> fmt::Result
    ensures { DisplaysOnOk W.write_str_gives f.old result (Some (placeholder optional name.now
        ++ flat_map (further optional) (replicate more name.now))) f.new }
{
    write_placeholder(name, optional, f)?;
    for _i in 0..more {
        write_further(name, optional, f)?;
    }
    Ok(())
}

fn write_others<W: fmt::Write>(
    names: &[Text],
    optional: bool,
    f: &mut fmt::Formatter<W>,
) -> fmt::Result
    ensures { DisplaysOnOk W.write_str_gives f.old result
        (Some (flat_map (further optional) names.now)) f.new }
{
    for name in names {
        write_further(name.as_str(), optional, f)?;
    }
    Ok(())
}

// Writes a name that follows another.
fn write_further<W: fmt::Write>(
    name: &str,
    optional: bool,
    f: &mut fmt::Formatter<W>,
) -> fmt::Result
    ensures { DisplaysOnOk W.write_str_gives f.old result
        (Some (further optional name.now)) f.new }
{
    f.write_str(" ")?;
    write_placeholder(name, optional, f)
}

fn write_placeholder<W: fmt::Write>(
    name: &str,
    optional: bool,
    f: &mut fmt::Formatter<W>,
) -> fmt::Result
    ensures { DisplaysOnOk W.write_str_gives f.old result
        (Some (placeholder optional name.now)) f.new }
{
    if optional {
        return write!(f, "[{name}]");
    }
    write!(f, "<{name}>")
}

fn write_dots<W: fmt::Write>(there: bool, f: &mut fmt::Formatter<W>) -> fmt::Result
    ensures { DisplaysOnOk W.write_str_gives f.old result (Some (dots_where there)) f.new }
{
    if there {
        return f.write_str("...");
    }
    Ok(())
}

// Returns whether the argument counts its uses.
fn counts(argument: &Arg) -> bool
    ensures { result ≡ is_count argument.now.action }
{
    argument.get_action() == ArgAction::Count
}

// Returns whether the values of a positional can be left out.
fn may_be_left_out(argument: &Arg) -> bool
    ensures { result ≡ is_optional argument.now }
{
    argument.is_positional()
        && (!argument.is_required_set() || counted_range(argument).min_values() == 0)
}

// Returns whether more values can follow than there are names.
fn may_take_more(argument: &Arg) -> bool
    ensures { result ≡ takes_more argument.now }
{
    let least = counted_range(argument).min_values();
    let names = argument.get_value_names().len();
    let written = if names > 1 { names } else { least.max(1) };
    counted_range(argument).max_values() > written
        || (argument.is_positional() && argument.counted_action() == ArgAction::Append)
}
