//! Follows paths into a value, and shows them.

ghost use Rattle.std.specs.Prelude.{◌≡◌, ◌++◌, IfOk, OnOk, codes, map};
ghost use Rattle.std.specs.List.{flat_map};
ghost use Rattle.std.specs.String.{string_bytes};
ghost use Rattle.cc_base.specs.Shown.{HoldsNoControl};
ghost use Rattle.complgen_check.specs.Places.{joined, path_text, shown_step, step_text};

use crate::errors::shown::push_shown;
use cc_base::on_one_line;
use complgen_tree_file::{Step, Value};
use std::alloc::{AllocError, Global};

/// Returns the value inside `value` that `step` leads to, and its index among the members or items.
/// Returns `None` if there is no such value.
pub(crate) fn inside<'v, 't>(
    value: &'v Value<'t>,
    step: Step<'_>,
) -> Option<(usize, &'v Value<'t>)> {
    match value {
        Value::Object(members) => inside_object(members.as_slice(), step),
        Value::Array(items) => inside_list(items.as_slice(), step),
        _ => None,
    }
}

fn inside_object<'v, 't>(
    members: &'v [(&'t str, Value<'t>)],
    step: Step<'_>,
) -> Option<(usize, &'v Value<'t>)> {
    match step {
        Step::Key(key) => last_member(members, key),
        Step::Member(_, index) => {
            let member = members.get(index)?;
            Some((index, &member.1))
        }
        Step::Item(_) => None,
    }
}

fn inside_list<'v, 't>(items: &'v [Value<'t>], step: Step<'_>) -> Option<(usize, &'v Value<'t>)> {
    match step {
        Step::Item(index) => {
            let item = items.get(index)?;
            Some((index, item))
        }
        _ => None,
    }
}

fn last_member<'v, 't>(
    members: &'v [(&'t str, Value<'t>)],
    key: &str,
) -> Option<(usize, &'v Value<'t>)> {
    let mut left = members.len();
    while left > 0 {
        left -= 1;
        let member = &members[left];
        if member.0 == key {
            return Some((left, &member.1));
        }
    }
    None
}

/// Returns `path` as it is shown, such as `subcommands[0].args[1].num_args`. A path without steps
/// is shown as `the file`.
///
/// # Errors
///
/// `AllocError` if an allocation fails.
pub(crate) fn show_path(alloc: Global, path: &[Step<'_>]) -> Result<String, AllocError>
    ensures path { IfOk result (λ shown. string_bytes shown ≡ path_text (map shown_step path.now)) }
    ensures line { IfOk result (λ shown. HoldsNoControl (string_bytes shown)) }
{
    let joined = join(alloc, path)?;
    on_one_line(alloc, joined.as_str())
}

fn join(alloc: Global, path: &[Step<'_>]) -> Result<String, AllocError>
    ensures { IfOk result (λ text. string_bytes text ≡ joined (map shown_step path.now)) }
{
    let Some((first, rest)) = path.split_first() else {
        return String::from_str(alloc, "the file");
    };
    let mut joined = String::new(alloc);
    push_step(alloc, &mut joined, "", *first)?;
    push_steps(alloc, &mut joined, rest)?;
    Ok(joined)
}

// Appends the steps after the first.
fn push_steps(alloc: Global, shown: &mut String, steps: &[Step<'_>]) -> Result<(), AllocError>
    ensures { OnOk result (string_bytes shown.new
        ≡ string_bytes shown.old
        ++ flat_map (step_text (codes ".")) (map shown_step steps.now)) }
{
    for step in steps {
        push_step(alloc, shown, ".", *step)?;
    }
    Ok(())
}

// Appends a step: a key after the text `before`, or an index in brackets.
fn push_step(
    alloc: Global,
    shown: &mut String,
    before: &str,
    step: Step<'_>,
) -> Result<(), AllocError>
    ensures { OnOk result (string_bytes shown.new
        ≡ string_bytes shown.old ++ step_text before.now (shown_step step.entry)) }
{
    match step {
        Step::Key(key) | Step::Member(key, _) => {
            shown.push_str(before)?;
            push_shown(shown, key)
        }
        Step::Item(index) => {
            let part = format!(in alloc; "[{index}]")?;
            shown.push_str(part.as_str())
        }
    }
}
