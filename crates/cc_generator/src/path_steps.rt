//! The visits of a tree in path order, with a step at the start and at the end of each node.

ghost use Rattle.std.specs.Prelude.{◌≡◌, ◌++◌, ◌<◌, length, IfOk, OnOk};
ghost use Rattle.cc_generator.specs.Flat.{HasItsChildren, children_at};
ghost use Rattle.cc_generator.specs.StepStack.{entries_at, step_items};

use crate::flat::Flat;
use crate::keys::{KeyScheme, push_keys_below};
use crate::stack::push_reversed;
use crate::visit::{Visit, visit_at};
use cc_base::Text;
use std::alloc::{AllocError, Global};
use std::marker::Model;

/// A step through a tree: a node is entered under a key, or left again.
#[derive(Drop)]
pub enum PathStep<'a> {
    /// The node is entered. The nodes below it come next.
    Enter(Visit<'a>),
    /// The node is left. Everything below it has been visited.
    Leave(Visit<'a>),
}

// A node that is yet to be entered or left under a key.
#[derive(Drop)]
pub(crate) struct StepItem {
    pub above: usize,
    pub number: usize,
    pub key: Text,
    pub leaving: bool,
}

/// The remaining steps through a tree, in path order:
///
/// - The root is entered under its key.
/// - Its children follow, one after another. A child is entered and left once for each of its keys,
///   with everything below it in between.
/// - At the end the root is left.
///
/// Clauses see the list of steps.
#[derive(Drop)]
pub struct PathSteps<'f, 'a, K: KeyScheme> {
    flat: &'f Flat<'a>,
    keys: &'f K,
    // the remaining items, the next one last
    stack: Vec<StepItem>,
}

impl<'f, 'a, K: KeyScheme> Model for PathSteps<'f, 'a, K> {
    ghost use Rattle.std.specs.Prelude.{ℕ, List};
    ghost use Rattle.cc_generator.specs.Visits.{Step};
    ghost use Rattle.cc_generator.specs.VisitCode.{steps_code};

    ghost Value = { List (Step (List ℕ)) };

    ghost coded = { steps_code };

    ghost use Rattle.cc_generator.specs.Stack.{from_stack};
    ghost use Rattle.cc_generator.specs.StepStack.{AreListed, steps_of};

    ghost view = { λ steps.
        from_stack (steps_of steps.flat.now (K.child_key steps.keys.now)) steps.stack.items };

    ghost invariant = { λ steps. AreListed steps.flat.now steps.stack.items };
}

impl<'f, 'a, K: KeyScheme> PathSteps<'f, 'a, K> {
    ghost use Rattle.std.specs.Prelude.{◌≡◌, ◌++◌, ◌<◌, [], length, IfOk, IfNone};
    ghost use Rattle.std.specs.Option.{option_map, option_to_list};
    ghost use Rattle.cc_generator.specs.Flat.{tree_at};
    ghost use Rattle.cc_generator.specs.Visits.{path_steps, steps_below};
    ghost use Rattle.cc_generator.specs.Meaning.{step_of};

    /// Returns all steps, from entering the root under `key` to leaving it.
    ///
    /// # Errors
    ///
    /// `AllocError` if an allocation fails.
    #[tactic(auto, using(crate::proofs::FromStack::from_stack_one, crate::proofs::StepStack::AreListed_one))]
    pub fn new(
        alloc: Global,
        flat: &'f Flat<'a>,
        key: &str,
        keys: &'f K,
    ) -> Result<PathSteps<'f, 'a, K>, AllocError>
        requires { 0 < length flat.now }
        ensures { IfOk result
            (λ steps. steps ≡ path_steps (K.child_key keys.now) key.now (tree_at flat.now 0)) }
    {
        let key = Text::copy_of(alloc, key)?;
        let mut stack = Vec::new(alloc);
        stack.push(StepItem {
            above: 0,
            number: 0,
            key,
            leaving: false,
        })?;
        Ok(PathSteps { flat, keys, stack })
    }

    /// Returns the steps below the root. The root has the given `key`, and is itself neither
    /// entered nor left.
    ///
    /// # Errors
    ///
    /// `AllocError` if an allocation fails.
    #[tactic(auto, using(crate::proofs::StepStack::steps_begin, crate::proofs::StepStack::begin_listed))]
    pub fn below(
        alloc: Global,
        flat: &'f Flat<'a>,
        key: &str,
        keys: &'f K,
    ) -> Result<PathSteps<'f, 'a, K>, AllocError>
        requires { 0 < length flat.now }
        ensures { IfOk result (λ steps. steps ≡ steps_below (K.child_key keys.now) key.now
            (tree_at flat.now 0).node (tree_at flat.now 0).children) }
    {
        let mut stack = items_below(alloc, flat, keys, 0, key)?;
        stack.reverse();
        Ok(PathSteps { flat, keys, stack })
    }

    /// Returns the next step, or `None` if none remains.
    ///
    /// # Errors
    ///
    /// `AllocError` if an allocation fails. The contract then says nothing of later calls: steps
    /// may be missing, or leave a node that was not entered.
    #[tactic(auto, using(crate::proofs::StepStack::step_enter, crate::proofs::StepStack::step_leave, crate::proofs::StepStack::steps_listed, crate::proofs::StepStack::AreListed_rest, crate::proofs::StepStack::AreListed_push, crate::proofs::StepStack::AreListed_top, crate::proofs::StepStack::AreListed_above, crate::proofs::FromStack::from_stack_none))]
    pub fn next(&mut self, alloc: Global) -> Result<Option<PathStep<'a>>, AllocError>
        ensures first { IfOk result
            (λ found. self.old ≡ option_to_list (option_map step_of found) ++ self.new) }
        ensures end { IfOk result (λ found. IfNone found (self.new ≡ [])) }
    {
        let Some(item) = self.stack.pop() else {
            return Ok(None);
        };
        let StepItem {
            above,
            number,
            key,
            leaving,
        } = item;
        let flat = self.flat;
        if leaving {
            return Ok(Some(PathStep::Leave(visit_at(flat, above, number, key))));
        }
        let below = items_below(alloc, flat, self.keys, number, key.as_str())?;
        let own = key.try_clone(alloc)?;
        self.stack.push(StepItem {
            above,
            number,
            key: own,
            leaving: true,
        })?;
        push_reversed(&mut self.stack, below)?;
        Ok(Some(PathStep::Enter(visit_at(flat, above, number, key))))
    }
}

// Returns the children of a node, each under its keys below the node's key.
fn items_below<K: KeyScheme>(
    alloc: Global,
    flat: &Flat<'_>,
    keys: &K,
    number: usize,
    key: &str,
) -> Result<Vec<StepItem>, AllocError>
    requires { number < length flat.now }
    ensures items { IfOk result (λ items. items.items
        ≡ step_items flat.now (K.child_key keys.now) number key.now (children_at flat.now number)) }
    ensures children { OnOk result (HasItsChildren flat.now number) }
{
    let mut items = Vec::new(alloc);
    let children = flat.children(number);
    for child in children.start..children.end {
        let mut own = Vec::new(alloc);
        push_keys_below(&mut own, alloc, keys, key, flat.command(child))?;
        push_at(&mut items, number, child, own)?;
    }
    Ok(items)
}

// Adds a node that is to be entered under each of the keys.
fn push_at(
    items: &mut Vec<StepItem>,
    above: usize,
    number: usize,
    keys: Vec<Text>,
) -> Result<(), AllocError>
    ensures { OnOk result
        (items.new.items ≡ items.old.items ++ entries_at above number keys.items) }
{
    for key in keys {
        items.push(StepItem {
            above,
            number,
            key,
            leaving: false,
        })?;
    }
    Ok(())
}
