//! The visits of a tree in table order.

ghost use Rattle.std.specs.Prelude.{◌≡◌, ◌++◌, ◌<◌, length, reverse, IfOk, OnOk};
ghost use Rattle.std.specs.Prelude.{is_ok, if◌then◌else◌};
ghost use Rattle.cc_generator.specs.Flat.{HasItsChildren, children_at};
ghost use Rattle.cc_generator.specs.TableStack.{items_at, table_items};

use crate::flat::Flat;
use crate::keys::{KeyScheme, SharedKey, push_keys_below};
use crate::stack::push_reversed;
use crate::visit::{Visit, visit_at};
use cc_base::Text;
use std::alloc::{AllocError, Global};
use std::marker::Model;

// A child that is yet to be visited, under one key of its parent.
#[derive(Drop)]
pub(crate) struct TableItem {
    pub above: usize,
    pub number: usize,
    pub key: SharedKey,
}

/// The remaining visits of a tree, in table order:
///
/// - The root is visited under its key.
/// - Then come its children, one after another. For each key of the parent, the child is visited
///   under each of its own keys, followed by everything below it.
///
/// Clauses see the list of visits.
#[derive(Drop)]
pub struct TableVisits<'f, 'a, K: KeyScheme> {
    flat: &'f Flat<'a>,
    keys: &'f K,
    // the node that is being visited, the node above it, and its remaining keys, the next one last
    number: usize,
    above: usize,
    ready: Vec<Text>,
    // the items after it, the next one last
    stack: Vec<TableItem>,
}

impl<'f, 'a, K: KeyScheme> Model for TableVisits<'f, 'a, K> {
    ghost use Rattle.std.specs.Prelude.{ℕ, List, ◌++◌, ◌<◌, length, reverse};
    ghost use Rattle.cc_generator.specs.Flat.{tree_at};
    ghost use Rattle.cc_generator.specs.Visits.{Keyed, under_each};
    ghost use Rattle.cc_generator.specs.VisitCode.{visits_code};

    ghost Value = { List (Keyed (List ℕ)) };

    ghost coded = { visits_code };

    ghost use Rattle.cc_generator.specs.Stack.{from_stack};
    ghost use Rattle.cc_generator.specs.TableStack.{AreListed, tables_of};

    ghost view = { λ visits.
        under_each (reverse visits.ready.items) (tree_at visits.flat.now visits.above).node
        (tree_at visits.flat.now visits.number)
        ++ from_stack (tables_of visits.flat.now (K.child_key visits.keys.now))
        visits.stack.items };

    ghost invariant = { λ visits.
        (visits.number < length visits.flat.now) × ((visits.above < length visits.flat.now)
        × AreListed visits.flat.now visits.stack.items) };
}

impl<'f, 'a, K: KeyScheme> TableVisits<'f, 'a, K> {
    ghost use Rattle.std.specs.Prelude.{◌≡◌, ◌++◌, ◌<◌, [], length, IfOk, IfNone};
    ghost use Rattle.std.specs.Option.{option_map, option_to_list};
    ghost use Rattle.cc_generator.specs.Flat.{tree_at};
    ghost use Rattle.cc_generator.specs.Visits.{table_visits};
    ghost use Rattle.cc_generator.specs.Meaning.{visit_of};

    /// Returns all visits: the root under `key`, then everything below it.
    ///
    /// # Errors
    ///
    /// `AllocError` if an allocation fails.
    #[tactic(auto, using(crate::proofs::TableStack::tables_begin, crate::proofs::TableStack::tables_listed))]
    pub fn new(
        alloc: Global,
        flat: &'f Flat<'a>,
        key: &str,
        keys: &'f K,
    ) -> Result<TableVisits<'f, 'a, K>, AllocError>
        requires { 0 < length flat.now }
        ensures { IfOk result
            (λ visits. visits ≡ table_visits (K.child_key keys.now) key.now (tree_at flat.now 0)) }
    {
        let mut own = Vec::new(alloc);
        own.push(Text::copy_of(alloc, key)?)?;
        let mut stack = Vec::new(alloc);
        push_below(&mut stack, alloc, flat, 0, &own)?;
        Ok(TableVisits {
            flat,
            keys,
            number: 0,
            above: 0,
            ready: own,
            stack,
        })
    }

    /// Returns the next visit, or `None` if none remains.
    ///
    /// # Errors
    ///
    /// `AllocError` if an allocation fails. The contract then says nothing of later calls: visits
    /// may be missing, or show a node with the key of another.
    #[tactic(auto, using(crate::proofs::TableStack::table_later, crate::proofs::TableStack::some_key, crate::proofs::TableStack::tables_end, crate::proofs::TableStack::table_listed, crate::proofs::TableStack::AreListed_rest, crate::proofs::TableStack::AreListed_top, crate::proofs::TableStack::AreListed_above))]
    pub fn next(&mut self, alloc: Global) -> Result<Option<Visit<'a>>, AllocError>
        ensures first { IfOk result
            (λ found. self.old ≡ option_to_list (option_map visit_of found) ++ self.new) }
        ensures end { IfOk result (λ found. IfNone found (self.new ≡ [])) }
    {
        let flat = self.flat;
        if let Some(key) = self.ready.pop() {
            return Ok(Some(visit_at(flat, self.above, self.number, key)));
        }
        let Some(TableItem { above, number, key }) = self.stack.pop() else {
            return Ok(None);
        };
        let command = flat.command(number);
        push_keys_below(&mut self.ready, alloc, self.keys, key.as_str(), command)?;
        push_below(&mut self.stack, alloc, flat, number, &self.ready)?;
        self.number = number;
        self.above = above;
        self.ready.reverse();
        match self.ready.pop() {
            Some(key) => Ok(Some(visit_at(flat, above, number, key))),
            None => Ok(None),
        }
    }
}

// Puts the children of a node on the stack, each under each of the node's keys, so that the first
// is on top. Most nodes have no children, and cost no call.
#[tactic(auto, using(crate::proofs::TableStack::no_items))]
#[inline(always)]
fn push_below(
    stack: &mut Vec<TableItem>,
    alloc: Global,
    flat: &Flat<'_>,
    number: usize,
    keys: &[Text],
) -> Result<(), AllocError>
    requires { number < length flat.now }
    ensures items { stack.new.items ≡ (if is_ok result then stack.old.items
        ++ reverse (table_items number keys.now (children_at flat.now number))
        else stack.old.items) }
    ensures children { OnOk result (HasItsChildren flat.now number) }
{
    let children = flat.children(number);
    if children.start == children.end {
        return Ok(());
    }
    let below = items_below(alloc, flat, number, keys)?;
    push_reversed(stack, below)
}

// Returns the children of a node, each under each of the node's keys.
#[inline(never)]
fn items_below(
    alloc: Global,
    flat: &Flat<'_>,
    number: usize,
    keys: &[Text],
) -> Result<Vec<TableItem>, AllocError>
    requires { number < length flat.now }
    ensures items { IfOk result
        (λ items. items.items ≡ table_items number keys.now (children_at flat.now number)) }
    ensures children { OnOk result (HasItsChildren flat.now number) }
{
    let mut items = Vec::new(alloc);
    let children = flat.children(number);
    let shared = shared_keys(alloc, keys)?;
    for child in children.start..children.end {
        push_shared(&mut items, number, child, &shared)?;
    }
    Ok(items)
}

// Copies each key so that it can be shared.
fn shared_keys(alloc: Global, keys: &[Text]) -> Result<Vec<SharedKey>, AllocError>
    ensures { IfOk result (λ shared. shared.items ≡ keys.now) }
{
    let mut shared = Vec::with_capacity(alloc, keys.len())?;
    for key in keys {
        shared.push(SharedKey::new(alloc, key.try_clone(alloc)?)?)?;
    }
    Ok(shared)
}

// Adds a node under each of its parent's keys.
fn push_shared(
    items: &mut Vec<TableItem>,
    above: usize,
    number: usize,
    keys: &[SharedKey],
) -> Result<(), AllocError>
    ensures { OnOk result (items.new.items ≡ items.old.items ++ items_at above number keys.now) }
{
    for key in keys {
        let key = key.share()?;
        items.push(TableItem { above, number, key })?;
    }
    Ok(())
}
