//! The subcommands of a command as candidates.

ghost use Rattle.std.specs.Prelude.{◌≡◌, ◌++◌, [], ◌∷◌, map, filter, IfOk, OnOk};
ghost use Rattle.cc_candidates.specs.Beginning.{begins};
ghost use Rattle.cc_command.specs.Tree.{forest_of};
ghost use Rattle.cc_engine.specs.Children.{child_candidate, child_candidates, children_candidates, external, in_candidates_order, subcommand_candidates};

use crate::gathering::joined::{concat, push_candidate};
use cc_base::Text;
use cc_candidates::{
    CompletionCandidate, begins_with, copy_of_some, retain_beginning_with, sort_candidates,
};
use cc_command::Command;
use std::alloc::{AllocError, Global};

/// Returns the candidates for the children of `command` that begin with `word`: their names,
/// visible and hidden aliases, and `programs` if the command accepts external subcommands. They are
/// sorted, and equal candidates appear once.
///
/// # Errors
///
/// `AllocError` if an allocation fails.
#[tactic(auto, unfolding(crate::specs::Children::subcommand_candidates))]
pub fn subcommand_candidates(
    alloc: Global,
    command: &Command,
    programs: Vec<CompletionCandidate>,
    word: &str,
) -> Result<Vec<CompletionCandidate>, AllocError>
    ensures { IfOk result (λ finished. finished.items
        ≡ subcommand_candidates command.now programs.items word.now) }
{
    let mut found = children_beginning(alloc, command, word)?;
    let mut programs = retain_beginning_with(external(alloc, command, programs), word);
    found.append(&mut programs)?;
    sort(&mut found)?;
    Ok(found)
}

// Returns the list of other programs, if the command accepts external subcommands.
fn external(
    alloc: Global,
    command: &Command,
    programs: Vec<CompletionCandidate>,
) -> Vec<CompletionCandidate>
    ensures { result.items ≡ external command.now.node programs.items }
{
    if command.is_allow_external_subcommands_set() {
        return programs;
    }
    Vec::new(alloc)
}

// Sorts the candidates and removes duplicates.
fn sort(candidates: &mut Vec<CompletionCandidate>) -> Result<(), AllocError>
    ensures { OnOk result (candidates.new.items ≡ in_candidates_order candidates.old.items) }
{
    sort_candidates(candidates)?;
    candidates.dedup();
    Ok(())
}

fn children_beginning(
    alloc: Global,
    command: &Command,
    word: &str,
) -> Result<Vec<CompletionCandidate>, AllocError>
    ensures { IfOk result (λ found. found.items
        ≡ filter (begins word.now) (children_candidates command.now.node command.now.children)) }
{
    let mut found = Vec::new(alloc);
    push_children(&mut found, alloc, command, command.get_subcommands(), word)?;
    Ok(found)
}

// Adds the candidates of siblings that begin with the word.
fn push_children(
    found: &mut Vec<CompletionCandidate>,
    alloc: Global,
    parent: &Command,
    siblings: &[Command],
    word: &str,
) -> Result<(), AllocError>
    ensures { OnOk result (found.new.items ≡ found.old.items
        ++ filter (begins word.now)
        (children_candidates parent.now.node (forest_of siblings.now))) }
{
    for child in siblings {
        push_child(found, alloc, parent, child, word)?;
    }
    Ok(())
}

// Adds the candidates of a child that begin with the word: its name, its visible aliases, then its
// hidden aliases.
fn push_child(
    found: &mut Vec<CompletionCandidate>,
    alloc: Global,
    parent: &Command,
    child: &Command,
    word: &str,
) -> Result<(), AllocError>
    ensures { OnOk result (found.new.items ≡ found.old.items
        ++ filter (begins word.now) (child_candidates parent.now.node child.now.node)) }
{
    let hidden = child.is_hide_set();
    let names = Names {
        parent,
        child,
        hidden,
    };
    let aliases = Names {
        parent,
        child,
        hidden: true,
    };
    push_name(found, alloc, &names, child.get_name(), word)?;
    push_names(found, alloc, &names, child.get_visible_aliases(), word)?;
    push_names(found, alloc, &aliases, child.get_aliases(), word)
}

// What the candidates for some names of a child have in common.
#[derive(Clone, Copy)]
struct Names<'a> {
    parent: &'a Command,
    child: &'a Command,
    hidden: bool,
}

// Adds a candidate for each of the names that begins with the word.
fn push_names(
    found: &mut Vec<CompletionCandidate>,
    alloc: Global,
    of: &Names<'_>,
    names: &[Text],
    word: &str,
) -> Result<(), AllocError>
    ensures { OnOk result (found.new.items ≡ found.old.items
        ++ filter (begins word.now) (map (child_candidate of.now.parent.now.node of.now.child.now.node
        of.now.hidden) names.now)) }
{
    for name in names {
        push_name(found, alloc, of, name.as_str(), word)?;
    }
    Ok(())
}

// Adds the candidate for a name, if the name begins with the word.
fn push_name(
    found: &mut Vec<CompletionCandidate>,
    alloc: Global,
    of: &Names<'_>,
    name: &str,
    word: &str,
) -> Result<(), AllocError>
    ensures { OnOk result (found.new.items ≡ found.old.items
        ++ filter (begins word.now) (child_candidate of.now.parent.now.node of.now.child.now.node
        of.now.hidden name.now ∷ [])) }
{
    if !begins_with(name, word) {
        return Ok(());
    }
    push_candidate(found, child_candidate(alloc, of, name)?)
}

// Creates the candidate for a name.
fn child_candidate(
    alloc: Global,
    of: &Names<'_>,
    name: &str,
) -> Result<CompletionCandidate, AllocError>
    ensures { IfOk result (λ candidate. candidate
        ≡ child_candidate of.now.parent.now.node of.now.child.now.node of.now.hidden name.now) }
{
    let heading = of
        .parent
        .get_subcommand_help_heading()
        .unwrap_or("Commands");
    let value = String::from_str(alloc, name)?;
    let tag = String::from_str(alloc, heading)?;
    let id = concat(alloc, "command::", of.child.get_name())?;
    let help = copy_of_some(alloc, of.child.get_about())?;
    Ok(
        CompletionCandidate::new(value)
            .help(help)
            .id(Some(id))
            .tag(Some(tag))
            .display_order(Some(of.child.get_display_order()))
            .hide(of.hidden),
    )
}
