//! Building a command: adds and fills in what is missing, in the command and in all below it.

ghost use Rattle.std.specs.Prelude.{◌≡◌, ◌++◌, [], Some, IfOk, IfErr, IsTrue, OnOk, OnErr};
ghost use Rattle.std.specs.Result.{IsOk};
ghost use Rattle.std.specs.String.{string_bytes};
ghost use Rattle.std.specs.Vec.Iter.{into_iter_items};
ghost use Rattle.cc_command.specs.Tree.{forest_of};
ghost use Rattle.cc_command.specs.Names.{full_name, joined_name};
ghost use Rattle.cc_command.specs.Built.{built_tree, built_under, globals};
ghost use Rattle.cc_command.specs.Additions.{AreAfter, AreBuiltBy, AreOfTreeAfter, IsBuiltBy};
ghost use Rattle.cc_command.specs.Additions.{Suit, SuitTree};
ghost use Rattle.cc_base.specs.PlainName.{is_plain_name};
ghost use Rattle.cc_command.specs.Plain.{is_plain_tree};
ghost use Rattle.cc_command.specs.Quiet.{is_quiet_tree};

mod additions;
mod arguments;
mod help;
mod insertion;
mod texts;

use crate::command::Command;
use crate::command::build::additions::{Addition, addition_to};
use crate::command::build::arguments::push_globals;
pub use crate::command::build::arguments::{has_id, lacks_index};
use crate::command::build::insertion::{finish, put_before};
use cc_arg::Arg;
use cc_base::{Error, Text};
use std::alloc::{AllocError, Global};
use std::vec::IntoIter;

impl Command {
    /// Builds the command and all commands below it:
    ///
    /// - Each child gets the global arguments of its parent, except those whose ids it has already.
    ///   Children that were generated get none.
    /// - Each command gets the flag `help`. If it has a version, it gets the flag `version`. If it
    ///   has children, it gets the child `help`. None of them is added if it is disabled or exists
    ///   already.
    /// - Ranges, actions and indexes are filled in.
    /// - Each child gets its full name as its bin name.
    ///
    /// A plain command stays plain, and quiet possible values stay quiet. Building a built command
    /// changes nothing and never fails.
    ///
    /// # Errors
    ///
    /// `Memory` if an allocation fails. The command is then unchanged.
    pub fn build(&mut self, alloc: Global) -> Result<(), Error>
        ensures ok { OnOk result (self.new ≡ built_tree self.old) }
        ensures whole { OnOk result (built_tree self.new ≡ self.new) }
        ensures plain { OnOk result
            (IsTrue (is_plain_tree self.old) → IsTrue (is_plain_tree self.new)) }
        ensures quiet { OnOk result
            (IsTrue (is_quiet_tree self.old) → IsTrue (is_quiet_tree self.new)) }
        ensures built { IsTrue self.old.node.built → IsOk result }
        ensures err { OnErr result (self.new ≡ self.old) }
        ensures memory { IfErr result (λ error. error ≡ Error.Memory) }
    {
        if self.is_built() {
            return Ok(());
        }
        let bin_name = Text::copy_of_some(alloc, self.get_bin_name())?;
        build_under(self, alloc, bin_name)?;
        Ok(())
    }

    // Appends the additions to the command, then those to the commands below it.
    #[cycle(additions)]
    fn push_additions(
        &self,
        additions: &mut Vec<Addition>,
        alloc: Global,
        inherited: &[Arg],
        bin_name: Option<Text>,
    ) -> Result<(), AllocError>
        ensures ok { OnOk result (AreOfTreeAfter
            inherited.now bin_name self.now additions.old.items additions.new.items) }
    {
        let addition = addition_to(self, alloc, inherited, bin_name)?;
        if self.children.is_empty() {
            additions.push(addition)?;
            return Ok(());
        }
        let name = Text::copy_of(alloc, self.full_name_with(&addition))?;
        let globals = self.globals_with(alloc, &addition)?;
        additions.push(addition)?;
        push_additions_to(&self.children, additions, alloc, &globals, name.as_str())
    }

    // Returns the full name of the command under its new bin name.
    fn full_name_with<'a>(&'a self, addition: &'a Addition) -> &'a str
        ensures { result.now
            ≡ full_name (record self.now.node { bin_name = addition.now.bin_name }) }
    {
        match &addition.bin_name {
            Some(name) => name.as_str(),
            None => self.node.name.as_str(),
        }
    }

    // Copies the arguments that the children inherit. The flags that building adds are not global.
    fn globals_with(&self, alloc: Global, addition: &Addition) -> Result<Vec<Arg>, AllocError>
        ensures { IfOk result (λ kept. kept.items
            ≡ globals (self.now.node.arguments ++ addition.now.arguments.items)) }
    {
        let mut kept = Vec::new(alloc);
        push_globals(&mut kept, alloc, self.node.arguments.as_slice())?;
        push_globals(&mut kept, alloc, &addition.arguments)?;
        Ok(kept)
    }

    // Puts the additions into the command and into all commands below it.
    #[cycle(built)]
    fn put_in(&mut self, alloc: Global, additions: &mut IntoIter<Addition>)
        requires suit { SuitTree self.old (into_iter_items additions.old) }
        ensures ok { IsBuiltBy
            self.old (into_iter_items additions.old) self.new (into_iter_items additions.new) }
    {
        let addition = additions.next().unwrap();
        put_in_all(&mut self.children, alloc, additions);
        put_before(&mut self.children, addition.children);
        finish(&mut self.node, alloc, addition.arguments, addition.bin_name);
    }
}

/// Sets the bin name of a command and builds it, both or neither. A plain command stays plain under
/// a plain bin name, and quiet possible values stay quiet. This is a free function, so that
/// `clap_complete` does not re-export it.
///
/// # Errors
///
/// `Memory` if an allocation fails. The command is then unchanged.
pub fn build_as(command: &mut Command, alloc: Global, bin_name: String) -> Result<(), Error>
    ensures ok { OnOk result
        (command.new ≡ built_under (Some (string_bytes bin_name)) command.old) }
    ensures whole { OnOk result (built_tree command.new ≡ command.new) }
    ensures plain { OnOk result (IsTrue (is_plain_tree command.old)
        → IsTrue (is_plain_name (string_bytes bin_name)) → IsTrue (is_plain_tree command.new)) }
    ensures quiet { OnOk result
        (IsTrue (is_quiet_tree command.old) → IsTrue (is_quiet_tree command.new)) }
    ensures err { OnErr result (command.new ≡ command.old) }
    ensures memory { IfErr result (λ error. error ≡ Error.Memory) }
{
    build_under(command, alloc, Some(Text::from(bin_name)))?;
    Ok(())
}

// Allocates everything first. The steps that then change the command cannot fail.
fn build_under(
    command: &mut Command,
    alloc: Global,
    bin_name: Option<Text>,
) -> Result<(), AllocError>
    ensures ok { OnOk result (command.new ≡ built_under bin_name command.old) }
    ensures err { OnErr result (command.new ≡ command.old) }
{
    let mut additions = Vec::new(alloc);
    command.push_additions(&mut additions, alloc, &[], bin_name)?;
    command.put_in(alloc, &mut additions.into_iter());
    Ok(())
}

#[cycle(additions)]
fn push_additions_to(
    siblings: &[Command],
    additions: &mut Vec<Addition>,
    alloc: Global,
    inherited: &[Arg],
    parent: &str,
) -> Result<(), AllocError>
    ensures ok { OnOk result (AreAfter inherited.now parent.now (forest_of siblings.now)
        additions.old.items additions.new.items) }
{
    // Grows the list once for all siblings, instead of at every doubling.
    additions.reserve(siblings.len())?;
    for sibling in siblings {
        let bin_name = joined_name(alloc, parent, sibling.node.name.as_str())?;
        sibling.push_additions(additions, alloc, inherited, Some(bin_name))?;
    }
    Ok(())
}

#[cycle(built)]
fn put_in_all(siblings: &mut [Command], alloc: Global, additions: &mut IntoIter<Addition>)
    requires suit { Suit (forest_of siblings.old) (into_iter_items additions.old) }
    ensures ok { AreBuiltBy (forest_of siblings.old) (into_iter_items additions.old)
        (forest_of siblings.new) (into_iter_items additions.new) }
{
    for sibling in siblings.iter_mut() {
        sibling.put_in(alloc, additions);
    }
}

fn joined_name(alloc: Global, parent: &str, name: &str) -> Result<Text, AllocError>
    ensures ok { IfOk result (λ text. text ≡ joined_name parent.now name.now) }
{
    let length = parent.len().saturating_add(name.len()).saturating_add(1);
    let mut text = String::with_capacity(alloc, length)?;
    text.push_str(parent)?;
    text.push_str(" ")?;
    text.push_str(name)?;
    Ok(Text::from(text))
}
