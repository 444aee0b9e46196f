//! The fish script: a head if the root has children, then the records of each visible path.

ghost use Rattle.std.specs.Prelude.{◌<◌, flat_map, length};
ghost use Rattle.cc_base.specs.Writes.{Writes};
ghost use Rattle.cc_command.specs.Names.{full_name};
ghost use Rattle.cc_generator.specs.Flat.{tree_at};
ghost use Rattle.cc_generator.specs.Visits.{where_entered};
ghost use Rattle.cc_fish.specs.Script.{body_text, fish_script, script_text, visit_text};

use crate::function::function_name;
use crate::head::write_head;
use crate::keys::FishKeys;
use crate::records::write_visit;
use cc_base::{Error, Sink};
use cc_command::{Command, full_name};
use cc_generator::{Flat, Generator, PathStep, PathSteps};
use std::alloc::Global;

/// The generator of fish scripts. The script of a program `N` goes into the file `N.fish`.
#[derive(Clone, Copy, PartialEq, Eq, Debug)]
pub struct Fish;

impl Generator for Fish {
    ghost use Rattle.cc_fish.specs.Reads.{fish_spec};

    ghost spec = { λ _. fish_spec };

    fn file_name(&self, alloc: Global, name: &str) -> Result<String, Error> {
        Ok([name, ".fish"].concat(alloc)?)
    }

    fn generate<W: Sink>(
        &self,
        alloc: Global,
        command: &Command,
        sink: &mut W,
    ) -> Result<(), Error> {
        let flat = Flat::new(alloc, command)?;
        write_script(alloc, sink, &flat)
    }
}

fn write_script<W: Sink>(alloc: Global, sink: &mut W, flat: &Flat<'_>) -> Result<(), Error>
    requires { 0 < length flat.now }
    ensures { Writes W.taken W.failed result sink.old sink.new (fish_script (tree_at flat.now 0)) }
{
    let bin_name = full_name(flat.command(0));
    let function = function_name(alloc, bin_name)?;
    write_parts(alloc, sink, flat, bin_name, function.as_str())
}

#[tactic(auto, unfolding(crate::specs::Script::script_text))]
fn write_parts<W: Sink>(
    alloc: Global,
    sink: &mut W,
    flat: &Flat<'_>,
    bin_name: &str,
    function: &str,
) -> Result<(), Error>
    requires { 0 < length flat.now }
    ensures { Writes W.taken W.failed result sink.old sink.new
        (script_text bin_name.now function.now (tree_at flat.now 0)) }
{
    write_head(sink, function, flat.command(0))?;
    write_body(alloc, sink, flat, bin_name, function)
}

#[tactic(auto, using(crate::proofs::ScriptRead::entered_texts))]
fn write_body<W: Sink>(
    alloc: Global,
    sink: &mut W,
    flat: &Flat<'_>,
    bin_name: &str,
    function: &str,
) -> Result<(), Error>
    requires { 0 < length flat.now }
    ensures { Writes W.taken W.failed result sink.old sink.new
        (body_text bin_name.now function.now (tree_at flat.now 0)) }
{
    let keys = FishKeys;
    let steps = PathSteps::new(alloc, flat, "", &keys)?;
    write_steps(alloc, sink, bin_name, function, steps)
}

#[tactic(auto, using(cc_base::proofs::WrittenTexts::in_steps))]
fn write_steps<W: Sink>(
    alloc: Global,
    sink: &mut W,
    bin_name: &str,
    function: &str,
    mut steps: PathSteps<'_, '_, FishKeys>,
) -> Result<(), Error>
    ensures { Writes W.taken W.failed result sink.old sink.new
        (flat_map (where_entered (visit_text bin_name.now function.now)) steps.entry) }
{
    let mut front = String::new(alloc);
    while let Some(step) = steps.next(alloc)? {
        let PathStep::Enter(visit) = step else {
            continue;
        };
        write_visit(sink, bin_name, function, &visit, &mut front)?;
    }
    Ok(())
}
