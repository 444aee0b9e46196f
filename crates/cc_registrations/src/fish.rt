//! The registration for fish.

ghost use Rattle.cc_base.specs.Writes.{Writes};
ghost use Rattle.cc_registrations.specs.FishRegistration.{FishReads, fish_registration};
ghost use Rattle.cc_registrations.specs.FishRegistration.{registration_front};

use crate::words::put_fish_quoted;
use cc_base::{Error, Sink, put_text, put_texts};
use cc_quote::put_fish_quoted_for_eval;
use std::alloc::Global;

const REGISTRATION_BEGINS: &str = "complete --keep-order --exclusive --command ";

const ARGUMENTS_BEGIN: &str = " --arguments \"(";

const SHELL_SET: &str = "=fish ";

const REGISTRATION_ENDS: &str =
    " -- (commandline --current-process --tokenize --cut-at-cursor) (commandline --current-token))\"
";

/// Writes the registration for fish. `variable` requests completions, `bin` is the program to
/// register, and `completer` is the program to run.
///
/// # Errors
///
/// `Write` if the sink fails, `Memory` if an allocation fails.
#[tactic(auto, using(crate::proofs::FishReadings::fish_reads))]
pub fn write_fish<W: Sink>(
    alloc: Global,
    sink: &mut W,
    variable: &str,
    bin: &str,
    completer: &str,
) -> Result<(), Error>
    ensures written { Writes W.taken W.failed result sink.old sink.new
        (fish_registration variable.now bin.now completer.now) }
    ensures read_back { FishReads variable.now bin.now completer.now }
{
    write_text(alloc, sink, variable, bin, completer)
}

#[tactic(auto, using(crate::proofs::FixedTexts::of_fish), unfolding(crate::specs::FishRegistration::fish_registration))]
fn write_text<W: Sink>(
    alloc: Global,
    sink: &mut W,
    variable: &str,
    bin: &str,
    completer: &str,
) -> Result<(), Error>
    ensures { Writes W.taken W.failed result sink.old sink.new
        (fish_registration variable.now bin.now completer.now) }
{
    write_front(alloc, sink, variable, bin)?;
    put_fish_quoted_for_eval(sink, completer)?;
    put_text(sink, REGISTRATION_ENDS)
}

// Writes the text before the completer.
#[tactic(auto, using(crate::proofs::FixedTexts::of_fish), unfolding(crate::specs::FishRegistration::registration_front))]
fn write_front<W: Sink>(alloc: Global, sink: &mut W, variable: &str, bin: &str) -> Result<(), Error>
    ensures { Writes W.taken W.failed result sink.old sink.new
        (registration_front variable.now bin.now) }
{
    put_text(sink, REGISTRATION_BEGINS)?;
    put_fish_quoted(alloc, sink, bin)?;
    put_texts(sink, &[ARGUMENTS_BEGIN, variable, SHELL_SET])
}
