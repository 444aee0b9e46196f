//! The registration for Elvish.

ghost use Rattle.cc_base.specs.Writes.{Writes};
ghost use Rattle.cc_registrations.specs.ElvishRegistration.{ElvishReads, elvish_registration};
ghost use Rattle.cc_registrations.specs.ElvishRegistration.{registration_front};

use crate::words::put_posix_quoted;
use cc_base::{Error, Sink, put_text, put_texts};
use std::alloc::Global;

const REGISTRATION_BEGINS: &str = "
set edit:completion:arg-completer[";

const FUNCTION_HEAD: &str = "] = { |@words|
    var index = (count $words)
    set index = (- $index 1)

    put (env _CLAP_IFS=\"\\n\" _CLAP_COMPLETE_INDEX=(to-string $index) ";

const SHELL_SET: &str = "=\"elvish\" ";

const REGISTRATION_ENDS: &str = " -- $@words) | to-lines
}

";

/// Writes the registration for Elvish. `variable` requests completions, `bin` is the program to
/// register, and `completer` is the program to run.
///
/// # Errors
///
/// `Write` if the sink fails, `Memory` if an allocation fails.
#[tactic(auto, using(crate::proofs::ElvishReadings::elvish_reads))]
pub fn write_elvish<W: Sink>(
    alloc: Global,
    sink: &mut W,
    variable: &str,
    bin: &str,
    completer: &str,
) -> Result<(), Error>
    ensures written { Writes W.taken W.failed result sink.old sink.new
        (elvish_registration variable.now bin.now completer.now) }
    ensures read_back { ElvishReads variable.now bin.now completer.now }
{
    write_text(alloc, sink, variable, bin, completer)
}

#[tactic(auto, using(crate::proofs::FixedTexts::of_elvish), unfolding(crate::specs::ElvishRegistration::elvish_registration))]
fn write_text<W: Sink>(
    alloc: Global,
    sink: &mut W,
    variable: &str,
    bin: &str,
    completer: &str,
) -> Result<(), Error>
    ensures { Writes W.taken W.failed result sink.old sink.new
        (elvish_registration variable.now bin.now completer.now) }
{
    write_front(alloc, sink, variable, bin)?;
    put_posix_quoted(alloc, sink, completer)?;
    put_text(sink, REGISTRATION_ENDS)
}

// Writes the text before the completer.
#[tactic(auto, using(crate::proofs::FixedTexts::of_elvish), unfolding(crate::specs::ElvishRegistration::registration_front))]
fn write_front<W: Sink>(alloc: Global, sink: &mut W, variable: &str, bin: &str) -> Result<(), Error>
    ensures { Writes W.taken W.failed result sink.old sink.new
        (registration_front variable.now bin.now) }
{
    put_text(sink, REGISTRATION_BEGINS)?;
    put_posix_quoted(alloc, sink, bin)?;
    put_texts(sink, &[FUNCTION_HEAD, variable, SHELL_SET])
}
