//! Makes scripts, by a function over bytes.

ghost use Rattle.std.specs.Prelude.{◌≡◌};
ghost use Rattle.cc_base.specs.Collected.{collected_failures};
ghost use Rattle.complgen_c.specs.Outcomes.{EndsAs, FailsInMemory};
ghost use Rattle.complgen_c.specs.Scripts.{MakesScript};

use crate::outcome::Outcome;
use cc_base::{Collected, Items, Sink};
use cc_command::Release;
use complgen_scripts::{Refusal, script};
use std::alloc::{AllocError, Global};

/// Makes the script for the shell with the name `shell`, of the command in the tree file `tree`,
/// under the bin name `bin`. Returns the length of the text, and copies the text to the start of
/// `room` if it fits there. Otherwise `room` stays unchanged, and you can call again with more
/// room. You may pass any bytes.
///
/// The `status` is:
///
/// - 0: the text is the script.
/// - 1: the text is a message, which ends in a line feed.
/// - 2: `shell` or `bin` is not UTF-8, and there is no text.
#[unsafe(no_mangle)]
pub extern "C" fn lagvtsune_script(
    alloc: Global,
    shell: &[u8],
    bin: &[u8],
    tree: &[u8],
    room: &mut [u8],
    status: &mut u8,
) -> usize
    ensures { EndsAs (MakesScript shell.now bin.now tree.now) room.old room.new status.new result }
{
    make_script(alloc, shell, bin, tree).put(room, status)
}

// Makes the script in memory.
fn make_script(alloc: Global, shell: &[u8], bin: &[u8], tree: &[u8]) -> Outcome
    ensures { MakesScript shell.now bin.now tree.now result }
{
    let (Ok(shell), Ok(bin)) = (std::str::from_utf8(shell), std::str::from_utf8(bin)) else {
        return Outcome::NotUtf8;
    };
    let mut sink = Collected::new(alloc);
    match script(alloc, shell, bin, Some(tree), Release::AtOnce, &mut sink) {
        Ok(()) => Outcome::Made(Items::from(sink.into_vec())),
        Err(refusal) => Outcome::Failed(in_memory(refusal, &sink)),
    }
}

// Returns `refusal`, or the refusal for memory that ran out if a write to the sink failed.
fn in_memory(refusal: Refusal, sink: &Collected) -> Refusal
    ensures { FailsInMemory (collected_failures sink.now) (λ made. made ≡ refusal) result }
{
    if sink.failures() > 0 {
        return Refusal::from(AllocError);
    }
    refusal
}
