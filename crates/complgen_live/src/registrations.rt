//! Writes the registration of programs, with which a shell runs this program for their candidates.

ghost use Rattle.std.specs.Prelude.{◌≡◌, [], ◌∷◌, ◌++◌, IfOk, OnOk, map};
ghost use Rattle.std.specs.Option.{option_copied};
ghost use Rattle.cc_env.specs.Arguments.{program_path};
ghost use Rattle.complgen_live.specs.KnownNames.{own_name};
ghost use Rattle.complgen_live.specs.Registrations.{ArePlain, RegistersAll, WritesAll};
ghost use Rattle.complgen_live.specs.Prepared.{requested};

use crate::plain_names::PlainNames;
use cc_base::{Error, Sink};
use cc_env::{SafeShell, Shells, known_shell, program_path, wanted_name};
use cc_replies::EnvValues;
use std::alloc::{AllocError, Global};

// The variable that requests a registration or a reply. Its value is the name of a shell.
const VARIABLE: &str = "COMPLETE";

// The name of this program.
const OWN_NAME: &str = "complgen";

/// Writes one registration for the programs `names` and for this program itself to `out`, for the
/// shell that `env` requests. It makes the shell run this program, which was called by `program`,
/// for their candidates. If `program` is a relative path, it starts at `current_dir`. Writes
/// nothing if no shell is requested.
///
/// # Errors
///
/// `UnknownShell` if no shell has the requested name, `Memory` if an allocation fails, and `Write`
/// if the sink fails. After `Memory` and `Write` the sink holds a beginning of the text.
pub fn write_registrations<W: Sink>(
    alloc: Global,
    env: &EnvValues,
    program: &str,
    current_dir: Option<&str>,
    names: &PlainNames,
    out: &mut W,
) -> Result<(), Error>
    ensures { RegistersAll W.taken W.failed
        (program_path (option_copied current_dir.entry) program.now)
        (names.now ++ own_name ∷ []) (requested env.now) out.old out.new result }
{
    let Some(name) = wanted_name(env.get(VARIABLE)) else {
        return Ok(());
    };
    let shells = Shells::safe();
    let shell = known_shell(alloc, &shells, name)?;
    write_for(alloc, shell, program, current_dir, names, out)
}

// Writes the registration for `shell`.
fn write_for<W: Sink>(
    alloc: Global,
    shell: &SafeShell,
    program: &str,
    current_dir: Option<&str>,
    names: &PlainNames,
    out: &mut W,
) -> Result<(), Error>
    ensures { WritesAll W.taken W.failed
        (program_path (option_copied current_dir.entry) program.now)
        (names.now ++ own_name ∷ []) shell.now out.old out.new result }
{
    let completer = program_path(alloc, current_dir, program)?;
    let all = with_own_name(alloc, names)?;
    shell.write_registrations(
        alloc,
        VARIABLE,
        OWN_NAME,
        all.as_slice(),
        completer.as_str(),
        out,
    )
}

// Returns `names`, then the name of this program.
#[tactic(auto, using(crate::proofs::PlainKnown::with_own))]
fn with_own_name<'n>(alloc: Global, names: &'n PlainNames) -> Result<Vec<&'n str>, AllocError>
    ensures all { IfOk result (λ all. map (λ name. name.now) all.items ≡ names.now ++ own_name ∷ []) }
    ensures plain { OnOk result (ArePlain (names.now ++ own_name ∷ [])) }
{
    let mut all = Vec::new(alloc);
    let plain = names.as_slice();
    for name in plain {
        all.push(name.as_str())?;
    }
    all.push(OWN_NAME)?;
    Ok(all)
}
