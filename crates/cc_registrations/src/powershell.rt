//! The registration for PowerShell.

ghost use Rattle.cc_base.specs.Writes.{Writes, as_write};
ghost use Rattle.cc_registrations.specs.PowershellRegistration.{PowershellReads, call, powershell_registration, registration_head, registration_tail};

use crate::words::put_posix_quoted;
use cc_base::{Error, Sink, put_pieces, put_text, put_texts};
use std::alloc::Global;
use std::io::ErrorKind;

const REGISTRATION_BEGINS: &str = "
Register-ArgumentCompleter -Native -CommandName ";

const SCRIPT_HEAD: &str = " -ScriptBlock {
    param($wordToComplete, $commandAst, $cursorPosition)

    $prev = ";

const ENVIRONMENT: &str = "$env:";

const PREV_ENDS: &str = ";
    $env:";

const ARGUMENTS: &str = " = \"powershell\";

    $args = $commandAst.Extent.Text
    $args = $args.Substring(0, [math]::Min($cursorPosition, $args.Length));
    if ($wordToComplete -eq \"\") {
        $args += \" ''\";
    }

    $results = Invoke-Expression @\"";

const CALL_BEGINS: &str = "
& ";

const CALL_ENDS: &str = " -- $args
\"@;
    if ($null -eq $prev) {
        Remove-Item Env:\\";

const OTHERWISE: &str = ";
    } else {
        $env:";

const REGISTRATION_ENDS: &str = " = $prev;
    }
    $results | ForEach-Object {
        $split = $_.Split(\"`t\");
        $cmd = $split[0];

        if ($split.Length -eq 2) {
            $help = $split[1];
        }
        else {
            $help = $split[0];
        }

        [System.Management.Automation.CompletionResult]::new($cmd, $cmd, 'ParameterValue', $help)
    }
};
        
";

/// Writes the registration for PowerShell. `variable` requests completions, `bin` is the program to
/// register, and `completer` is the program to run.
///
/// # Errors
///
/// `Write` if the sink fails, `Memory` if an allocation fails.
#[tactic(auto, using(crate::proofs::PowershellReadings::powershell_reads))]
pub fn write_powershell<W: Sink>(
    alloc: Global,
    sink: &mut W,
    variable: &str,
    bin: &str,
    completer: &str,
) -> Result<(), Error>
    ensures written { Writes W.taken W.failed result sink.old sink.new
        (powershell_registration variable.now bin.now completer.now) }
    ensures read_back { PowershellReads variable.now bin.now completer.now }
{
    write_text(alloc, sink, variable, bin, completer)
}

#[tactic(auto, unfolding(crate::specs::PowershellRegistration::powershell_registration))]
fn write_text<W: Sink>(
    alloc: Global,
    sink: &mut W,
    variable: &str,
    bin: &str,
    completer: &str,
) -> Result<(), Error>
    ensures { Writes W.taken W.failed result sink.old sink.new
        (powershell_registration variable.now bin.now completer.now) }
{
    write_head(alloc, sink, bin)?;
    write_call(sink, variable)?;
    put_posix_quoted(alloc, sink, completer)?;
    Ok(write_tail(sink, variable)?)
}

// Writes the text before the first occurrence of the variable.
#[tactic(auto, using(crate::proofs::FixedTexts::of_powershell), unfolding(crate::specs::PowershellRegistration::registration_head))]
fn write_head<W: Sink>(alloc: Global, sink: &mut W, bin: &str) -> Result<(), Error>
    ensures { Writes W.taken W.failed result sink.old sink.new (registration_head bin.now) }
{
    put_text(sink, REGISTRATION_BEGINS)?;
    put_posix_quoted(alloc, sink, bin)?;
    put_texts(sink, &[SCRIPT_HEAD, ENVIRONMENT])
}

// Writes the text after that, before the completer.
#[tactic(auto, unfolding(crate::specs::PowershellRegistration::call, crate::specs::PowershellRegistration::fixed_texts))]
fn write_call<W: Sink>(sink: &mut W, variable: &str) -> Result<(), ErrorKind>
    ensures { Writes W.taken W.failed (as_write result) sink.old sink.new (call variable.now) }
{
    put_pieces(
        sink,
        &[variable, PREV_ENDS, variable, ARGUMENTS, CALL_BEGINS],
    )
}

// Writes the text after the completer.
#[tactic(auto, unfolding(crate::specs::PowershellRegistration::registration_tail, crate::specs::PowershellRegistration::fixed_texts))]
fn write_tail<W: Sink>(sink: &mut W, variable: &str) -> Result<(), ErrorKind>
    ensures { Writes W.taken W.failed (as_write result) sink.old sink.new
        (registration_tail variable.now) }
{
    let pieces = [CALL_ENDS, variable, OTHERWISE, variable, REGISTRATION_ENDS];
    put_pieces(sink, &pieces)
}
