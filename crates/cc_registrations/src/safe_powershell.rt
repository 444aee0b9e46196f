//! The safe registration for PowerShell.

ghost use Rattle.std.specs.Prelude.{map};
ghost use Rattle.cc_base.specs.Writes.{Writes};
ghost use Rattle.cc_registrations.specs.SafePowershell.{SafePowershellReads, call};
ghost use Rattle.cc_registrations.specs.SafePowershell.{registration_head, registration_tail};
ghost use Rattle.cc_registrations.specs.SafePowershell.{safe_powershell};

use crate::names::{put_identifier, put_identifier_after};
use crate::words::{Quoting, put_names, put_quoted};
use cc_base::{Error, Sink, put_text};
use std::alloc::Global;

const NAMES_BEGIN: &str = "Register-ArgumentCompleter -Native -CommandName ";

const SCRIPT_HEAD: &str = " -ScriptBlock {
    param($wordToComplete, $commandAst, $cursorPosition)

    # The words up to the cursor, without the quotes that they were typed with.
    $words = @(foreach ($element in $commandAst.CommandElements) {
        $extent = $element.Extent
        if ($extent.StartOffset -ge $cursorPosition) { break }
        $end = $extent.EndOffset
        if ($end -gt $cursorPosition) {
            $extent.Text.Substring(0, $cursorPosition - $extent.StartOffset) -replace '^[''\"]'
        } elseif ($element -is [System.Management.Automation.Language.StringConstantExpressionAst]) {
            $element.Value
        } else {
            $extent.Text
        }
    })
    if ($end -lt $cursorPosition) { $words += '' }

    # Asks for candidates; where complgen asks back, with what the words that it names print. A `\"`
    # reaches programs only if PowerShell escapes it.
    $PSNativeCommandUseErrorActionPreference = $false
    $before = @($env:";

const VARIABLE_KEPT: &str = ", $env:_COMPLGEN_VALUES, $env:_COMPLGEN_QUOTE)
    function Request($values) {
        begin { $lines = [System.Collections.Generic.List[string]]::new() }
        process { $lines.Add(\"$_\") }
        end {
            $env:";

const CALL_BEGINS: &str = " = 'powershell'
            $env:_COMPLGEN_VALUES = $values
            $env:_COMPLGEN_QUOTE = if ($PSVersionTable.PSVersion -ge '7.3' -and
                $PSNativeCommandArgumentPassing -ne 'Legacy') { '\"' } else { '' }
            try { $lines | & ";

const CALL_ENDS: &str = " -- @words 2>$null }
            finally { $env:";

const SCRIPT_ENDS: &str = ", $env:_COMPLGEN_VALUES, $env:_COMPLGEN_QUOTE = $before }
        }
    }
    $reply = @($null | Request 'ask')
    if ($LASTEXITCODE -eq 3) {
        $run = ($reply -join \"`n\").Split(\"`v\")
        $name = [WildcardPattern]::Escape($run[0])
        $program = Get-Command $name -CommandType Application -TotalCount 1 -ErrorAction Ignore
        $rest = @($run | Select-Object -Skip 1 | Select-Object -SkipLast 1)
        $lines = if ($program) { $null | & $program @rest 2>$null }
        $reply = @($lines | Request 'stdin')
    }
    if ($LASTEXITCODE -ne 0) { return }
    foreach ($line in $reply) {
        $text, $value, $help = $line -split \"`t\", 3
        if (-not $help) { $help = $value }
        [System.Management.Automation.CompletionResult]::new($text, $value, 'ParameterValue', $help)
    }
}
";

/// Writes the safe registration for PowerShell, with which the shell asks `completer` for
/// candidates of the programs `bins`. `variable` requests completions. It is written as an
/// identifier, with `_` for each byte that is not an ASCII letter, a digit or `_`, and before a
/// digit at the start. An empty one becomes `_`. The text does not use `name`.
///
/// # Errors
///
/// `Write` if the sink fails, `Memory` if an allocation fails.
pub fn write_safe_powershell<W: Sink>(
    alloc: Global,
    sink: &mut W,
    variable: &str,
    name: &str,
    bins: &[&str],
    completer: &str,
) -> Result<(), Error>
    ensures written { Writes W.taken W.failed result sink.old sink.new
        (safe_powershell variable.now name.now (map (λ bin. bin.now) bins.now) completer.now) }
    ensures read_back { SafePowershellReads variable.now name.now (map (λ bin. bin.now) bins.now)
        completer.now }
{
    write_text(alloc, sink, variable, name, bins, completer)
}

#[tactic(auto, unfolding(crate::specs::SafePowershell::safe_powershell))]
fn write_text<W: Sink>(
    alloc: Global,
    sink: &mut W,
    variable: &str,
    name: &str,
    bins: &[&str],
    completer: &str,
) -> Result<(), Error>
    ensures { Writes W.taken W.failed result sink.old sink.new
        (safe_powershell variable.now name.now (map (λ bin. bin.now) bins.now) completer.now) }
{
    write_head(alloc, sink, bins)?;
    write_call(sink, variable)?;
    put_quoted(alloc, sink, Quoting::Powershell, completer)?;
    Ok(write_tail(sink, variable)?)
}

// Writes the text before the first occurrence of the variable.
#[tactic(auto, using(crate::proofs::FixedTexts::of_safe_powershell), unfolding(crate::specs::SafePowershell::registration_head))]
fn write_head<W: Sink>(alloc: Global, sink: &mut W, bins: &[&str]) -> Result<(), Error>
    ensures { Writes W.taken W.failed result sink.old sink.new
        (registration_head (map (λ bin. bin.now) bins.now)) }
{
    put_text(sink, NAMES_BEGIN)?;
    put_names(alloc, sink, Quoting::Powershell, ", ", bins)?;
    put_text(sink, SCRIPT_HEAD)
}

// Writes the text after that, before the completer.
#[tactic(auto, using(crate::proofs::FixedTexts::of_safe_powershell), unfolding(crate::specs::SafePowershell::call))]
fn write_call<W: Sink>(sink: &mut W, variable: &str) -> Result<(), Error>
    ensures { Writes W.taken W.failed result sink.old sink.new (call variable.now) }
{
    put_identifier(sink, variable)?;
    put_identifier_after(sink, VARIABLE_KEPT, variable)?;
    put_text(sink, CALL_BEGINS)
}

// Writes the text after the completer.
#[tactic(auto, using(crate::proofs::FixedTexts::of_safe_powershell), unfolding(crate::specs::SafePowershell::registration_tail))]
fn write_tail<W: Sink>(sink: &mut W, variable: &str) -> Result<(), Error>
    ensures { Writes W.taken W.failed result sink.old sink.new
        (registration_tail variable.now) }
{
    put_identifier_after(sink, CALL_ENDS, variable)?;
    put_text(sink, SCRIPT_ENDS)
}
