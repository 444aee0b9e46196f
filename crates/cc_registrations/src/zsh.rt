//! The registration for zsh.

ghost use Rattle.cc_base.specs.Writes.{Writes};
ghost use Rattle.std.specs.Prelude.{◌≡◌};
ghost use Rattle.cc_registrations.specs.ZshRegistration.{ZshReads, registration_front};
ghost use Rattle.cc_registrations.specs.ZshRegistration.{registration_head, registration_tail};
ghost use Rattle.cc_registrations.specs.ZshRegistration.{call_ends, zsh_registration};

use crate::names::put_underscored;
use crate::words::put_posix_quoted;
use cc_base::{Error, Sink, put_text, put_texts};
use std::alloc::Global;

const REGISTRATION_BEGINS: &str = "#compdef ";

const FUNCTION_BEGINS: &str = "
function _clap_dynamic_completer_";

const FUNCTION_HEAD: &str = "() {
    local _CLAP_COMPLETE_INDEX=$(expr $CURRENT - 1)
    local _CLAP_IFS=$'\\n'

    local completions=(\"${(@f)$( \\
        _CLAP_IFS=\"$_CLAP_IFS\" \\
        _CLAP_COMPLETE_INDEX=\"$_CLAP_COMPLETE_INDEX\" \\
        ";

const CALL_BEGINS: &str = "=\"zsh\" \\
        ";

const CALL_ENDS: &str = " -- \"${words[@]}\" 2>/dev/null \\
    )}\")

    if [[ -n $completions ]]; then
        local -a dirs=()
        local -a other=()
        local completion
        for completion in $completions; do
            local value=\"${completion%%:*}\"
            if [[ \"$value\" == */ ]]; then
                local dir_no_slash=\"${value%/}\"
                if [[ \"$completion\" == *:* ]]; then
                    local desc=\"${completion#*:}\"
                    dirs+=(\"$dir_no_slash:$desc\")
                else
                    dirs+=(\"$dir_no_slash\")
                fi
            else
                other+=(\"$completion\")
            fi
        done
        [[ -n $dirs ]] && _describe -V 'values' dirs -S '/' -r '/'
        [[ -n $other ]] && _describe -V 'values' other
    fi
}

compdef _clap_dynamic_completer_";

const NAME_ENDS: &str = " ";

const REGISTRATION_ENDS: &str = "
";

/// Writes the registration for zsh. `variable` requests completions, `name` is part of the
/// function's name, `bin` is the program to register, and `completer` is the program to run.
///
/// # Errors
///
/// `Write` if the sink fails, `Memory` if an allocation fails.
#[tactic(auto, using(crate::proofs::ZshReadings::zsh_reads), unfolding(crate::specs::ZshRegistration::zsh_registration))]
pub fn write_zsh<W: Sink>(
    alloc: Global,
    sink: &mut W,
    variable: &str,
    name: &str,
    bin: &str,
    completer: &str,
) -> Result<(), Error>
    ensures written { Writes W.taken W.failed result sink.old sink.new
        (zsh_registration variable.now name.now bin.now completer.now) }
    ensures read_back { ZshReads variable.now name.now bin.now completer.now }
{
    write_front(alloc, sink, variable, name, bin)?;
    put_posix_quoted(alloc, sink, completer)?;
    write_tail(alloc, sink, name, bin)
}

// Writes the text before the completer.
#[tactic(auto, using(crate::proofs::FixedTexts::of_zsh), unfolding(crate::specs::ZshRegistration::registration_front))]
fn write_front<W: Sink>(
    alloc: Global,
    sink: &mut W,
    variable: &str,
    name: &str,
    bin: &str,
) -> Result<(), Error>
    ensures { Writes W.taken W.failed result sink.old sink.new
        (registration_front variable.now name.now bin.now) }
{
    write_head(alloc, sink, bin)?;
    put_underscored(sink, name)?;
    put_texts(sink, &[FUNCTION_HEAD, variable, CALL_BEGINS])
}

// Writes the text before the name.
#[tactic(auto, using(crate::proofs::FixedTexts::of_zsh), unfolding(crate::specs::ZshRegistration::registration_head))]
fn write_head<W: Sink>(alloc: Global, sink: &mut W, bin: &str) -> Result<(), Error>
    ensures { Writes W.taken W.failed result sink.old sink.new (registration_head bin.now) }
{
    put_text(sink, REGISTRATION_BEGINS)?;
    put_posix_quoted(alloc, sink, bin)?;
    put_text(sink, FUNCTION_BEGINS)
}

// Writes the text after the completer.
#[tactic(auto, using(crate::proofs::FixedTexts::of_zsh), unfolding(crate::specs::ZshRegistration::registration_tail))]
fn write_tail<W: Sink>(alloc: Global, sink: &mut W, name: &str, bin: &str) -> Result<(), Error>
    ensures { Writes W.taken W.failed result sink.old sink.new
        (registration_tail name.now bin.now) }
{
    put_text(sink, call_ends())?;
    put_underscored(sink, name)?;
    put_text(sink, NAME_ENDS)?;
    put_posix_quoted(alloc, sink, bin)?;
    put_text(sink, REGISTRATION_ENDS)
}

// Returns the text after the completer.
#[tactic(auto, unfolding(crate::specs::ZshRegistration::call_ends))]
fn call_ends() -> &'static str
    ensures { result.now ≡ call_ends }
{
    CALL_ENDS
}
