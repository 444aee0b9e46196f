//! The registration for bash.

ghost use Rattle.std.specs.Prelude.{◌≡◌, IfErr};
ghost use Rattle.cc_base.specs.Writes.{IsWrite, Writes, as_write};
ghost use Rattle.cc_registrations.specs.BashRegistration.{BashReads, bash_registration, call_ends};
ghost use Rattle.cc_registrations.specs.BashRegistration.{plain_call, registration_front};
ghost use Rattle.cc_registrations.specs.BashRegistration.{registration_tail, sorted_call};

use crate::names::put_underscored;
use cc_base::{Error, Sink, put_piece, put_pieces};
use cc_quote::{BashDouble, put_escaped};
use std::io::ErrorKind;

const FUNCTION_BEGINS: &str = "
_clap_complete_";

const FUNCTION_HEAD: &str = "() {
    local IFS=$'\\013'
    local _CLAP_COMPLETE_INDEX=${COMP_CWORD}
    local _CLAP_COMPLETE_COMP_TYPE=${COMP_TYPE}
    if compopt +o nospace 2> /dev/null; then
        local _CLAP_COMPLETE_SPACE=false
    else
        local _CLAP_COMPLETE_SPACE=true
    fi
    local words=(\"${COMP_WORDS[@]}\")
    if [[ \"${BASH_VERSINFO[0]}\" -ge 4 ]]; then
        words[COMP_CWORD]=\"$2\"
    fi
    COMPREPLY=( $( \\
        _CLAP_IFS=\"$IFS\" \\
        _CLAP_COMPLETE_INDEX=\"$_CLAP_COMPLETE_INDEX\" \\
        _CLAP_COMPLETE_COMP_TYPE=\"$_CLAP_COMPLETE_COMP_TYPE\" \\
        _CLAP_COMPLETE_SPACE=\"$_CLAP_COMPLETE_SPACE\" \\
        ";

const CALL_BEGINS: &str = "=\"bash\" \\
        \"";

const CALL_ENDS: &str = "\" -- \"${words[@]}\" \\
    ) )
    if [[ $? != 0 ]]; then
        unset COMPREPLY
    elif [[ $_CLAP_COMPLETE_SPACE == false ]] && [[ \"${COMPREPLY-}\" =~ [=/:]$ ]]; then
        compopt -o nospace
    fi
}
if [[ \"${BASH_VERSINFO[0]}\" -eq 4 && \"${BASH_VERSINFO[1]}\" -ge 4 || \"${BASH_VERSINFO[0]}\" -gt 4 ]]; then
    complete -o nospace -o bashdefault -o nosort -F _clap_complete_";

const NAME_ENDS: &str = " ";

const OTHERWISE: &str = "
else
    complete -o nospace -o bashdefault -F _clap_complete_";

const REGISTRATION_ENDS: &str = "
fi

";

/// Writes the registration for bash. `variable` requests completions, `name` is part of the
/// function's name, `bin` is the program to register, and `completer` is the program to run.
///
/// # Errors
///
/// `Write` if the sink fails. There are no other errors.
#[tactic(auto, using(crate::proofs::BashReadings::bash_reads))]
pub fn write_bash<W: Sink>(
    sink: &mut W,
    variable: &str,
    name: &str,
    bin: &str,
    completer: &str,
) -> Result<(), Error>
    ensures written { Writes W.taken W.failed result sink.old sink.new
        (bash_registration variable.now name.now bin.now completer.now) }
    ensures write_only { IfErr result IsWrite }
    ensures read_back { BashReads variable.now name.now bin.now completer.now }
{
    write_text(sink, variable, name, bin, completer)
}

#[tactic(auto, unfolding(crate::specs::BashRegistration::bash_registration))]
fn write_text<W: Sink>(
    sink: &mut W,
    variable: &str,
    name: &str,
    bin: &str,
    completer: &str,
) -> Result<(), Error>
    ensures written { Writes W.taken W.failed result sink.old sink.new
        (bash_registration variable.now name.now bin.now completer.now) }
    ensures write_only { IfErr result IsWrite }
{
    write_front(sink, variable, name)?;
    put_escaped(sink, &BashDouble, completer)?;
    Ok(write_tail(sink, name, bin)?)
}

// Writes the text before the completer.
#[tactic(auto, using(crate::proofs::FixedTexts::of_bash), unfolding(crate::specs::BashRegistration::registration_front))]
fn write_front<W: Sink>(sink: &mut W, variable: &str, name: &str) -> Result<(), ErrorKind>
    ensures { Writes W.taken W.failed (as_write result) sink.old sink.new
        (registration_front variable.now name.now) }
{
    put_piece(sink, FUNCTION_BEGINS)?;
    put_underscored(sink, name)?;
    put_pieces(sink, &[FUNCTION_HEAD, variable, CALL_BEGINS])
}

// Writes the text from the completer on.
#[tactic(auto, unfolding(crate::specs::BashRegistration::registration_tail))]
fn write_tail<W: Sink>(sink: &mut W, name: &str, bin: &str) -> Result<(), ErrorKind>
    ensures { Writes W.taken W.failed (as_write result) sink.old sink.new
        (registration_tail name.now bin.now) }
{
    write_sorted_call(sink, name, bin)?;
    write_plain_call(sink, name, bin)
}

// Writes the text before the third occurrence of the name.
#[tactic(auto, using(crate::proofs::FixedTexts::of_bash), unfolding(crate::specs::BashRegistration::sorted_call))]
fn write_sorted_call<W: Sink>(sink: &mut W, name: &str, bin: &str) -> Result<(), ErrorKind>
    ensures { Writes W.taken W.failed (as_write result) sink.old sink.new
        (sorted_call name.now bin.now) }
{
    put_piece(sink, call_ends())?;
    put_underscored(sink, name)?;
    put_pieces(sink, &[NAME_ENDS, bin, OTHERWISE])
}

// Returns the text after the completer.
#[tactic(auto, unfolding(crate::specs::BashRegistration::call_ends))]
fn call_ends() -> &'static str
    ensures { result.now ≡ call_ends }
{
    CALL_ENDS
}

// Writes the text from the third occurrence of the name on.
#[tactic(auto, using(crate::proofs::FixedTexts::of_bash), unfolding(crate::specs::BashRegistration::plain_call))]
fn write_plain_call<W: Sink>(sink: &mut W, name: &str, bin: &str) -> Result<(), ErrorKind>
    ensures { Writes W.taken W.failed (as_write result) sink.old sink.new
        (plain_call name.now bin.now) }
{
    put_underscored(sink, name)?;
    put_pieces(sink, &[NAME_ENDS, bin, REGISTRATION_ENDS])
}
