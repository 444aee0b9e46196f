//! The safe registration for Elvish.

ghost use Rattle.std.specs.Prelude.{map};
ghost use Rattle.cc_base.specs.Writes.{Writes};
ghost use Rattle.cc_registrations.specs.SafeElvish.{SafeElvishReads, registration_front};
ghost use Rattle.cc_registrations.specs.SafeElvish.{safe_elvish};

use crate::names::put_identifier_after;
use crate::words::{Quoting, put_names, put_quoted};
use cc_base::{Error, Sink, put_text};
use std::alloc::Global;

const NAMES_BEGIN: &str = "for complgen-name [";

const FUNCTION_HEAD: &str = "] {
    set edit:completion:arg-completer[$complgen-name] = {|@words|
        use str
        fn request {|values|
            e:env ";

const CALL_BEGINS: &str = "=elvish _COMPLGEN_VALUES=$values ";

const CALL_ENDS: &str = " -- $@words
        }
        # Asks for candidates; where complgen asks back, with what the words that it names print.
        var code = 0
        var reply = (try {
            request ask </dev/null
        } catch e {
            set code = (try { put $e[reason][exit-status] } catch { put 1 })
        } | slurp)
        if (== $code 0) {
            print $reply
        } elif (== $code 3) {
            var run = [(str:split \"\\v\" $reply)][..-1]
            try { e:env -- $@run </dev/null 2>/dev/null } catch { } | request stdin
        }
    }
}
";

/// Writes the safe registration for Elvish, with which the shell asks `completer` for candidates of
/// the programs `bins`. `variable` requests completions. It is written as an identifier, with `_`
/// for each byte that is not an ASCII letter, a digit or `_`, and before a digit at the start. An
/// empty one becomes `_`. The text does not use `name`.
///
/// # Errors
///
/// `Write` if the sink fails, `Memory` if an allocation fails.
pub fn write_safe_elvish<W: Sink>(
    alloc: Global,
    sink: &mut W,
    variable: &str,
    name: &str,
    bins: &[&str],
    completer: &str,
) -> Result<(), Error>
    ensures written { Writes W.taken W.failed result sink.old sink.new
        (safe_elvish variable.now name.now (map (λ bin. bin.now) bins.now) completer.now) }
    ensures read_back { SafeElvishReads variable.now name.now (map (λ bin. bin.now) bins.now)
        completer.now }
{
    write_text(alloc, sink, variable, name, bins, completer)
}

#[tactic(auto, using(crate::proofs::FixedTexts::of_safe_elvish), unfolding(crate::specs::SafeElvish::safe_elvish))]
fn write_text<W: Sink>(
    alloc: Global,
    sink: &mut W,
    variable: &str,
    name: &str,
    bins: &[&str],
    completer: &str,
) -> Result<(), Error>
    ensures { Writes W.taken W.failed result sink.old sink.new
        (safe_elvish variable.now name.now (map (λ bin. bin.now) bins.now) completer.now) }
{
    write_front(alloc, sink, variable, bins)?;
    put_quoted(alloc, sink, Quoting::Elvish, completer)?;
    put_text(sink, CALL_ENDS)
}

// Writes the text before the completer.
#[tactic(auto, using(crate::proofs::FixedTexts::of_safe_elvish), unfolding(crate::specs::SafeElvish::registration_front))]
fn write_front<W: Sink>(
    alloc: Global,
    sink: &mut W,
    variable: &str,
    bins: &[&str],
) -> Result<(), Error>
    ensures { Writes W.taken W.failed result sink.old sink.new
        (registration_front variable.now (map (λ bin. bin.now) bins.now)) }
{
    put_text(sink, NAMES_BEGIN)?;
    put_names(alloc, sink, Quoting::Elvish, " ", bins)?;
    put_identifier_after(sink, FUNCTION_HEAD, variable)?;
    put_text(sink, CALL_BEGINS)
}
