//! The safe registration for fish.

ghost use Rattle.std.specs.Prelude.{◌≡◌, map};
ghost use Rattle.cc_base.specs.Writes.{Writes};
ghost use Rattle.cc_registrations.specs.SafeFish.{SafeFishReads, fish_frame, safe_fish};

use crate::safe_text::{SafeFrame, SafeNames, write_safe};
use crate::words::Quoting;
use cc_base::{Error, Sink, TextRef};
use std::alloc::Global;

const FUNCTION_HEAD: &str = "
    # The words up to the cursor, without the quotes that they were typed with.
    set -l words (commandline --current-process --tokenize --cut-at-cursor)
    set -l word (commandline --current-token --cut-at-cursor)
    set -l last (string unescape -- $word; or echo)
    set -a words $last
    # fish prints one word per line. Nothing is offered if one has a line feed, which makes it two.
    test (count $word $last) -eq 2
    and commandline --current-process --cut-at-cursor | read --null --list --tokenize --local typed
    and not string match --quiet --regex '\\n' -- $typed[1..-2]
    or return
    # Asks for candidates; where complgen asks back, with what the words that it names print.
    set -l run true
    set -l code
    for values in ask stdin
        set -l reply ($run </dev/null 2>/dev/null | \\
            ";

const CALL_BEGINS: &str = "=fish _COMPLGEN_VALUES=$values ";

const CALL_ENDS: &str = " -- $words | string collect
            set code $pipestatus[2])
        if test $code -ne 3
            # `~/` leads home only where it was typed.
            string match --quiet '~/*' -- \"$word\"
            or not string match --quiet --regex '(?m)^~' -- \"$reply\"
            or set reply (string split \\n -- $reply | string match --invert '~*' | string collect)
            test -z \"$reply\"
            or printf '%s\\n' $reply
            return
        end
        set run (command --search env) -- (string split \\v -- $reply)
        set -e run[-1]
    end
end
";

fn frame() -> SafeFrame<'static>
    ensures { result ≡ fish_frame }
{
    SafeFrame {
        quoting: Quoting::Fish,
        names_begin: TextRef::new("complete --keep-order --exclusive --arguments \"(__complgen_"),
        names_follow: TextRef::new(")\" --command "),
        names_between: TextRef::new(" --command "),
        function_begins: TextRef::new("function __complgen_"),
        function_head: TextRef::new(FUNCTION_HEAD),
        call_begins: TextRef::new(CALL_BEGINS),
        call_ends: TextRef::new(CALL_ENDS),
    }
}

/// Writes the safe registration for fish, with which the shell asks `completer` for candidates of
/// the programs `bins`. `variable` requests completions, and `name` is part of the function's name.
/// Both are written as identifiers, with `_` for each byte that is not an ASCII letter, a digit or
/// `_`, and before a digit at the start. An empty one becomes `_`.
///
/// # Errors
///
/// `Write` if the sink fails, `Memory` if an allocation fails.
pub fn write_safe_fish<W: Sink>(
    alloc: Global,
    sink: &mut W,
    variable: &str,
    name: &str,
    bins: &[&str],
    completer: &str,
) -> Result<(), Error>
    ensures written { Writes W.taken W.failed result sink.old sink.new
        (safe_fish variable.now name.now (map (λ bin. bin.now) bins.now) completer.now) }
    ensures read_back { SafeFishReads variable.now name.now (map (λ bin. bin.now) bins.now)
        completer.now }
{
    let names = SafeNames::new(variable, name, completer);
    write_safe(alloc, sink, &frame(), &names, bins)
}
