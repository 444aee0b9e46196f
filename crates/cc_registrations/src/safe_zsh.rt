//! The safe registration for zsh.

ghost use Rattle.std.specs.Prelude.{◌≡◌, map};
ghost use Rattle.cc_base.specs.Writes.{Writes};
ghost use Rattle.cc_registrations.specs.SafeZsh.{SafeZshReads, zsh_frame, safe_zsh};

use crate::safe_text::{SafeFrame, SafeNames, write_safe};
use crate::words::Quoting;
use cc_base::{Error, Sink, TextRef};
use std::alloc::Global;

const FUNCTION_HEAD: &str = "() {
    local values reply code completion value home quote=$compstate[quote] found=1
    local ascii=$'\\xc3\\xa9\\xe2\\x82\\xac\\xf0\\x9f\\x98\\x80' text=$PREBUFFER$LBUFFER
    # zsh does not tell a function that the word is in a here-document, or behind a backtick and a
    # quote. `histchars` may name a sign that begins a comment.
    [[ $text != *'<<'*$'\\n'* && ${text//\\\\?/} != *\\`* && $histchars == ??\\# ]] || return
    # These are three letters in UTF-8 alone. Elsewhere, zsh takes only ASCII as it is.
    [[ ${#ascii} == 3 ]] && ascii='' || ascii=1
    # Items of folders: what is before the first `:` without a backslash ends in `/`.
    local folder='(\\\\?|[^\\\\:])#/(|:*)'
    # The words up to the cursor, without the quotes that they were typed with.
    local -a typed=(\"${(@Q)words[1,CURRENT-1]}\" \"${(Q):-$quote$PREFIX${quote#$}}\")
    local -a run=(:) items=() dirs=() other=() ends=()
    # Asks for candidates; where complgen asks back, with what the words that it names print.
    for values in ask stdin; do
        reply=$({ \"${run[@]}\" || : } </dev/null 2>/dev/null | \\
            ";

const CALL_BEGINS: &str = "=zsh \\
            _COMPLGEN_VALUES=$values \\
            _COMPLGEN_SPACE=1 \\
            _COMPLGEN_ASCII=$ascii \\
            ";

const CALL_ENDS: &str = " -- \"${typed[@]}\" 2>/dev/null) && code=0 || code=$?
        [[ $code == 3 ]] || break
        run=(command env -- \"${(@ps:\\v:)${reply%$'\\v'}}\")
    done
    [[ $code == [04] && -n $reply ]] || return
    # After status 4, the value may be only the beginning of a word.
    [[ $code == 4 ]] && ends=(-S '')
    # `~/` leads home only where it was typed, and so stays as it is.
    [[ -z $quote && $PREFIX == \\~/* ]] && compset -P '\\~/' && home='~/'
    items=(\"${(@)${(@f)reply}#$home}\")
    # In an open `\"` zsh itself would expand `$'..'` at the next Tab.
    [[ $quote != \\\" ]] || items=(\"${(@)items:#*\\$\\'*}\")
    other=(\"${(@)items:#$~folder}\")
    for completion in \"${(@M)items:#$~folder}\"; do
        value=${completion//\\\\?/..}
        value=${#value%%:*}
        dirs+=(\"$completion[1,value-1]$completion[value+1,-1]\")
    done
    [[ -n $dirs ]] && _describe -V 'values' dirs -S '/' -r '/' && found=0
    [[ -n $other ]] && _describe -V 'values' other \"${ends[@]}\" && found=0
    return found
}
";

fn frame() -> SafeFrame<'static>
    ensures { result ≡ zsh_frame }
{
    SafeFrame {
        quoting: Quoting::Posix,
        names_begin: TextRef::new("compdef _complgen_"),
        names_follow: TextRef::new(" "),
        names_between: TextRef::new(" "),
        function_begins: TextRef::new("_complgen_"),
        function_head: TextRef::new(FUNCTION_HEAD),
        call_begins: TextRef::new(CALL_BEGINS),
        call_ends: TextRef::new(CALL_ENDS),
    }
}

/// Writes the safe registration for zsh, with which the shell asks `completer` for candidates of
/// the programs `bins`. `variable` requests completions, and `name` is part of the function's name.
/// Both are written as identifiers, with `_` for each byte that is not an ASCII letter, a digit or
/// `_`, and before a digit at the start. An empty one becomes `_`.
///
/// # Errors
///
/// `Write` if the sink fails, `Memory` if an allocation fails.
pub fn write_safe_zsh<W: Sink>(
    alloc: Global,
    sink: &mut W,
    variable: &str,
    name: &str,
    bins: &[&str],
    completer: &str,
) -> Result<(), Error>
    ensures written { Writes W.taken W.failed result sink.old sink.new
        (safe_zsh variable.now name.now (map (λ bin. bin.now) bins.now) completer.now) }
    ensures read_back { SafeZshReads variable.now name.now (map (λ bin. bin.now) bins.now)
        completer.now }
{
    let names = SafeNames::new(variable, name, completer);
    write_safe(alloc, sink, &frame(), &names, bins)
}
