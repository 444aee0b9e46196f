//! The safe registration for bash.

ghost use Rattle.std.specs.Prelude.{◌≡◌, map};
ghost use Rattle.cc_base.specs.Writes.{Writes};
ghost use Rattle.cc_registrations.specs.SafeBash.{SafeBashReads, bash_frame, safe_bash};

use crate::safe_text::{SafeFrame, SafeNames, write_safe};
use crate::words::Quoting;
use cc_base::{Error, Sink, TextRef};
use std::alloc::Global;

const FUNCTION_HEAD: &str = "() {
    COMPREPLY=()
    # bash would change a value under `set -k`, if another sign than `!` stands for the history, and
    # after a line feed, which may begin a here-document.
    [[ $- != *k* && ($- != *H* || ${histchars-!} == !*) && $COMP_LINE != *$'\\n'* ]] || return
    local ascii code home='~/' index keeps kept open plain quote reply run=(:) sign values word words=()
    local glob=$- IFS=$'\\n' line=${COMP_LINE:0:COMP_POINT} width=''
    # Only ASCII is safe where two bytes can be a letter that UTF-8 does not have: the second may be
    # the backslash that escapes.
    ascii=$'\\x80\\\\\\x81\\\\\\x82\\\\\\x83\\\\\\x84\\\\\\x85\\\\\\x86\\\\\\x87\\\\\\x88\\\\\\x89\\\\\\x8a\\\\\\x8b\\\\\\x8c\\\\\\x8d\\\\\\x8e\\\\\\x8f\\\\'
    ascii+=$'\\x90\\\\\\x91\\\\\\x92\\\\\\x93\\\\\\x94\\\\\\x95\\\\\\x96\\\\\\x97\\\\\\x98\\\\\\x99\\\\\\x9a\\\\\\x9b\\\\\\x9c\\\\\\x9d\\\\\\x9e\\\\\\x9f\\\\'
    ascii+=$'\\xa0\\\\\\xa1\\\\\\xa2\\\\\\xa3\\\\\\xa4\\\\\\xa5\\\\\\xa6\\\\\\xa7\\\\\\xa8\\\\\\xa9\\\\\\xaa\\\\\\xab\\\\\\xac\\\\\\xad\\\\\\xae\\\\\\xaf\\\\'
    ascii+=$'\\xb0\\\\\\xb1\\\\\\xb2\\\\\\xb3\\\\\\xb4\\\\\\xb5\\\\\\xb6\\\\\\xb7\\\\\\xb8\\\\\\xb9\\\\\\xba\\\\\\xbb\\\\\\xbc\\\\\\xbd\\\\\\xbe\\\\\\xbf\\\\'
    ascii+=$'\\xc0\\\\\\xc1\\\\\\xc2\\\\\\xc3\\\\\\xc4\\\\\\xc5\\\\\\xc6\\\\\\xc7\\\\\\xc8\\\\\\xc9\\\\\\xca\\\\\\xcb\\\\\\xcc\\\\\\xcd\\\\\\xce\\\\\\xcf\\\\'
    ascii+=$'\\xd0\\\\\\xd1\\\\\\xd2\\\\\\xd3\\\\\\xd4\\\\\\xd5\\\\\\xd6\\\\\\xd7\\\\\\xd8\\\\\\xd9\\\\\\xda\\\\\\xdb\\\\\\xdc\\\\\\xdd\\\\\\xde\\\\\\xdf\\\\'
    ascii+=$'\\xe0\\\\\\xe1\\\\\\xe2\\\\\\xe3\\\\\\xe4\\\\\\xe5\\\\\\xe6\\\\\\xe7\\\\\\xe8\\\\\\xe9\\\\\\xea\\\\\\xeb\\\\\\xec\\\\\\xed\\\\\\xee\\\\\\xef\\\\'
    ascii+=$'\\xf0\\\\\\xf1\\\\\\xf2\\\\\\xf3\\\\\\xf4\\\\\\xf5\\\\\\xf6\\\\\\xf7\\\\\\xf8\\\\\\xf9\\\\\\xfa\\\\\\xfb\\\\\\xfc\\\\\\xfd\\\\\\xfe\\\\\\xff\\\\\\xc4\\xc4'
    [[ ${#ascii} == 258 ]] && ascii='' || ascii=1
    compopt -o nosort 2>/dev/null
    # The words up to the cursor. bash cuts them at `:`, `=` and `@` too, not only at blanks.
    for word in \"${COMP_WORDS[@]:0:COMP_CWORD+1}\"; do
        if [[ ${#words[@]} == 0 || $line == [[:space:]]* ||
            $line != \"$word\"* && $word != \"$line\"* ]]; then
            words+=('')
            line=${line#\"${line%%[![:space:]]*}\"}
        fi
        [[ $word != \"$line\"* ]] || word=$line
        words[${#words[@]}-1]+=$word
        line=${line#\"$word\"}
    done
    # Without their quotes. bash replaces `$2`, and keeps what is before it: maybe an open quote.
    # Nothing is offered if it would expand that.
    for index in \"${!words[@]}\"; do
        line=${words[index]} word='' kept='' quote='' open='' plain=1 keeps=''
        while [[ ${#line} != \"${#2}\" ]] || kept=$word quote=$open keeps=$plain; [[ -n $line ]]; do
            sign=${line:0:1} line=${line:1}
            case $open$sign in
                \\' | \\\") open=$sign ;;
                \\'\\' | \\\"\\\") open='' ;;
                \\\\ | \\\"\\\\)
                    [[ -n $open && $line != [\\\"\\$\\`\\\\]* ]] || sign=${line:0:1} line=${line:1}
                    word+=$sign
                    ;;
                []\\!\\#\\$\\&\\(\\)\\*\\;\\<\\>\\?\\[\\^\\`\\{\\|\\}\\~] | \\\"[\\$\\`\\!])
                    [[ -z $word && $sign$line == \"$home\"* ]] || plain=''
                    word+=$sign
                    ;;
                *) word+=$sign ;;
            esac
        done
        words[index]=$word
    done
    [[ -n $keeps ]] || return
    # bash inserts nothing when it only lists, so descriptions may follow the words there, unless a
    # byte of their letters could be a control character.
    [[ ${COMP_TYPE-} != 63 || ${COMPLGEN_DESCRIPTIONS-} == 0 || $'\\x9b' == [[:cntrl:]] ]] ||
        width=${COLUMNS-}
    # Asks for candidates, written as the line takes them; where complgen asks back, with what the
    # words that it names print.
    for values in ask stdin; do
        reply=$({ \"${run[@]}\" || :; } </dev/null 2>/dev/null | \\
            ";

const CALL_BEGINS: &str = "=bash \\
            _COMPLGEN_VALUES=$values \\
            _COMPLGEN_SPACE=1 \\
            _COMPLGEN_WIDTH=$width \\
            _COMPLGEN_KEPT=$kept \\
            _COMPLGEN_QUOTE=$quote \\
            _COMPLGEN_ASCII=$ascii \\
            ";

const CALL_ENDS: &str = " -- \"${words[@]}\") && code=0 || code=$?
        [[ $code == 3 ]] || break
        run=(command env --)
        while [[ $reply == *$'\\v'* ]]; do
            run+=(\"${reply%%$'\\v'*}\")
            reply=${reply#*$'\\v'}
        done
    done
    [[ $code == [04] ]] || return
    # Its lines, of which none is a pattern.
    set -f
    COMPREPLY=($reply)
    [[ $glob == *f* ]] || set +f
    # bash closes no quote after a `\"`, not even after one that is part of the value.
    [[ $quote != \\\" ]] || COMPREPLY=(\"${COMPREPLY[@]/%\\\"/\\\"\\\"}\")
    # `~/` leads home only where it was typed.
    [[ $2 == \"$home\"* || -n $kept$quote || $'\\n'$reply != *$'\\n'\"$home\"* ]] ||
        COMPREPLY=(\"${COMPREPLY[@]/#$home/\\\\$home}\")
    # After status 4, the value may be only the beginning of a word.
    [[ $code == 4 || ${COMPREPLY-} =~ [=/:]$ ]] || compopt +o nospace 2>/dev/null
}
";

fn frame() -> SafeFrame<'static>
    ensures { result ≡ bash_frame }
{
    SafeFrame {
        quoting: Quoting::Posix,
        names_begin: TextRef::new("complete -o nospace -o bashdefault -F _complgen_"),
        names_follow: TextRef::new(" -- "),
        names_between: TextRef::new(" "),
        function_begins: TextRef::new("_complgen_"),
        function_head: TextRef::new(FUNCTION_HEAD),
        call_begins: TextRef::new(CALL_BEGINS),
        call_ends: TextRef::new(CALL_ENDS),
    }
}

/// Writes the safe registration for bash, with which the shell asks `completer` for candidates of
/// the programs `bins`. `variable` requests completions, and `name` is part of the function's name.
/// Both are written as identifiers, with `_` for each byte that is not an ASCII letter, a digit or
/// `_`, and before a digit at the start. An empty one becomes `_`.
///
/// # Errors
///
/// `Write` if the sink fails, `Memory` if an allocation fails.
pub fn write_safe_bash<W: Sink>(
    alloc: Global,
    sink: &mut W,
    variable: &str,
    name: &str,
    bins: &[&str],
    completer: &str,
) -> Result<(), Error>
    ensures written { Writes W.taken W.failed result sink.old sink.new
        (safe_bash variable.now name.now (map (λ bin. bin.now) bins.now) completer.now) }
    ensures read_back { SafeBashReads variable.now name.now (map (λ bin. bin.now) bins.now)
        completer.now }
{
    let names = SafeNames::new(variable, name, completer);
    write_safe(alloc, sink, &frame(), &names, bins)
}
