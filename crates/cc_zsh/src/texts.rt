//! The fixed texts of a script.

pub(crate) const COMPDEF_BEGINS: &str = "#compdef ";

pub(crate) const AUTOLOADS: &str = "

autoload -U is-at-least

_";

pub(crate) const BODY_BEGINS: &str = "() {
    typeset -A opt_args
    typeset -a _arguments_options
    local ret=1

    if is-at-least 5.2; then
        _arguments_options=(-s -S -C)
    else
        _arguments_options=(-s -C)
    fi

    local context curcontext=\"$curcontext\" state line
    ";

pub(crate) const BODY_ENDS: &str = "
}

";

pub(crate) const IF_CALLED: &str = "
if [ \"$funcstack[1]\" = \"_";

pub(crate) const THEN_CALL: &str = "\" ]; then
    _";

pub(crate) const ELSE_DEFINE: &str = " \"$@\"
else
    compdef _";

pub(crate) const IF_ENDS: &str = "
fi
";

pub(crate) const LINE_END: &str = "' \\
";

pub(crate) const BLOCK_BEGINS: &str = "_arguments \"${_arguments_options[@]}\" : \\
";

pub(crate) const BLOCK_ENDS: &str = "&& ret=0";

pub(crate) const EXTERNAL_TEXT: &str = "\"*::external_command:_default\" \\
";

pub(crate) const COMMAND_BEGINS: &str = "\":: :_";

pub(crate) const STATE_BEGINS: &str = "\" \\
\"*::: :->";

pub(crate) const STATE_ENDS: &str = "\" \\
";

pub(crate) const CASE_STATE: &str = "
    case $state in
    (";

pub(crate) const SET_WORDS: &str = ")
        words=($line[";

pub(crate) const SET_CONTEXT: &str = "] \"${words[@]}\")
        (( CURRENT += 1 ))
        curcontext=\"${curcontext%:*:*}:";

pub(crate) const CONTEXT_COMMAND: &str = "-command-$line[";

pub(crate) const CASE_LINE: &str = "]:\"
        case $line[";

pub(crate) const CASE_LINE_IN: &str = "] in
            ";

pub(crate) const NESTED_ENDS: &str = "        esac
    ;;
esac";

pub(crate) const ARM_ENDS: &str = "
;;
";

pub(crate) const UNLESS_DEFINED: &str = "(( $+functions[_";

pub(crate) const FUNCTION_BEGINS: &str = "] )) ||
_";

pub(crate) const COMMANDS_BEGIN: &str = "() {
    local commands; commands=(";

pub(crate) const DESCRIBE_BEGINS: &str = ")
    _describe -t commands '";

pub(crate) const DESCRIBE_ENDS: &str = " commands' commands \"$@\"
}
";

pub(crate) const ENTRIES_END: &str = "
    ";
