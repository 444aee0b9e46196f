//! The fixed texts of a script.

pub(crate) const FUNCTION_BEGINS: &str = "_";

pub(crate) const FUNCTION_HEAD: &str = "() {
    local i cur prev opts cmd
    COMPREPLY=()
    if [[ \"${BASH_VERSINFO[0]}\" -ge 4 ]]; then
        cur=\"$2\"
    else
        cur=\"${COMP_WORDS[COMP_CWORD]}\"
    fi
    prev=\"$3\"
    cmd=\"\"
    opts=\"\"

    for i in \"${COMP_WORDS[@]:0:COMP_CWORD}\"
    do
        case \"${cmd},${i}\" in
            \",$1\")
                cmd=\"";

pub(crate) const CASES_BEGIN: &str = "\"
                ;;";

pub(crate) const ARMS_BEGIN: &str = "
            *)
                ;;
        esac
    done

    case \"${cmd}\" in";

pub(crate) const ARMS_END: &str = "
    esac
}

if [[ \"${BASH_VERSINFO[0]}\" -eq 4 && \"${BASH_VERSINFO[1]}\" -ge 4 \
    || \"${BASH_VERSINFO[0]}\" -gt 4 ]]; then
    complete -F _";

pub(crate) const UNSORTED_OPTIONS: &str = " -o nosort -o bashdefault -o default ";

pub(crate) const OTHERWISE: &str = "
else
    complete -F _";

pub(crate) const SORTED_OPTIONS: &str = " -o bashdefault -o default ";

pub(crate) const SCRIPT_ENDS: &str = "
fi
";

pub(crate) const CASE_BEGINS: &str = "
            ";

pub(crate) const CASE_COMMA: &str = ",";

pub(crate) const CASE_SETS: &str = ")
                cmd=\"";

pub(crate) const CASE_ENDS: &str = "\"
                ;;";

pub(crate) const ARM_BEGINS: &str = "
        ";

pub(crate) const ARM_WORDS: &str = ")
            opts=\"";

pub(crate) const ARM_LEVEL: &str = "\"
            if [[ ${cur} == -* || ${COMP_CWORD} -eq ";

pub(crate) const ARM_DETAILS: &str = " ]] ; then
                COMPREPLY=( $(compgen -W \"${opts}\" -- \"${cur}\") )
                return 0
            fi
            case \"${prev}\" in";

pub(crate) const ARM_ENDS: &str = "
                *)
                    COMPREPLY=()
                    ;;
            esac
            COMPREPLY=( $(compgen -W \"${opts}\" -- \"${cur}\") )
            return 0
            ;;";

pub(crate) const DETAIL_BEGINS: &str = "
                ";

pub(crate) const DETAIL_WORD_ENDS: &str = ")";

pub(crate) const KEEP_SEPARATOR: &str = "
                    local oldifs
                    if [ -n \"${IFS+x}\" ]; then
                        oldifs=\"$IFS\"
                    fi
                    IFS=$'\\n'";

pub(crate) const SEPARATOR_BACK: &str = "
                    if [ -n \"${oldifs+x}\" ]; then
                        IFS=\"$oldifs\"
                    fi";

pub(crate) const REPLY_BEGINS: &str = "
                    COMPREPLY=(";

pub(crate) const REPLY_ENDS: &str = ")";

pub(crate) const VALUES_BEGIN: &str = "$(compgen -W \"";

pub(crate) const VALUES_END: &str = "\" -- \"${cur}\")";

pub(crate) const OFFER_FILES: &str = "$(compgen -f \"${cur}\")";

pub(crate) const OFFER_WORD: &str = "\"${cur}\"";

pub(crate) const MODE_BEGINS: &str = "
                    if [[ \"${BASH_VERSINFO[0]}\" -ge 4 ]]; then
                        compopt -o ";

pub(crate) const MODE_ENDS: &str = "
                    fi";

pub(crate) const DETAIL_ENDS: &str = "
                    return 0
                    ;;";
