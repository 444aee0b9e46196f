//! The fixed texts of a script, which equal those of the definitions.

pub(crate) const OPTSPECS_BEGIN: &str =
    "# Print an optspec for argparse to handle cmd's options that are independent of any subcommand.
function __fish_";

pub(crate) const OPTSPECS_JOIN: &str = "_global_optspecs
    string join \\n";

pub(crate) const NEEDS_COMMAND_BEGIN: &str = "
end

function __fish_";

pub(crate) const NEEDS_COMMAND_PARSE: &str = "_needs_command
    # Figure out if the current invocation already has a command.
    set -l cmd (commandline -opc)
    set -e cmd[1]
    argparse -s (__fish_";

pub(crate) const NEEDS_COMMAND_END: &str = "_global_optspecs) -- $cmd 2>/dev/null
    or return
    if set -q argv[1]
        # Also print the command, so this can be used to figure out what it is.
        echo $argv[1]
        return 1
    end
    return 0
end

function __fish_";

pub(crate) const USING_SUBCOMMAND_CALL: &str = "_using_subcommand
    set -l cmd (__fish_";

pub(crate) const USING_SUBCOMMAND_END: &str = "_needs_command)
    test -z \"$cmd\"
    and return 1
    contains -- $cmd[1] $argv
end

";

pub(crate) const NOT_SEEN: &str = "; and not __fish_seen_subcommand_from";

pub(crate) const LIST_BEGIN: &str = " -r -f -a \"";
