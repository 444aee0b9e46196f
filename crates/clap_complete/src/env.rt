//! Completion by the program itself, when its shell asks for candidates through the environment.

pub use cc_command::Release;
pub use cc_env::{
    Answer, Bash, Builtin, Call, Called, CompleteEnv, Elvish, EnvCompleter, Fish, LineSource,
    LookupCompleter, PassedLines, Powershell, SafeShell, ShellNames, ShellProgram, Shells, Zsh,
    answer_call, answer_own, try_complete_asking, write_answer, write_run_words,
};
pub use cc_lines::SystemLines;
pub use cc_quote::is_plain_path;
pub use cc_replies::{
    CobraReply, EnvValues, GivenLines, PathKind, are_readable_entries, are_readable_lines,
    are_readable_values, are_readable_zsh_items,
};
