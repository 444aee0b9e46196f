//! The candidates for a word of a command line, and completers of values.

pub use cc_base::{ArgValueCandidates, ArgValueCompleter, CandidateSources, SubcommandCandidates};
pub use cc_candidates::{
    Completers, CompletionCandidate, EveryPath, FnCandidates, FnCompleter, FnTest, Folder,
    FolderError, IsDir, IsExecutable, IsFile, MemoryFolder, PathCompleter, PathTest, RealFolder,
    ValueCandidates, ValueCompleter,
};
pub use cc_engine::{
    AskedValue, Lookup, Sources, asked_argument, asked_values, complete, complete_from,
    complete_possible_values, possible_value_candidates,
};
pub use cc_env::{WithLines, complete_with_lines, wanted_command};
pub use cc_program::{bash_script_and_candidates, has_no_hidden_alias};
