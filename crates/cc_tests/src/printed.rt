//! The `Debug` output of types, and the texts of errors of files. Nothing promises them.

use crate::checks::is;
use cc_base::{Failures, Items};
use clap_complete::aot::InvalidShell;
use clap_complete::command::{ArgAction, Text, ValueHint, ValueRange};
use clap_complete::engine::{
    ArgValueCandidates, ArgValueCompleter, FolderError, SubcommandCandidates,
};
use clap_complete::{CompletionCandidate, Error, Shell, aot, env};
use complgen_tree_file::TreeError;
use std::alloc::Global;
use std::fmt::Debug;

// Returns the `Debug` text of a value, which may be several in a tuple.
fn shown<T: Debug + Drop>(alloc: Global, value: T) -> Result<String, Error> {
    Ok(format!(in alloc; "{value:?}")?)
}

#[test]
fn parts_of_a_tree_show_their_values(rt: HostRuntime) {
    let (hint, range) = (ValueHint::CommandWithArguments, ValueRange::new(0, 2));
    let parts = (ArgAction::SetTrue, range, hint, ArgValueCompleter::new(7));
    let wanted = "(SetTrue, ValueRange { least: 0, greatest: 2 }, CommandWithArguments, \
        ArgValueCompleter { number: 7 })";
    is(&rt, shown(rt.alloc(), parts), wanted);
    let numbers = (ArgValueCandidates::new(1), SubcommandCandidates::new(0));
    let wanted = "(ArgValueCandidates { number: 1 }, SubcommandCandidates { number: 0 })";
    is(&rt, shown(rt.alloc(), numbers), wanted);
}

#[test]
fn texts_items_and_candidates_show_their_contents(rt: HostRuntime) {
    let text = Text::copy_of(rt.alloc(), "it's \"\n").expect(&rt, "no text");
    is(&rt, shown(rt.alloc(), text), r#""it's \"\n""#);
    let items: Items<char> = Items::new(rt.alloc());
    is(&rt, shown(rt.alloc(), items), "Items { items: [] }");
    let candidate = CompletionCandidate::new(String::new(rt.alloc()));
    let wanted = "CompletionCandidate { value: \"\", help: None, id: None, tag: None, \
        display_order: None, hidden: false }";
    is(&rt, shown(rt.alloc(), candidate), wanted);
}

#[test]
fn shells_generators_and_adapters_are_printed(rt: HostRuntime) {
    let generators = (
        aot::Bash,
        aot::Elvish,
        aot::Fish,
        aot::Nushell,
        aot::PowerShell,
        aot::Zsh,
    );
    let wanted = "(Bash, Elvish, Fish, Nushell, PowerShell, Zsh)";
    is(&rt, shown(rt.alloc(), generators), wanted);
    let adapters = (env::Bash, env::Elvish, env::Fish, env::Powershell, env::Zsh);
    is(
        &rt,
        shown(rt.alloc(), adapters),
        "(Bash, Elvish, Fish, Powershell, Zsh)",
    );
    let shells = (Shell::PowerShell, InvalidShell, Failures::none());
    let wanted = "(PowerShell, InvalidShell, Failures { count: 0, last: None })";
    is(&rt, shown(rt.alloc(), shells), wanted);
}

// Returns how errors of files are displayed.
fn displayed(alloc: Global) -> Result<String, Error> {
    let (form, json, memory) = (TreeError::BadForm, TreeError::NotJson, TreeError::Memory);
    let (unreadable, full) = (FolderError::Unreadable, FolderError::Memory);
    Ok(format!(in alloc; "{form}, {json}, {memory}, {unreadable}, {full}")?)
}

#[test]
fn errors_show_their_texts(rt: HostRuntime) {
    let wanted = "tree: bad form, tree: not JSON, out of memory, unreadable, out of memory";
    is(&rt, displayed(rt.alloc()), wanted);
    let errors = (
        TreeError::BadForm,
        FolderError::Unreadable,
        Error::NoCompletion,
    );
    is(
        &rt,
        shown(rt.alloc(), errors),
        "(BadForm, Unreadable, NoCompletion)",
    );
}
