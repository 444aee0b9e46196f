//! A request of each status, from its bytes to the room, a registration of each set, and the values
//! for which words are asked.

use crate::{PassedNames, PassedRequest, lagvtsune_asked, lagvtsune_live, lagvtsune_registration};
use std::process::Abort;
use std::test::Fail;

const TREE: &[u8] = b"{\"name\": \"app\", \"args\": [
    {\"id\": \"f\", \"long\": \"file\", \"value_hint\": \"AnyPath\"}]}";

// Fails unless the returned length and status are these.
fn same(rt: &impl Abort, shown: (usize, u8), wanted: (usize, u8)) {
    assert_eq!(rt; shown, wanted);
}

// The variables of a request of bash for the value of `--file` in the directory `/x`.
const BASH: &[&[u8]] = &[
    b"COMPLETE",
    b"bash",
    b"_CLAP_COMPLETE_INDEX",
    b"2",
    b"_CLAP_IFS",
    b",",
    b"PWD",
    b"/x",
];

const WORDS: &[&[u8]] = &[b"app", b"--", b"app", b"--file", b""];

// The names in the directory that is passed, and the path of the one that is a directory.
const NAMES: &[&[u8]] = &[b"b", b"a"];

const FOLDERS: &[&[u8]] = &[b"/x/b"];

// Makes a request with these variables over the directory `listed`, and returns the length, the
// status and the room.
fn asked(
    rt: &HostRuntime,
    variables: &'static [&'static [u8]],
    listed: &'static [u8],
) -> (usize, u8, [u8; 96]) {
    let mut room = [0; 96];
    let mut status = u8::MAX;
    let request = PassedRequest {
        tree: TREE,
        words: WORDS,
        variables,
        output: b"",
        listed,
        names: NAMES,
        folders: FOLDERS,
        files: &[],
    };
    let length = lagvtsune_live(rt.alloc(), &request, &mut room, &mut status);
    (length, status, room)
}

#[test]
fn other_names_are_wanted(rt: HostRuntime) -> Result<(), Fail> {
    let (length, status, room) = asked(&rt, BASH, b"/y");
    same(&rt, (length, status), (3, 4));
    assert!(rt; room.starts_with(b"/x/"));
    Ok(())
}

#[test]
fn names_that_were_handed_in_are_offered(rt: HostRuntime) -> Result<(), Fail> {
    let (length, status, room) = asked(&rt, BASH, b"/x/");
    same(&rt, (length, status), (6, 0));
    assert!(rt; room.starts_with(b".,a,b/"));
    Ok(())
}

#[test]
fn an_unknown_shell_is_named(rt: HostRuntime) -> Result<(), Fail> {
    let (_, status, room) = asked(&rt, &[b"COMPLETE", b"tcsh"], b"");
    assert!(rt; status == 1);
    assert!(rt; room.starts_with(b"unknown shell `tcsh`, expected one of `bash`"));
    Ok(())
}

#[test]
fn what_is_not_utf8_is_refused(rt: HostRuntime) -> Result<(), Fail> {
    let (length, status, _) = asked(&rt, &[b"COMPLETE", b"\xff"], b"");
    same(&rt, (length, status), (0, 2));
    Ok(())
}

#[test]
fn nothing_is_requested(rt: HostRuntime) -> Result<(), Fail> {
    let (length, status, _) = asked(&rt, &[b"COMPLETE", b""], b"");
    same(&rt, (length, status), (0, 3));
    Ok(())
}

// Two arguments with a command each, one whose values are in a file, and one whose command gets the
// typed words and replies as Cobra does.
const COMMANDS: &[u8] = b"{\"name\": \"app\", \"disable_help_flag\": true, \"args\": [
    {\"id\": \"branch\", \"values_from\": [\"git\", \"branch\"]},
    {\"id\": \"remote\", \"long\": \"remote\", \"values_from\": [\"git\", \"remote\"]},
    {\"id\": \"user\", \"long\": \"user\", \"values_file\": \"/etc/passwd\"},
    {\"id\": \"pod\", \"long\": \"pod\", \"values_from\": [\"kube\", \"__complete\"],
        \"values_words\": true, \"values_protocol\": \"cobra\"}]}";

// Requests the value after `before` from fish, with `output` as what the command printed, and
// returns the length, the status and the room.
fn valued(
    rt: &HostRuntime,
    mode: &[u8],
    commands: &[u8],
    before: &[u8],
    output: &[u8],
) -> (usize, u8, [u8; 96]) {
    let words: [&[u8]; 5] = [b"app", b"--", b"app", before, b""];
    let variables: [&[u8]; 8] = [
        b"COMPLETE",
        b"fish",
        b"_COMPLGEN_SPACE",
        b"1",
        b"_COMPLGEN_VALUES",
        mode,
        b"COMPLGEN_COMMANDS",
        commands,
    ];
    let mut room = [0; 96];
    let mut status = u8::MAX;
    let request = PassedRequest {
        tree: COMMANDS,
        words: &words,
        variables: &variables,
        output,
        listed: b"",
        names: &[],
        folders: &[],
        files: &[],
    };
    let length = lagvtsune_live(rt.alloc(), &request, &mut room, &mut status);
    (length, status, room)
}

#[test]
fn a_command_is_asked_for(rt: HostRuntime) -> Result<(), Fail> {
    let (length, status, room) = valued(&rt, b"ask", b"", b"--", b"");
    same(&rt, (length, status), (11, 5));
    assert!(rt; room.starts_with(b"git\x0bbranch\x0b"));
    Ok(())
}

#[test]
fn the_command_of_the_open_option_is_asked_for(rt: HostRuntime) -> Result<(), Fail> {
    let (length, status, room) = valued(&rt, b"ask", b"1", b"--remote", b"origin\n");
    same(&rt, (length, status), (11, 5));
    assert!(rt; room.starts_with(b"git\x0bremote\x0b"));
    Ok(())
}

#[test]
fn output_of_the_command_is_offered(rt: HostRuntime) -> Result<(), Fail> {
    let (length, status, room) = valued(&rt, b"stdin", b"", b"--", b"main\tthe branch\ndev\n");
    same(&rt, (length, status), (20, 0));
    assert!(rt; room.starts_with(b"main\tthe branch\ndev\n"));
    Ok(())
}

#[test]
fn a_command_gets_the_typed_words(rt: HostRuntime) -> Result<(), Fail> {
    let (length, status, room) = valued(&rt, b"ask", b"", b"--pod", b"");
    same(&rt, (length, status), (23, 5));
    assert!(rt; room.starts_with(b"kube\x0b__complete\x0b--pod\x0b\x0b"));
    Ok(())
}

#[test]
fn a_reply_of_cobra_is_read(rt: HostRuntime) -> Result<(), Fail> {
    let (length, status, room) = valued(&rt, b"stdin", b"", b"--pod", b"web\tthe pod\n:4\n");
    same(&rt, (length, status), (12, 0));
    assert!(rt; room.starts_with(b"web\tthe pod\n"));
    let (length, status, _) = valued(&rt, b"stdin", b"", b"--pod", b"web\tthe pod\n:6\n");
    same(&rt, (length, status), (12, 6));
    Ok(())
}

#[test]
fn no_values_where_commands_are_off(rt: HostRuntime) -> Result<(), Fail> {
    let (length, status, _) = valued(&rt, b"ask", b"0", b"--", b"");
    same(&rt, (length, status), (0, 0));
    let (length, status, _) = valued(&rt, b"stdin", b"0", b"--", b"main\n");
    same(&rt, (length, status), (0, 0));
    Ok(())
}

#[test]
fn output_of_a_command_is_not_offered_for_a_file(rt: HostRuntime) -> Result<(), Fail> {
    let (length, status, _) = valued(&rt, b"stdin", b"", b"--user", b"main\n");
    same(&rt, (length, status), (0, 0));
    Ok(())
}

// Makes the registration of a set for a shell, and returns the length, the status and the room.
fn registered(rt: &HostRuntime, safe: bool, shell: &[u8], bin: &[u8]) -> (usize, u8, [u8; 1024]) {
    let names = PassedNames {
        variable: b"ASK",
        name: b"app",
        bin,
        completer: b"/bin/app",
    };
    let mut room = [0; 1024];
    let mut status = u8::MAX;
    let length = lagvtsune_registration(rt.alloc(), safe, shell, &names, &mut room, &mut status);
    (length, status, room)
}

#[test]
fn the_original_s_registration_is_made(rt: HostRuntime) -> Result<(), Fail> {
    let text =
        b"complete --keep-order --exclusive --command my-app --arguments \"(ASK=fish /bin/app -- (commandline --current-process --tokenize --cut-at-cursor) (commandline --current-token))\"\n";
    let (length, status, room) = registered(&rt, false, b"fish", b"my-app");
    same(&rt, (length, status), (text.len(), 0));
    assert!(rt; room.starts_with(text));
    Ok(())
}

#[test]
fn the_safe_registration_is_made(rt: HostRuntime) -> Result<(), Fail> {
    let (_, status, room) = registered(&rt, true, b"elvish", b"it's");
    assert!(rt; status == 0);
    assert!(rt; room.starts_with(b"for complgen-name ['it''s'] {\n"));
    Ok(())
}

#[test]
fn a_registration_needs_a_shell_and_texts(rt: HostRuntime) -> Result<(), Fail> {
    let (_, status, room) = registered(&rt, true, b"tcsh", b"app");
    assert!(rt; status == 1);
    assert!(rt; room.starts_with(b"unknown shell `tcsh`, expected one of `bash`"));
    let (length, status, _) = registered(&rt, false, b"fish", b"\xff");
    same(&rt, (length, status), (0, 2));
    Ok(())
}

// Returns the length, the status and the room for the values of the last of these words.
fn values_of(rt: &HostRuntime, words: &[&[u8]]) -> (usize, u8, [u8; 96]) {
    let mut room = [0; 96];
    let mut status = u8::MAX;
    let length = lagvtsune_asked(rt.alloc(), COMMANDS, words, &mut room, &mut status);
    (length, status, room)
}

#[test]
fn the_values_of_a_word_are_told(rt: HostRuntime) -> Result<(), Fail> {
    let text = b"remote\00\0ori\0branch\00\0--remote=ori\0";
    let (length, status, room) = values_of(&rt, &[b"app", b"--remote=ori"]);
    same(&rt, (length, status), (text.len(), 0));
    assert!(rt; room.starts_with(text));
    Ok(())
}

#[test]
fn a_word_that_is_not_utf8_has_no_values(rt: HostRuntime) -> Result<(), Fail> {
    let (length, status, _) = values_of(&rt, &[b"app", b"\xff"]);
    same(&rt, (length, status), (0, 2));
    let (_, status, room) = values_of(&rt, &[b"app"]);
    assert!(rt; status == 1);
    assert!(rt; room.starts_with(b"no completion generated\n"));
    Ok(())
}
