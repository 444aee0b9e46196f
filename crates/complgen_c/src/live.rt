//! Live requests, by a function over bytes.

ghost use Rattle.std.specs.Prelude.{Err, map, string_bytes};
ghost use Rattle.std.specs.Option.{option_copied};
ghost use Rattle.cc_env.specs.Answers.{seen};
ghost use Rattle.cc_base.specs.declared.error.Error.TheVariants.{Memory};
ghost use Rattle.cc_replies.specs.Environment.{value_of};
ghost use Rattle.complgen_live.specs.Answers.{seen_request};
ghost use Rattle.complgen_live.specs.declared.reply_errors.ReplyError.TheVariants.{Library};
ghost use Rattle.complgen_c.specs.Listings.{facts_of, handed, listing_of};
ghost use Rattle.complgen_c.specs.Live.{AnswersOver, EndsBy, RepliesTo, ReportsReply, RunsWords};
ghost use Rattle.complgen_c.specs.Live.{Tells, home_name};
ghost use Rattle.complgen_c.specs.Outcomes.{EndsAs};

use crate::listed::Listed;
use crate::outcome::Outcome;
use crate::requests::{RequestTexts, read_request};
use cc_base::{Collected, Error, Items, Text};
use cc_command::Release;
use cc_env::{Answer, PassedLines, write_run_words};
use cc_replies::EnvValues;
use complgen_live::{Origin, ReplyError, Request, answer_request};
use complgen_scripts::{Refusal, error_refusal};
use std::alloc::{AllocError, Global};

// The variable with the path of the user's home directory.
const HOME: &str = "HOME";

// The variable with the path where relative paths begin.
const CURRENT_DIR: &str = "PWD";

// The message for a tree file that describes no command.
const NO_COMMAND: &str = "tree: describes no command\n";

/// A live request, as the caller passes it.
#[repr(C)]
#[derive(Drop)]
pub struct PassedRequest<'p> {
    /// The tree file.
    pub tree: &'p [u8],
    /// The program's arguments, starting with its name.
    pub words: &'p [&'p [u8]],
    /// Names and values of variables, alternating.
    pub variables: &'p [&'p [u8]],
    /// The output of a command.
    pub output: &'p [u8],
    /// The path of a directory.
    pub listed: &'p [u8],
    /// The names in that directory.
    pub names: &'p [&'p [u8]],
    /// The paths of directories.
    pub folders: &'p [&'p [u8]],
    /// The paths of files.
    pub files: &'p [&'p [u8]],
}

/// Answers the request of a shell to the program that a tree file describes: with the registration,
/// with the candidates, or with a command that lists values. Returns the length of the text, and
/// copies the text to the start of `room` if it fits there. Otherwise `room` stays unchanged, and
/// you can call again with more room. You may pass any bytes.
///
/// `request` has the following parts. `tree` is the tree file. `words` are the program's arguments,
/// starting with its name. `variables` are names and values, alternating:
///
/// - `COMPLETE` makes the request, and its value names the shell.
/// - `_COMPLGEN_VALUES`, `_COMPLGEN_ASCII`, `_COMPLGEN_KEPT`, `_COMPLGEN_QUOTE`, `_COMPLGEN_WIDTH`
///   and `_COMPLGEN_SPACE` have the values that the registration sets. A registration of the
///   original's form sets `_CLAP_COMPLETE_INDEX` and `_CLAP_IFS` instead.
/// - `COMPLGEN_COMMANDS` turns off the commands of `values_from` if it is `0`.
/// - `HOME` is the user's home directory, and `PWD` the directory where relative paths begin.
///
/// `output` is what the command of an argument with `values_from` printed. It counts only if
/// `_COMPLGEN_VALUES` is `stdin`. In that case, your program reads it from the standard input.
/// Otherwise, pass no bytes. Pass only the tree of your own program, because the user's shell runs
/// the commands that it names. This function offers no values for `values_file` and for the hints
/// `Username`, `Hostname` and `CommandName`.
///
/// `names` are the names in the directory at the path `listed`, or none if it can't be read.
/// `folders` and `files` are the paths of directories and of files, among these: that directory
/// itself, and its names, each joined to `listed` by one slash. Any other path counts as neither.
///
/// The `status` is:
///
/// - 0: the text is made.
/// - 1: the text is a message, which ends in a line feed.
/// - 2: a word, a variable or a name is not UTF-8, and there is no text.
/// - 3: nothing is requested, and there is no text.
/// - 4: the text is the path of another directory. Call again with the names in that one.
/// - 5: the text is the words of a command, each with a vertical tab after it. Write the text to
///   the standard output, and end your program with exit status 3. The shell then runs the command,
///   and makes the request again. In that request, `_COMPLGEN_VALUES` is `stdin`.
/// - 6: the text is made, a reply after whose values no space follows. Write the text to the
///   standard output, and end your program with exit status 4.
#[unsafe(no_mangle)]
pub extern "C" fn lagvtsune_live(
    alloc: Global,
    request: &PassedRequest<'_>,
    room: &mut [u8],
    status: &mut u8,
) -> usize
    ensures { EndsAs (RepliesTo request.now) room.old room.new status.new result }
{
    match read_request(alloc, request.words, request.variables, request.names) {
        Ok(Some(texts)) => answer_to(alloc, request, texts).put(room, status),
        Ok(None) => Outcome::NotUtf8.put(room, status),
        Err(failed) => Outcome::Failed(Refusal::from(failed)).put(room, status),
    }
}

// Returns the outcome of a request, whose texts are `texts`, over the directory that was passed
// with its names.
fn answer_to(alloc: Global, passed: &PassedRequest<'_>, texts: RequestTexts) -> Outcome
    ensures { AnswersOver passed.now.tree.now (map string_bytes texts.words.items) texts.env
        passed.now.output.now (facts_of (record {
          path = passed.now.listed.now;
          names = map string_bytes texts.names.items;
          folders = handed passed.now.folders.now;
          files = handed passed.now.files.now;
        }) (value_of home_name texts.env)) passed.now.listed.now result }
{
    let RequestTexts { words, env, names } = texts;
    let (folders, files) = (passed.folders, passed.files);
    match Listed::new(alloc, passed.listed, names, folders, files, env.get(HOME)) {
        Ok(folder) => answer_in(alloc, passed, words.as_slice(), &env, folder),
        Err(failed) => Outcome::Failed(Refusal::from(failed)),
    }
}

// Returns the outcome of a request in a directory.
fn answer_in(
    alloc: Global,
    passed: &PassedRequest<'_>,
    words: &[String],
    env: &EnvValues,
    folder: Listed<'_, '_>,
) -> Outcome
    ensures { AnswersOver passed.now.tree.now (map string_bytes words.now) env.now
        passed.now.output.now (facts_of (listing_of folder.entry) (option_copied folder.entry.home))
        folder.entry.path.now result }
{
    let request = Request {
        env,
        words,
        origin: Origin::Program,
        file: Some(passed.tree),
        current_dir: env.get(CURRENT_DIR),
        folder: &folder,
        release: Release::AtOnce,
    };
    let lines = PassedLines {
        bytes: passed.output,
    };
    let answered = answer_request(alloc, &request, &lines);
    let path = folder.path();
    outcome(alloc, answered, path, folder.into_wanted())
}

// Returns the outcome of a request by its answer. `listed` is the path of the directory that was
// passed, and `wanted` the path of the directory whose names the answer needs instead.
fn outcome(
    alloc: Global,
    answered: Result<Option<Answer>, ReplyError>,
    listed: &[u8],
    wanted: Option<Text>,
) -> Outcome
    ensures { EndsBy listed.now (seen_request answered) result }
{
    match answered {
        Ok(Some(answer)) => answer_outcome(alloc, answer),
        Ok(None) => Outcome::NotRequested,
        Err(ReplyError::Library(Error::Memory)) => out_of_memory(listed, wanted),
        Err(error) => Outcome::Failed(reply_refusal(alloc, &error)),
    }
}

// Returns the outcome of an answer.
fn answer_outcome(alloc: Global, answer: Answer) -> Outcome
    ensures { Tells (seen answer) result }
{
    match answer {
        Answer::Text(text) => Outcome::Made(Items::from(text.into_vec())),
        Answer::TextWithoutSpace(text) => {
            Outcome::MadeWithoutSpace(Items::from(text.into_vec()))
        }
        Answer::Run(words) => run_outcome(alloc, words.as_slice()),
    }
}

// Returns the outcome of the words of a command.
fn run_outcome(alloc: Global, words: &[Text]) -> Outcome
    ensures { RunsWords words.now result }
{
    let mut sink = Collected::new(alloc);
    match write_run_words(words, &mut sink) {
        Ok(()) => Outcome::Run(Items::from(sink.into_vec())),
        Err(_) => Outcome::Failed(Refusal::from(AllocError)),
    }
}

// Returns the outcome of the error `Memory`, which the names of another directory cause too.
fn out_of_memory(listed: &[u8], wanted: Option<Text>) -> Outcome
    ensures { EndsBy listed.now (Err (Library Memory)) result }
{
    let Some(path) = wanted else {
        return Outcome::Failed(Refusal::from(AllocError));
    };
    if path.as_str().as_bytes() == listed {
        return Outcome::Failed(Refusal::from(AllocError));
    }
    Outcome::WantsFolder(path)
}

// Returns the refusal for an error of the answer. The tree file has no path that a message could
// name.
fn reply_refusal(alloc: Global, error: &ReplyError) -> Refusal
    ensures { ReportsReply error.now result }
{
    match error {
        ReplyError::Tree(_) => Refusal::from_static(1, NO_COMMAND),
        ReplyError::Library(error) => error_refusal(alloc, error),
    }
}
