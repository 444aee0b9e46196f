//! A completer of names that a program knows, and the candidates with it.

ghost use Rattle.std.specs.Prelude.{◌≡◌, IfErr, IfOk, map, string_bytes};
ghost use Rattle.clap_complete.specs.cc_candidates.Candidate.{new_candidate};
ghost use Rattle.cc_caller.specs.KnownNames.{OffersTools, names_beginning, runner};

use clap_complete::Error;
use clap_complete::command::{Arg, Command};
use clap_complete::engine::{
    ArgValueCompleter, Completers, CompletionCandidate, Folder, ValueCompleter, complete,
};
use std::alloc::{AllocError, Global};

/// A completer with the names that begin with the typed text, in their order.
#[derive(Drop)]
pub struct KnownNames {
    /// The names, in the order in which they are offered.
    pub names: Vec<String>,
}

impl ValueCompleter for KnownNames {
    ghost completes = { λ known _ text found.
        found ≡ map new_candidate (names_beginning (map string_bytes known.names.items) text) };

    fn complete(&self, alloc: Global, text: &str) -> Result<Vec<CompletionCandidate>, AllocError> {
        let mut found = Vec::new(alloc);
        for name in &self.names {
            if name.as_bytes().starts_with(text.as_bytes()) {
                let name = String::from_str(alloc, name.as_str())?;
                found.push(CompletionCandidate::new(name))?;
            }
        }
        Ok(found)
    }
}

// Returns `run` with an argument `tool`, whose values the completer returns.
fn runner(alloc: Global, completer: ArgValueCompleter) -> Result<Command, Error>
    ensures ok { IfOk result (λ command. command ≡ runner completer) }
    ensures memory { IfErr result (λ error. error ≡ Error.Memory) }
{
    let tool = Arg::new(alloc, String::from_str(alloc, "tool")?).add(completer);
    let command = Command::new(alloc, String::from_str(alloc, "run")?);
    command.arg(tool)
}

/// Returns the candidates of the program `run` for `word`, the name of a tool, if the tools have
/// these `names`. `folder` is passed to `complete`.
///
/// # Errors
///
/// `Memory` if an allocation fails.
pub fn tools<D: Folder>(
    alloc: Global,
    names: Vec<String>,
    word: String,
    folder: &D,
) -> Result<Vec<CompletionCandidate>, Error>
    ensures ok { IfOk result (λ found.
        OffersTools (map string_bytes names.items) (string_bytes word) found.items) }
    ensures memory { IfErr result (λ error. error ≡ Error.Memory) }
{
    let mut completers = Completers::none(alloc);
    let known = completers.add_completer(Box::new(alloc, KnownNames { names })?)?;
    let mut command = runner(alloc, known)?;
    let mut words = Vec::new(alloc);
    words.push(String::from_str(alloc, "run")?)?;
    words.push(word)?;
    complete(alloc, &mut command, words, 1, None, folder, &completers)
}
