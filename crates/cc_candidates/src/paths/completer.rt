//! The completer of paths.

ghost use Rattle.std.specs.Prelude.{◌≡◌, ◌++◌, IfOk, OnOk, None, Some, true, false, string_bytes};
ghost use Rattle.cc_candidates.specs.PathCandidates.{ArePathCandidates, WithStdio, stdio_candidate};

use crate::candidate::CompletionCandidate;
use crate::paths::folder::Folder;
use crate::paths::listing::path_candidates;
use crate::paths::path_test::{EveryPath, FnTest, IsDir, IsFile, PathTest, TextTest};
use crate::traits::ValueCompleter;
use cc_base::Text;
use std::alloc::{AllocError, Global};

/// Completes paths that pass a test. The number of the value makes no difference to it.
///
/// Words that begin with `~/` need a home directory, other relative words a current directory.
/// Without it, they have no candidates.
#[derive(Drop)]
pub struct PathCompleter<D, T> {
    folder: D,
    test: T,
    stdio: bool,
    current_dir: Option<Text>,
}

impl<D> PathCompleter<D, EveryPath> {
    /// Creates a completer of all paths in `folder`.
    pub fn any(folder: D) -> PathCompleter<D, EveryPath>
        ensures { result ≡ record {
          folder = folder;
          test = record {};
          stdio = false;
          current_dir = None;
        } }
    {
        PathCompleter::with_test(folder, EveryPath)
    }
}

impl<D> PathCompleter<D, IsFile> {
    /// Creates a completer of files in `folder`. Directories come after the files, because they may
    /// contain some.
    pub fn file(folder: D) -> PathCompleter<D, IsFile>
        ensures { result ≡ record {
          folder = folder;
          test = record {};
          stdio = false;
          current_dir = None;
        } }
    {
        PathCompleter::with_test(folder, IsFile)
    }
}

impl<D> PathCompleter<D, IsDir> {
    /// Creates a completer of directories in `folder`.
    pub fn dir(folder: D) -> PathCompleter<D, IsDir>
        ensures { result ≡ record {
          folder = folder;
          test = record {};
          stdio = false;
          current_dir = None;
        } }
    {
        PathCompleter::with_test(folder, IsDir)
    }
}

impl<D, T> PathCompleter<D, T> {
    /// Creates a completer of the paths in `folder` that pass `test`, which may have a type of your
    /// own. Unless the test holds a boxed closure, you can add the completer to `Completers`.
    pub fn with_test(folder: D, test: T) -> PathCompleter<D, T>
        ensures { result ≡ record {
          folder = folder;
          test = test;
          stdio = false;
          current_dir = None;
        } }
    {
        PathCompleter {
            folder,
            test,
            stdio: false,
            current_dir: None,
        }
    }
}

impl<D: Drop, T: Drop> PathCompleter<D, T> {
    /// Also offers `-`, for standard input or output, as the last candidate for an empty word.
    pub fn stdio(mut self) -> PathCompleter<D, T>
        ensures { result ≡ record self { stdio = true } }
    {
        self.stdio = true;
        self
    }

    /// Sets the directory to which relative paths refer.
    pub fn current_dir(mut self, path: String) -> PathCompleter<D, T>
        ensures { result ≡ record self { current_dir = Some (string_bytes path) } }
    {
        self.current_dir = Some(Text::from(path));
        self
    }

    /// Replaces the test by the closure `test`, which must accept any text.
    ///
    /// The closure is called with the path of each listed name that begins like the word. For an
    /// empty word it is also called with the path of the current directory.
    ///
    /// Call `complete` or `complete_at` of this completer directly. A type that holds a boxed
    /// closure cannot become a trait object, so use `with_test` for a completer that you add to
    /// `Completers`.
    pub fn filter(self, test: TextTest) -> PathCompleter<D, FnTest>
        requires { TextTest.IsAlwaysCallable test }
        ensures folder { result.folder ≡ self.folder }
        ensures test { result.test.test ≡ test }
        ensures stdio { result.stdio ≡ self.stdio }
        ensures current_dir { result.current_dir ≡ self.current_dir }
    {
        PathCompleter {
            folder: self.folder,
            test: FnTest::new(test),
            stdio: self.stdio,
            current_dir: self.current_dir,
        }
    }
}

impl<D: Folder + Drop, T: PathTest<D> + Drop> ValueCompleter for PathCompleter<D, T> {
    ghost completes = { λ completer _ word found. WithStdio
        (ArePathCandidates (D.facts completer.folder) (T.may_return completer.test completer.folder)
        completer.current_dir word)
        completer.stdio word found };

    fn complete(&self, alloc: Global, word: &str) -> Result<Vec<CompletionCandidate>, AllocError> {
        let current_dir = self.current_dir.as_ref().map(|path| path.as_str());
        let mut found = path_candidates(alloc, &self.folder, &self.test, current_dir, word)?;
        push_stdio(&mut found, alloc, word, self.stdio)?;
        Ok(found)
    }
}

// Adds the candidate `-`, if `stdio` is set and the word is empty.
fn push_stdio(
    found: &mut Vec<CompletionCandidate>,
    alloc: Global,
    word: &str,
    stdio: bool,
) -> Result<(), AllocError>
    ensures { OnOk result
        (found.new.items ≡ found.old.items ++ stdio_candidate word.now stdio) }
{
    if !stdio || !word.is_empty() {
        return Ok(());
    }
    let dash = String::from_str(alloc, "-")?;
    let help = String::from_str(alloc, "stdio")?;
    found.push(CompletionCandidate::new(dash).help(Some(help)))?;
    Ok(())
}
