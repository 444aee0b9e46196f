//! Tests that select paths.

ghost use Rattle.std.specs.Prelude.{◌≡◌, ℕ, Bool, List, true};
ghost use Rattle.std.specs.Fn.{FnReturnsAt};

use crate::paths::folder::Folder;

/// Selects paths.
pub trait PathTest<D: Folder> {
    // the results that may be returned for a path
    ghost may_return: { Self → D → List ℕ → Bool → Type 0 };

    /// Returns whether `path` passes.
    fn passes(&self, folder: &D, path: &str) -> bool
        ensures { may_return self.now folder.now path.now result };

    /// Returns whether `path` passes, for a caller that knows in `is_dir` whether it leads to a
    /// directory. A test that needs nothing else returns `is_dir`, so that the directory is not
    /// read twice.
    fn passes_known(&self, folder: &D, path: &str, is_dir: bool) -> bool
        requires { (D.facts folder.now).is_dir path.now is_dir }
        ensures { may_return self.now folder.now path.now result }
    {
        self.passes(folder, path)
    }
}

/// Selects every path.
#[derive(Drop)]
pub struct EveryPath;

impl<D: Folder> PathTest<D> for EveryPath {
    ghost may_return = { λ _ _ _ passes. passes ≡ true };

    fn passes(&self, _folder: &D, _path: &str) -> bool {
        true
    }
}

/// Selects files.
#[derive(Drop)]
pub struct IsFile;

impl<D: Folder> PathTest<D> for IsFile {
    ghost may_return = { λ _ folder. (D.facts folder).is_file };

    fn passes(&self, folder: &D, path: &str) -> bool {
        folder.is_file(path)
    }
}

/// Selects directories.
#[derive(Drop)]
pub struct IsDir;

impl<D: Folder> PathTest<D> for IsDir {
    ghost may_return = { λ _ folder. (D.facts folder).is_dir };

    fn passes(&self, folder: &D, path: &str) -> bool {
        folder.is_dir(path)
    }

    fn passes_known(&self, _folder: &D, _path: &str, is_dir: bool) -> bool {
        is_dir
    }
}

/// Selects executable files.
#[derive(Drop)]
pub struct IsExecutable;

impl<D: Folder> PathTest<D> for IsExecutable {
    ghost may_return = { λ _ folder. (D.facts folder).is_executable };

    fn passes(&self, folder: &D, path: &str) -> bool {
        folder.is_executable(path)
    }
}

/// A boxed closure that returns whether a path passes.
pub type TextTest = Box<dyn Fn(&str) -> bool>;

/// Selects the paths for which a closure returns `true`.
#[derive(Drop)]
pub struct FnTest {
    test: TextTest,
    ghost callable: { TextTest.IsAlwaysCallable test },
}

impl FnTest {
    /// Creates a test that calls the closure `test`, which must accept any text.
    pub fn new(test: TextTest) -> FnTest
        requires { TextTest.IsAlwaysCallable test }
        ensures { result.test ≡ test }
    {
        FnTest { test }
    }
}

impl<D: Folder> PathTest<D> for FnTest {
    ghost may_return = { λ test _ path passes. FnReturnsAt TextTest.Fn test.test path passes };

    fn passes(&self, _folder: &D, path: &str) -> bool {
        (self.test)(path)
    }
}
