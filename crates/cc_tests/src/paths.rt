//! Completers of paths are made. docs/EXTENDING.md shows this code.

ghost use Rattle.std.specs.Prelude.{⊤};

use clap_complete::Error;
use clap_complete::engine::{
    Completers, Folder, MemoryFolder, PathCompleter, PathTest, RealFolder, ValueCompleter,
};

/// Accepts the paths whose names begin with `foo`.
#[derive(Drop)]
struct BeginsWithFoo;

impl<D: Folder> PathTest<D> for BeginsWithFoo {
    ghost may_return = { λ _ _ _ _. ⊤ };

    fn passes(&self, _folder: &D, path: &str) -> bool {
        path.contains("/foo")
    }
}

// The completer of all paths of the system.
fn system_completer(rt: &HostRuntime) -> Result<Completers, Error> {
    let alloc = rt.alloc();
    let all = PathCompleter::any(RealFolder::new(*rt, None));
    let mut completers = Completers::none(alloc);
    completers.add_completer(Box::new(alloc, all)?)?;
    Ok(completers)
}

#[test]
fn completers_of_paths_are_made(rt: HostRuntime) {
    let completers = system_completer(&rt).expect(&rt, "no completer");
    drop(completers);
    let own = PathCompleter::with_test(MemoryFolder::new(&[], &[]), BeginsWithFoo);
    let found = own.complete(rt.alloc(), "").expect(&rt, "no candidates");
    assert!(rt; found.is_empty());
}
