//! The bytes that a sink took, for proofs only.

ghost use Rattle.std.specs.Prelude.{◌≡◌, ℕ, List, [], ◌++◌};
ghost use Rattle.std.specs.Borrow.{ftrue};
ghost use Rattle.std.specs.Coded.{coded_ℕ, coded_list};

use std::marker::Model;

/// A list of bytes that only clauses read. It has no size, and its methods do nothing at run time.
#[derive(Drop)]
pub(crate) struct History {
    pub ghost bytes: { List ℕ } by { coded_list coded_ℕ },
}

impl Model for History {
    ghost also_owns = { λ _. ftrue };
}

impl History {
    pub(crate) fn new() -> History
        ensures { result.bytes ≡ [] }
    {
        History {}
    }

    pub(crate) fn append(&mut self, _bytes: &[u8])
        ensures { self.new.bytes ≡ self.old.bytes ++ _bytes.now }
    {}
}
