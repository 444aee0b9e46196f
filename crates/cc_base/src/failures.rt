//! The failures of a sink.

ghost use Rattle.std.specs.Prelude.{◌≡◌};
ghost use Rattle.cc_base.specs.Sink.{none_failed, add_failure};

use std::io::ErrorKind;

/// The number of puts and flushes of a sink that failed, and the kind of the last failure.
#[derive(Clone, Copy, Debug)]
pub struct Failures {
    count: u64,
    last: Option<ErrorKind>,
}

impl Failures {
    /// Returns the record of a sink that has not failed.
    pub fn none() -> Failures
        ensures { result ≡ none_failed }
    {
        Failures {
            count: 0,
            last: None,
        }
    }

    /// Counts a failure of the given `kind`. A count of `u64::MAX` stays as it is.
    #[cold]
    #[inline(never)]
    #[tactic(auto, unfolding(crate::specs::Sink::add_failure))]
    pub fn raise(&mut self, kind: ErrorKind)
        ensures { self.new ≡ add_failure kind self.old }
    {
        self.count = self.count.saturating_add(1);
        self.last = Some(kind);
    }

    /// Returns how many puts and flushes failed.
    pub fn count(&self) -> u64
        ensures { result ≡ self.now.count }
    {
        self.count
    }

    /// Returns the kind of the last failure, or `None` if nothing failed.
    pub fn last(&self) -> Option<ErrorKind>
        ensures { result ≡ self.now.last }
    {
        self.last
    }
}
