//! The number of values of an argument.

ghost use Rattle.std.specs.Prelude.{◌≡◌, ◌≤◌, nat_lt};

/// The number of values that each use of an argument takes: at least `least` and at most
/// `greatest`. `usize::MAX` as `greatest` means no limit.
#[derive(Clone, Copy, PartialEq, Eq, Debug)]
pub struct ValueRange {
    least: usize,
    greatest: usize,
}

impl ValueRange {
    /// Makes the range from `least` to `greatest`, where `least` is at most 255 and at most
    /// `greatest`. `usize::MAX` as `greatest` means no limit.
    pub fn new(least: usize, greatest: usize) -> ValueRange
        requires ordered { least ≤ greatest }
        requires small { least ≤ 255 }
        ensures least { result.least ≡ least }
        ensures greatest { result.greatest ≡ greatest }
    {
        ValueRange { least, greatest }
    }

    /// Makes the range of exactly `count` values.
    pub(crate) fn exactly(count: usize) -> ValueRange
        ensures least { result.least ≡ count }
        ensures greatest { result.greatest ≡ count }
    {
        ValueRange {
            least: count,
            greatest: count,
        }
    }

    /// Returns the least number of values.
    pub fn min_values(&self) -> usize
        ensures { result ≡ self.now.least }
    {
        self.least
    }

    /// Returns the greatest number of values. `usize::MAX` means no limit.
    pub fn max_values(&self) -> usize
        ensures { result ≡ self.now.greatest }
    {
        self.greatest
    }

    /// Returns whether the range allows a value.
    pub fn takes_values(&self) -> bool
        ensures { result ≡ nat_lt 0 self.now.greatest }
    {
        self.greatest > 0
    }
}
