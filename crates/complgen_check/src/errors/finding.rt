//! Findings about a tree file.

ghost use Rattle.std.specs.Prelude.{◌≡◌, IfOk, map};
ghost use Rattle.std.specs.String.{string_bytes};
ghost use Rattle.cc_base.specs.Shown.{HoldsNoControl};
ghost use Rattle.complgen_check.specs.Findings.{says, shown};
ghost use Rattle.complgen_check.specs.Places.{shown_step};

use crate::errors::places::show_path;
use crate::errors::spots::{Spot, offset_at, spots};
use complgen_tree_file::{Step, Value};
use std::alloc::{AllocError, Global};

/// The level of a finding.
#[derive(Clone, Copy, Debug, Drop, PartialEq, Eq)]
pub enum Level {
    /// Nothing is wrong.
    Note,
    /// A script may break, or a shell offers something wrong.
    Warning,
    /// The file describes no command.
    Error,
}

/// A finding about a value of a tree file, with its place.
#[derive(Drop)]
pub struct Finding {
    pub level: Level,
    /// The number of bytes in the file before the place.
    pub offset: usize,
    /// The path to the value, as it is shown.
    pub path: String,
    pub text: String,
}

/// A text, the value that it spells, and once a finding needs them, the offsets of all values.
#[derive(Drop)]
pub struct Source<'t> {
    pub(crate) text: &'t str,
    pub(crate) value: Value<'t>,
    pub(crate) spots: Option<Spot>,
}

impl<'t> Source<'t> {
    /// Returns a finding about the value at `path`, or with `at_key`, about the key of the last
    /// step. The first call finds the places of all values in one pass over the text.
    ///
    /// # Errors
    ///
    /// `AllocError` if an allocation fails.
    pub fn finding(
        &mut self,
        alloc: Global,
        level: Level,
        path: &[Step<'_>],
        at_key: bool,
        text: String,
    ) -> Result<Finding, AllocError>
        ensures shown { IfOk result (λ finding. shown finding
            ≡ says level (map shown_step path.now) (string_bytes text)) }
        ensures line { IfOk result (λ finding. HoldsNoControl (string_bytes finding.path)) }
    {
        let offset = self.offset(alloc, path, at_key)?;
        let path = show_path(alloc, path)?;
        Ok(Finding {
            level,
            offset,
            path,
            text,
        })
    }

    fn offset(
        &mut self,
        alloc: Global,
        path: &[Step<'_>],
        at_key: bool,
    ) -> Result<usize, AllocError> {
        let found = match self.spots.take() {
            Some(found) => found,
            None => spots(alloc, self.text, &self.value)?,
        };
        let offset = offset_at(&found, &self.value, path, at_key);
        self.spots = Some(found);
        Ok(offset)
    }
}
