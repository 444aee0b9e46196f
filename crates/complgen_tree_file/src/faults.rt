//! Collects what is wrong with the values of a tree file, each with the path to it.

ghost use Rattle.std.specs.Prelude.{◌≡◌, ◌&&◌, IfOk, false, true};
ghost use Rattle.complgen_tree_file.specs.Faults.{faults_in, has_none};

use crate::kinds::{ObjectKind, ValueKind};
use std::alloc::{AllocError, Global};

/// A step from a value to a value inside it.
#[derive(Clone, Copy, Debug, Drop)]
pub enum Step<'t> {
    /// To the last member of an object with this key.
    Key(&'t str),
    /// To the member of an object at this index, which has this key.
    Member(&'t str, usize),
    /// To the item of a list at this index.
    Item(usize),
}

/// The kind of a fault in a value.
#[derive(Clone, Copy, Debug, Drop)]
pub enum FaultKind {
    /// Expected a value of this kind.
    OtherKind(ValueKind),
    /// Expected a list of values of this kind.
    NoList(ValueKind),
    /// The last step of the path leads to a member whose key objects of this kind don't have.
    UnknownKey(ObjectKind),
    /// The object is of this kind and lacks this key, which it needs.
    MissingKey(ObjectKind, &'static str),
    /// The value is no source of values that can be used.
    BadSource(SourceFault),
}

/// The reason why an argument cannot have its values from where it says.
#[derive(Clone, Copy, Debug, Drop)]
pub enum SourceFault {
    /// A command has no words, so that it names no program.
    NoProgram,
    /// The word is neither the name of a program nor its absolute path.
    NotProgram,
    /// The word of a command contains a NUL or a vertical tab.
    CutWord,
    /// The path of a file is empty or contains a NUL.
    NotPath,
    /// The text between a value and its description is empty.
    NoSeparator,
    /// The argument also has another source, at this key.
    SecondSource(&'static str),
}

/// Something wrong with a value, and the path to the value from the whole file.
#[derive(Drop)]
pub struct Fault<'t> {
    pub path: Vec<Step<'t>>,
    pub kind: FaultKind,
}

/// The faults that are found while values are read. A path leads from the value that is being read;
/// its reader's caller puts the step to that value before it.
#[derive(Drop)]
pub struct Faults<'t> {
    alloc: Global,
    list: Vec<Fault<'t>>,
}

impl<'t> Faults<'t> {
    /// Makes an empty list, without allocating.
    pub fn new(alloc: Global) -> Faults<'t>
        ensures { has_none result ≡ true }
    {
        Faults {
            alloc,
            list: Vec::new(alloc),
        }
    }

    /// Returns the allocator of the list, which is also that of what is read.
    pub fn allocator(&self) -> Global {
        self.alloc
    }

    /// Returns whether nothing wrong was found so far.
    pub fn is_empty(&self) -> bool
        ensures { result ≡ has_none self.now }
    {
        self.list.is_empty()
    }

    /// Returns the number of faults.
    pub fn count(&self) -> usize {
        self.list.len()
    }

    /// Notes that something is wrong with the value that is being read.
    ///
    /// # Errors
    ///
    /// `AllocError` if an allocation fails.
    pub fn note(&mut self, kind: FaultKind) -> Result<(), AllocError>
        ensures { IfOk result (λ _. has_none self.new ≡ false) }
    {
        let path = Vec::new(self.alloc);
        self.list.push(Fault { path, kind })?;
        Ok(())
    }

    /// Notes that something is wrong with the value inside to which `step` leads.
    ///
    /// # Errors
    ///
    /// `AllocError` if an allocation fails.
    pub fn note_at(&mut self, step: Step<'t>, kind: FaultKind) -> Result<(), AllocError>
        ensures { IfOk result (λ _. has_none self.new ≡ false) }
    {
        let mut path = Vec::new(self.alloc);
        path.push(step)?;
        self.list.push(Fault { path, kind })?;
        Ok(())
    }

    /// Puts `step` before the path of each fault but the first `before`: those that were found in
    /// the value to which it leads.
    ///
    /// # Errors
    ///
    /// `AllocError` if an allocation fails.
    pub fn put_before(&mut self, before: usize, step: Step<'t>) -> Result<(), AllocError>
        ensures { IfOk result (λ _. has_none self.new ≡ has_none self.old) }
    {
        let mut index = before;
        while index < self.list.len() {
            self.list[index].path.insert(0, step)?;
            index += 1;
        }
        Ok(())
    }

    /// Appends the faults of `other`, found in the same value.
    ///
    /// # Errors
    ///
    /// `AllocError` if an allocation fails.
    #[tactic(auto, using(crate::proofs::FaultLemmas::nil_append))]
    pub fn append(&mut self, mut other: Faults<'t>) -> Result<(), AllocError>
        ensures { IfOk result (λ _. has_none self.new ≡ (has_none self.old && has_none other.entry)) }
    {
        self.list.append(&mut other.list)?;
        Ok(())
    }

    /// Returns all faults.
    pub fn into_vec(self) -> Vec<Fault<'t>>
        ensures { result.items ≡ faults_in self.entry }
    {
        self.list
    }
}
