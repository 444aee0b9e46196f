//! The possible values of an argument.

ghost use Rattle.std.specs.Prelude.{◌≡◌, Some, IfOk};
ghost use Rattle.std.specs.Option.{option_copied};
ghost use Rattle.std.specs.String.{string_bytes};
ghost use Rattle.cc_arg.specs.PossibleValues.{new_possible_value};

use crate::parts::{set_text, text_of};
use cc_base::{Items, Text};
use std::alloc::{AllocError, Global};

/// A value that an argument accepts.
#[derive(Drop)]
pub struct PossibleValue {
    name: Text,
    help: Option<Text>,
    hide: bool,
}

impl PossibleValue {
    /// Makes a visible value with this name and no help text.
    pub fn new(name: String) -> PossibleValue
        ensures { result ≡ new_possible_value (string_bytes name) }
    {
        PossibleValue {
            name: Text::from(name),
            help: None,
            hide: false,
        }
    }

    /// Sets the help text.
    pub fn help(mut self, help: String) -> PossibleValue
        ensures { result ≡ record self { help = Some (string_bytes help) } }
    {
        set_text(&mut self.help, help);
        self
    }

    /// Sets whether the value is hidden.
    pub fn hide(mut self, hide: bool) -> PossibleValue
        ensures { result ≡ record self { hide = hide } }
    {
        self.hide = hide;
        self
    }

    /// Returns the name.
    pub fn get_name(&self) -> &str
        ensures { result.now ≡ self.now.name }
    {
        self.name.as_str()
    }

    /// Returns the help text.
    pub fn get_help(&self) -> Option<&str>
        ensures { option_copied result ≡ self.now.help }
    {
        text_of(&self.help)
    }

    /// Returns whether the value is hidden.
    pub fn is_hide_set(&self) -> bool
        ensures { result ≡ self.now.hide }
    {
        self.hide
    }

    // Returns an equal copy.
    fn try_clone(&self, alloc: Global) -> Result<PossibleValue, AllocError>
        ensures { IfOk result (λ copy. copy ≡ self.now) }
    {
        Ok(PossibleValue {
            name: self.name.try_clone(alloc)?,
            help: Text::copy_of_some(alloc, self.get_help())?,
            hide: self.hide,
        })
    }
}

// Copies possible values.
fn copy_of_values(
    alloc: Global,
    values: &[PossibleValue],
) -> Result<Items<PossibleValue>, AllocError>
    ensures { IfOk result (λ copy. copy ≡ values.now) }
{
    let mut copy = Items::new(alloc);
    for value in values {
        copy.push(value.try_clone(alloc)?)?;
    }
    Ok(copy)
}

// Copies possible values, if there are any.
pub(crate) fn copy_of_given(
    alloc: Global,
    values: &Option<Items<PossibleValue>>,
) -> Result<Option<Items<PossibleValue>>, AllocError>
    ensures { IfOk result (λ copy. copy ≡ values.now) }
{
    match values {
        Some(values) => Ok(Some(copy_of_values(alloc, values.as_slice())?)),
        None => Ok(None),
    }
}
