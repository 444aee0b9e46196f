//! Keys of nodes.

ghost use Rattle.std.specs.Prelude.{◌≡◌, ◌++◌, ℕ, List, IfOk, OnOk};
ghost use Rattle.cc_command.specs.Names.{visible_names};
ghost use Rattle.cc_generator.specs.Visits.{keys_below};

use cc_base::Text;
use cc_command::Command;
use std::alloc::{AllocError, Global};
use std::marker::Model;
use std::rc::Rc;

/// A way to build the key of a node from its parent's key and one of its own names.
pub trait KeyScheme {
    // the key of a child, from its parent's key and its name
    ghost child_key: { Self → List ℕ → List ℕ → List ℕ };

    /// Returns the key of a child with the given `name`, below a node with the given `key`.
    ///
    /// # Errors
    ///
    /// `AllocError` if an allocation fails.
    fn child_key(&self, alloc: Global, key: &str, name: &str) -> Result<Text, AllocError>
        ensures { IfOk result (λ text. text ≡ child_key self.now key.now name.now) };
}

/// Keys that consist of names with a separator between them.
#[derive(Drop)]
pub struct Joined<'a> {
    /// The text between two names.
    pub separator: &'a str,
}

impl<'a> KeyScheme for Joined<'a> {
    ghost use Rattle.cc_generator.specs.Visits.{joined};

    ghost child_key = { λ keys. joined keys.separator.now };

    fn child_key(&self, alloc: Global, key: &str, name: &str) -> Result<Text, AllocError> {
        let room = key
            .len()
            .saturating_add(self.separator.len())
            .saturating_add(name.len());
        let mut text = String::with_capacity(alloc, room)?;
        text.push_str(key)?;
        text.push_str(self.separator)?;
        text.push_str(name)?;
        Ok(Text::from(text))
    }
}

/// Adds to `made` the keys of a node below a parent with the given `key`: one for each visible name
/// of `command`.
///
/// # Errors
///
/// `AllocError` if an allocation fails.
pub(crate) fn push_keys_below<K: KeyScheme>(
    made: &mut Vec<Text>,
    alloc: Global,
    keys: &K,
    key: &str,
    command: &Command,
) -> Result<(), AllocError>
    ensures { OnOk result (made.new.items
        ≡ made.old.items ++ keys_below (K.child_key keys.now) key.now command.now.node) }
{
    for name in command.get_name_and_visible_aliases() {
        made.push(keys.child_key(alloc, key, name)?)?;
    }
    Ok(())
}

/// A key that several items share. Clauses see its bytes.
#[derive(Drop)]
pub struct SharedKey {
    text: Rc<Text>,
}

impl Model for SharedKey {
    ghost use Rattle.std.specs.Prelude.{ℕ, List};
    ghost use Rattle.std.specs.Rc.{rc_value};

    ghost Value = { List ℕ };

    ghost view = { λ key. rc_value key.text };
}

impl SharedKey {
    /// Returns a key with the given `text`, which is not copied.
    ///
    /// # Errors
    ///
    /// `AllocError` if an allocation fails.
    pub fn new(alloc: Global, text: Text) -> Result<SharedKey, AllocError>
        ensures { IfOk result (λ key. key ≡ text) }
    {
        let text = Rc::new(alloc, text)?;
        Ok(SharedKey { text })
    }

    /// Returns the same key once more, without copying its text.
    ///
    /// # Errors
    ///
    /// `AllocError` if there are more references to the key than can be counted.
    pub fn share(&self) -> Result<SharedKey, AllocError>
        ensures { IfOk result (λ shared. shared ≡ self.now) }
    {
        let text = self.text.clone()?;
        Ok(SharedKey { text })
    }

    /// Returns the text of the key.
    pub fn as_str(&self) -> &str
        ensures { result.now ≡ self.now }
    {
        self.text.as_ref().as_str()
    }
}
