//! A list for use as a field type.

ghost use Rattle.std.specs.Prelude.{◌≡◌, List, [], ◌∷◌, ◌++◌, IfOk, if◌then◌else◌, is_ok};

use crate::text::Text;
use std::alloc::{AllocError, AllocFailed, Global};
use std::marker::Model;

/// A list. Clauses see only its items, so two lists are equal if and only if their items are.
#[derive(Drop, Debug)]
pub struct Items<T> {
    items: Vec<T>,
}

impl<T> Model for Items<T> {
    ghost Value = { List T };

    ghost view = { λ list. list.items.items };
}

impl<T> From<Vec<T>> for Items<T> {
    ghost from_gives = { λ vec list. list ≡ vec.items };

    fn from(vec: Vec<T>) -> Items<T> {
        Items { items: vec }
    }
}

impl<T> Items<T> {
    /// Returns an empty list that allocates from `alloc`.
    pub fn new(alloc: Global) -> Items<T>
        ensures empty { result ≡ [] }
    {
        Items {
            items: Vec::new(alloc),
        }
    }

    /// Adds `item` at the end.
    ///
    /// # Errors
    ///
    /// `AllocFailed`, which holds the item, if an allocation fails.
    pub fn push(&mut self, item: T) -> Result<(), AllocFailed<T>>
        ensures pushed { self.new ≡ (if is_ok result then self.old ++ item ∷ [] else self.old) }
    {
        self.items.push(item)
    }

    /// Returns the items in order.
    pub fn as_slice(&self) -> &[T]
        ensures items { result.now ≡ self.now }
    {
        self.items.as_slice()
    }

    /// Returns the items as a `Vec`, without allocating.
    pub fn into_vec(self) -> Vec<T>
        ensures items { result.items ≡ self }
    {
        self.items
    }
}

impl<T: Copy> Items<T> {
    /// Copies the borrowed `items` into a new list.
    ///
    /// # Errors
    ///
    /// `AllocError` if an allocation fails.
    pub fn copy_of(alloc: Global, items: &[T]) -> Result<Items<T>, AllocError>
        ensures copied { IfOk result (λ copy. copy ≡ items.now) }
    {
        Ok(Items {
            items: Vec::from_slice(alloc, items)?,
        })
    }
}

impl Items<Text> {
    /// Copies the borrowed `texts`, each with its bytes, into a new list.
    ///
    /// # Errors
    ///
    /// `AllocError` if an allocation fails.
    pub fn copy_of_texts(alloc: Global, texts: &[Text]) -> Result<Items<Text>, AllocError>
        ensures copied { IfOk result (λ copy. copy ≡ texts.now) }
    {
        let mut copy = Items::new(alloc);
        for text in texts {
            copy.push(text.try_clone(alloc)?)?;
        }
        Ok(copy)
    }
}
