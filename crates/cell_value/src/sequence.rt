ghost use Rattle.std.specs.Prelude.{◌≡◌, ◌++◌, [], All, map, string_bytes, OnOk, OnErr};
ghost use Rattle.std.specs.List.{filter_map, AllZip};

use crate::follow::{Follow, follow_all};
use crate::update::{Update, update_all};
use crate::{Duplicate, NoMemory};
use std::marker::Model;
use std::mem;

/// A text. Contracts see the list of its UTF-8 bytes.
#[derive(Debug, Drop)]
pub struct Text {
    text: String,
}

impl Model for Text {
    ghost use Rattle.std.specs.Prelude.{List, ℕ, string_bytes};

    ghost Value = { List ℕ };

    ghost view = { λ t. string_bytes t.text };
}

impl Text {
    /// The same text, kept in the memory that it has.
    pub fn of(text: String) -> Text
        ensures { result ≡ string_bytes text }
    {
        Text { text }
    }

    /// The text, lent.
    pub fn as_str(&self) -> &str
        ensures { result.now ≡ self.now }
    {
        self.text.as_str()
    }

    /// The text, in the memory that it has.
    pub fn into_string(self) -> String
        ensures { string_bytes result ≡ self }
    {
        self.text
    }
}

impl Duplicate for Text {
    fn duplicate(&self) -> Result<Text, NoMemory> {
        let text = self.text.clone()?;
        Ok(Text { text })
    }
}

/// A list of bytes. Contracts see that list.
#[derive(Debug, Drop)]
pub struct Bytes {
    bytes: Vec<u8>,
}

impl Model for Bytes {
    ghost use Rattle.std.specs.Prelude.{List, ℕ};

    ghost Value = { List ℕ };

    ghost view = { λ b. b.bytes.items };
}

impl Bytes {
    /// The same bytes, kept in the memory that they have.
    pub fn of(bytes: Vec<u8>) -> Bytes
        ensures { result ≡ bytes.items }
    {
        Bytes { bytes }
    }

    /// The bytes, lent.
    pub fn as_slice(&self) -> &[u8]
        ensures { result.now ≡ self.now }
    {
        self.bytes.as_slice()
    }

    /// Puts more bytes behind the last.
    ///
    /// # Errors
    ///
    /// [`NoMemory`] where memory runs out; the bytes are as they were.
    pub fn extend_from_slice(&mut self, more: &[u8]) -> Result<(), NoMemory>
        ensures ok { OnOk result (self.new ≡ self.old ++ more.now) }
        ensures err { OnErr result (self.new ≡ self.old) }
    {
        self.bytes.extend_from_slice(more)?;
        Ok(())
    }

    /// Takes all bytes out; the memory stays, for bytes that come.
    pub fn clear(&mut self)
        ensures { self.new ≡ [] }
    {
        self.bytes.clear();
    }
}

impl Duplicate for Bytes {
    fn duplicate(&self) -> Result<Bytes, NoMemory> {
        let bytes = self.bytes.clone()?;
        Ok(Bytes { bytes })
    }
}

/// A list of items. Contracts see that list.
#[derive(Debug, Drop)]
pub struct Items<T> {
    items: Vec<T>,
}

impl<T> Model for Items<T> {
    ghost use Rattle.std.specs.Prelude.{List};

    ghost Value = { List T };

    ghost view = { λ i. i.items.items };
}

impl<T> Items<T> {
    /// The same items, kept in the memory that they have.
    pub fn of(items: Vec<T>) -> Items<T>
        ensures { result ≡ items.items }
    {
        Items { items }
    }

    /// The items, lent.
    pub fn as_slice(&self) -> &[T]
        ensures { result.now ≡ self.now }
    {
        self.items.as_slice()
    }

    /// The items as a vector, in the memory that they have.
    pub fn into_vec(self) -> Vec<T>
        ensures { result.items ≡ self }
    {
        self.items
    }

    /// Takes all items out, in the memory that they have; none is left.
    pub fn take(&mut self) -> Items<T>
        ensures taken { result ≡ self.old }
        ensures left { self.new ≡ [] }
    {
        let empty = Vec::new(*self.items.allocator());
        Items {
            items: mem::replace(&mut self.items, empty),
        }
    }

    /// Has each item follow the change, and drops those that are lost; the others keep their order. It
    /// takes no memory.
    pub fn follow<C>(&mut self, change: &C)
    where
        T: Follow<C> + Drop,
        requires { All (T.can_follow change.now) self.old }
        ensures followed { self.new ≡ filter_map (T.becomes change.now) self.old }
        ensures has_followed { All (T.has_followed change.now) self.new }
    {
        follow_all(&mut self.items, change);
    }

    /// Changes each item in its place. It takes no memory.
    pub fn update<C>(&mut self, change: &C)
    where
        T: Update<C>,
        requires { All (T.can_update change.now) self.old }
        ensures updated { self.new ≡ map (T.becomes change.now) self.old }
        ensures is_updated { AllZip (T.is_updated change.now) self.old self.new }
        ensures has_updated { All (T.has_updated change.now) self.new }
    {
        update_all(&mut self.items, change);
    }
}

impl<T: Duplicate + Drop> Duplicate for Items<T> {
    fn duplicate(&self) -> Result<Items<T>, NoMemory> {
        let mut items = Vec::with_capacity(*self.items.allocator(), self.items.len())?;
        for item in self.items.iter() {
            items.push(item.duplicate()?)?;
        }
        Ok(Items { items })
    }
}
