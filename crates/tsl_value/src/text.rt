// Texts, which contracts see as lists of bytes.

ghost use Rattle.std.specs.Prelude.{◌≡◌, [], ◌++◌, length, encode_utf8, IfOk, OnOk, OnErr, slice_get, option_map};
ghost use Rattle.std.specs.Option.{SomeIff};
ghost use Rattle.std.specs.Str.{IsUtf8};

use crate::bytes::Bytes;
use crate::memory::NoMemory;
use std::alloc::{AllocError, Global};
use std::marker::Model;

/// Text, in UTF-8.
#[derive(Drop)]
pub struct Text {
    text: String,
}

impl Model for Text {
    ghost use Rattle.std.specs.Prelude.{List, ℕ};
    ghost use Rattle.std.specs.String.{string_bytes};

    ghost Value = { List ℕ };

    ghost view = { λ t. string_bytes t.text };
}

impl Text {
    /// No text.
    pub fn new(alloc: Global) -> Text
        ensures { result ≡ [] }
    {
        Text {
            text: String::new(alloc),
        }
    }

    /// The same text, owned.
    pub fn from_str(alloc: Global, text: &str) -> Result<Text, NoMemory>
        ensures { IfOk result (λ t. t ≡ text.now) }
    {
        let text = String::from_str(alloc, text)?;
        Ok(Text { text })
    }

    /// The text that bytes spell in UTF-8. `None` exactly where they spell none.
    pub fn from_utf8(bytes: Bytes) -> Option<Text>
        ensures { SomeIff result (IsUtf8 bytes) bytes }
    {
        match String::from_utf8(bytes.into_vec()) {
            Ok(text) => Some(Text { text }),
            Err(_) => None,
        }
    }

    /// Appends a character's bytes.
    pub fn push(&mut self, item: char) -> Result<(), NoMemory>
        ensures ok { OnOk result (self.new ≡ self.old ++ encode_utf8 item) }
        ensures err { OnErr result (self.new ≡ self.old) }
    {
        self.text.push(item)?;
        Ok(())
    }

    /// The number of bytes.
    pub fn len(&self) -> usize
        ensures { result ≡ length self.now }
    {
        self.text.len()
    }

    /// The byte at a place counted from 0. `None` exactly where the place is not below the length.
    pub fn get(&self, place: usize) -> Option<&u8>
        ensures { option_map (λ x. x.now) result ≡ slice_get self.now place }
    {
        self.text.as_bytes().get(place)
    }

    /// The whole text.
    pub fn as_str(&self) -> &str
        ensures { result.now ≡ self.now }
    {
        self.text.as_str()
    }

    /// An equal text.
    pub fn copy(&self) -> Result<Text, NoMemory>
        ensures { IfOk result (λ t. t ≡ self.now) }
    {
        let text = self.text.clone()?;
        Ok(Text { text })
    }
}

impl Clone for Text {
    ghost is_clone = { λ a b. b ≡ a };

    fn clone(&self) -> Result<Text, AllocError> {
        let text = self.text.clone()?;
        Ok(Text { text })
    }
}
