//! A text, as its bytes.
ghost use Rattle.std.specs.Prelude.{◌≡◌, ◌<◌, ◌++◌, [], length, slice_get, encode_utf8, string_bytes, Some, IfOk, OnOk, OnErr};

use std::alloc::{AllocError, Global};
use std::marker::Model;

/// A text that contracts see as its UTF-8 bytes.
#[derive(Debug, Drop)]
pub struct Text {
    text: String,
}

impl Model for Text {
    ghost use Rattle.std.specs.Prelude.{List, ℕ, string_bytes};

    ghost Value = { List ℕ };

    ghost view = { λ text. string_bytes text.text };
}

impl Text {
    /// The empty text.
    pub fn new(alloc: Global) -> Text
        ensures { result ≡ [] }
    {
        Text {
            text: String::new(alloc),
        }
    }

    /// The text of a string.
    pub fn from_string(text: String) -> Text
        ensures { result ≡ string_bytes text }
    {
        Text { text }
    }

    /// Copies a text.
    pub fn from_str(alloc: Global, text: &str) -> Result<Text, AllocError>
        ensures { IfOk result (λ copy. copy ≡ text.now) }
    {
        Ok(Text {
            text: String::from_str(alloc, text)?,
        })
    }

    /// The number of its bytes.
    pub fn len(&self) -> usize
        ensures { result ≡ length self.now }
    {
        self.text.len()
    }

    /// Lends a byte.
    pub fn get(&self, at: usize) -> &u8
        requires { at < length self.now }
        ensures { slice_get self.now at ≡ Some result.now }
    {
        &self.text.as_bytes()[at]
    }

    /// Lends all its bytes.
    pub fn as_slice(&self) -> &[u8]
        ensures { result.now ≡ self.now }
    {
        self.text.as_bytes()
    }

    /// Lends the text.
    pub fn as_str(&self) -> &str
        ensures { result.now ≡ self.now }
    {
        self.text.as_str()
    }

    /// Appends a character. For want of memory the text is as it was.
    pub fn push(&mut self, character: char) -> Result<(), AllocError>
        ensures pushed { OnOk result (self.new ≡ self.old ++ encode_utf8 character) }
        ensures refused { OnErr result (self.new ≡ self.old) }
    {
        self.text.push(character)
    }

    /// Appends a text. For want of memory the text is as it was.
    pub fn push_str(&mut self, more: &str) -> Result<(), AllocError>
        ensures pushed { OnOk result (self.new ≡ self.old ++ more.now) }
        ensures refused { OnErr result (self.new ≡ self.old) }
    {
        self.text.push_str(more)
    }
}
