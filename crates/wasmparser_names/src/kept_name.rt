//! Copies of names.

ghost use Rattle.std.specs.Prelude.{◌≡◌, ◌<◌, IfOk, OnErr, length};

use arrayvec::ArrayString;
use std::alloc::{AllocError, Global};
use std::marker::Model;

/// A copy of a name, which takes no memory of its own where it has 16 bytes at most. Contracts see it as its bytes.
#[derive(Debug, Drop)]
pub(crate) struct KeptName {
    text: Text,
}

#[derive(Debug, Drop)]
enum Text {
    InPlace(ArrayString<16>),
    Apart(String),
}

impl Model for KeptName {
    ghost use Rattle.std.specs.Prelude.{List, ℕ};
    ghost use Rattle.wasmparser_names.specs.KeptName.{bytes_of};

    ghost Value = { List ℕ };

    ghost view = { λ name. bytes_of name.text };
}

impl KeptName {
    /// Creates a copy of a name.
    pub(crate) fn new(alloc: Global, name: &str) -> Result<KeptName, AllocError>
        ensures copied { IfOk result (λ kept. kept ≡ name.now) }
        ensures no_room { OnErr result (16 < length name.now) }
    {
        if let Ok(text) = ArrayString::from(name) {
            return Ok(KeptName {
                text: Text::InPlace(text),
            });
        }
        let text = String::from_str(alloc, name)?;
        Ok(KeptName {
            text: Text::Apart(text),
        })
    }

    /// Returns the name.
    pub(crate) fn as_str(&self) -> &str
        ensures { result.now ≡ self.now }
    {
        match &self.text {
            Text::InPlace(text) => text.as_str(),
            Text::Apart(text) => text.as_str(),
        }
    }
}
