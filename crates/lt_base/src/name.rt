// Names: a `String` that contracts see as its bytes.
ghost use Rattle.std.specs.Prelude.{◌≡◌, IfOk, string_bytes};

use crate::{Duplicate, Memory};
use std::alloc::Global;
use std::marker::Model;

/// A name, whose capacity no contract sees.
#[derive(Drop)]
pub struct Name {
    text: String,
}

impl Model for Name {
    ghost use Rattle.std.specs.Prelude.{List, ℕ, string_bytes};

    ghost Value = { List ℕ };

    ghost view = { λ n. string_bytes n.text };
}

impl Name {
    /// The name with this text. It takes no memory.
    pub fn of(text: String) -> Self
        ensures { result ≡ string_bytes text }
    {
        Name { text }
    }

    /// A name with a copy of this text.
    pub fn from_str(alloc: Global, text: &str) -> Result<Self, Memory>
        ensures { IfOk result (λ name. name ≡ text.now) }
    {
        Ok(Name {
            text: String::from_str(alloc, text)?,
        })
    }

    pub fn as_str(&self) -> &str
        ensures { result.now ≡ self.now }
    {
        self.text.as_str()
    }

    /// An equal name, with the allocator of this one.
    pub fn copy(&self) -> Result<Self, Memory>
        ensures { IfOk result (λ name. name ≡ self.now) }
    {
        Ok(Name {
            text: self.text.clone()?,
        })
    }
}

impl Duplicate for Name {
    fn duplicate(&self) -> Result<Name, Memory> {
        self.copy()
    }
}

impl Duplicate for (Name, bool) {
    fn duplicate(&self) -> Result<(Name, bool), Memory> {
        let (name, flag) = self;
        Ok((name.copy()?, *flag))
    }
}
