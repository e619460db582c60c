// Bytes, names and labels.

ghost use Rattle.std.specs.Prelude.{◌≡◌, IfOk, IsTrue, ◌↔◌, OnOk, OnErr, ◌++◌, []};

use crate::memory::NoMemory;
use crate::plain::Plain;
use crate::shared::Shared;
use std::alloc::Global;
use std::marker::Model;

/// A text, as its bytes.
#[derive(Debug, Drop)]
pub struct Bytes {
    text: Vec<u8>,
}

impl Model for Bytes {
    ghost use Rattle.std.specs.Prelude.{List, ℕ};

    ghost Value = { List ℕ };

    ghost view = { λ b. b.text.items };
}

impl Bytes {
    /// The empty text. It takes no memory yet.
    pub fn new(alloc: Global) -> Bytes
        ensures { result ≡ [] }
    {
        Bytes {
            text: Vec::new(alloc),
        }
    }

    /// A text of its own with these bytes.
    pub fn from_bytes(alloc: Global, text: &[u8]) -> Result<Bytes, NoMemory>
        ensures { IfOk result (λ b. b ≡ text.now) }
    {
        Ok(Bytes {
            text: Vec::from_slice(alloc, text)?,
        })
    }

    /// Lends the bytes.
    pub fn bytes(&self) -> &[u8]
        ensures { result.now ≡ self.now }
    {
        self.text.as_slice()
    }

    /// Adds these bytes at the end. After `NoMemory` the text is as before.
    pub fn append(&mut self, more: &[u8]) -> Result<(), NoMemory>
        ensures ok { OnOk result (self.new ≡ self.old ++ more.now) }
        ensures err { OnErr result (self.new ≡ self.old) }
    {
        self.text.extend_from_slice(more)?;
        Ok(())
    }
}

impl Plain for Bytes {
    fn copy(&self, alloc: Global) -> Result<Bytes, NoMemory> {
        Bytes::from_bytes(alloc, self.bytes())
    }

    fn same(&self, other: &Bytes) -> bool {
        self.bytes() == other.bytes()
    }
}

/// A name of a symbol, variable, unit or theorem. Contracts see its bytes, by which names are compared.
#[derive(Debug, Drop)]
pub struct Name {
    text: Shared<Bytes>,
}

impl Model for Name {
    ghost use Rattle.std.specs.Prelude.{List, ℕ};

    ghost Value = { List ℕ };

    ghost view = { λ n. n.text };
}

impl Name {
    /// A name of its own with these bytes.
    pub fn from_bytes(alloc: Global, text: &[u8]) -> Result<Name, NoMemory>
        ensures { IfOk result (λ n. n ≡ text.now) }
    {
        let bytes = Bytes::from_bytes(alloc, text)?;
        Ok(Name {
            text: Shared::new(alloc, bytes)?,
        })
    }

    /// Lends the bytes.
    pub fn bytes(&self) -> &[u8]
        ensures { result.now ≡ self.now }
    {
        self.text.get().bytes()
    }
}

impl Plain for Name {
    fn copy(&self, _alloc: Global) -> Result<Name, NoMemory> {
        Ok(Name {
            text: self.text.share()?,
        })
    }

    fn same(&self, other: &Name) -> bool {
        self.bytes() == other.bytes()
    }
}

/// A label of an axiom, theorem or obligation: names with `.` or `:` between them. Contracts see its bytes.
#[derive(Debug, Drop)]
pub struct Label {
    text: Shared<Bytes>,
}

impl Model for Label {
    ghost use Rattle.std.specs.Prelude.{List, ℕ};

    ghost Value = { List ℕ };

    ghost view = { λ l. l.text };
}

impl Label {
    /// A label of its own with these bytes.
    pub fn from_bytes(alloc: Global, text: &[u8]) -> Result<Label, NoMemory>
        ensures { IfOk result (λ l. l ≡ text.now) }
    {
        let bytes = Bytes::from_bytes(alloc, text)?;
        Ok(Label {
            text: Shared::new(alloc, bytes)?,
        })
    }

    /// Lends the bytes.
    pub fn bytes(&self) -> &[u8]
        ensures { result.now ≡ self.now }
    {
        self.text.get().bytes()
    }
}

impl Plain for Label {
    fn copy(&self, _alloc: Global) -> Result<Label, NoMemory> {
        Ok(Label {
            text: self.text.share()?,
        })
    }

    fn same(&self, other: &Label) -> bool {
        self.bytes() == other.bytes()
    }
}
