// Values that several owners share.

ghost use Rattle.std.specs.Prelude.{◌≡◌, ◌↔◌, IfOk, IsTrue};

use crate::lists::List;
use crate::memory::NoMemory;
use crate::plain::Plain;
use std::alloc::Global;
use std::fmt::{Debug, Formatter, Result as Written, Write};
use std::marker::Model;
use std::rc::Rc;

/// A value that several owners share, and that contracts see as the value itself. A further owner costs a count
/// and no memory. The value is let go with its last owner.
#[derive(Drop)]
pub struct Shared<T> {
    inner: Rc<T>,
}

impl<T> Model for Shared<T> {
    ghost Value = { T };

    ghost coded = { T.code };

    ghost view = { λ shared. shared.inner.value };
}

impl<T> Shared<T> {
    /// Lends the value.
    pub fn get(&self) -> &T
        ensures { result.now ≡ self.now }
    {
        self.inner.as_ref()
    }
}

impl<T: Drop> Shared<T> {
    /// The value with one owner. `NoMemory` where there is no room for it.
    pub fn new(alloc: Global, value: T) -> Result<Shared<T>, NoMemory>
        ensures { IfOk result (λ shared. shared ≡ value) }
    {
        Ok(Shared {
            inner: Rc::new(alloc, value)?,
        })
    }

    /// A further owner of the same value. `NoMemory` where the count of owners is full.
    pub fn share(&self) -> Result<Shared<T>, NoMemory>
        ensures { IfOk result (λ shared. shared ≡ self.now) }
    {
        Ok(Shared {
            inner: self.inner.clone()?,
        })
    }
}

impl<T> Shared<List<T>> {
    /// Lends the items of a shared list, in order.
    pub fn items(&self) -> &[T]
        ensures { result.now ≡ self.now }
    {
        self.get().items()
    }
}

impl<T: Plain + Drop> Plain for Shared<T> {
    fn copy(&self, _alloc: Global) -> Result<Shared<T>, NoMemory> {
        self.share()
    }

    fn same(&self, other: &Shared<T>) -> bool {
        self.get().same(other.get())
    }
}

impl<T: Debug> Debug for Shared<T> {
    ghost debug_output = { λ shared. T.debug_output shared };

    fn fmt<W: Write>(&self, out: &mut Formatter<W>) -> Written {
        Debug::fmt(self.get(), out)
    }
}
