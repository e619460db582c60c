// Lists, which contracts see as what they hold.

ghost use Rattle.std.specs.Prelude.{◌≡◌, ◌↔◌, ◌<◌, Some, [], ◌∷◌, ◌++◌, length, slice_get, IfOk, IsTrue, OnOk, OnErr, MatchOption};
ghost use Rattle.std.specs.Borrow.{sem};

use crate::memory::NoMemory;
use crate::plain::Plain;
use std::alloc::Global;
use std::marker::Model;

/// A list. Contracts see the list of its items.
#[derive(Debug, Drop)]
pub struct List<T> {
    items: Vec<T>,
}

impl<T> Model for List<T> {
    ghost use Rattle.std.specs.Prelude.{List};
    ghost use Rattle.std.specs.Coded.{coded_list};

    ghost Value = { List T };

    ghost coded = { coded_list T.code };

    ghost view = { λ list. list.items.items };
}

impl<T> List<T> {
    ghost use Rattle.kv_names.specs.Lending.{LendsItem};

    /// The empty list. It takes no memory yet.
    pub fn new(alloc: Global) -> List<T>
        ensures { result ≡ [] }
    {
        List {
            items: Vec::new(alloc),
        }
    }

    /// Lends the items, in order.
    pub fn items(&self) -> &[T]
        ensures { result.now ≡ self.now }
    {
        self.items.as_slice()
    }

    /// Lends the item at a place, counted from 0, to be changed there.
    pub fn item_mut(&mut self, place: usize) -> &mut T
        requires { place < length self.old }
        ensures* lends { sem 𝓛 (LendsItem T.row self.entry place result) }
        ensures value { slice_get self.old place ≡ Some result.now }
    {
        &mut self.items[place]
    }

    /// Takes the last item off; None exactly where the list is empty.
    pub fn pop(&mut self) -> Option<T>
        ensures { MatchOption result ((self.old ≡ []) × (self.new ≡ [])) (λ last. self.old ≡ self.new ++ last ∷ []) }
    {
        self.items.pop()
    }
}

impl<T: Drop> List<T> {
    /// Adds an item at the end. After `NoMemory` the list is as before.
    pub fn push(&mut self, item: T) -> Result<(), NoMemory>
        ensures ok { OnOk result (self.new ≡ self.old ++ item ∷ []) }
        ensures err { OnErr result (self.new ≡ self.old) }
    {
        self.items.push(item)?;
        Ok(())
    }
}

impl<T: Plain + Drop> Plain for List<T> {
    fn copy(&self, alloc: Global) -> Result<List<T>, NoMemory> {
        let mut copied = List::new(alloc);
        for item in self.items() {
            copied.push(item.copy(alloc)?)?;
        }
        Ok(copied)
    }

    fn same(&self, other: &List<T>) -> bool {
        let xs = self.items();
        let ys = other.items();
        if xs.len() != ys.len() {
            return false;
        }
        for i in 0..xs.len() {
            if !xs[i].same(&ys[i]) {
                return false;
            }
        }
        true
    }
}
