// Signatures: symbols of different names, in order.

ghost use Rattle.std.specs.Prelude.{◌≡◌, [], ◌∷◌, ◌++◌, None, length, take, OnOk, OnErr, MatchOption};
ghost use Rattle.std.specs.List.{find, IsDistinct};
ghost use Rattle.std.specs.Option.{option_copied};
ghost use Rattle.std.specs.Str.{bytes_eq};
ghost use Rattle.kv_sig.specs.Index.{told, at_place};
ghost use Rattle.kv_sig.specs.Signatures.{profile_of, names_of, added, merged, Gives, Becomes};

use crate::names::same_name;
use crate::profiles::same_profile;
use kv_syn::{List, Name, NoMemory, Plain, Profile, Symbol};
use std::alloc::Global;
use std::collections::HashMap;
use std::marker::Model;
use thiserror::Error;

/// Why a signature refuses a symbol.
#[derive(Debug, Drop, Error)]
pub enum SigError {
    /// The name is there with another profile.
    #[error("a name with two profiles")]
    Clash { name: Name },
    #[error("no memory")]
    NoMemory,
}

impl From<NoMemory> for SigError {
    ghost use Rattle.std.specs.Prelude.{◌≡◌};
    ghost use Rattle.kv_sig.specs.declared.sigs.SigError.{SigError};

    ghost from_gives = { λ _ error. error ≡ SigError.NoMemory };

    fn from(_error: NoMemory) -> SigError {
        SigError::NoMemory
    }
}

/// Symbols of different names, in order. Contracts see the list of them.
#[derive(Drop)]
pub struct Sig {
    symbols: List<Symbol>,
    // leads from a name to the place of its symbol
    places: HashMap<Vec<u8>, usize>,
    alloc: Global,
}

impl Model for Sig {
    ghost use Rattle.std.specs.Prelude.{List};
    ghost use Rattle.kv_names.specs.declared.symbols.Symbol.{Symbol};

    ghost Value = { List Symbol };

    ghost view = { λ sig. sig.symbols };

    ghost use Rattle.kv_sig.specs.Index.{IsIndex};

    ghost invariant = { λ sig. IsIndex sig.symbols sig.places };
}

impl Sig {
    /// The signature of no symbols. It takes no memory yet.
    pub fn new(alloc: Global) -> Sig
        ensures { result ≡ [] }
    {
        Sig {
            symbols: List::new(alloc),
            places: HashMap::new(alloc),
            alloc,
        }
    }

    /// The profile of that name; None exactly where no symbol has the name.
    pub fn look(&self, name: &Name) -> Option<&Profile>
        ensures { option_copied result ≡ profile_of self.now name.now }
    {
        match self.find(name) {
            Some(symbol) => Some(&symbol.profile),
            None => None,
        }
    }

    fn find(&self, name: &Name) -> Option<&Symbol>
        ensures { option_copied result ≡ find (λ x. bytes_eq x.name name.now) self.now }
    {
        symbol_at(self.symbols.items(), name, &self.places)
    }

    /// Lends the symbols, in order. Their names differ.
    pub fn symbols(&self) -> &[Symbol]
        ensures value { result.now ≡ self.now }
        ensures different { IsDistinct bytes_eq (names_of self.now) }
    {
        self.symbols.items()
    }

    /// Adds a symbol at the end. One that is there with its profile changes nothing. `Clash` exactly where its name is
    /// there with another profile. After an error the signature is as before.
    pub fn add(&mut self, symbol: Symbol) -> Result<(), SigError>
        ensures { Becomes self.old self.new result (added self.old symbol) }
    {
        match self.look(&symbol.name) {
            None => {
                self.put(symbol)?;
                Ok(())
            }
            Some(profile) => {
                if same_profile(profile, &symbol.profile) {
                    Ok(())
                } else {
                    Err(SigError::Clash { name: symbol.name })
                }
            }
        }
    }

    /// Adds the other's symbols in order, as `add` does, or changes nothing: `Clash` exactly where one of them clashes,
    /// with the first that does. After an error the signature is as before.
    pub fn merge(&mut self, other: &Sig) -> Result<(), SigError>
        ensures { Becomes self.old self.new result (merged self.old other.now) }
    {
        let count = self.symbols().len();
        match self.add_all(other.symbols()) {
            Ok(()) => Ok(()),
            Err(error) => {
                self.cut(count);
                Err(error)
            }
        }
    }

    /// Adds these symbols up to the first that is refused. What was there stays in front.
    fn add_all(&mut self, symbols: &[Symbol]) -> Result<(), SigError>
        ensures starts { take (length self.old) self.new ≡ self.old }
        ensures value { Gives self.new result (merged self.old symbols.now) }
    {
        for symbol in symbols {
            let copied = symbol.copy(self.allocator())?;
            self.add(copied)?;
        }
        Ok(())
    }

    /// Adds a symbol with a new name at the end.
    fn put(&mut self, symbol: Symbol) -> Result<(), NoMemory>
        requires { profile_of self.old symbol.name ≡ None }
        ensures ok { OnOk result (self.new ≡ self.old ++ symbol ∷ []) }
        ensures err { OnErr result (self.new ≡ self.old) }
    {
        let name = Vec::from_slice(self.alloc, symbol.name.bytes())?;
        let place = self.symbols.items().len();
        self.places.insert(name, place)?;
        self.symbols.push(symbol)
    }

    /// Takes the last symbol off.
    fn pop(&mut self) -> Option<Symbol>
        ensures { MatchOption result ((self.old ≡ []) × (self.new ≡ [])) (λ last. self.old ≡ self.new ++ last ∷ []) }
    {
        self.symbols.pop()
    }

    /// Drops all but the first symbols. The table may still tell of the others, which is checked at each look.
    fn cut(&mut self, count: usize)
        ensures { self.new ≡ take count self.old }
    {
        while self.symbols().len() > count {
            self.pop();
        }
    }

    fn allocator(&self) -> Global {
        self.alloc
    }
}

/// The symbol at the place that the table tells, if it has that name.
fn symbol_at<'a>(
    symbols: &'a [Symbol],
    name: &Name,
    places: &HashMap<Vec<u8>, usize>,
) -> Option<&'a Symbol>
    ensures { option_copied result ≡ at_place symbols.now name.now (told places.now name.now) }
{
    match places.get(name.bytes()) {
        Some(place) => match symbols.get(*place) {
            Some(symbol) => {
                if same_name(&symbol.name, name) {
                    Some(symbol)
                } else {
                    None
                }
            }
            None => None,
        },
        None => None,
    }
}
