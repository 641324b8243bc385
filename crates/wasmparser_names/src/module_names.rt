//! The names of the modules that imports come from.

ghost use Rattle.std.specs.Prelude.{◌≡◌, ◌≢◌, ◌++◌, ◌∷◌, [], None, Some, IfOk, IfSome, IsTrue, OnErr, OnOk, bytes_eq, slice_get, length, map, nat_eq, false};
ghost use Rattle.std.specs.List.{IsDistinct, list_any};
ghost use Rattle.std.specs.Option.{option_copied};
ghost use Rattle.std.specs.String.{string_bytes};
ghost use Rattle.wasmparser_names.specs.ModuleNames.{AreHashed, with_name};

use crate::name_hasher::NameHasher;
use std::alloc::{AllocError, Global};
use std::collections::HashMap;
use std::marker::Model;

/// Names of modules, each of which is kept once and has a number. Contracts see their list, and what they are hashed by.
#[derive(Debug, Drop)]
pub struct ModuleNames {
    names: Vec<String>,
    hasher: NameHasher,
    // for the hash of each name the number of one that has it, which is hardly ever another name
    numbers: HashMap<u64, usize>,
    // the number that was given last: modules import many items of one module in a row
    last: usize,
}

impl Model for ModuleNames {
    ghost use Rattle.std.specs.Prelude.{bytes_eq, map};
    ghost use Rattle.std.specs.List.{IsDistinct};
    ghost use Rattle.std.specs.String.{string_bytes};
    ghost use Rattle.wasmparser_names.specs.ModuleNames.{AreHashed, Names};

    ghost Value = { Names };

    ghost view = { λ it. record { names = map string_bytes it.names.items; hasher = it.hasher } };

    ghost invariant = { λ it. IsDistinct bytes_eq (map string_bytes it.names.items) × AreHashed it.hasher it.numbers.entries (map string_bytes it.names.items) };
}

impl ModuleNames {
    /// Creates a list without names.
    pub fn new(alloc: Global, hasher: NameHasher) -> ModuleNames
        ensures names { result.names ≡ [] }
        ensures hashed { result.hasher ≡ hasher }
    {
        ModuleNames {
            names: Vec::new(alloc),
            hasher,
            numbers: HashMap::new(alloc),
            last: 0,
        }
    }

    /// Returns the hasher of the names.
    pub(crate) fn hasher(&self) -> NameHasher
        ensures { result ≡ self.now.hasher }
    {
        self.hasher
    }

    /// Checks that there are no names.
    pub fn is_empty(&self) -> bool
        ensures { result ≡ nat_eq (length self.now.names) 0 }
    {
        self.names.is_empty()
    }

    /// Returns the number of a name, which is kept if it is new.
    ///
    /// # Errors
    /// Where memory runs out; then nothing changes.
    #[tactic(auto, using(crate::proofs::ModuleNames::numbered_name))]
    pub fn number(&mut self, name: &str) -> Result<usize, AllocError>
        ensures found { IfOk result (λ number. slice_get self.new.names number ≡ Some name.now) }
        ensures kept { OnOk result (self.new.names ≡ with_name self.old.names name.now) }
        ensures hashed { self.new.hasher ≡ self.old.hasher }
        ensures refused { OnErr result (self.new ≡ self.old) }
        ensures distinct { IsDistinct bytes_eq self.new.names }
    {
        let last = self.last;
        if is_at(&self.names, last, name) {
            return Ok(last);
        }
        let number = self.find_or_keep(name)?;
        self.last = number;
        Ok(number)
    }

    #[tactic(auto, using(crate::proofs::ModuleNames::numbered_name, crate::proofs::ModuleNames::new_name))]
    fn find_or_keep(&mut self, name: &str) -> Result<usize, AllocError>
        ensures found { IfOk result (λ number. slice_get self.new.names number ≡ Some name.now) }
        ensures kept { OnOk result (self.new.names ≡ with_name self.old.names name.now) }
        ensures hashed { self.new.hasher ≡ self.old.hasher }
        ensures refused { OnErr result (self.new ≡ self.old) }
        ensures distinct { IsDistinct bytes_eq self.new.names }
    {
        match number_of(&self.names, &self.numbers, &self.hasher, name) {
            Some(number) => Ok(number),
            None => self.keep(name),
        }
    }

    // Keeps a new name.
    fn keep(&mut self, name: &str) -> Result<usize, AllocError>
        requires { list_any (bytes_eq name.now) self.old.names ≡ false }
        ensures found { IfOk result (λ number. slice_get self.new.names number ≡ Some name.now) }
        ensures kept { OnOk result (self.new.names ≡ self.old.names ++ name.now ∷ []) }
        ensures hashed { self.new.hasher ≡ self.old.hasher }
        ensures refused { OnErr result (self.new ≡ self.old) }
        ensures distinct { IsDistinct bytes_eq self.new.names }
    {
        let number = self.names.len();
        self.names.reserve(1)?;
        // (a hash whose name isn't kept after all does no harm)
        self.numbers.insert(self.hasher.hash_of(name), number)?;
        let kept = String::from_str(*self.names.allocator(), name)?;
        self.names.push_reserved(kept);
        Ok(number)
    }

    /// Returns the name of a number.
    pub fn get(&self, number: usize) -> Option<&str>
        ensures { option_copied result ≡ slice_get self.now.names number }
    {
        name_at(&self.names, number)
    }
}

// Returns the name at a place.
fn name_at(names: &[String], place: usize) -> Option<&str>
    ensures { option_copied result ≡ slice_get (map string_bytes names.now) place }
{
    let name = names.get(place)?;
    Some(name.as_str())
}

// Checks that the name at a place is this one.
fn is_at(names: &[String], place: usize, name: &str) -> bool
    ensures yes { IsTrue result → slice_get (map string_bytes names.now) place ≡ Some name.now }
    ensures no { result ≡ false → slice_get (map string_bytes names.now) place ≢ Some name.now }
{
    match name_at(names, place) {
        Some(kept) => kept == name,
        None => false,
    }
}

// Returns the number of a name, by the number of its hash, and where that is another name's by looking at each.
fn number_of(
    names: &[String],
    numbers: &HashMap<u64, usize>,
    hasher: &NameHasher,
    name: &str,
) -> Option<usize>
    requires { AreHashed hasher.now numbers.now.entries (map string_bytes names.now) }
    ensures found { IfSome result (λ number. slice_get (map string_bytes names.now) number ≡ Some name.now) }
    ensures none { result ≡ None → list_any (bytes_eq name.now) (map string_bytes names.now) ≡ false }
{
    let number = numbers.get(&hasher.hash_of(name))?;
    if is_at(names, *number, name) {
        return Some(*number);
    }
    place_of(names, name)
}

// Returns the place of a name, by looking at each.
fn place_of(names: &[String], name: &str) -> Option<usize>
    ensures found { IfSome result (λ place. slice_get (map string_bytes names.now) place ≡ Some name.now) }
    ensures none { result ≡ None → list_any (bytes_eq name.now) (map string_bytes names.now) ≡ false }
{
    for place in 0..names.len() {
        if is_at(names, place, name) {
            return Some(place);
        }
    }
    None
}
