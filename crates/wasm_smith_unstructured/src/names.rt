//! Names that differ.

ghost use Rattle.std.specs.BTreeMap.{get_by_text, IsUnchanged};
ghost use Rattle.std.specs.Map.{update};
ghost use Rattle.std.specs.Prelude.{◌≡◌, ◌<◌, ◌≤◌, ◌+◌, ◌^◌, ◌++◌, ℕ, List, Some, IfOk, OnErr, OnOk, bytes_eq, decimal, length, string_bytes, false, true};
ghost use Rattle.wasm_smith_unstructured.specs.Names.{AreTried, IsAdded, is_name, names_in};
ghost use Rattle.wasm_smith_unstructured.specs.Texts.{AreTaken};

use std::alloc::{AllocError, Global};
use std::collections::BTreeMap;
use std::marker::Model;

// Returns a text with a number at its end.
fn numbered(alloc: Global, text: &str, number: usize) -> Result<String, AllocError>
    ensures { IfOk result (λ name. string_bytes name ≡ text.now ++ decimal number) }
{
    format!(in alloc; "{text}{number}")
}

// Returns a text with the least number at its end that makes it new, from the number of names on, and this number. Numbers below `tried` are
// known to be taken.
fn new_number(
    alloc: Global,
    text: &str,
    tried: usize,
    numbers: &BTreeMap<String, usize>,
) -> Result<(String, usize), AllocError>
    requires { AreTaken (is_name (names_in numbers.now)) (length (names_in numbers.now)) text.now tried }
    ensures new { IfOk result (λ found. is_name (names_in numbers.now) (string_bytes found.0) ≡ false) }
    ensures written { IfOk result (λ found. string_bytes found.0 ≡ text.now ++ decimal found.1) }
    ensures from { IfOk result (λ found. length (names_in numbers.now) ≤ found.1) }
    ensures taken { IfOk result (λ found. AreTaken (is_name (names_in numbers.now)) (length (names_in numbers.now)) text.now found.1) }
    ensures few { IfOk result (λ found. found.1 + 1 < 2 ^ 64) }
{
    let mut number = tried.max(numbers.len());
    'number: loop {
        let name = numbered(alloc, text, number)?;
        if !numbers.contains_key(name.as_str()) {
            return Ok((name, number));
        }
        number += 1;
    }
}

// Adds a name.
fn put(name: String, numbers: &mut BTreeMap<String, usize>) -> Result<(), AllocError>
    requires { is_name (names_in numbers.old) (string_bytes name) ≡ false }
    ensures put { OnOk result ((text : List ℕ) → get_by_text numbers.new text ≡ update bytes_eq (get_by_text numbers.old) (string_bytes name) (Some 0) text) }
    ensures one_more { OnOk result (length (names_in numbers.new) ≡ length (names_in numbers.old) + 1) }
    ensures refused { OnErr result (IsUnchanged numbers.old numbers.new) }
{
    numbers.insert(name, 0)?;
    Ok(())
}

// Keeps another number for a name.
fn keep(name: &str, number: usize, numbers: &mut BTreeMap<String, usize>)
    requires { is_name (names_in numbers.old) name.now ≡ true }
    ensures kept { (text : List ℕ) → get_by_text numbers.new text ≡ update bytes_eq (get_by_text numbers.old) name.now (Some number) text }
    ensures as_many { length (names_in numbers.new) ≡ length (names_in numbers.old) }
{
    if let Some(kept) = numbers.get_mut(name) {
        *kept = number;
    }
}

// Adds a text that isn't among the names.
fn add_text(
    alloc: Global,
    text: &str,
    numbers: &mut BTreeMap<String, usize>,
) -> Result<String, AllocError>
    requires new { is_name (names_in numbers.old) text.now ≡ false }
    requires tried { AreTried numbers.old }
    ensures added { IfOk result (λ name. IsAdded (names_in numbers.old) (names_in numbers.new) text.now (string_bytes name)) }
    ensures short { IfOk result (λ name. length (string_bytes name) ≤ length text.now + 20) }
    ensures tried { AreTried numbers.new }
    ensures refused { OnErr result (IsUnchanged numbers.old numbers.new) }
{
    let name = String::from_str(alloc, text)?;
    put(name.clone()?, numbers)?;
    Ok(name)
}

// Adds a text that is among the names, with a number at its end. Numbers below `tried` are known to be taken.
fn add_numbered(
    alloc: Global,
    text: &str,
    tried: usize,
    numbers: &mut BTreeMap<String, usize>,
) -> Result<String, AllocError>
    requires there { get_by_text numbers.old text.now ≡ Some tried }
    requires tried { AreTried numbers.old }
    ensures added { IfOk result (λ name. IsAdded (names_in numbers.old) (names_in numbers.new) text.now (string_bytes name)) }
    ensures short { IfOk result (λ name. length (string_bytes name) ≤ length text.now + 20) }
    ensures tried { AreTried numbers.new }
    ensures refused { OnErr result (IsUnchanged numbers.old numbers.new) }
{
    let (name, number) = new_number(alloc, text, tried, numbers)?;
    put(name.clone()?, numbers)?;
    keep(text, number + 1, numbers);
    Ok(name)
}

/// Names that differ. A number is tried once for each text, so that no choice of texts makes adding names slow.
///
/// Contracts see the names as a list, in the order of their bytes.
#[derive(Debug, Drop)]
pub struct UniqueNames {
    // by name: the first number that is still to be tried at its end
    numbers: BTreeMap<String, usize>,
}

impl Model for UniqueNames {
    ghost use Rattle.std.specs.Prelude.{ℕ, List};
    ghost use Rattle.wasm_smith_unstructured.specs.Names.{AreTried, names_in};

    ghost Value = { List (List ℕ) };

    ghost view = { λ names. names_in names.numbers };

    ghost invariant = { λ names. AreTried names.numbers };
}

impl UniqueNames {
    ghost use Rattle.std.specs.Prelude.{◌≡◌, ◌≤◌, ◌+◌, ◌||◌, ◌↔◌, ℕ, List, [], IfOk, IsTrue, OnErr, bytes_eq, length, string_bytes};
    ghost use Rattle.wasm_smith_unstructured.specs.Names.{is_name};
    ghost use Rattle.wasm_smith_unstructured.specs.Texts.{IsNewName};

    /// Returns no names.
    pub fn new(alloc: Global) -> UniqueNames
        ensures { result ≡ [] }
    {
        UniqueNames {
            numbers: BTreeMap::new(alloc),
        }
    }

    /// Returns the number of names.
    pub fn len(&self) -> usize
        ensures { result ≡ length self.now }
    {
        self.numbers.len()
    }

    /// Returns whether there are no names.
    pub fn is_empty(&self) -> bool
        ensures { IsTrue result ↔ (length self.now ≡ 0) }
    {
        self.numbers.is_empty()
    }

    /// Returns whether a text is among the names.
    pub fn contains(&self, text: &str) -> bool
        ensures { result ≡ is_name self.now text.now }
    {
        self.numbers.contains_key(text)
    }

    /// Adds a text as a name that isn't among these, and returns the name: a text that is among them gets a number at its end.
    ///
    /// # Errors
    /// Where memory runs out. Nothing is added then.
    pub fn add(&mut self, alloc: Global, text: &str) -> Result<String, AllocError>
        ensures named { IfOk result (λ name. IsNewName (is_name self.old) (length self.old) text.now (string_bytes name)) }
        ensures short { IfOk result (λ name. length (string_bytes name) ≤ length text.now + 20) }
        ensures added { IfOk result (λ name. (other : List ℕ) → is_name self.new other ≡ (bytes_eq (string_bytes name) other || is_name self.old other)) }
        ensures one_more { IfOk result (λ _. length self.new ≡ length self.old + 1) }
        ensures refused { OnErr result (self.new ≡ self.old) }
    {
        match self.numbers.get(text).copied() {
            Some(tried) => add_numbered(alloc, text, tried, &mut self.numbers),
            None => add_text(alloc, text, &mut self.numbers),
        }
    }
}
