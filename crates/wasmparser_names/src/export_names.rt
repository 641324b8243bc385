//! Exports by their names.

ghost use Rattle.std.specs.List.{list_any};
ghost use Rattle.std.specs.HashSet.{spare};
ghost use Rattle.std.specs.Prelude.{◌≡◌, ◌<◌, ◌≤◌, ◌+◌, ◌-◌, ◌*◌, ◌⊎◌, ◌++◌, ◌∷◌, [], List, IfOk, IfSome, IsTrue, OnErr, OnOk, length, max, nat_eq, not, slice_get, option_map, true, if◌then◌else◌, vec_capacity};
ghost use Rattle.wasmparser_names.specs.ExportNames.{is_exported};
ghost use Rattle.wasmparser_names.specs.KeptExports.{AreHashed, AreKnown, AreNamed, EndInLast, IsAfter, IsNamed, hash_of, hasher_after, listed, name_in, start_at};
ghost use Rattle.wasmparser_readers.specs.Exports.{export_item};

use crate::name_hasher::NameHasher;
use std::alloc::{AllocError, Global};
use std::collections::HashSet;
use std::marker::Model;
use std::str;
use wasm_core_types::limits::{MAX_WASM_EXPORTS, MAX_WASM_STRING_SIZE};
use wasmparser_readers::export::{Export, ExternalKind};
use wasmparser_readers::section_limited::SectionLimited;

// The least number of bytes of an export: the length of its name, its kind and its index.
const LEAST_LEN: usize = 3;

// A number of names so small that they are soon told apart, however they are hashed.
const FEW_NAMES: usize = 16;

// An export as it is kept. Its name stands among those of all exports, after that of the one before.
#[derive(Clone, Copy, Debug)]
struct KeptExport {
    // where its name ends
    end: usize,
    kind: ExternalKind,
    index: u32,
}

// Returns the name of an export.
fn name_at<'a>(names: &'a [u8], start: usize, export: &KeptExport) -> &'a str
    requires { IsNamed names.now start export.now }
    ensures { result.now ≡ name_in names.now start export.now }
{
    let name = &names[start..export.end];
    // SAFETY: the name was a string when it was kept.
    unsafe { str::from_utf8_unchecked(name) }
}

// Checks that some export has this name, by looking at each.
fn has_name(names: &[u8], exports: &[KeptExport], name: &str) -> bool
    requires { AreNamed names.now 0 exports.now }
    ensures { result ≡ is_exported name.now (listed names.now 0 exports.now) }
{
    let mut start = 0;
    for export in exports {
        if name == name_at(names, start, export) {
            return true;
        }
        start = export.end;
    }
    false
}

// Returns the place where the name of the export at a place begins.
fn start_of(exports: &[KeptExport], place: usize) -> usize
    requires { place < length exports.now }
    ensures { result ≡ start_at 0 exports.now place }
{
    match place.checked_sub(1) {
        Some(before) => exports[before].end,
        None => 0,
    }
}

/// Exports in the order in which they were added, each of which has a name of its own. Contracts see them as their list.
#[derive(Debug, Drop)]
pub struct ExportNames {
    names: Vec<u8>,
    exports: Vec<KeptExport>,
    hasher: NameHasher,
    // those of all names at least, once a name didn't come after the one before it: a name whose hash isn't there is new
    hashes: Option<HashSet<u64>>,
}

impl Model for ExportNames {
    ghost use Rattle.std.specs.Prelude.{List, option_map};
    ghost use Rattle.wasm_spec.specs.Syntax as spec;
    ghost use Rattle.wasmparser_names.specs.KeptExports.{AreKnown, AreNamed, listed};

    ghost Value = { List spec.Export };

    ghost view = { λ it. listed it.names.items 0 it.exports.items };

    ghost invariant = { λ it. AreNamed it.names.items 0 it.exports.items × AreKnown it.hasher (option_map (λ hashes. hashes.keys) it.hashes) (listed it.names.items 0 it.exports.items) };
}

impl ExportNames {
    /// Creates a list without exports.
    pub fn new(alloc: Global) -> ExportNames
        ensures { result ≡ [] }
    {
        ExportNames {
            names: Vec::new(alloc),
            exports: Vec::new(alloc),
            hasher: NameHasher::new(),
            hashes: None,
        }
    }

    /// Creates a list without exports, for those of a section: with capacity for them and their names if there is memory for it, and with a hasher for which
    /// these can hardly be chosen. Telling them apart takes less time where each comes after the one before it, in the order of their bytes.
    pub fn for_section<'a>(alloc: Global, section: &SectionLimited<'a, Export<'a>>) -> ExportNames
        ensures { result ≡ [] }
    {
        let bytes = section.remaining_buffer();
        let most = (MAX_WASM_EXPORTS as usize).min(bytes.len() / LEAST_LEN);
        let count = most.min(section.count() as usize);
        let mut names = Vec::new(alloc);
        let mut exports = Vec::new(alloc);
        make_room(&mut names, &mut exports, count, bytes);
        ExportNames {
            names,
            exports,
            hasher: hasher_for(count, bytes),
            hashes: None,
        }
    }

    /// Returns the number of exports.
    pub fn len(&self) -> usize
        ensures { result ≡ length self.now }
    {
        self.exports.len()
    }

    /// Adds an export, or answers `false` where there is one of its name.
    ///
    /// # Errors
    /// Where memory runs out; then nothing changes.
    // (not inlined, so that the loop over a section's items stays small)
    #[inline(never)]
    pub fn insert(&mut self, export: &Export<'_>) -> Result<bool, AllocError>
        ensures new { IfOk result (λ new. new ≡ not (is_exported export.now.name.now self.old)) }
        ensures added { IfOk result (λ new. self.new ≡ (if new then self.old ++ export_item export.now ∷ [] else self.old)) }
        ensures refused { OnErr result (self.new ≡ self.old) }
    {
        if !is_new(
            &self.names,
            &self.exports,
            &self.hasher,
            &mut self.hashes,
            export,
            *self.names.allocator(),
        )? {
            return Ok(false);
        }
        push(&mut self.names, &mut self.exports, export)?;
        Ok(true)
    }

    /// Returns the export at a place.
    pub fn get(&self, place: usize) -> Option<Export<'_>>
        ensures { option_map export_item result ≡ slice_get self.now place }
    {
        let export = self.exports.get(place)?;
        Some(Export {
            name: name_at(&self.names, start_of(&self.exports, place), export),
            kind: export.kind,
            index: export.index,
        })
    }
}

// Returns what the names of so many exports among these bytes are hashed by.
fn hasher_for(count: usize, bytes: &[u8]) -> NameHasher
    ensures { 16 < count → result ≡ hasher_after bytes.now }
{
    if count > FEW_NAMES {
        NameHasher::after(bytes)
    } else {
        NameHasher::new()
    }
}

// Makes room for so many exports, and for the rest of these bytes as their names, if there is memory for it. (Without room, exports ask for it as they come.)
fn make_room(names: &mut Vec<u8>, exports: &mut Vec<KeptExport>, count: usize, bytes: &[u8])
    requires { 3 * count ≤ length bytes.now }
    ensures names { names.new.items ≡ names.old.items }
    ensures exports { exports.new.items ≡ exports.old.items }
    ensures few { vec_capacity exports.new ≤ max (vec_capacity exports.old) (length exports.old.items + count) }
    ensures short { vec_capacity names.new ≤ max (vec_capacity names.old) (length names.old.items + (length bytes.now - 3 * count)) }
{
    let longest = count.saturating_mul(MAX_WASM_STRING_SIZE as usize);
    let _ = exports.reserve_exact(count);
    let _ = names.reserve_exact(longest.min(bytes.len() - LEAST_LEN * count));
}

// Checks that no export has this one's name, so that it may be added. Hashes are kept from the first name on that doesn't come after the one before it.
fn is_new(
    names: &[u8],
    exports: &[KeptExport],
    hasher: &NameHasher,
    hashes: &mut Option<HashSet<u64>>,
    export: &Export<'_>,
    alloc: Global,
) -> Result<bool, AllocError>
    requires named { AreNamed names.now 0 exports.now }
    requires known { AreKnown hasher.now (option_map (λ hashes. hashes.keys) hashes.old) (listed names.now 0 exports.now) }
    ensures new { IfOk result (λ new. new ≡ not (is_exported export.now.name.now (listed names.now 0 exports.now))) }
    ensures known { AreKnown hasher.now (option_map (λ hashes. hashes.keys) hashes.new) (listed names.now 0 exports.now) }
    ensures ready { IfOk result (λ new. IsTrue new → AreKnown hasher.now (option_map (λ hashes. hashes.keys) hashes.new) (listed names.now 0 exports.now ++ export_item export.now ∷ [])) }
    ensures no_room { OnErr result (IfSome hashes.old (λ hashes. spare hashes ≡ 0)) }
{
    if let Some(hashes) = hashes {
        return keep_hash(names, exports, hasher, hashes, export.name);
    }
    if is_after(names, exports, export.name) {
        return Ok(true);
    }
    let mut all = hashes_of(names, exports, hasher, alloc)?;
    let is_new = keep_hash(names, exports, hasher, &mut all, export.name)?;
    *hashes = Some(all);
    Ok(is_new)
}

// Checks that a name comes after those of all exports, whose last comes after the others.
fn is_after(names: &[u8], exports: &[KeptExport], name: &str) -> bool
    requires named { AreNamed names.now 0 exports.now }
    requires ordered { EndInLast (listed names.now 0 exports.now) }
    ensures { IsTrue result → IsAfter name.now (listed names.now 0 exports.now) }
{
    let Some(last) = exports.len().checked_sub(1) else {
        return true;
    };
    name_at(names, start_of(exports, last), &exports[last]) < name
}

// Checks that no export has this name: its hash is new, or no name is the same. The hash is kept.
fn keep_hash(
    names: &[u8],
    exports: &[KeptExport],
    hasher: &NameHasher,
    hashes: &mut HashSet<u64>,
    name: &str,
) -> Result<bool, AllocError>
    requires named { AreNamed names.now 0 exports.now }
    requires hashed { AreHashed hasher.now hashes.old.keys (listed names.now 0 exports.now) }
    ensures new { IfOk result (λ new. new ≡ not (is_exported name.now (listed names.now 0 exports.now))) }
    ensures hashed { AreHashed hasher.now hashes.new.keys (listed names.now 0 exports.now) }
    ensures kept { IfOk result (λ new. IsTrue new → list_any (nat_eq (hash_of hasher.now name.now)) hashes.new.keys ≡ true) }
    ensures no_room { OnErr result (spare hashes.old ≡ 0) }
{
    if hashes.insert(hasher.hash_of(name))? {
        return Ok(true);
    }
    Ok(!has_name(names, exports, name))
}

// Returns the hashes of all names.
fn hashes_of(
    names: &[u8],
    exports: &[KeptExport],
    hasher: &NameHasher,
    alloc: Global,
) -> Result<HashSet<u64>, AllocError>
    requires { AreNamed names.now 0 exports.now }
    ensures { IfOk result (λ hashes. AreHashed hasher.now hashes.keys (listed names.now 0 exports.now)) }
{
    let mut hashes = HashSet::with_capacity(alloc, exports.len())?;
    let mut start = 0;
    for export in exports {
        let name = name_at(names, start, export);
        hashes.insert(hasher.hash_of(name))?;
        start = export.end;
    }
    Ok(hashes)
}

// Adds an export to those that are kept.
fn push(
    names: &mut Vec<u8>,
    exports: &mut Vec<KeptExport>,
    export: &Export<'_>,
) -> Result<(), AllocError>
    requires { AreNamed names.old.items 0 exports.old.items }
    ensures pushed { OnOk result (listed names.new.items 0 exports.new.items ≡ listed names.old.items 0 exports.old.items ++ export_item export.now ∷ []) }
    ensures refused { OnErr result (listed names.new.items 0 exports.new.items ≡ listed names.old.items 0 exports.old.items) }
    ensures named { AreNamed names.new.items 0 exports.new.items }
    ensures no_room { OnErr result ((vec_capacity exports.old < length exports.old.items + 1) ⊎ (vec_capacity names.old < length names.old.items + length export.now.name.now)) }
{
    // (so that a name is never kept alone)
    exports.reserve(1)?;
    names.extend_from_slice(export.name.as_bytes())?;
    exports.push(KeptExport {
        end: names.len(),
        kind: export.kind,
        index: export.index,
    })?;
    Ok(())
}
