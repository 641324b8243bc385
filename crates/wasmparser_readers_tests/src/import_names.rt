//! Imports by their names: in which order they are shown.

use std::alloc::{AllocError, Global};
use std::test::Fail;
use wasm_test_rows::fields::two_fields;
use wasm_test_rows::rows::check_rows;
use wasmparser_names::import_names::ImportNames;
use wasmparser_names::imported_items::ImportedItem;
use wasmparser_names::name_hasher::NameHasher;
use wasmparser_readers::export::ExternalKind;

// Imports as they are pushed, and as they are shown. Each is the module, the name, and the kind and the index of the item.
const SHOWN: &str = "
    |
    a.b.f0 | a.b.f0
    a.b.f0 a.c.f1 | a.b.f0 a.c.f1
    // The module counts and the name counts, and which is which.
    a.b.f0 c.b.f1 a.b.f2 | a.b.f0 a.b.f2 c.b.f1
    a.b.f0 b.a.f1 a.b.f2 | a.b.f0 a.b.f2 b.a.f1
    a.b.f0 .ab.f1 ab..f2 a.b.f3 .ab.f4 ab..f5 | a.b.f0 a.b.f3 .ab.f1 .ab.f4 ab..f2 ab..f5
    // Names may be empty.
    ..f0 a..f1 .a.f2 ..f3 | ..f0 ..f3 a..f1 .a.f2
    // The kind doesn't count, and all kinds and indexes are kept.
    a.b.f0 c.d.t0 a.b.m0 c.d.g0 a.b.e0 | a.b.f0 a.b.m0 a.b.e0 c.d.t0 c.d.g0
    a.b.f4294967295 a.b.t7 | a.b.f4294967295 a.b.t7
    // The same item twice.
    a.b.f0 c.d.f1 a.b.f0 | a.b.f0 a.b.f0 c.d.f1
    a.b.f0 c.d.f1 e.f.f2 c.d.f3 a.b.f4 e.f.f5 | a.b.f0 a.b.f4 c.d.f1 c.d.f3 e.f.f2 e.f.f5
    // Names of 16 bytes, and longer ones.
    a.0123456789abcdef.f0 a.0123456789abcdefg.f1 a.0123456789abcdef.f2 a.0123456789abcdefg.f3 | a.0123456789abcdef.f0 a.0123456789abcdef.f2 a.0123456789abcdefg.f1 a.0123456789abcdefg.f3
    a.0123456789abcdefg.f0 a.0123456789abcdefh.f1 0123456789abcdefg.a.f2 | a.0123456789abcdefg.f0 a.0123456789abcdefh.f1 0123456789abcdefg.a.f2
";

fn module_of(word: &str) -> Option<&str> {
    let (module, _) = word.split_once('.')?;
    Some(module)
}

fn name_of(word: &str) -> Option<&str> {
    let (_, rest) = word.split_once('.')?;
    let (name, _) = rest.split_once('.')?;
    Some(name)
}

fn item_of(word: &str) -> Option<ImportedItem> {
    let (_, rest) = word.split_once('.')?;
    let (_, item) = rest.split_once('.')?;
    let kind = match item.as_bytes().first()? {
        b'f' => ExternalKind::Func,
        b't' => ExternalKind::Table,
        b'm' => ExternalKind::Memory,
        b'g' => ExternalKind::Global,
        _ => ExternalKind::Tag,
    };
    let index = item.get(1..)?.parse().ok()?;
    Some(ImportedItem { kind, index })
}

fn push_named(
    names: &mut ImportNames,
    module: &str,
    name: &str,
    item: ImportedItem,
) -> Result<(), AllocError> {
    let origin = names.number_of(module)?;
    names.push(origin, name, item)
}

fn push_words(names: &mut ImportNames, words: &str) -> Option<()> {
    for word in words.split_whitespace() {
        push_named(names, module_of(word)?, name_of(word)?, item_of(word)?).ok()?;
    }
    Some(())
}

// Checks that these imports are shown, and no others.
fn shows(names: &ImportNames, words: &str) -> Option<bool> {
    let mut words = words.split_whitespace();
    for import in names.grouped().ok()? {
        let word = words.next()?;
        if module_of(word) != Some(import.module)
            || name_of(word) != Some(import.name)
            || item_of(word) != Some(import.item)
        {
            return Some(false);
        }
    }
    Some(words.next().is_none())
}

fn row_holds(names: &mut ImportNames, row: &str) -> Option<bool> {
    let (pushed, shown) = two_fields(row)?;
    push_words(names, pushed)?;
    shows(names, shown)
}

fn holds(alloc: Global, row: &str) -> Option<bool> {
    let mut names = ImportNames::new(alloc);
    row_holds(&mut names, row)
}

#[test]
fn the_same_names_stand_together(rt: HostRuntime) -> Result<(), Fail> {
    Ok(check_rows(rt.alloc(), SHOWN, 13, holds)?)
}

// A hasher has no say in what is shown, nor has room, nor have they an effect on imports that are there already.
fn starts_anew(names: &mut ImportNames) -> Option<bool> {
    names.start_with(NameHasher::after(b"a"), 1);
    push_words(names, "a.b.f0 c.d.f1")?;
    names.start_with(NameHasher::after(b"b"), 100);
    push_words(names, "a.b.f2 c.d.f3")?;
    shows(names, "a.b.f0 a.b.f2 c.d.f1 c.d.f3")
}

fn takes_hashers(alloc: Global) -> Option<bool> {
    let mut names = ImportNames::new(alloc);
    starts_anew(&mut names)
}

#[test]
fn hashers_change_nothing(rt: HostRuntime) {
    assert!(rt; takes_hashers(rt.alloc()) == Some(true));
}

// Pushes so many imports, whose names are the numbers below `period` in turn.
fn push_many(
    alloc: Global,
    names: &mut ImportNames,
    count: u32,
    period: u32,
) -> Result<(), AllocError> {
    for index in 0..count {
        let name = format!(in alloc; "{}", index % period.max(1))?;
        let item = ImportedItem {
            kind: ExternalKind::Func,
            index,
        };
        push_named(names, "env", name.as_str(), item)?;
    }
    Ok(())
}

// Checks that they are shown: those of each name one after the other.
fn shows_many(names: &ImportNames, count: u32, period: u32) -> bool {
    let Ok(imports) = names.grouped() else {
        return false;
    };
    let mut shown: u32 = 0;
    let mut first: u32 = 0;
    let mut next: u32 = 0;
    for import in imports {
        if next >= count {
            first = first.saturating_add(1);
            next = first;
        }
        if import.item.index != next || import.module != "env" {
            return false;
        }
        next = next.saturating_add(period);
        shown = shown.saturating_add(1);
    }
    shown == count
}

fn pushes_and_shows(alloc: Global, names: &mut ImportNames, period: u32) -> bool {
    push_many(alloc, names, 100_000, period).is_ok() && shows_many(names, 100_000, period)
}

fn takes_many(alloc: Global, period: u32) -> bool {
    let mut names = ImportNames::new(alloc);
    pushes_and_shows(alloc, &mut names, period)
}

#[test]
fn many_are_taken(rt: HostRuntime) {
    for period in [1, 300, 100_000] {
        assert!(rt; takes_many(rt.alloc(), period), "{period} names");
    }
}

// Pushes imports of the same name from so many modules, whose names are long.
fn push_modules(alloc: Global, names: &mut ImportNames, count: u32) -> Result<(), AllocError> {
    for index in 0..count {
        let module = format!(in alloc; "a module with a long name, of number {}", index)?;
        let item = ImportedItem {
            kind: ExternalKind::Global,
            index,
        };
        push_named(names, module.as_str(), "f", item)?;
    }
    Ok(())
}

fn count_of(names: &ImportNames) -> Option<u32> {
    let mut count: u32 = 0;
    for _ in names.grouped().ok()? {
        count = count.saturating_add(1);
    }
    Some(count)
}

fn pushes_modules(alloc: Global, names: &mut ImportNames) -> bool {
    push_modules(alloc, names, 100_000).is_ok() && count_of(names) == Some(100_000)
}

fn takes_modules(alloc: Global) -> bool {
    let mut names = ImportNames::new(alloc);
    pushes_modules(alloc, &mut names)
}

#[test]
fn many_modules_are_taken(rt: HostRuntime) {
    assert!(rt; takes_modules(rt.alloc()));
}
