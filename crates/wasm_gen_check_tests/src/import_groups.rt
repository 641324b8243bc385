//! A group of many imports that share the long name of a module: it is looked up once.

use std::alloc::{AllocError, Global};
use std::iter::Iterator;
use wasm_core::features::{Flags, WasmFeatures};
use wasm_gen::judge::{CoreImports, TypesRef};
use wasm_gen::session::Session;
use wasm_gen_rows::new_session::{on_new_session, on_types};

// Adds an import section with one group: the name of its module has 100,000 bytes, and 200,000 functions of the first type have one of 25 names each.
fn push_group(section: &mut Vec<u8>) -> Result<(), AllocError> {
    section.extend_from_slice(b"\x02\xab\xc2\x1e\x01\xa0\x8d\x06")?;
    for _ in 0..100_000 {
        section.push(b'm')?;
    }
    section.extend_from_slice(b"\x00\x7e\x00\x00\xc0\x9a\x0c")?;
    for _ in 0..200_000 / 25 {
        for letter in b'a'..b'z' {
            section.push(1)?;
            section.push(letter)?;
        }
    }
    Ok(())
}

fn long_group(alloc: Global) -> Result<Vec<u8>, AllocError> {
    let mut bytes = Vec::new(alloc);
    bytes.extend_from_slice(b"\0asm\x01\0\0\0\x01\x04\x01\x60\0\0")?;
    push_group(&mut bytes)?;
    Ok(bytes)
}

// Counts the next imports that have this name, one after the other.
fn count_named(imports: &mut CoreImports<'_>, letter: u8, most: u32) -> u32 {
    for count in 0..most {
        let name = match imports.next() {
            Some((_, name, _)) => name,
            None => return count,
        };
        if name.as_bytes().first().copied() != Some(letter) {
            return count;
        }
    }
    most
}

// Checks that all functions are shown, and as imports those of each name together.
fn has_all_functions(_alloc: Global, view: TypesRef<'_>, _row: &str) -> bool {
    let Ok(Some(mut imports)) = view.core_imports() else {
        return false;
    };
    for letter in b'a'..b'z' {
        if count_named(&mut imports, letter, 8_000) != 8_000 {
            return false;
        }
    }
    imports.next().is_none() && view.function_count() == 200_000
}

// Checks that a session shows all functions of the group.
fn is_shared(alloc: Global, session: &mut Session, row: &str) -> Option<bool> {
    let bytes = long_group(alloc).ok()?;
    let answer = on_types(alloc, session, &bytes, row, has_all_functions);
    Some(matches!(answer, Ok(true)))
}

#[test]
fn a_long_name_is_looked_up_once(rt: HostRuntime) {
    let features = WasmFeatures::default().union(WasmFeatures::COMPACT_IMPORTS);
    assert!(rt; on_new_session(rt.alloc(), features, "", is_shared) == Some(true));
}
