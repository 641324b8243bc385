//! The line of the verdict on a module.

ghost use Rattle.std.specs.Prelude.{◌≡◌, ◌≤◌, ◌+◌, ◌++◌, [], length, vec_len, vec_capacity, Err, IfOk};
ghost use Rattle.wasm_gen_program.specs.Verdict.{counted, yes_line, verdict_line};
ghost use Rattle.wasm_validity.specs.IndexSpaces.{sizes_in};
ghost use Rattle.wasmparser_validator.specs.Shown.{spaces};

use itoa::Buffer;
use std::alloc::{AllocError, Global};
use wasm_core::encoding::put_bytes;
use wasm_gen_sessions::judge::{Error, Types, TypesRef};

// More than a line's bytes: a number has at most 20 digits, and there are eight after labels.
const ROOM: usize = 300;

// Appends a label and a number, for which there is capacity.
fn put_count(line: &mut Vec<u8>, label: &str, count: u64)
    requires { vec_len line.old + length label.now + 20 ≤ vec_capacity line.old }
    ensures written { line.new.items ≡ line.old.items ++ counted label.now count }
    ensures length { vec_len line.new ≤ vec_len line.old + length label.now + 20 }
    ensures capacity { vec_capacity line.old ≤ vec_capacity line.new }
{
    put_bytes(label.as_bytes(), line);
    let mut buffer = Buffer::new();
    put_bytes(buffer.format(count).as_bytes(), line);
}

// Writes the line for a valid module.
fn put_yes(line: &mut Vec<u8>, types: TypesRef<'_>)
    requires empty { line.old.items ≡ [] }
    requires room { 300 ≤ vec_capacity line.old }
    ensures { line.new.items ≡ yes_line (sizes_in (spaces types.entry)) }
{
    put_bytes(b"yes", line);
    put_count(
        line,
        " types=",
        u64::from(types.core_type_count_in_module()),
    );
    put_count(line, " functions=", u64::from(types.function_count()));
    put_count(line, " tables=", u64::from(types.table_count()));
    put_count(line, " memories=", u64::from(types.memory_count()));
    put_count(line, " globals=", u64::from(types.global_count()));
    put_count(line, " tags=", u64::from(types.tag_count()));
    put_count(line, " elements=", u64::from(types.element_count()));
    put_count(line, " exports=", u64::from(types.export_count()));
    put_bytes(b"\n", line);
}

// Writes the line for a refusal.
fn put_no(line: &mut Vec<u8>, e: Error)
    requires empty { line.old.items ≡ [] }
    requires room { 300 ≤ vec_capacity line.old }
    ensures { line.new.items ≡ verdict_line (Err e) }
{
    put_bytes(b"no ", line);
    put_bytes(e.kind.name().as_bytes(), line);
    put_bytes(b"\n", line);
}

/// Returns an empty line, with capacity for any verdict's.
///
/// # Errors
/// Where memory runs out.
pub fn empty_line(alloc: Global) -> Result<Vec<u8>, AllocError>
    ensures empty { IfOk result (λ line. line.items ≡ []) }
    ensures room { IfOk result (λ line. 300 ≤ vec_capacity line) }
{
    Vec::with_capacity(alloc, ROOM)
}

/// Writes the line for a verdict: `yes` and the sizes of the index spaces, or `no` and the kind of the refusal. It takes no memory.
pub fn put_verdict(line: &mut Vec<u8>, verdict: &Result<Types, Error>)
    requires empty { line.old.items ≡ [] }
    requires room { 300 ≤ vec_capacity line.old }
    ensures { line.new.items ≡ verdict_line verdict.now }
{
    match verdict {
        Ok(types) => put_yes(line, types.as_ref()),
        Err(e) => put_no(line, *e),
    }
}
