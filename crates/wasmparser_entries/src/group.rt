//! Groups of imports that share the name of a module, which are passed over and read later.

ghost use Rattle.wasm_core_read.specs.PartReading.{import_item_at};
ghost use Rattle.wasm_core_read.specs.Reading.{Answers, seen_at, name_at};
ghost use Rattle.wasm_core_read.specs.TypeReading.{list_at};
ghost use Rattle.std.specs.Prelude.{ℕ, List};
ghost use Rattle.wasmparser_entries.specs.ImportGroups.{PassesNames, PassesItems};
ghost use Rattle.wasmparser_entries.specs.ImportItems.{are_packable, items_refs};

use crate::import_item::{ImportItemCompact, check_item};
use wasm_core_read::binary_reader::BinaryReader;
use wasm_core_read::malformed::Malformed;
use wasmparser_readers::passing::{Pass, fork, pass_list, passed_part};
use wasmparser_readers::section_limited::SectionLimited;

// A name that is passed over.
struct PassedName;

impl Pass for PassedName {
    ghost Passed = { List ℕ };

    ghost passed_at = { name_at };

    fn pass(reader: &mut BinaryReader<'_>) -> Result<(), Malformed> {
        reader.read_string()?;
        Ok(())
    }
}

// Passes over a list of items, and tells whether all of their type indexes can be packed.
#[tactic(auto, using(crate::proofs::CheckLaws::check_loop))]
fn check_items(reader: &mut BinaryReader<'_>) -> Result<bool, Malformed>
    ensures { Answers (λ packable. packable) reader.old reader.new result (seen_at (λ items. are_packable (items_refs items)) (list_at import_item_at) reader.old.rest) }
{
    let count = reader.read_var_u32()?;
    let mut are_packable = true;
    for _ in 0..count {
        if !check_item(reader)? {
            are_packable = false;
        }
    }
    Ok(are_packable)
}

// Returns the list of names that a reader has before it, which it passes over.
#[tactic(auto, using(crate::proofs::GroupLaws::name_groups))]
pub(crate) fn pass_names<'a>(
    reader: &mut BinaryReader<'a>,
) -> Result<SectionLimited<'a, &'a str>, Malformed>
    ensures { PassesNames reader.old reader.new result }
{
    let start = fork(reader);
    pass_list::<PassedName>(reader)?;
    SectionLimited::new(passed_part(start, reader.bytes_remaining()))
}

// Returns the list of items that a reader has before it, which it passes over, or none where a type index in it is too large to be packed.
#[tactic(auto, using(crate::proofs::GroupLaws::item_groups))]
pub(crate) fn pass_items<'a>(
    reader: &mut BinaryReader<'a>,
) -> Result<Option<SectionLimited<'a, ImportItemCompact<'a>>>, Malformed>
    ensures { PassesItems reader.old reader.new result }
{
    let start = fork(reader);
    if !check_items(reader)? {
        return Ok(None);
    }
    let items = SectionLimited::new(passed_part(start, reader.bytes_remaining()))?;
    Ok(Some(items))
}
