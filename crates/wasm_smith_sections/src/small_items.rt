//! Items that bytes can state. The functions do nothing.

ghost use Rattle.std.specs.Prelude.{◌≡◌, map, option_map};
ghost use Rattle.std.specs.List.{AllByRecursion};
ghost use Rattle.wasm_smith_definitions.specs.Items.{data_mode, element_items, element_mode, expression, raw_bytes};
ghost use Rattle.wasm_smith_definitions.specs.declared.segments.ElementItems.{ElementItems};
ghost use Rattle.wasm_smith_sections.specs.SmallModules.{AreSmallItems, IsSmallDataMode, IsSmallElementMode, IsSmallExpression, IsSmallInitialiser, IsSmallRaw};

use crate::small::{Small, are_small, bytes_are_small, indexes_are_small};
use crate::small_types::{heap_is_small, values_are_small};
use wasm_smith_definitions::code::{Code, Instructions};
use wasm_smith_definitions::constant::Constant;
use wasm_smith_definitions::custom_section::CustomSection;
use wasm_smith_definitions::items;
use wasm_smith_definitions::items::{Export, Table};
use wasm_smith_definitions::segments::{
    DataMode, DataSegment, ElementItems, ElementMode, ElementSegment,
};
use wasm_smith_shapes::imports::{ImportEntry, ImportItem};

impl Small for String {
    ghost use Rattle.std.specs.String.{string_bytes};
    ghost use Rattle.wasm_encoder_sections.specs.SmallItems.{IsNameText};

    ghost fits = { λ text. IsNameText (string_bytes text) };

    fn is_small(&self) {
        bytes_are_small(self.as_bytes());
    }
}

impl Small for ImportItem {
    ghost use Rattle.wasm_encoder_sections.specs.SmallItems.{IsSmallItem};
    ghost use Rattle.wasm_smith_shapes.specs.Imports.{import_item};

    ghost fits = { λ item. IsSmallItem (import_item item) };

    fn is_small(&self) {
        self.name.is_small();
        self.ty.is_small();
    }
}

impl Small for ImportEntry {
    ghost use Rattle.std.specs.Prelude.{Bool};
    ghost use Rattle.wasm_encoder_sections.specs.SmallItems.{IsSmallImport};
    ghost use Rattle.wasm_smith_shapes.specs.Imports.{import_entry};
    ghost use Rattle.wasm_smith_sections.specs.SmallModules.{IsReadable};

    ghost fits = { λ entry. (compact : Bool) → IsReadable compact (import_entry entry) → IsSmallImport compact (import_entry entry) };

    fn is_small(&self) {
        match self {
            ImportEntry::Single { module, name, ty } => {
                module.is_small();
                name.is_small();
                ty.is_small();
            }
            ImportEntry::Compact1 { module, items } => {
                module.is_small();
                are_small(items);
            }
            ImportEntry::Compact2 { module, ty, names } => {
                module.is_small();
                ty.is_small();
                are_small(names);
            }
        }
    }
}

impl Small for Constant {
    ghost use Rattle.wasm_smith_definitions.specs.Items.{expression};
    ghost use Rattle.wasm_smith_sections.specs.SmallModules.{IsSmallExpression};

    ghost fits = { λ constant. IsSmallExpression (expression constant) };

    fn is_small(&self) {
        match self {
            Constant::I32(n) => {
                let _n = *n;
            }
            Constant::I64(n) => {
                let _n = *n;
            }
            Constant::F32(bits) => {
                let _bits = *bits;
            }
            Constant::F64(bits) => {
                let _bits = *bits;
            }
            Constant::V128(_) => {}
            Constant::Null(heap) => heap_is_small(heap),
            Constant::Function(function) => {
                let _function = *function;
            }
            Constant::Global(global) => {
                let _global = *global;
            }
            Constant::I32Operation(_, a, b) => {
                let _a = *a;
                let _b = *b;
            }
            Constant::I64Operation(_, a, b) => {
                let _a = *a;
                let _b = *b;
            }
        }
    }
}

fn initialiser_is_small(init: &Option<Constant>)
    ensures { IsSmallInitialiser (option_map expression init.now) }
{
    if let Some(init) = init {
        init.is_small();
    }
}

impl Small for Table {
    ghost use Rattle.wasm_smith_definitions.specs.Items as views;
    ghost use Rattle.wasm_smith_sections.specs.SmallModules.{IsSmallOwnTable};

    ghost fits = { λ table. IsSmallOwnTable (views.table table) };

    fn is_small(&self) {
        self.ty.is_small();
        initialiser_is_small(&self.init);
    }
}

impl Small for items::Global {
    ghost use Rattle.wasm_smith_definitions.specs.Items as views;
    ghost use Rattle.wasm_smith_sections.specs.SmallModules.{IsSmallOwnGlobal};

    ghost fits = { λ global. IsSmallOwnGlobal (views.global global) };

    fn is_small(&self) {
        self.ty.is_small();
        self.init.is_small();
    }
}

impl Small for Export {
    ghost use Rattle.wasm_encoder_sections.specs.SmallItems.{IsSmallExport};
    ghost use Rattle.wasm_smith_definitions.specs.Items as views;

    ghost fits = { λ export. IsSmallExport (views.export export) };

    fn is_small(&self) {
        self.name.is_small();
        let _index = self.index;
    }
}

#[tactic(auto, using(crate::proofs::SmallSegments::small_mode))]
fn mode_is_small(mode: &ElementMode)
    ensures { (items : ElementItems) → IsSmallElementMode (element_mode mode.now (element_items items)) }
{
    if let ElementMode::Active { table, offset } = mode {
        let _table = *table;
        offset.is_small();
    }
}

fn constants_are_small(constants: &[Constant])
    ensures { AllByRecursion IsSmallExpression (map expression constants.now) }
{
    are_small(constants);
}

fn elements_are_small(items: &ElementItems)
    ensures { AreSmallItems (element_items items.now) }
{
    match items {
        ElementItems::Functions(functions) => indexes_are_small(functions),
        ElementItems::Expressions(ty, constants) => {
            heap_is_small(&ty.heap_type);
            constants_are_small(constants);
        }
    }
}

impl Small for ElementSegment {
    ghost use Rattle.wasm_smith_definitions.specs.Items.{element_segment};
    ghost use Rattle.wasm_smith_sections.specs.SmallModules.{IsSmallElement};

    ghost fits = { λ segment. IsSmallElement (element_segment segment) };

    fn is_small(&self) {
        mode_is_small(&self.mode);
        elements_are_small(&self.items);
    }
}

#[tactic(auto, using(crate::proofs::SmallSegments::small_memory))]
fn data_mode_is_small(mode: &DataMode)
    ensures { IsSmallDataMode (data_mode mode.now) }
{
    if let DataMode::Active { memory, offset } = mode {
        let _memory = *memory;
        offset.is_small();
    }
}

impl Small for DataSegment {
    ghost use Rattle.wasm_smith_definitions.specs.Items.{data_segment};
    ghost use Rattle.wasm_smith_sections.specs.SmallModules.{IsSmallData};

    ghost fits = { λ segment. IsSmallData (data_segment segment) };

    fn is_small(&self) {
        data_mode_is_small(&self.mode);
        bytes_are_small(&self.data);
    }
}

fn instructions_are_small(instructions: &Instructions)
    ensures { IsSmallRaw (raw_bytes instructions.now) }
{
    if let Instructions::Raw(bytes) = instructions {
        bytes_are_small(bytes);
    }
}

impl Small for Code {
    ghost use Rattle.wasm_smith_definitions.specs.Items.{made_body};
    ghost use Rattle.wasm_smith_sections.specs.SmallModules.{IsSmallBody};

    ghost fits = { λ code. IsSmallBody (made_body code) };

    fn is_small(&self) {
        values_are_small(&self.locals);
        instructions_are_small(&self.instructions);
    }
}

impl Small for CustomSection {
    ghost use Rattle.wasm_smith_definitions.specs.Items.{placed_custom};
    ghost use Rattle.wasm_smith_sections.specs.SmallModules.{IsSmallCustom};

    ghost fits = { λ section. IsSmallCustom (placed_custom section) };

    fn is_small(&self) {
        self.name.is_small();
        bytes_are_small(&self.data);
    }
}
