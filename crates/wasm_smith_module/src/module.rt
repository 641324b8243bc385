//! Modules as they are made.

ghost use Rattle.std.specs.Prelude.{◌≡◌, ◌≤◌, ◌^◌, IfOk, IfErr, IfSome, MatchOption, is_some, length, map};
ghost use Rattle.wasm_smith_definitions.specs.Items.{made_body, placed_custom, raw_bytes};
ghost use Rattle.wasm_smith_config.specs.Config.{IsGood};
ghost use Rattle.wasm_smith_definitions.specs.Offered.{HasFewTables};
ghost use Rattle.wasm_smith_types.specs.Given.{AskForMore};
ghost use Rattle.wasm_smith_types.specs.Grouped.{groups, AreWhole};
ghost use Rattle.wasm_smith_types.specs.Making.{made};
ghost use Rattle.wasm_smith_types.specs.Offering.{offers};
ghost use Rattle.wasm_smith_validity.specs.ValidGroups.{AllKeepTypeRules, types_of};
ghost use Rattle.wasm_smith_module.specs.Asked.{HasGoodShapes};
ghost use Rattle.wasm_smith_module.specs.Building.{AreGroups, IsBuilt, IsEnd, IsFinished};
ghost use Rattle.wasm_smith_module.specs.Items.{drawn_items, module_of};
ghost use Rattle.wasm_smith_module.specs.Promise.{HasDrawnData};
ghost use Rattle.wasm_smith_module.specs.TrueToShapes.{AreTypesOf};

use crate::code::code;
use crate::custom_sections::custom_sections;
use crate::items::{Items, draw_items};
use crate::shapes::check_shapes;
use std::alloc;
use std::marker::Model;
use wasm_core_types::types::SubType;
use wasm_core_write::encode_error::EncodeError;
use wasm_encoder_sections::entity_type::MemoryType;
use wasm_smith_config::config::Config;
use wasm_smith_config::error::Error;
use wasm_smith_definitions::code::{Code, Instructions};
use wasm_smith_definitions::custom_section::CustomSection;
use wasm_smith_definitions::items::{Export, Global, Table};
use wasm_smith_definitions::segments::{DataSegment, ElementSegment};
use wasm_smith_externs::names::DuplicateImportsBehavior;
use wasm_smith_sections::module_items::ModuleItems;
use wasm_smith_sections::writing::write_module;
use wasm_smith_shapes::imports::ImportEntry;
use wasm_smith_types::error::TypesError;
use wasm_smith_types::types::{Types, make_types};
use wasm_smith_types::value_types::Offers;
use wasm_smith_unstructured::unstructured::Unstructured;

/// A module that is made. Contracts see it as its configuration and what it has.
#[derive(Debug, Drop)]
pub struct Module {
    config: Config,
    types: Types,
    imports: Vec<ImportEntry>,
    funcs: Vec<u32>,
    tables: Vec<Table>,
    memories: Vec<MemoryType>,
    tags: Vec<u32>,
    globals: Vec<Global>,
    exports: Vec<Export>,
    start: Option<u32>,
    elems: Vec<ElementSegment>,
    data_segments: Vec<DataSegment>,
    bodies: Vec<Code>,
    customs: Vec<CustomSection>,
}

impl Model for Module {
    ghost use Rattle.std.specs.Prelude.{map};
    ghost use Rattle.wasm_encoder_sections.specs.CoreItems.{memory_type};
    ghost use Rattle.wasm_smith_definitions.specs.Items as items;
    ghost use Rattle.wasm_smith_shapes.specs.Imports.{import_entry};
    ghost use Rattle.wasm_smith_types.specs.Grouped.{groups, AreWhole};
    ghost use Rattle.wasm_smith_module.specs.ModuleValue.{ModuleValue};

    ghost Value = { ModuleValue };

    ghost view = { λ m. record {
      config = m.config;
      made = record {
        groups = groups m.types;
        imports = map import_entry m.imports.items;
        funcs = m.funcs.items;
        tables = map items.table m.tables.items;
        memories = map memory_type m.memories.items;
        tags = m.tags.items;
        globals = map items.global m.globals.items;
        exports = map items.export m.exports.items;
        start = m.start;
        elems = map items.element_segment m.elems.items;
        data_segments = map items.data_segment m.data_segments.items;
        bodies = map items.made_body m.bodies.items;
        customs = map items.placed_custom m.customs.items;
      };
    } };

    ghost invariant = { λ m. AreWhole m.types };
}

// Makes the types, unless they are more than `most_types`.
fn build_types(
    alloc: alloc::Global,
    config: &Config,
    unstructured: &mut Unstructured<'_>,
    offered: &Offers,
    most_types: u32,
) -> Result<Option<Types>, Error>
    requires good { IsGood config.now }
    requires shapes { HasGoodShapes config.now }
    requires offered { offered.now ≡ offers config.now }
    ensures made { IfOk result (λ made. MatchOption made (AskForMore config.now unstructured.old most_types)
        (λ types. AreGroups config.now unstructured.old unstructured.new (groups types))) }
    ensures within { IfOk result (λ made. IfSome made (λ types. length (types_of (groups types)) ≤ most_types)) }
    ensures whole { IfOk result (λ made. IfSome made AreWhole) }
    ensures taken { length unstructured.new ≤ length unstructured.old }
    ensures ended { IfErr result (IsEnd config.now) }
{
    match make_types(alloc, unstructured, offered, config, most_types) {
        Ok(types) => Ok(Some(types)),
        Err(TypesError::TooMany) => Ok(None),
        Err(TypesError::TooFew) => Err(Error::IncorrectFormat),
        Err(TypesError::Memory) => Err(Error::Memory),
    }
}

// Returns the module of these parts.
fn assembled(
    config: Config,
    types: Types,
    items: Items,
    bodies: Vec<Code>,
    customs: Vec<CustomSection>,
) -> Module
    requires whole { AreWhole types }
    ensures { result ≡ record { config = config; made = module_of (groups types) (drawn_items items) (map made_body bodies.items) (map placed_custom customs.items) } }
{
    let front = items.front;
    let definitions = items.definitions;
    let uses = items.uses;
    Module {
        config,
        types,
        imports: front.imports,
        funcs: front.funcs,
        tables: definitions.tables,
        memories: definitions.memories,
        tags: front.tags,
        globals: definitions.globals,
        exports: items.exports,
        start: uses.start,
        elems: uses.elems,
        data_segments: uses.data_segments,
        bodies,
        customs,
    }
}

// Draws what follows the types.
fn finish(
    alloc: alloc::Global,
    config: Config,
    duplicates: DuplicateImportsBehavior,
    unstructured: &mut Unstructured<'_>,
    offered: &Offers,
    types: Types,
) -> Result<Module, Error>
    requires good { IsGood config }
    requires shapes { HasGoodShapes config }
    requires tables { HasFewTables config }
    requires offered { offered.now ≡ offers config }
    requires whole { AreWhole types }
    requires few { length (made types) ≤ 2 ^ 31 }
    requires rules { AllKeepTypeRules (made types) }
    requires types { AreTypesOf config (made types) }
    ensures finished { IfOk result (IsFinished config duplicates (groups types) unstructured.old unstructured.new) }
    ensures contents { IfOk result (λ m. HasDrawnData unstructured.old unstructured.new m.made) }
    ensures taken { length unstructured.new ≤ length unstructured.old }
    ensures ended { IfErr result (IsEnd config) }
{
    let items = draw_items(
        alloc,
        unstructured,
        &config,
        duplicates,
        offered,
        types.types(),
    )?;
    let bound = types.types().len() as u32;
    let count = items.front.funcs.len();
    let allow_raw = config.allow_invalid_funcs;
    let bodies = code(alloc, unstructured, offered, bound, count, allow_raw)?;
    let customs = custom_sections(alloc, unstructured, config.generate_custom_sections)?;
    Ok(assembled(config, types, items, bodies, customs))
}

// Draws a module, unless it has more than `most_types` types.
fn build(
    alloc: alloc::Global,
    config: Config,
    duplicates: DuplicateImportsBehavior,
    unstructured: &mut Unstructured<'_>,
    most_types: u32,
) -> Result<Option<Module>, Error>
    requires good { IsGood config }
    requires shapes { HasGoodShapes config }
    requires tables { HasFewTables config }
    ensures built { IfOk result (λ built. MatchOption built (AskForMore config unstructured.old most_types)
        (IsBuilt config duplicates unstructured.old unstructured.new)) }
    ensures within { IfOk result (λ built. IfSome built (λ m. length (types_of m.made.groups) ≤ most_types)) }
    ensures contents { IfOk result (λ built. IfSome built (λ m. HasDrawnData unstructured.old unstructured.new m.made)) }
    ensures taken { length unstructured.new ≤ length unstructured.old }
    ensures ended { IfErr result (IsEnd config) }
{
    let offered = Offers::new(alloc, &config)?;
    let Some(types) = build_types(alloc, &config, unstructured, &offered, most_types)? else {
        return Ok(None);
    };
    let finished = finish(alloc, config, duplicates, unstructured, &offered, types)?;
    Ok(Some(finished))
}

// Returns true if the operators are raw bytes.
fn is_raw(instructions: &Instructions) -> bool
    ensures { result ≡ is_some (raw_bytes instructions.now) }
{
    match instructions {
        Instructions::Raw(_) => true,
        Instructions::Unreachable => false,
    }
}

impl Module {
    ghost use Rattle.std.specs.Prelude.{◌≡◌, ◌≢◌, ◌≤◌, length, map, None, IfOk, IfErr, IfSome, IfNone};
    ghost use Rattle.std.specs.List.{AllByRecursion, IsDistinct};
    ghost use Rattle.wasm_core_types.specs.SubTypes.{sub_type};
    ghost use Rattle.wasm_encoder_sections.specs.CoreItems.{memory_type};
    ghost use Rattle.wasm_spec.specs.Syntax.{members};
    ghost use Rattle.wasm_smith_config.specs.Config.{sanitized};
    ghost use Rattle.wasm_smith_externs.specs.Named.{HasPlainName, all_named, have_same_names};
    ghost use Rattle.wasm_smith_definitions.specs.Items as views;
    ghost use Rattle.wasm_smith_shapes.specs.Imports.{import_entry};
    ghost use Rattle.wasm_smith_validity.specs.MadeBodies.{is_raw_at};
    ghost use Rattle.wasm_smith_sections.specs.ModuleEncoding.{IsModuleEncoding, IsUnwritten};
    ghost use Rattle.wasm_smith_sections.specs.ModuleItems.{made_of};
    ghost use Rattle.wasm_smith_types.specs.Drawing.{total};
    ghost use Rattle.wasm_smith_types.specs.Given.{import_shape};
    ghost use Rattle.wasm_smith_validity.specs.ValidGroups.{types_of};
    ghost use Rattle.wasm_smith_module.specs.ArbitraryModules.{IsArbitraryModule, IsArbitraryReason};
    ghost use Rattle.wasm_smith_module.specs.Generating.{HasFront, front_at};
    ghost use Rattle.wasm_smith_module.specs.Promise.{HasDrawnData, IsMadeFor, IsReason, IsBadConfig, PassesTypes};
    ghost use Rattle.wasm_smith_module.specs.TrueToShapes.{TakesImports};

    /// Returns the module that is drawn from the source, for the configuration put in order ([`Config::sanitize`]) and true to its shapes. Two imports may
    /// have the same names.
    ///
    /// # Errors
    ///
    /// [`Error::BadConfig`] names a field whose value [`Config::check`] doesn't allow, and [`Error::BadShape`] the part of a shape that
    /// [`Shape::check`](wasm_smith_shapes::shape::Shape::check) doesn't allow, or `together` for two shapes with two tables or two memories where several aren't
    /// enabled; no bytes are taken then. [`Error::IncorrectFormat`] is for items that are owed though none can be made: imports, tags, functions, exports, or
    /// segments, and types where `module_shape` has fewer. [`Error::EmptyChoose`] is for a shape's table or global of references that can't be null, where there is
    /// no constant of its type. [`Error::TypeSize`] is for exports of everything where the types of all imports and exports are larger together than is allowed. After
    /// these, and after [`Error::Memory`], some of the source's bytes may be taken.
    pub fn new(
        alloc: alloc::Global,
        config: Config,
        unstructured: &mut Unstructured<'_>,
    ) -> Result<Module, Error>
        ensures made { IfOk result (IsMadeFor (sanitized config)) }
        ensures drawn { IfOk result (λ m. IfSome (front_at (sanitized config) unstructured.old) (λ drawn. HasFront (sanitized config) drawn m.made unstructured.new)) }
        ensures imports { IfOk result (λ m. TakesImports (sanitized config) unstructured.old m.made) }
        ensures plain { IfOk result (λ m. import_shape m.config ≡ None → AllByRecursion HasPlainName (all_named m.made.imports)) }
        ensures contents { IfOk result (λ m. HasDrawnData unstructured.old unstructured.new m.made) }
        ensures taken { length unstructured.new ≤ length unstructured.old }
        ensures refused { IfErr result (IsReason (sanitized config)) }
        ensures unread { IfErr result (λ e. IsBadConfig e → unstructured.new ≡ unstructured.old) }
    {
        Module::new_internal(
            alloc,
            config,
            DuplicateImportsBehavior::Allowed,
            unstructured,
        )
    }

    /// Returns a module that is drawn from the source, as [`Module::new`] does, for a configuration that is drawn from it first
    /// ([`Config::arbitrary`]).
    ///
    /// # Errors
    ///
    /// [`Error::TypeSize`] where the drawn configuration asks for exports of everything, whose types are too large, and [`Error::Memory`]: a
    /// drawn configuration is allowed, and has no minimum above 0. Some of the source's bytes are taken then.
    pub fn arbitrary(
        alloc: alloc::Global,
        unstructured: &mut Unstructured<'_>,
    ) -> Result<Module, Error>
        ensures made { IfOk result (IsArbitraryModule unstructured.old unstructured.new) }
        ensures plain { IfOk result (λ m. AllByRecursion HasPlainName (all_named m.made.imports)) }
        ensures contents { IfOk result (λ m. HasDrawnData unstructured.old unstructured.new m.made) }
        ensures taken { length unstructured.new ≤ length unstructured.old }
        ensures refused { IfErr result (IsArbitraryReason unstructured.old unstructured.new) }
        ensures nothing_owed { IfErr result (λ e. e ≢ Error.IncorrectFormat) }
    {
        let config = Config::arbitrary(unstructured);
        Module::new(alloc, config, unstructured)
    }

    /// Returns the module that is drawn, as [`Module::new`] does, where two imports may have the same names or may not.
    ///
    /// # Errors
    ///
    /// Those of [`Module::new`].
    pub fn new_internal(
        alloc: alloc::Global,
        config: Config,
        duplicates: DuplicateImportsBehavior,
        unstructured: &mut Unstructured<'_>,
    ) -> Result<Module, Error>
        ensures made { IfOk result (IsMadeFor (sanitized config)) }
        ensures drawn { IfOk result (λ m. IfSome (front_at (sanitized config) unstructured.old) (λ drawn. HasFront (sanitized config) drawn m.made unstructured.new)) }
        ensures imports { IfOk result (λ m. TakesImports (sanitized config) unstructured.old m.made) }
        ensures distinct { IfOk result (λ m. import_shape m.config ≡ None → duplicates ≡ DuplicateImportsBehavior.Disallowed → IsDistinct have_same_names (all_named m.made.imports)) }
        ensures plain { IfOk result (λ m. import_shape m.config ≡ None → duplicates ≡ DuplicateImportsBehavior.Allowed → AllByRecursion HasPlainName (all_named m.made.imports)) }
        ensures contents { IfOk result (λ m. HasDrawnData unstructured.old unstructured.new m.made) }
        ensures taken { length unstructured.new ≤ length unstructured.old }
        ensures refused { IfErr result (IsReason (sanitized config)) }
        ensures unread { IfErr result (λ e. IsBadConfig e → unstructured.new ≡ unstructured.old) }
    {
        let made = Module::new_bounded(alloc, config, duplicates, unstructured, u32::MAX)?;
        Ok(made.unwrap())
    }

    /// Returns the module that is drawn, as [`Module::new`] does; `None` as soon as more than `most_types` types are made and
    /// asked for.
    ///
    /// # Errors
    ///
    /// Those of [`Module::new`].
    pub fn new_within(
        alloc: alloc::Global,
        config: Config,
        unstructured: &mut Unstructured<'_>,
        most_types: u32,
    ) -> Result<Option<Module>, Error>
        ensures made { IfOk result (λ made. IfSome made (IsMadeFor (sanitized config))) }
        ensures drawn { IfOk result (λ made. IfSome made (λ m. IfSome (front_at (sanitized config) unstructured.old) (λ drawn. HasFront (sanitized config) drawn m.made unstructured.new))) }
        ensures imports { IfOk result (λ made. IfSome made (λ m. TakesImports (sanitized config) unstructured.old m.made)) }
        ensures plain { IfOk result (λ made. IfSome made (λ m. import_shape m.config ≡ None → AllByRecursion HasPlainName (all_named m.made.imports))) }
        ensures within { IfOk result (λ made. IfSome made (λ m. length (types_of m.made.groups) ≤ most_types)) }
        ensures passed { IfOk result (λ made. IfNone made (PassesTypes (sanitized config) unstructured.old most_types)) }
        ensures contents { IfOk result (λ made. IfSome made (λ m. HasDrawnData unstructured.old unstructured.new m.made)) }
        ensures taken { length unstructured.new ≤ length unstructured.old }
        ensures refused { IfErr result (IsReason (sanitized config)) }
        ensures unread { IfErr result (λ e. IsBadConfig e → unstructured.new ≡ unstructured.old) }
    {
        let duplicates = DuplicateImportsBehavior::Allowed;
        Module::new_bounded(alloc, config, duplicates, unstructured, most_types)
    }

    // Returns the module that is drawn; `None` as soon as more than `most_types` types are made and asked for.
    fn new_bounded(
        alloc: alloc::Global,
        mut config: Config,
        duplicates: DuplicateImportsBehavior,
        unstructured: &mut Unstructured<'_>,
        most_types: u32,
    ) -> Result<Option<Module>, Error>
        ensures made { IfOk result (λ made. IfSome made (IsMadeFor (sanitized config))) }
        ensures drawn { IfOk result (λ made. IfSome made (λ m. IfSome (front_at (sanitized config) unstructured.old) (λ drawn. HasFront (sanitized config) drawn m.made unstructured.new))) }
        ensures imports { IfOk result (λ made. IfSome made (λ m. TakesImports (sanitized config) unstructured.old m.made)) }
        ensures distinct { IfOk result (λ made. IfSome made (λ m. import_shape m.config ≡ None → duplicates ≡ DuplicateImportsBehavior.Disallowed → IsDistinct have_same_names (all_named m.made.imports))) }
        ensures plain { IfOk result (λ made. IfSome made (λ m. import_shape m.config ≡ None → duplicates ≡ DuplicateImportsBehavior.Allowed → AllByRecursion HasPlainName (all_named m.made.imports))) }
        ensures within { IfOk result (λ made. IfSome made (λ m. length (types_of m.made.groups) ≤ most_types)) }
        ensures passed { IfOk result (λ made. IfNone made (PassesTypes (sanitized config) unstructured.old most_types)) }
        ensures contents { IfOk result (λ made. IfSome made (λ m. HasDrawnData unstructured.old unstructured.new m.made)) }
        ensures taken { length unstructured.new ≤ length unstructured.old }
        ensures refused { IfErr result (IsReason (sanitized config)) }
        ensures unread { IfErr result (λ e. IsBadConfig e → unstructured.new ≡ unstructured.old) }
    {
        config.sanitize();
        config.check()?;
        check_shapes(alloc, &config)?;
        build(alloc, config, duplicates, unstructured, most_types)
    }

    /// Returns the configuration that it was made for, put in order.
    pub fn config(&self) -> &Config
        ensures { result.now ≡ self.now.config }
    {
        &self.config
    }

    /// Returns the types of all groups, by type index.
    pub fn types(&self) -> &[SubType]
        ensures { map sub_type result.now ≡ types_of self.now.made.groups }
    {
        self.types.types()
    }

    /// Returns the number of types of each group.
    pub fn group_sizes(&self) -> &[u32]
        ensures { result.now ≡ map (λ group. length (members group)) self.now.made.groups }
    {
        self.types.sizes()
    }

    /// Returns the entries of the import section.
    pub fn imports(&self) -> &[ImportEntry]
        ensures { map import_entry result.now ≡ self.now.made.imports }
    {
        &self.imports
    }

    /// Returns the type index of each function.
    pub fn funcs(&self) -> &[u32]
        ensures { result.now ≡ self.now.made.funcs }
    {
        &self.funcs
    }

    /// Returns the tables that it defines.
    pub fn tables(&self) -> &[Table]
        ensures { map views.table result.now ≡ self.now.made.tables }
    {
        &self.tables
    }

    /// Returns the memories that it defines.
    pub fn memories(&self) -> &[MemoryType]
        ensures { map memory_type result.now ≡ self.now.made.memories }
    {
        &self.memories
    }

    /// Returns the type index of each tag that it defines.
    pub fn tags(&self) -> &[u32]
        ensures { result.now ≡ self.now.made.tags }
    {
        &self.tags
    }

    /// Returns the globals that it defines.
    pub fn globals(&self) -> &[Global]
        ensures { map views.global result.now ≡ self.now.made.globals }
    {
        &self.globals
    }

    /// Returns its exports.
    pub fn exports(&self) -> &[Export]
        ensures { map views.export result.now ≡ self.now.made.exports }
    {
        &self.exports
    }

    /// Returns the index of the function that it starts with.
    pub fn start(&self) -> Option<u32>
        ensures { result ≡ self.now.made.start }
    {
        self.start
    }

    /// Returns its element segments.
    pub fn elems(&self) -> &[ElementSegment]
        ensures { map views.element_segment result.now ≡ self.now.made.elems }
    {
        &self.elems
    }

    /// Returns its data segments.
    pub fn data(&self) -> &[DataSegment]
        ensures { map views.data_segment result.now ≡ self.now.made.data_segments }
    {
        &self.data_segments
    }

    /// Returns the body of each function that it defines.
    pub fn bodies(&self) -> &[Code]
        ensures { map views.made_body result.now ≡ self.now.made.bodies }
    {
        &self.bodies
    }

    /// Returns true if the body of this function, by its number among those that the module defines, has raw bytes.
    pub fn is_raw_body(&self, function: usize) -> bool
        ensures { result ≡ is_raw_at self.now.made.bodies function }
    {
        match self.bodies.get(function) {
            Some(body) => is_raw(&body.instructions),
            None => false,
        }
    }

    /// Returns its custom sections, in the order in which they were drawn.
    pub fn custom_sections(&self) -> &[CustomSection]
        ensures { map views.placed_custom result.now ≡ self.now.made.customs }
    {
        &self.customs
    }

    /// Returns its items, as they are written: with bulk memory, data segments are counted.
    pub fn items(&self) -> ModuleItems<'_>
        ensures items { made_of result ≡ self.now.made }
        ensures whole { total result.sizes.now ≡ length result.types.now }
        ensures counted { result.data_count ≡ self.now.config.bulk_memory_enabled }
    {
        let types = &self.types;
        ModuleItems {
            types: types.types(),
            sizes: types.sizes(),
            imports: &self.imports,
            funcs: &self.funcs,
            tables: &self.tables,
            memories: &self.memories,
            tags: &self.tags,
            globals: &self.globals,
            exports: &self.exports,
            start: self.start,
            elems: &self.elems,
            data_segments: &self.data_segments,
            bodies: &self.bodies,
            customs: &self.customs,
            data_count: self.config.bulk_memory_enabled,
        }
    }

    /// Returns the bytes of the module: each section is measured, the bytes grow once, and then they are written.
    ///
    /// # Errors
    ///
    /// [`Error::TooLong`] where a count, a run of locals or a length is past 4,294,967,295, and else [`Error::Memory`].
    pub fn to_bytes(&self, alloc: alloc::Global) -> Result<Vec<u8>, Error>
        ensures written { IfOk result (λ bytes. IsModuleEncoding self.now.config.bulk_memory_enabled self.now.made bytes.items) }
        ensures refused { IfErr result (IsUnwritten self.now.config.bulk_memory_enabled self.now.made) }
    {
        let items = self.items();
        match write_module(alloc, &items) {
            Ok(bytes) => Ok(bytes),
            Err(EncodeError::Memory) => Err(Error::Memory),
            Err(EncodeError::TooLong) => Err(Error::TooLong),
        }
    }
}
