//! Copies of shapes.

ghost use Rattle.std.specs.Prelude.{◌≡◌, IfOk, map};
ghost use Rattle.std.specs.String.{string_bytes};
ghost use Rattle.wasm_core_types.specs.SubTypes.{sub_type};
ghost use Rattle.wasm_smith_shapes.specs.Imports.{import_entry, import_item};
ghost use Rattle.wasm_smith_shapes.specs.Shapes.{group_of, named_item};

use crate::copies::copied;
use crate::imports::{ImportEntry, ImportItem};
use crate::shape::{Shape, ShapeExport};
use std::alloc::{AllocError, Global};
use wasm_core_types::types::SubType;

fn group(alloc: Global, types: &[SubType]) -> Result<Vec<SubType>, AllocError>
    ensures { IfOk result (λ copy. map sub_type copy.items ≡ map sub_type types.now) }
{
    let mut copy = Vec::new(alloc);
    for type_ in types {
        copy.push(copied(alloc, type_)?)?;
    }
    Ok(copy)
}

fn groups(alloc: Global, groups: &[Vec<SubType>]) -> Result<Vec<Vec<SubType>>, AllocError>
    ensures { IfOk result (λ copy. map group_of copy.items ≡ map group_of groups.now) }
{
    let mut copy = Vec::new(alloc);
    for types in groups {
        copy.push(group(alloc, types)?)?;
    }
    Ok(copy)
}

fn items(alloc: Global, items: &[ImportItem]) -> Result<Vec<ImportItem>, AllocError>
    ensures { IfOk result (λ copy. map import_item copy.items ≡ map import_item items.now) }
{
    let mut copy = Vec::new(alloc);
    for item in items {
        let name = item.name.clone()?;
        copy.push(ImportItem { name, ty: item.ty })?;
    }
    Ok(copy)
}

fn names(alloc: Global, names: &[String]) -> Result<Vec<String>, AllocError>
    ensures { IfOk result (λ copy. map string_bytes copy.items ≡ map string_bytes names.now) }
{
    let mut copy = Vec::new(alloc);
    for name in names {
        copy.push(name.clone()?)?;
    }
    Ok(copy)
}

fn entry(alloc: Global, entry: &ImportEntry) -> Result<ImportEntry, AllocError>
    ensures { IfOk result (λ copy. import_entry copy ≡ import_entry entry.now) }
{
    Ok(match entry {
        ImportEntry::Single { module, name, ty } => ImportEntry::Single {
            module: module.clone()?,
            name: name.clone()?,
            ty: *ty,
        },
        ImportEntry::Compact1 {
            module,
            items: lent,
        } => ImportEntry::Compact1 {
            module: module.clone()?,
            items: items(alloc, lent)?,
        },
        ImportEntry::Compact2 {
            module,
            ty,
            names: lent,
        } => ImportEntry::Compact2 {
            module: module.clone()?,
            ty: *ty,
            names: names(alloc, lent)?,
        },
    })
}

fn entries(alloc: Global, entries: &[ImportEntry]) -> Result<Vec<ImportEntry>, AllocError>
    ensures { IfOk result (λ copy. map import_entry copy.items ≡ map import_entry entries.now) }
{
    let mut copy = Vec::new(alloc);
    for lent in entries {
        copy.push(entry(alloc, lent)?)?;
    }
    Ok(copy)
}

fn exports(alloc: Global, exports: &[ShapeExport]) -> Result<Vec<ShapeExport>, AllocError>
    ensures { IfOk result (λ copy. map named_item copy.items ≡ map named_item exports.now) }
{
    let mut copy = Vec::new(alloc);
    for export in exports {
        let name = export.name.clone()?;
        copy.push(ShapeExport {
            name,
            ty: export.ty,
        })?;
    }
    Ok(copy)
}

impl Shape {
    ghost use Rattle.std.specs.Prelude.{◌≡◌, IfOk};

    /// Returns a copy of this shape.
    ///
    /// # Errors
    /// Where memory runs out.
    pub fn try_clone(&self, alloc: Global) -> Result<Shape, AllocError>
        ensures { IfOk result (λ copy. copy ≡ self.now) }
    {
        let groups = groups(alloc, &self.groups)?;
        let imports = entries(alloc, &self.imports)?;
        let exports = exports(alloc, &self.exports)?;
        Ok(Shape {
            groups,
            imports,
            exports,
        })
    }
}
