//! Worked examples of element segments that name their table and the type of their items, and of items that are what globals hold.

ghost use Rattle.std.specs.Prelude.{◌≡◌, ◌++◌, ℕ, Bool, List, [], ◌∷◌, Some, None, false, pos, true};
ghost use Rattle.wasm_spec.specs.Constants.{GlobalGet, I32Const, RefFunc, RefNull};
ghost use Rattle.wasm_spec.specs.Features.{BulkMemory, Features, Gc, GcTypes, ReferenceTypes, has};
ghost use Rattle.wasm_spec.specs.Grammar.{header};
ghost use Rattle.wasm_spec.specs.Syntax.{ActiveElement, DeclaredElement, ElementSection, ExpressionItems, PassiveElement, TableSection};
ghost use Rattle.wasm_spec.specs.Types.{Abstract, Extern, Func, GlobalExternal, Ref, funcref};
ghost use Rattle.wasm_spec_examples.specs.Examples.{at_least};
ghost use Rattle.wasm_validity.specs.Context.{after, after_all, at_first};
ghost use Rattle.wasm_validity.specs.Entries.{IsItem, OfElement, OfFunction};
ghost use Rattle.wasm_validity.specs.Validity.{BeginsInvalid};
ghost use Rattle.wasm_validity_examples.specs.ConstantExamples.{element, element_of, function_globals, globals, i32_number, i64_number};
ghost use Rattle.wasm_validity_examples.specs.Examples.{IsBroken, IsFine, KeptWith, constant, imports, one_table, own_table, reference, table_of, wide, with_types};

use wasm_spec_examples::grammar_examples::{element_segments, tables_and_globals};

/// The form of element segments with all parts: the flags 6, a table, an offset, a type and expressions. The table is what its index says.
pub fn written_tables()
    ensures bytes { (compact : Bool) → IsItem compact 9 (0x06 ∷ 0x03 ∷ 0x41 ∷ 0x00 ∷ 0x0b ∷ 0x70 ∷ 0x01 ∷ 0xd2 ∷ 0x05 ∷ 0x0b ∷ [])
        (OfElement (record { mode = ActiveElement (Some 3) (I32Const (pos 0) ∷ []); items = ExpressionItems funcref ((RefFunc 5 ∷ []) ∷ []) })) }
    ensures second { KeptWith (ReferenceTypes ∷ GcTypes ∷ []) (after_all at_first (own_table funcref (at_least 1) ∷ own_table (reference true (Abstract Extern)) (at_least 1) ∷ []))
        (element (ActiveElement (Some 1) (i32_number ∷ [])) (ExpressionItems (reference true (Abstract Extern)) ((RefNull (Abstract Extern) ∷ []) ∷ []))) }
    ensures first { IsBroken (after_all at_first (own_table funcref (at_least 1) ∷ own_table (reference true (Abstract Extern)) (at_least 1) ∷ []))
        (element (ActiveElement (Some 0) (i32_number ∷ [])) (ExpressionItems (reference true (Abstract Extern)) ((RefNull (Abstract Extern) ∷ []) ∷ []))) }
    ensures functions_in_the_first { KeptWith (ReferenceTypes ∷ []) (after_all at_first (own_table funcref (at_least 1) ∷ own_table (reference true (Abstract Extern)) (at_least 1) ∷ []))
        (element (ActiveElement (Some 0) (i32_number ∷ [])) (ExpressionItems funcref ((RefNull (Abstract Func) ∷ []) ∷ []))) }
    ensures functions_in_the_second { IsBroken (after_all at_first (own_table funcref (at_least 1) ∷ own_table (reference true (Abstract Extern)) (at_least 1) ∷ []))
        (element (ActiveElement (Some 1) (i32_number ∷ [])) (ExpressionItems funcref ((RefNull (Abstract Func) ∷ []) ∷ []))) }
    ensures third { IsBroken (after_all at_first (own_table funcref (at_least 1) ∷ own_table (reference true (Abstract Extern)) (at_least 1) ∷ []))
        (element (ActiveElement (Some 2) (i32_number ∷ [])) (ExpressionItems funcref [])) }
    ensures wrong_item { IsBroken (after_all at_first (own_table funcref (at_least 1) ∷ own_table (reference true (Abstract Extern)) (at_least 1) ∷ []))
        (element (ActiveElement (Some 1) (i32_number ∷ [])) (ExpressionItems (reference true (Abstract Extern)) ((RefNull (Abstract Func) ∷ []) ∷ []))) }
{
    element_segments();
}

/// Offsets and items of such segments, and that a table is written changes nothing where it is the first.
pub fn parts_of_segments()
    ensures wide { KeptWith (ReferenceTypes ∷ []) (after_all at_first (own_table funcref (at_least 1) ∷ own_table funcref (wide (at_least 1)) ∷ []))
        (element (ActiveElement (Some 1) (i64_number ∷ [])) (ExpressionItems funcref [])) }
    ensures small_offset { IsBroken (after_all at_first (own_table funcref (at_least 1) ∷ own_table funcref (wide (at_least 1)) ∷ []))
        (element (ActiveElement (Some 1) (i32_number ∷ [])) (ExpressionItems funcref [])) }
    ensures written { KeptWith (ReferenceTypes ∷ []) (with_types (OfFunction 0 ∷ own_table funcref (at_least 1) ∷ []))
        (element (ActiveElement (Some 0) (i32_number ∷ [])) (ExpressionItems funcref ((RefFunc 0 ∷ []) ∷ []))) }
    ensures no_function { IsBroken (with_types (OfFunction 0 ∷ own_table funcref (at_least 1) ∷ []))
        (element (ActiveElement (Some 0) (i32_number ∷ [])) (ExpressionItems funcref ((RefFunc 1 ∷ []) ∷ []))) }
    ensures no_table { IsBroken at_first (element (ActiveElement (Some 0) (i32_number ∷ [])) (ExpressionItems funcref [])) }
{}

/// Modules with such a segment of no items: valid where its table holds references of its type, and else invalid by their bytes.
pub fn modules_with_tables()
    ensures valid { (features : Features) → has features ReferenceTypes ≡ true → has features GcTypes ≡ true → IsFine features
        (TableSection (one_table ∷ record { type = table_of (reference true (Abstract Extern)) (at_least 1); initialiser = None } ∷ [])
        ∷ ElementSection (record { mode = ActiveElement (Some 1) (i32_number ∷ []); items = ExpressionItems (reference true (Abstract Extern)) [] } ∷ []) ∷ []) }
    ensures other_table { (features : Features) → ¬ (IsFine features
        (TableSection (one_table ∷ record { type = table_of (reference true (Abstract Extern)) (at_least 1); initialiser = None } ∷ [])
        ∷ ElementSection (record { mode = ActiveElement (Some 0) (i32_number ∷ []); items = ExpressionItems (reference true (Abstract Extern)) [] } ∷ []) ∷ [])) }
    ensures by_bytes { (features : Features) (rest : List ℕ) → BeginsInvalid features
        (header ++ (0x04 ∷ 0x04 ∷ 0x01 ∷ 0x70 ∷ 0x00 ∷ 0x01 ∷ 0x09 ∷ 0x08 ∷ 0x01 ∷ 0x06 ∷ 0x00 ∷ 0x41 ∷ 0x00 ∷ 0x0b ∷ 0x6f ∷ 0x00 ∷ rest)) }
{
    tables_and_globals();
}

/// What a global holds as an item: of one that is there, is never written to, and has a type below that of the items.
pub fn items_from_globals()
    ensures imported { KeptWith (ReferenceTypes ∷ []) (after function_globals (own_table funcref (at_least 1))) (element_of (ExpressionItems funcref ((GlobalGet 0 ∷ []) ∷ []))) }
    ensures variable { IsBroken (after function_globals (own_table funcref (at_least 1))) (element_of (ExpressionItems funcref ((GlobalGet 1 ∷ []) ∷ []))) }
    ensures own { KeptWith (ReferenceTypes ∷ Gc ∷ []) (after function_globals (own_table funcref (at_least 1))) (element_of (ExpressionItems funcref ((GlobalGet 2 ∷ []) ∷ []))) }
    ensures none { IsBroken (after function_globals (own_table funcref (at_least 1))) (element_of (ExpressionItems funcref ((GlobalGet 3 ∷ []) ∷ []))) }
    ensures number { IsBroken (after globals (own_table funcref (at_least 1))) (element_of (ExpressionItems funcref ((GlobalGet 0 ∷ []) ∷ []))) }
    ensures second { IsBroken (after function_globals (own_table funcref (at_least 1))) (element_of (ExpressionItems funcref ((GlobalGet 0 ∷ []) ∷ (GlobalGet 1 ∷ []) ∷ []))) }
    ensures two { IsBroken (after function_globals (own_table funcref (at_least 1))) (element_of (ExpressionItems funcref ((GlobalGet 0 ∷ GlobalGet 0 ∷ []) ∷ []))) }
{}

/// Types of such items, in segments of every mode.
pub fn types_from_globals()
    ensures not_null { KeptWith (ReferenceTypes ∷ []) (after_all at_first (imports (GlobalExternal (constant (Ref false (Abstract Func)))) ∷ own_table funcref (at_least 1) ∷ [])) (element_of (ExpressionItems funcref ((GlobalGet 0 ∷ []) ∷ []))) }
    ensures null_for_none { IsBroken function_globals (element PassiveElement (ExpressionItems (reference false (Abstract Func)) ((GlobalGet 0 ∷ []) ∷ []))) }
    ensures other_kind { IsBroken function_globals (element PassiveElement (ExpressionItems (reference true (Abstract Extern)) ((GlobalGet 0 ∷ []) ∷ []))) }
    ensures passive { KeptWith (ReferenceTypes ∷ BulkMemory ∷ []) function_globals (element PassiveElement (ExpressionItems funcref ((GlobalGet 0 ∷ []) ∷ []))) }
    ensures passive_variable { IsBroken function_globals (element PassiveElement (ExpressionItems funcref ((GlobalGet 1 ∷ []) ∷ []))) }
    ensures declared { KeptWith (ReferenceTypes ∷ BulkMemory ∷ []) function_globals (element DeclaredElement (ExpressionItems funcref ((GlobalGet 0 ∷ []) ∷ []))) }
    ensures declared_none { IsBroken function_globals (element DeclaredElement (ExpressionItems funcref ((GlobalGet 3 ∷ []) ∷ []))) }
{}
