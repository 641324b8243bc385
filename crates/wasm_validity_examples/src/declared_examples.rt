//! Worked examples of the functions that are declared outside of bodies, and of data counts.

ghost use Rattle.std.specs.Prelude.{◌≡◌, ◌≢◌, ◌++◌, ℕ, List, [], ◌∷◌, None, Some, false, true};
ghost use Rattle.wasm_spec.specs.Constants.{ArrayNewFixed, GlobalGet, RefFunc, RefNull};
ghost use Rattle.wasm_spec.specs.Syntax.{ActiveData, ActiveElement, DataMode, DeclaredElement, ElementMode, ExpressionItems, FunctionItems, PassiveData, PassiveElement};
ghost use Rattle.wasm_spec.specs.Types.{Abstract, Concrete, ExternalType, Func, FuncExternal, FuncKind, GlobalKind, MemoryKind, Ref, TableKind, TagKind, funcref};
ghost use Rattle.wasm_validity.specs.Context.{Context, after, after_all, at_first};
ghost use Rattle.wasm_validity.specs.Entries.{Entry, OfBody, OfCustom, OfDataCount, OfFunction, OfStart};
ghost use Rattle.wasm_validity_examples.specs.ConstantExamples.{element, i32_number, own_global, segment, table_from};
ghost use Rattle.wasm_validity_examples.specs.Examples.{constant, exports, imports};

/// Exports declare the functions that they name, and no item of another kind. That a function is there, or is the start function, declares nothing, and
/// nor does what is in a body.
pub fn exported_functions()
    ensures none { (function : ℕ) → at_first.declared function ≡ false }
    ensures exported { (after at_first (exports (97 ∷ []) FuncKind 2)).declared 2 ≡ true }
    ensures other { (function : ℕ) → function ≢ 2 → (after at_first (exports (97 ∷ []) FuncKind 2)).declared function ≡ false }
    ensures table { (cx : Context) → (after cx (exports (97 ∷ []) TableKind 2)).declared ≡ cx.declared }
    ensures memory { (cx : Context) → (after cx (exports (97 ∷ []) MemoryKind 2)).declared ≡ cx.declared }
    ensures global { (cx : Context) → (after cx (exports (97 ∷ []) GlobalKind 2)).declared ≡ cx.declared }
    ensures tag { (cx : Context) → (after cx (exports (97 ∷ []) TagKind 2)).declared ≡ cx.declared }
    ensures imported { (cx : Context) (index : ℕ) → (after cx (imports (FuncExternal index))).declared ≡ cx.declared }
    ensures own { (cx : Context) (index : ℕ) → (after cx (OfFunction index)).declared ≡ cx.declared }
    ensures start { (cx : Context) (function : ℕ) → (after cx (OfStart function)).declared ≡ cx.declared }
    ensures body { (cx : Context) (body : List ℕ) → (after cx (OfBody body)).declared ≡ cx.declared }
    ensures two { (after_all at_first (exports (97 ∷ []) FuncKind 2 ∷ exports (98 ∷ []) FuncKind 0 ∷ [])).declared 2 ≡ true }
    ensures between { (after_all at_first (exports (97 ∷ []) FuncKind 2 ∷ exports (98 ∷ []) FuncKind 0 ∷ [])).declared 1 ≡ false }
    ensures other_kinds { (after_all at_first (exports (97 ∷ []) TableKind 2 ∷ exports (98 ∷ []) MemoryKind 2 ∷ exports (99 ∷ []) GlobalKind 2 ∷ exports (100 ∷ []) TagKind 2 ∷ [])).declared 2 ≡ false }
{}

/// Segments of every mode and form declare the functions that are their items.
pub fn items_of_segments()
    ensures functions { (mode : ElementMode) (cx : Context) → (after cx (element mode (FunctionItems (4 ∷ 1 ∷ [])))).declared 1 ≡ true }
    ensures first { (mode : ElementMode) (cx : Context) → (after cx (element mode (FunctionItems (4 ∷ 1 ∷ [])))).declared 4 ≡ true }
    ensures other { (after at_first (element PassiveElement (FunctionItems (4 ∷ 1 ∷ [])))).declared 0 ≡ false }
    ensures expressions { (mode : ElementMode) (cx : Context) → (after cx (element mode (ExpressionItems funcref ((RefFunc 4 ∷ []) ∷ (RefFunc 1 ∷ []) ∷ [])))).declared 1 ≡ true }
    ensures first_expression { (mode : ElementMode) (cx : Context) → (after cx (element mode (ExpressionItems funcref ((RefFunc 4 ∷ []) ∷ (RefFunc 1 ∷ []) ∷ [])))).declared 4 ≡ true }
    ensures no_names { (after at_first (element DeclaredElement (ExpressionItems funcref ((RefNull (Abstract Func) ∷ []) ∷ (GlobalGet 3 ∷ []) ∷ [])))).declared 3 ≡ false }
    ensures still { (mode : ElementMode) → (after_all at_first (exports (97 ∷ []) FuncKind 2 ∷ element mode (FunctionItems (4 ∷ [])) ∷ [])).declared 2 ≡ true }
    ensures table { (after at_first (element (ActiveElement (Some 3) (i32_number ∷ [])) (FunctionItems (4 ∷ [])))).declared 3 ≡ false }
{}

/// Constant expressions declare the functions that they name, wherever they stand and whatever becomes of the reference.
pub fn expressions()
    ensures global { (cx : Context) → (after cx (own_global (constant (Ref true (Abstract Func))) (RefFunc 3 ∷ []))).declared 3 ≡ true }
    ensures other { (after at_first (own_global (constant (Ref true (Abstract Func))) (RefFunc 3 ∷ []))).declared 0 ≡ false }
    ensures table { (cx : Context) → (after cx (table_from funcref (RefFunc 3 ∷ []))).declared 3 ≡ true }
    ensures operands { (cx : Context) (index : ℕ) → (after cx (own_global (constant (Ref true (Abstract Func))) (RefFunc 3 ∷ RefFunc 5 ∷ ArrayNewFixed index 2 ∷ []))).declared 5 ≡ true }
    ensures first_operand { (cx : Context) (index : ℕ) → (after cx (own_global (constant (Ref true (Abstract Func))) (RefFunc 3 ∷ RefFunc 5 ∷ ArrayNewFixed index 2 ∷ []))).declared 3 ≡ true }
    ensures named_type { (after at_first (own_global (constant (Ref true (Abstract Func))) (RefFunc 3 ∷ RefFunc 5 ∷ ArrayNewFixed 4 2 ∷ []))).declared 4 ≡ false }
    ensures null_type { (cx : Context) (index : ℕ) → (after cx (own_global (constant (Ref true (Concrete index))) (RefNull (Concrete index) ∷ []))).declared ≡ cx.declared }
    ensures named_global { (cx : Context) (index : ℕ) → (after cx (own_global (constant (Ref true (Abstract Func))) (GlobalGet index ∷ []))).declared ≡ cx.declared }
    ensures offset { (cx : Context) → (after cx (element (ActiveElement None (RefFunc 3 ∷ [])) (FunctionItems []))).declared 3 ≡ true }
    ensures place { (cx : Context) → (after cx (segment (ActiveData None (RefFunc 3 ∷ [])))).declared 3 ≡ true }
    ensures number { (cx : Context) → (after cx (segment (ActiveData None (i32_number ∷ [])))).declared ≡ cx.declared }
    ensures memory { (cx : Context) (index : ℕ) → (after cx (segment (ActiveData (Some index) (i32_number ∷ [])))).declared ≡ cx.declared }
{}

/// What was declared stays so, whatever declares more.
pub fn declared_before()
    ensures global { (after_all at_first (exports (97 ∷ []) FuncKind 2 ∷ own_global (constant (Ref true (Abstract Func))) (RefFunc 3 ∷ []) ∷ [])).declared 2 ≡ true }
    ensures table { (after_all at_first (exports (97 ∷ []) FuncKind 2 ∷ table_from funcref (RefFunc 3 ∷ []) ∷ [])).declared 2 ≡ true }
    ensures offset { (after_all at_first (exports (97 ∷ []) FuncKind 2 ∷ element (ActiveElement None (RefFunc 3 ∷ [])) (FunctionItems []) ∷ [])).declared 2 ≡ true }
    ensures place { (after_all at_first (exports (97 ∷ []) FuncKind 2 ∷ segment (ActiveData None (RefFunc 3 ∷ [])) ∷ [])).declared 2 ≡ true }
    ensures two { (after_all at_first (own_global (constant (Ref true (Abstract Func))) (RefFunc 3 ∷ []) ∷ table_from funcref (RefFunc 5 ∷ []) ∷ [])).declared 3 ≡ true }
{}

/// A data count is what its section says, and no count of the segments.
pub fn data_counts()
    ensures none { at_first.data_count ≡ None }
    ensures stated { (cx : Context) (count : ℕ) → (after cx (OfDataCount count)).data_count ≡ Some count }
    ensures segments { (cx : Context) (count : ℕ) → (after cx (OfDataCount count)).segments ≡ cx.segments }
    ensures segment { (cx : Context) (mode : DataMode) → (after cx (segment mode)).data_count ≡ cx.data_count }
    ensures later { (count : ℕ) (name : List ℕ) → (after_all at_first (OfDataCount count ∷ OfCustom name ∷ segment PassiveData ∷ [])).data_count ≡ Some count }
    ensures body { (cx : Context) (body : List ℕ) → (after cx (OfBody body)).data_count ≡ cx.data_count }
    ensures between { (count : ℕ) (body : List ℕ) → (after_all at_first (OfDataCount count ∷ OfBody body ∷ segment PassiveData ∷ [])).data_count ≡ Some count }
{}
