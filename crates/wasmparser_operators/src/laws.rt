//! Laws of reading operators. The functions do nothing: their contracts are theorems.

ghost use Rattle.wasm_bodies.specs.OperatorGrammar.{IsBlockType, IsCode, IsMemoryArgument, IsOperator};
ghost use Rattle.wasm_core_read.specs.Laws.{IsPrefixFree, ReadsExactly};
ghost use Rattle.wasm_spec.specs.Features.{Features};
ghost use Rattle.wasmparser_operators.specs.OperatorReading.{All, block_type_at, code_at, memory_argument_at, operator_at};

/// All that is read from bytes is an operator, and each operator is read, whatever follows it; and so of its code and of its parts.
pub fn reads_exactly()
    ensures operator { (features : Features) → ReadsExactly (IsOperator features) (operator_at features) }
    ensures code { ReadsExactly IsCode code_at }
    ensures block_type { (features : Features) → ReadsExactly (IsBlockType features) (block_type_at All features) }
    ensures memory_argument { (features : Features) → ReadsExactly (IsMemoryArgument features) (memory_argument_at features) }
{}

/// Bytes are an encoding of one operator at most, and no encoding of one is a proper prefix of another.
pub fn prefix_free()
    ensures { (features : Features) → IsPrefixFree (IsOperator features) }
{}
