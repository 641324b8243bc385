//! The features under which a module is read and validated.

ghost use Rattle.std.specs.Prelude.{⊤, ◌≡◌, ◌==◌, [], ◌∷◌, codes};
ghost use Rattle.std.specs.Int.RustNames.{bit_and};

pub use bitflags::Flags;
use bitflags::{Flag, bitflag_items};

/// A set of features.
#[derive(Clone, Copy, PartialEq, Eq, Debug)]
pub struct WasmFeatures(u32);

bitflag_items! {
    impl WasmFeatures: u32 {
        const MUTABLE_GLOBAL = 1;
        const SATURATING_FLOAT_TO_INT = 2;
        const SIGN_EXTENSION = 4;
        const REFERENCE_TYPES = 8;
        const MULTI_VALUE = 16;
        const BULK_MEMORY = 32;
        const SIMD = 64;
        const RELAXED_SIMD = 128;
        const THREADS = 256;
        const TAIL_CALL = 512;
        const FLOATS = 1024;
        const MULTI_MEMORY = 2048;
        const EXCEPTIONS = 4096;
        const MEMORY64 = 8192;
        const EXTENDED_CONST = 16384;
        const FUNCTION_REFERENCES = 32768;
        const GC = 65536;
        const GC_TYPES = 131072;
        const CUSTOM_PAGE_SIZES = 262144;
        const COMPACT_IMPORTS = 524288;
        const WIDE_ARITHMETIC = 1048576;
        const STACK_SWITCHING = 2097152;
    }
}

impl Flags for WasmFeatures {
    type Bits = u32;

    ghost exact = { ⊤ };

    ghost table = { (codes "MUTABLE_GLOBAL", 1)
        ∷ (codes "SATURATING_FLOAT_TO_INT", 2)
        ∷ (codes "SIGN_EXTENSION", 4)
        ∷ (codes "REFERENCE_TYPES", 8)
        ∷ (codes "MULTI_VALUE", 16)
        ∷ (codes "BULK_MEMORY", 32)
        ∷ (codes "SIMD", 64)
        ∷ (codes "RELAXED_SIMD", 128)
        ∷ (codes "THREADS", 256)
        ∷ (codes "TAIL_CALL", 512)
        ∷ (codes "FLOATS", 1024)
        ∷ (codes "MULTI_MEMORY", 2048)
        ∷ (codes "EXCEPTIONS", 4096)
        ∷ (codes "MEMORY64", 8192)
        ∷ (codes "EXTENDED_CONST", 16384)
        ∷ (codes "FUNCTION_REFERENCES", 32768)
        ∷ (codes "GC", 65536)
        ∷ (codes "GC_TYPES", 131072)
        ∷ (codes "CUSTOM_PAGE_SIZES", 262144)
        ∷ (codes "COMPACT_IMPORTS", 524288)
        ∷ (codes "WIDE_ARITHMETIC", 1048576)
        ∷ (codes "STACK_SWITCHING", 2097152)
        ∷ [] };

    ghost set_of = { λ f. f.0 };

    fn flags<'a>() -> &'a [Flag<WasmFeatures>] {
        WasmFeatures::FLAGS
    }

    fn bits(&self) -> u32 {
        self.0
    }

    fn from_bits_retain(bits: u32) -> WasmFeatures {
        WasmFeatures(bits)
    }
}

/// A question for each flag: whether it is in the set.
impl WasmFeatures {
    ghost use Rattle.wasm_core_types.specs.Features.{feature_set};
    ghost use Rattle.wasm_spec.specs.Features.{has, needs_type_canonicalization, MutableGlobal, SaturatingFloatToInt, SignExtension, ReferenceTypes, MultiValue, BulkMemory, Simd, RelaxedSimd, Threads, TailCall, Floats, MultiMemory, Exceptions, Memory64, ExtendedConst, FunctionReferences, Gc, GcTypes, CustomPageSizes, CompactImports, WideArithmetic, StackSwitching};

    /// Checks that [`MUTABLE_GLOBAL`](WasmFeatures::MUTABLE_GLOBAL) is on.
    pub fn mutable_global(&self) -> bool
        ensures { result ≡ has (feature_set self.now) MutableGlobal }
    {
        self.contains(WasmFeatures::MUTABLE_GLOBAL)
    }

    /// Checks that [`SATURATING_FLOAT_TO_INT`](WasmFeatures::SATURATING_FLOAT_TO_INT) is on.
    pub fn saturating_float_to_int(&self) -> bool
        ensures { result ≡ has (feature_set self.now) SaturatingFloatToInt }
    {
        self.contains(WasmFeatures::SATURATING_FLOAT_TO_INT)
    }

    /// Checks that [`SIGN_EXTENSION`](WasmFeatures::SIGN_EXTENSION) is on.
    pub fn sign_extension(&self) -> bool
        ensures { result ≡ has (feature_set self.now) SignExtension }
    {
        self.contains(WasmFeatures::SIGN_EXTENSION)
    }

    /// Checks that [`REFERENCE_TYPES`](WasmFeatures::REFERENCE_TYPES) is on.
    pub fn reference_types(&self) -> bool
        ensures { result ≡ has (feature_set self.now) ReferenceTypes }
    {
        self.contains(WasmFeatures::REFERENCE_TYPES)
    }

    /// Checks that [`MULTI_VALUE`](WasmFeatures::MULTI_VALUE) is on.
    pub fn multi_value(&self) -> bool
        ensures { result ≡ has (feature_set self.now) MultiValue }
    {
        self.contains(WasmFeatures::MULTI_VALUE)
    }

    /// Checks that [`BULK_MEMORY`](WasmFeatures::BULK_MEMORY) is on.
    pub fn bulk_memory(&self) -> bool
        ensures { result ≡ has (feature_set self.now) BulkMemory }
    {
        self.contains(WasmFeatures::BULK_MEMORY)
    }

    /// Checks that [`SIMD`](WasmFeatures::SIMD) is on.
    pub fn simd(&self) -> bool
        ensures { result ≡ has (feature_set self.now) Simd }
    {
        self.contains(WasmFeatures::SIMD)
    }

    /// Checks that [`RELAXED_SIMD`](WasmFeatures::RELAXED_SIMD) is on.
    pub fn relaxed_simd(&self) -> bool
        ensures { result ≡ has (feature_set self.now) RelaxedSimd }
    {
        self.contains(WasmFeatures::RELAXED_SIMD)
    }

    /// Checks that [`THREADS`](WasmFeatures::THREADS) is on.
    pub fn threads(&self) -> bool
        ensures { result ≡ has (feature_set self.now) Threads }
    {
        self.contains(WasmFeatures::THREADS)
    }

    /// Checks that [`TAIL_CALL`](WasmFeatures::TAIL_CALL) is on.
    pub fn tail_call(&self) -> bool
        ensures { result ≡ has (feature_set self.now) TailCall }
    {
        self.contains(WasmFeatures::TAIL_CALL)
    }

    /// Checks that [`FLOATS`](WasmFeatures::FLOATS) is on.
    pub fn floats(&self) -> bool
        ensures { result ≡ has (feature_set self.now) Floats }
    {
        self.contains(WasmFeatures::FLOATS)
    }

    /// Checks that [`MULTI_MEMORY`](WasmFeatures::MULTI_MEMORY) is on.
    pub fn multi_memory(&self) -> bool
        ensures { result ≡ has (feature_set self.now) MultiMemory }
    {
        self.contains(WasmFeatures::MULTI_MEMORY)
    }

    /// Checks that [`EXCEPTIONS`](WasmFeatures::EXCEPTIONS) is on.
    pub fn exceptions(&self) -> bool
        ensures { result ≡ has (feature_set self.now) Exceptions }
    {
        self.contains(WasmFeatures::EXCEPTIONS)
    }

    /// Checks that [`MEMORY64`](WasmFeatures::MEMORY64) is on.
    pub fn memory64(&self) -> bool
        ensures { result ≡ has (feature_set self.now) Memory64 }
    {
        self.contains(WasmFeatures::MEMORY64)
    }

    /// Checks that [`EXTENDED_CONST`](WasmFeatures::EXTENDED_CONST) is on.
    pub fn extended_const(&self) -> bool
        ensures { result ≡ has (feature_set self.now) ExtendedConst }
    {
        self.contains(WasmFeatures::EXTENDED_CONST)
    }

    /// Checks that [`FUNCTION_REFERENCES`](WasmFeatures::FUNCTION_REFERENCES) is on.
    pub fn function_references(&self) -> bool
        ensures { result ≡ has (feature_set self.now) FunctionReferences }
    {
        self.contains(WasmFeatures::FUNCTION_REFERENCES)
    }

    /// Checks that [`GC`](WasmFeatures::GC) is on.
    pub fn gc(&self) -> bool
        ensures { result ≡ has (feature_set self.now) Gc }
    {
        self.contains(WasmFeatures::GC)
    }

    /// Checks that [`GC_TYPES`](WasmFeatures::GC_TYPES) is on.
    pub fn gc_types(&self) -> bool
        ensures { result ≡ has (feature_set self.now) GcTypes }
    {
        self.contains(WasmFeatures::GC_TYPES)
    }

    /// Checks that [`CUSTOM_PAGE_SIZES`](WasmFeatures::CUSTOM_PAGE_SIZES) is on.
    pub fn custom_page_sizes(&self) -> bool
        ensures { result ≡ has (feature_set self.now) CustomPageSizes }
    {
        self.contains(WasmFeatures::CUSTOM_PAGE_SIZES)
    }

    /// Checks that [`COMPACT_IMPORTS`](WasmFeatures::COMPACT_IMPORTS) is on.
    pub fn compact_imports(&self) -> bool
        ensures { result ≡ has (feature_set self.now) CompactImports }
    {
        self.contains(WasmFeatures::COMPACT_IMPORTS)
    }

    /// Checks that [`WIDE_ARITHMETIC`](WasmFeatures::WIDE_ARITHMETIC) is on.
    pub fn wide_arithmetic(&self) -> bool
        ensures { result ≡ has (feature_set self.now) WideArithmetic }
    {
        self.contains(WasmFeatures::WIDE_ARITHMETIC)
    }

    /// Checks that [`STACK_SWITCHING`](WasmFeatures::STACK_SWITCHING) is on.
    pub fn stack_switching(&self) -> bool
        ensures { result ≡ has (feature_set self.now) StackSwitching }
    {
        self.contains(WasmFeatures::STACK_SWITCHING)
    }

    /// Checks that types are canonicalised under these features: two equal definitions are then one type.
    pub fn needs_type_canonicalization(&self) -> bool
        ensures { result ≡ needs_type_canonicalization (feature_set self.now) }
    {
        self.function_references() || self.gc() || self.stack_switching()
    }
}

/// The features that are on where nothing else is said: all but custom page sizes, compact imports, wide
/// arithmetic and stack switching.
impl Default for WasmFeatures {
    ghost use Rattle.wasm_core_types.specs.Features.{feature_set};
    ghost use Rattle.wasm_spec.specs.Features.{default_features};

    ghost is_default = { λ f. feature_set f ≡ default_features };

    fn default() -> WasmFeatures {
        WasmFeatures(0x3_ffff)
    }
}
