//! Parsers of modules.

ghost use Rattle.std.specs.Prelude.{◌≡◌, ◌+◌, ◌<◌, ◌^◌, length};
ghost use Rattle.wasm_core_types.specs.Features.{feature_set};
ghost use Rattle.wasm_spec.specs.Features.{default_features};
ghost use Rattle.wasmparser_payloads.specs.Parsing.{whole_module};

use crate::payloads::Payloads;
use std::marker::Model;
use wasm_core_read::binary_reader::BinaryReader;
use wasm_core_types::features::WasmFeatures;

/// A parser of modules. Contracts see it as the place of the module in its input, and the features under which it is
/// read.
#[derive(Clone, Debug, Drop)]
pub struct Parser {
    offset: u64,
    features: WasmFeatures,
}

impl Model for Parser {
    ghost use Rattle.wasm_core_types.specs.Features.{feature_set};
    ghost use Rattle.wasmparser_payloads.specs.Parsing.{Settings};

    ghost Value = { Settings };

    ghost view = { λ p. record { offset = p.offset; features = feature_set p.features } };
}

impl Parser {
    /// Creates a parser of a module whose first byte stands at `offset` of the input, under the default features.
    pub fn new(offset: u64) -> Parser
        ensures { result ≡ record { offset = offset; features = default_features } }
    {
        Parser {
            offset,
            features: WasmFeatures::default(),
        }
    }

    /// Sets the features under which operators and imports are read.
    pub fn set_features(&mut self, features: WasmFeatures)
        ensures { self.new ≡ record self.old { features = feature_set features } }
    {
        self.features = features;
    }

    /// Returns the place of the module in the input.
    pub fn offset(&self) -> u64
        ensures { result ≡ self.now.offset }
    {
        self.offset
    }

    /// Returns the features under which the module is read.
    pub fn features(&self) -> WasmFeatures
        ensures { feature_set result ≡ self.now.features }
    {
        self.features
    }

    /// Returns the payloads of a module's bytes, which end below 2^64 of the input. Nothing is read yet.
    pub fn parse_all<'a>(self, bytes: &'a [u8]) -> Payloads<'a>
        requires { self.offset + length bytes.now < 2 ^ 64 }
        ensures { result ≡ whole_module self bytes.now }
    {
        let mut reader = BinaryReader::new(bytes, self.offset);
        reader.set_features(self.features);
        let mut bodies = BinaryReader::new(&[], self.offset);
        bodies.set_features(self.features);
        Payloads::new(reader, bodies)
    }
}
