//! Which tools made a module (Tool Conventions of WebAssembly, "Producers Section").

ghost use Rattle.std.specs.Prelude.{◌≡◌, ◌↔◌, ◌+◌, ◌≤◌, ◌⊎◌, ◌^◌, [], ◌∷◌, ◌++◌, codes, length, Err, IfOk, IfErr};
ghost use Rattle.wasm_encoder_custom.specs.CustomSections.{custom_content};
ghost use Rattle.wasm_encoder_custom.specs.KeptProducers.{producer_value_bytes, producer_field_bytes};
ghost use Rattle.wasm_encoder_custom.specs.Producers.{producer_values_encoding, producers_encoding};
ghost use Rattle.wasm_spec.specs.Shortest.{framed_encoding};

use crate::framing::{alone_len, custom_len, encode_alone, encode_custom, written};
use std::alloc::Global;
use std::marker::Model;
use wasm_core_write::encode::{Encode, Section};
use wasm_core_write::encode_error::EncodeError;
use wasm_core_write::encoding::{Encoding, add_sizes, bytes_size, put_bytes};
use wasm_encoder_sections::kept_list::KeptList;
use wasm_encoder_sections::names::Name;

// A tool, and its version.
#[derive(Debug, Drop)]
struct KeptValue {
    name: Name,
    version: Name,
}

impl Encoding for KeptValue {
    ghost encoding = { producer_value_bytes };

    #[tactic(auto, using(wasm_spec::proofs::ListEncodings::parts), unfolding(crate::specs::KeptProducers::producer_value_bytes, wasm_encoder_sections::specs::CoreItems::name_bytes, crate::specs::Producers::producer_value_encoding))]
    fn size(&self) -> Result<u64, EncodeError> {
        add_sizes(self.name.size()?, self.version.size()?)
    }

    #[tactic(auto, using(wasm_spec::proofs::ListEncodings::parts), unfolding(crate::specs::KeptProducers::producer_value_bytes, wasm_encoder_sections::specs::CoreItems::name_bytes, crate::specs::Producers::producer_value_encoding))]
    fn put(&self, sink: &mut Vec<u8>) {
        self.name.put(sink);
        self.version.put(sink);
    }
}

/// The tools of one field, as `language` or `processed-by`, in the order in which they were added. Contracts see the list of
/// them.
#[derive(Debug, Drop)]
pub struct ProducersField {
    alloc: Global,
    values: KeptList<KeptValue>,
}

impl Model for ProducersField {
    ghost use Rattle.std.specs.Prelude.{List, map};
    ghost use Rattle.wasm_encoder_custom.specs.KeptProducers.{producer_value};
    ghost use Rattle.wasm_encoder_custom.specs.Producers as spec;

    ghost Value = { List spec.ProducerValue };

    ghost view = { λ f. map producer_value f.values };
}

impl ProducersField {
    ghost use Rattle.std.specs.Borrow.{sem, LendsIfOk};
    ghost use Rattle.wasm_encoder_custom.specs.contracts.producers.ProducersField.{the_row};

    /// Creates a field without tools.
    pub fn new(alloc: Global) -> ProducersField
        ensures { result ≡ [] }
    {
        ProducersField {
            alloc,
            values: KeptList::new(alloc),
        }
    }

    /// Adds a tool of this name, in this version: what `value` does. Both are copied.
    ///
    /// # Errors
    /// `TooLong` exactly where there are 4,294,967,295 tools, and else `Memory`.
    pub fn push(&mut self, name: &str, version: &str) -> Result<(), EncodeError>
        ensures added { IfOk result (λ _. self.new ≡ self.old ++ record { name = name.now; version = version.now } ∷ []) }
        ensures kept { IfErr result (λ _. self.new ≡ self.old) }
        ensures too_long { (result ≡ Err EncodeError.TooLong) ↔ (2 ^ 32 ≤ length self.old + 1) }
    {
        self.values.check_room()?;
        let name = Name::new(self.alloc, name)?;
        let version = Name::new(self.alloc, version)?;
        self.values.push(KeptValue { name, version })
    }

    /// Adds a tool of this name, in this version. Both are copied.
    ///
    /// # Errors
    /// Those of [`ProducersField::push`]. The field is then as it was.
    pub fn value(&mut self, name: &str, version: &str) -> Result<&mut ProducersField, EncodeError>
        ensures* refused { sem 𝓛 (LendsIfOk the_row the_row self.entry result (λ w. w) self.old) }
        ensures same_reference { IfOk result (λ s. s.ghost_name ≡ self.entry.ghost_name) }
        ensures added { IfOk result (λ s. s.now ≡ self.old ++ record { name = name.now; version = version.now } ∷ []) }
        ensures too_long { (result ≡ Err EncodeError.TooLong) ↔ (2 ^ 32 ≤ length self.old + 1) }
    {
        match self.push(name, version) {
            Ok(()) => Ok(self),
            Err(error) => Err(error),
        }
    }
}

impl Encoding for ProducersField {
    ghost encoding = { λ f. producer_values_encoding f };

    #[tactic(auto, using(crate::proofs::ProducerLists::steps))]
    fn size(&self) -> Result<u64, EncodeError> {
        self.values.size()
    }

    #[tactic(auto, using(crate::proofs::ProducerLists::steps))]
    fn put(&self, sink: &mut Vec<u8>) {
        self.values.put(sink);
    }
}

impl Encode for ProducersField {
    ghost encoding = { λ f. producer_values_encoding f };

    ghost longest = { λ f. length (producer_values_encoding f) };

    fn encode(&self, sink: &mut Vec<u8>) -> Result<(), EncodeError> {
        encode_alone(self, sink)
    }

    fn encoded_len(&self) -> Result<u64, EncodeError> {
        alone_len(self)
    }
}

// A field: its name, and the bytes of its tools.
#[derive(Debug, Drop)]
struct KeptField {
    name: Name,
    values: Vec<u8>,
}

impl Encoding for KeptField {
    ghost encoding = { producer_field_bytes };

    #[tactic(auto, using(wasm_spec::proofs::ListEncodings::parts), unfolding(crate::specs::KeptProducers::producer_field_bytes, wasm_encoder_sections::specs::CoreItems::name_bytes, crate::specs::Producers::producer_field_encoding))]
    fn size(&self) -> Result<u64, EncodeError> {
        add_sizes(self.name.size()?, bytes_size(&self.values)?)
    }

    #[tactic(auto, using(wasm_spec::proofs::ListEncodings::parts), unfolding(crate::specs::KeptProducers::producer_field_bytes, wasm_encoder_sections::specs::CoreItems::name_bytes, crate::specs::Producers::producer_field_encoding))]
    fn put(&self, sink: &mut Vec<u8>) {
        self.name.put(sink);
        put_bytes(&self.values, sink);
    }
}

const NAME: &str = "producers";

/// Which tools made a module: fields, each with its tools. Contracts see the list of the fields.
///
/// ```
/// let mut language = ProducersField::new(alloc);
/// language.value("C", "11")?;
/// let mut producers = ProducersSection::new(alloc);
/// producers.field("language", &language)?;
/// module.push(&producers)?;
/// ```
#[derive(Debug, Drop)]
pub struct ProducersSection {
    alloc: Global,
    fields: KeptList<KeptField>,
}

impl Model for ProducersSection {
    ghost use Rattle.std.specs.Prelude.{List, map};
    ghost use Rattle.wasm_encoder_custom.specs.KeptProducers.{producer_field};
    ghost use Rattle.wasm_encoder_custom.specs.Producers as spec;

    ghost Value = { List spec.ProducerField };

    ghost view = { λ s. map producer_field s.fields };
}

impl ProducersSection {
    ghost use Rattle.std.specs.Borrow.{sem, LendsIfOk};
    ghost use Rattle.wasm_encoder_custom.specs.contracts.producers.ProducersSection.{the_row};

    /// Creates a section without fields.
    pub fn new(alloc: Global) -> ProducersSection
        ensures { result ≡ [] }
    {
        ProducersSection {
            alloc,
            fields: KeptList::new(alloc),
        }
    }

    /// Adds a field of this name with these tools: what `field` does. All are copied.
    ///
    /// # Errors
    /// `TooLong` exactly where there are 4,294,967,295 fields, or the tools have more bytes, and else `Memory`.
    pub fn push(&mut self, name: &str, values: &ProducersField) -> Result<(), EncodeError>
        ensures added { IfOk result (λ _. self.new ≡ self.old ++ record { name = name.now; values = producer_values_encoding values.now } ∷ []) }
        ensures kept { IfErr result (λ _. self.new ≡ self.old) }
        ensures too_long { (result ≡ Err EncodeError.TooLong) ↔ ((2 ^ 32 ≤ length self.old + 1) ⊎ (2 ^ 32 ≤ length (producer_values_encoding values.now))) }
    {
        self.fields.check_room()?;
        let values = written(self.alloc, values)?;
        let name = Name::new(self.alloc, name)?;
        self.fields.push(KeptField { name, values })
    }

    /// Adds a field of this name with these tools. All are copied.
    ///
    /// # Errors
    /// Those of [`ProducersSection::push`]. The section is then as it was.
    pub fn field(
        &mut self,
        name: &str,
        values: &ProducersField,
    ) -> Result<&mut ProducersSection, EncodeError>
        ensures* refused { sem 𝓛 (LendsIfOk the_row the_row self.entry result (λ w. w) self.old) }
        ensures same_reference { IfOk result (λ s. s.ghost_name ≡ self.entry.ghost_name) }
        ensures added { IfOk result (λ s. s.now ≡ self.old ++ record { name = name.now; values = producer_values_encoding values.now } ∷ []) }
        ensures too_long { (result ≡ Err EncodeError.TooLong) ↔ ((2 ^ 32 ≤ length self.old + 1) ⊎ (2 ^ 32 ≤ length (producer_values_encoding values.now))) }
    {
        match self.push(name, values) {
            Ok(()) => Ok(self),
            Err(error) => Err(error),
        }
    }
}

impl Encode for ProducersSection {
    ghost encoding = { λ s. framed_encoding (custom_content (codes "producers") (producers_encoding s)) };

    ghost longest = { λ s. length (custom_content (codes "producers") (producers_encoding s)) };

    #[tactic(auto, using(crate::proofs::ProducerLists::steps))]
    fn encode(&self, sink: &mut Vec<u8>) -> Result<(), EncodeError> {
        encode_custom(NAME, &self.fields, sink)
    }

    #[tactic(auto, using(crate::proofs::ProducerLists::steps))]
    fn encoded_len(&self) -> Result<u64, EncodeError> {
        custom_len(NAME, &self.fields)
    }
}

impl Section for ProducersSection {
    ghost number = { λ _. 0 };

    fn id(&self) -> u8 {
        0
    }
}
