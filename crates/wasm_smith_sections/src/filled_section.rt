//! A filled section of any kind.

ghost use Rattle.std.specs.Prelude.{◌≡◌, length};
ghost use Rattle.wasm_smith_sections.specs.FilledSections.{filled_content, filled_id};
ghost use Rattle.wasm_spec.specs.Shortest.{framed_encoding};

use wasm_core_write::encode::{Encode, Section};
use wasm_core_write::encode_error::EncodeError;
use wasm_core_write::type_section::TypeSection;
use wasm_encoder_custom::custom_section::CustomSection;
use wasm_encoder_expression_sections::code_section::CodeSection;
use wasm_encoder_expression_sections::data_section::DataSection;
use wasm_encoder_expression_sections::element_section::ElementSection;
use wasm_encoder_expression_sections::global_section::GlobalSection;
use wasm_encoder_expression_sections::table_section::TableSection;
use wasm_encoder_sections::data_count_section::DataCountSection;
use wasm_encoder_sections::export_section::ExportSection;
use wasm_encoder_sections::function_section::FunctionSection;
use wasm_encoder_sections::import_section::ImportSection;
use wasm_encoder_sections::memory_section::MemorySection;
use wasm_encoder_sections::start_section::StartSection;
use wasm_encoder_sections::tag_section::TagSection;

/// A filled section.
#[derive(Drop)]
pub enum FilledSection<'a> {
    /// Types.
    Types(TypeSection),
    /// Imports.
    Imports(ImportSection),
    /// Functions.
    Functions(FunctionSection),
    /// Tables.
    Tables(TableSection),
    /// Memories.
    Memories(MemorySection),
    /// Tags.
    Tags(TagSection),
    /// Globals.
    Globals(GlobalSection),
    /// Exports.
    Exports(ExportSection),
    /// The function that the module starts with.
    Start(StartSection),
    /// Element segments.
    Elements(ElementSection),
    /// The number of data segments.
    DataCount(DataCountSection),
    /// Bodies.
    Code(CodeSection),
    /// Data segments.
    Data(DataSection),
    /// A name, and any bytes.
    Custom(CustomSection<'a>),
}

impl Encode for FilledSection<'_> {
    ghost encoding = { λ s. framed_encoding (filled_content s) };

    ghost longest = { λ s. length (filled_content s) };

    fn encode(&self, sink: &mut Vec<u8>) -> Result<(), EncodeError> {
        match self {
            FilledSection::Types(section) => section.encode(sink),
            FilledSection::Imports(section) => section.encode(sink),
            FilledSection::Functions(section) => section.encode(sink),
            FilledSection::Tables(section) => section.encode(sink),
            FilledSection::Memories(section) => section.encode(sink),
            FilledSection::Tags(section) => section.encode(sink),
            FilledSection::Globals(section) => section.encode(sink),
            FilledSection::Exports(section) => section.encode(sink),
            FilledSection::Start(section) => section.encode(sink),
            FilledSection::Elements(section) => section.encode(sink),
            FilledSection::DataCount(section) => section.encode(sink),
            FilledSection::Code(section) => section.encode(sink),
            FilledSection::Data(section) => section.encode(sink),
            FilledSection::Custom(section) => section.encode(sink),
        }
    }

    fn encoded_len(&self) -> Result<u64, EncodeError> {
        match self {
            FilledSection::Types(section) => section.encoded_len(),
            FilledSection::Imports(section) => section.encoded_len(),
            FilledSection::Functions(section) => section.encoded_len(),
            FilledSection::Tables(section) => section.encoded_len(),
            FilledSection::Memories(section) => section.encoded_len(),
            FilledSection::Tags(section) => section.encoded_len(),
            FilledSection::Globals(section) => section.encoded_len(),
            FilledSection::Exports(section) => section.encoded_len(),
            FilledSection::Start(section) => section.encoded_len(),
            FilledSection::Elements(section) => section.encoded_len(),
            FilledSection::DataCount(section) => section.encoded_len(),
            FilledSection::Code(section) => section.encoded_len(),
            FilledSection::Data(section) => section.encoded_len(),
            FilledSection::Custom(section) => section.encoded_len(),
        }
    }
}

impl Section for FilledSection<'_> {
    ghost number = { filled_id };

    fn id(&self) -> u8 {
        match self {
            FilledSection::Types(section) => section.id(),
            FilledSection::Imports(section) => section.id(),
            FilledSection::Functions(section) => section.id(),
            FilledSection::Tables(section) => section.id(),
            FilledSection::Memories(section) => section.id(),
            FilledSection::Tags(section) => section.id(),
            FilledSection::Globals(section) => section.id(),
            FilledSection::Exports(section) => section.id(),
            FilledSection::Start(section) => section.id(),
            FilledSection::Elements(section) => section.id(),
            FilledSection::DataCount(section) => section.id(),
            FilledSection::Code(section) => section.id(),
            FilledSection::Data(section) => section.id(),
            FilledSection::Custom(section) => section.id(),
        }
    }
}
