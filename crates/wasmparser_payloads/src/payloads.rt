//! A module as its payloads, one after the other.

ghost use Rattle.std.specs.Prelude.{◌≡◌, ◌≤◌};
ghost use Rattle.wasm_core_read.specs.Input.{end};
ghost use Rattle.wasm_core_read.specs.Reading.{AnswersAll};
ghost use Rattle.wasmparser_payloads.specs.Parsing.{GivesPart, GivesFrame, piece};
ghost use Rattle.wasmparser_payloads.specs.Pieces.{number_of, place_of_id, piece_of};

use crate::custom_section::CustomSectionReader;
use crate::function_body::FunctionBody;
use crate::payload::Payload;
use std::iter::Iterator;
use std::marker::Model;
use std::ops::Range;
use wasm_core_read::binary_reader::BinaryReader;
use wasm_core_read::malformed::Malformed;
use wasmparser_error::error::Error;
use wasmparser_readers::passing::fork;
use wasmparser_readers::section_limited::SectionLimited;

// The first bytes of each module.
const HEADER: [u8; 8] = [0x00, 0x61, 0x73, 0x6d, 0x01, 0x00, 0x00, 0x00];

const CODE_ID: u8 = 10;

// The point up to which a module was given.
#[derive(Clone, Copy, Debug)]
pub(crate) enum Stage {
    // Nothing was given, not even the header.
    Header,
    // Its header, and perhaps some of what follows.
    Parts,
    // Its end, or a refusal.
    Done,
}

/// The payloads of a module that are still to come. After the end, or after an error, there are none. That
/// there are as many bodies as functions, and data segments as the data count says, is left to the validator.
#[derive(Debug, Drop)]
pub struct Payloads<'a> {
    stage: Stage,
    last: u32,
    bodies_left: u32,
    bodies: BinaryReader<'a>,
    reader: BinaryReader<'a>,
}

impl<'a> Model for Payloads<'a> {
    ghost use Rattle.wasmparser_payloads.specs.Pieces.{Remains};

    ghost Value = { Remains };

    ghost view = { λ p. record { stage = p.stage; last = p.last; bodies = record { count = p.bodies_left; input = p.bodies }; input = p.reader } };
}

// Returns the place in the input of what a reader has before it.
fn range_of(reader: &BinaryReader<'_>) -> Range<u64>
    ensures start { result.start ≡ reader.now.position }
    ensures end { result.end ≡ end reader.now }
{
    let start = reader.original_position();
    start..start + reader.bytes_remaining() as u64
}

// Returns the place of the sections of an id in the order of the grammar; custom and unknown sections have none.
#[tactic(auto, unfolding(crate::specs::Pieces::place_of_id))]
fn place_of_id(id: u8) -> Option<u32>
    ensures { result ≡ place_of_id id }
{
    match id {
        1 => Some(1),
        2 => Some(2),
        3 => Some(3),
        4 => Some(4),
        5 => Some(5),
        13 => Some(6),
        6 => Some(7),
        7 => Some(8),
        8 => Some(9),
        9 => Some(10),
        12 => Some(11),
        10 => Some(12),
        11 => Some(13),
        _ => None,
    }
}

// Reads the number that a content is.
#[tactic(auto, unfolding(crate::specs::Pieces::number_of))]
fn read_number(mut content: BinaryReader<'_>) -> Result<u32, Malformed>
    ensures { AnswersAll (λ n. n) content.entry result (number_of content.entry) }
{
    let number = content.read_var_u32()?;
    if content.eof() {
        return Ok(number);
    }
    Err(Malformed {
        offset: content.original_position(),
    })
}

// Reads so many bytes, as a reader of them.
#[tactic(auto, using(wasm_core_read::proofs::ReadingLaws::bytes_length))]
fn read_part<'a>(reader: &mut BinaryReader<'a>, len: usize) -> Result<BinaryReader<'a>, Malformed>
    ensures { GivesPart len reader.old reader.new result }
{
    let position = reader.original_position();
    let bytes = reader.read_bytes(len)?;
    let mut part = BinaryReader::new(bytes, position);
    part.set_features(reader.features());
    Ok(part)
}

// Reads a section as a frame: its id, and a reader of its content (Core Specification 3.0, Binary Format, "Sections").
#[tactic(auto, using(crate::proofs::PieceLaws::frame_read), unfolding(wasm_core_read::specs::ModuleReading::frame_at, crate::specs::Pieces::frame_of))]
fn read_frame<'a>(reader: &mut BinaryReader<'a>) -> Result<(u8, BinaryReader<'a>), Malformed>
    ensures { GivesFrame reader.old reader.new result }
{
    let id = reader.read_u8()?;
    let size = reader.read_var_u32()?;
    let content = read_part(reader, size as usize)?;
    Ok((id, content))
}

// Returns the first payload of a code section. Its bodies follow.
#[tactic(auto, unfolding(crate::specs::Pieces::piece_of, crate::specs::Parsing::piece, wasmparser_readers::specs::Sections::limited_of))]
fn read_code_start<'a>(mut content: BinaryReader<'a>) -> Result<Payload<'a>, Malformed>
    ensures { AnswersAll piece content.entry result (piece_of 10 content.entry) }
{
    let unchecked_range = range_of(&content);
    let count = content.read_var_u32()?;
    Ok(Payload::CodeSectionStart {
        count,
        unchecked_range,
        size: content.bytes_remaining() as u64,
    })
}

// Returns the first payload of a section.
#[tactic(auto, unfolding(crate::specs::Pieces::piece_of, crate::specs::Parsing::piece))]
fn read_content<'a>(id: u8, content: BinaryReader<'a>) -> Result<Payload<'a>, Malformed>
    ensures { AnswersAll piece content.entry result (piece_of id content.entry) }
{
    let range = range_of(&content);
    let payload = match id {
        0 => Payload::CustomSection(CustomSectionReader::new(content)?),
        1 => Payload::TypeSection(SectionLimited::new(content)?),
        2 => Payload::ImportSection(SectionLimited::new(content)?),
        3 => Payload::FunctionSection(SectionLimited::new(content)?),
        4 => Payload::TableSection(SectionLimited::new(content)?),
        5 => Payload::MemorySection(SectionLimited::new(content)?),
        6 => Payload::GlobalSection(SectionLimited::new(content)?),
        7 => Payload::ExportSection(SectionLimited::new(content)?),
        8 => Payload::StartSection {
            func: read_number(content)?,
            range,
        },
        9 => Payload::ElementSection(SectionLimited::new(content)?),
        CODE_ID => read_code_start(content)?,
        11 => Payload::DataSection(SectionLimited::new(content)?),
        12 => Payload::DataCountSection {
            count: read_number(content)?,
            range,
        },
        13 => Payload::TagSection(SectionLimited::new(content)?),
        _ => Payload::UnknownSection {
            id,
            contents: content.remaining_buffer(),
            range,
        },
    };
    Ok(payload)
}

impl<'a> Payloads<'a> {
    ghost use Rattle.std.specs.Prelude.{◌≡◌, ◌<◌, ◌-◌};
    ghost use Rattle.wasmparser_payloads.specs.Parsing.{GivesPiece, GoesPast, BeginsSection};
    ghost use Rattle.wasmparser_payloads.specs.Pieces.{header_piece, body_piece, section_piece, piece_within, next_piece};
    ghost use Rattle.wasmparser_payloads.specs.declared.payloads.Stage.TheVariants as payloads;

    // Creates the payloads of the module that a reader has before it. What the reader of bodies has before it is to be nothing.
    pub(crate) fn new(reader: BinaryReader<'a>, bodies: BinaryReader<'a>) -> Payloads<'a>
        ensures { result ≡ record { stage = payloads.Header; last = 0; bodies = record { count = 0; input = bodies.entry }; input = reader.entry } }
    {
        Payloads {
            stage: Stage::Header,
            last: 0,
            bodies_left: 0,
            bodies,
            reader,
        }
    }

    // Goes past a section of this id, where it comes after the last one.
    fn goes_past(&mut self, id: u8) -> bool
        ensures { GoesPast id self.old self.new result }
    {
        match place_of_id(id) {
            None => true,
            Some(place) if self.last < place => {
                self.last = place;
                true
            }
            Some(_) => false,
        }
    }

    // Sets the bodies that are left after the first payload of a section.
    #[tactic(auto, unfolding(crate::specs::Pieces::bodies_after, crate::specs::Pieces::piece_of, wasmparser_readers::specs::Sections::limited_of))]
    fn begin_section(&mut self, id: u8, content: &BinaryReader<'a>) -> Result<(), Malformed>
        ensures { BeginsSection id content.now self.old self.new result }
    {
        if id == CODE_ID {
            let mut bodies = fork(content);
            self.bodies_left = bodies.read_var_u32()?;
            self.bodies = bodies;
        }
        Ok(())
    }

    #[tactic(auto, using(crate::proofs::PieceLaws::header_steps), unfolding(crate::specs::Parsing::piece))]
    fn header(&mut self) -> Result<Payload<'a>, Malformed>
        ensures { GivesPiece self.old self.new result (header_piece self.old) }
    {
        let front = read_part(&mut self.reader, HEADER.len())?;
        if !front.remaining_buffer().starts_with(&HEADER) {
            return Err(Malformed {
                offset: front.original_position(),
            });
        }
        self.stage = Stage::Parts;
        Ok(Payload::Version {
            num: 1,
            range: range_of(&front),
        })
    }

    #[tactic(auto, using(crate::proofs::PieceLaws::body_steps), unfolding(crate::specs::Parsing::piece))]
    fn body(&mut self) -> Result<Payload<'a>, Malformed>
        requires { 0 < self.old.bodies.count }
        ensures { GivesPiece self.old self.new result (body_piece (self.old.bodies.count - 1) self.old) }
    {
        let size = self.bodies.read_var_u32()?;
        let body = read_part(&mut self.bodies, size as usize)?;
        self.bodies_left -= 1;
        Ok(Payload::CodeSectionEntry(FunctionBody::new(body)))
    }

    #[tactic(auto, using(crate::proofs::PieceLaws::section_steps))]
    fn section(&mut self) -> Result<Payload<'a>, Malformed>
        ensures { GivesPiece self.old self.new result (section_piece self.old) }
    {
        let offset = self.reader.original_position();
        let (id, content) = read_frame(&mut self.reader)?;
        if !self.goes_past(id) {
            return Err(Malformed { offset });
        }
        self.begin_section(id, &content)?;
        read_content(id, content)
    }

    // Returns the next payload after the header.
    #[tactic(auto, using(crate::proofs::PieceLaws::part_steps), unfolding(crate::specs::Parsing::piece))]
    fn part(&mut self) -> Result<Payload<'a>, Malformed>
        ensures { GivesPiece self.old self.new result (piece_within self.old.bodies.count self.old.bodies.input.rest self.old) }
    {
        if self.bodies_left > 0 {
            return self.body();
        }
        if !self.bodies.eof() {
            return Err(Malformed {
                offset: self.bodies.original_position(),
            });
        }
        if self.reader.eof() {
            self.stage = Stage::Done;
            return Ok(Payload::End(self.reader.original_position()));
        }
        self.section()
    }

    #[tactic(auto, using(crate::proofs::PieceLaws::next_steps))]
    fn read_next(&mut self) -> Result<Payload<'a>, Malformed>
        ensures { GivesPiece self.old self.new result (next_piece self.old) }
    {
        match self.stage {
            Stage::Header => self.header(),
            Stage::Parts => self.part(),
            Stage::Done => Err(Malformed {
                offset: self.reader.original_position(),
            }),
        }
    }
}

impl<'a> Iterator for Payloads<'a> {
    ghost use Rattle.wasmparser_payloads.specs.Parsing.{GivesNext, count_of};

    type Item = Result<Payload<'a>, Error>;

    ghost next_gives = { λ old next new. GivesNext old new next };

    ghost remaining = { count_of };

    #[tactic(auto, using(crate::proofs::Progress::piece_less))]
    fn next(&mut self) -> Option<Result<Payload<'a>, Error>> {
        if let Stage::Done = self.stage {
            return None;
        }
        match self.read_next() {
            Ok(payload) => Some(Ok(payload)),
            Err(malformed) => {
                self.stage = Stage::Done;
                Some(Err(Error::from(malformed)))
            }
        }
    }
}
