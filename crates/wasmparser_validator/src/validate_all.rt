//! Validation of the bytes of a module: its payloads, which the parser gives in their order, and then its bodies.

ghost use Rattle.std.specs.Prelude.{◌≡◌, ◌++◌, [], IfErr, IfOk, None, length};
ghost use Rattle.wasm_validity.specs.Context.{at_first};
ghost use Rattle.wasmparser_error.specs.declared.error.ErrorKind.TheVariants as kinds;
ghost use Rattle.wasmparser_module_state.specs.History.{held};
ghost use Rattle.wasmparser_module_state.specs.State.{context};
ghost use Rattle.wasmparser_payloads.specs.Parsing.{piece};
ghost use Rattle.wasmparser_validator.specs.Judges.{JudgesAll, judge, stated_with, waiting};
ghost use Rattle.wasmparser_validator.specs.PieceJudging.{body_in};
ghost use Rattle.wasmparser_validator.specs.Sections.{ReadsSections, ValidatesSections};
ghost use Rattle.wasmparser_validator.specs.declared.validator.Stage.TheVariants as stages;

use crate::laws::bodies as bodies_by_ids;
use crate::types::Types;
use crate::validate_bodies::with_valid_bodies;
use crate::validator::{Stage, Validator};
use std::iter::Iterator;
use wasm_validity_laws::laws::{entries_in_turn, known_spaces};
use wasmparser_error::error::Error;
use wasmparser_module_state::laws::first_modules_find_room;
use wasmparser_payloads::entry_laws::fronts_of_modules;
use wasmparser_payloads::function_body::FunctionBody;
use wasmparser_payloads::parser::Parser;
use wasmparser_payloads::payload::Payload;

impl Validator {
    /// Validates the bytes of a module, bodies after all sections, and shows the index spaces of a valid one. After a refusal of a body, running out of memory there too, the
    /// validator can be made ready for another module. The types of a module that is valid, or refused in a body, stay in the validator's list; any other refusal
    /// empties it, but `Order` after a module's end changes nothing.
    ///
    /// # Errors
    /// `Malformed` where the bytes are no module. `Invalid` and `Limit` where what stands at their front breaks a rule or passes a limit. `Total` where the list has no
    /// room for a group there. `Operator`, `Body` and the limit on locals, where all else is fine, for a body. `Memory` where memory runs out. `Order` at 0 where a
    /// module has begun or the last one has ended, `Failed` at 0 after another refusal.
    pub fn validate_all(&mut self, bytes: &[u8]) -> Result<Types, Error>
        ensures { JudgesAll (judge self.old).stage (judge self.old) bytes.now result (judge self.new) }
    {
        if self.stage != Stage::Header {
            return Err(self.refuse_order(0));
        }
        self.validate_module(bytes)
    }

    // Validates the bytes of a module where one may begin.
    fn validate_module(&mut self, bytes: &[u8]) -> Result<Types, Error>
        requires { (judge self.old).stage ≡ stages.Header }
        ensures { JudgesAll stages.Header (judge self.old) bytes.now result (judge self.new) }
    {
        // The laws that the clause follows from, which do nothing.
        entries_in_turn();
        fronts_of_modules();
        first_modules_find_room();
        known_spaces();
        bodies_by_ids();
        let mut bodies = Vec::new(self.alloc);
        match self.validate_sections(bytes, &mut bodies) {
            Ok(ended) => with_valid_bodies(self.alloc, ended, &bodies),
            Err(error) => {
                self.wait_for(Stage::Failed);
                Err(error)
            }
        }
    }

    // Validates all sections of a module, and keeps its bodies, which are still to be validated.
    fn validate_sections<'a>(
        &mut self,
        bytes: &'a [u8],
        bodies: &mut Vec<FunctionBody<'a>>,
    ) -> Result<Types, Error>
        requires header { (judge self.old).stage ≡ stages.Header }
        requires none { bodies.old.items ≡ [] }
        ensures sections { ValidatesSections (judge self.old).features (judge self.old).held bytes.now result bodies.new.items }
        ensures paired { IfOk result (λ ended. length (context ended.state).own_functions ≡ length bodies.new.items) }
        ensures ended { IfOk result (λ ended. judge self.new ≡ record (waiting (judge self.old) stages.End) { held = held ended.state }) }
        ensures named { IfOk result (λ ended. ended.id ≡ (judge self.old).id) }
        ensures id { (judge self.new).id ≡ (judge self.old).id }
        ensures features { (judge self.new).features ≡ (judge self.old).features }
    {
        self.begin();
        self.read_sections(bytes, bodies)?;
        self.bodies = bodies.len();
        self.end(bytes.len() as u64)
    }

    // Reads all payloads, and adds their entries. They come in the order of the format, so it isn't asked which one is waited for.
    fn read_sections<'a>(
        &mut self,
        bytes: &'a [u8],
        bodies: &mut Vec<FunctionBody<'a>>,
    ) -> Result<(), Error>
        requires sections { (judge self.old).stage ≡ stages.Sections }
        requires nothing { (judge self.old).known ≡ at_first }
        requires none { bodies.old.items ≡ [] }
        requires no_count { (judge self.old).stated ≡ None }
        ensures read { ReadsSections (judge self.old).features bytes.now (judge self.old).held result (judge self.new).known (judge self.new).held bodies.new.items (judge self.new).stated }
        ensures stage { (judge self.new).stage ≡ (judge self.old).stage }
        ensures id { (judge self.new).id ≡ (judge self.old).id }
        ensures features { (judge self.new).features ≡ (judge self.old).features }
    {
        let mut parser = Parser::new(0);
        parser.set_features(self.features());
        let mut payloads = parser.parse_all(bytes);
        'payloads: while let Some(payload) = payloads.next() {
            let payload = payload?;
            self.add(&payload)?;
            self.keep(payload, bodies)?;
        }
        Ok(())
    }

    // Keeps the body that a payload is, and the data count that it states.
    #[tactic(auto, unfolding(wasmparser_payloads::specs::Parsing::piece, crate::specs::PieceJudging::body_in, crate::specs::Judges::stated_with))]
    fn keep<'a>(
        &mut self,
        payload: Payload<'a>,
        bodies: &mut Vec<FunctionBody<'a>>,
    ) -> Result<(), Error>
        ensures bodies { IfOk result (λ _. bodies.new.items ≡ bodies.old.items ++ body_in (piece payload.entry)) }
        ensures count { IfOk result (λ _. judge self.new ≡ record (judge self.old) { stated = stated_with (piece payload.entry) (judge self.old).stated }) }
        ensures memory { IfErr result (λ e. (e ≡ record { offset = 0; kind = kinds.Memory }) × (judge self.new ≡ judge self.old)) }
    {
        match payload {
            Payload::CodeSectionEntry(body) => bodies.push(body)?,
            Payload::DataCountSection { count, .. } => self.data_count = Some(count),
            _ => {}
        }
        Ok(())
    }
}
