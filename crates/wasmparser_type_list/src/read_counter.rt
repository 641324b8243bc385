//! A counter of the reads of a list of types.

use crate::type_list::TypeList;
use std::marker::Model;
use wasmparser_type_relations::chain::Chain;
use wasmparser_type_relations::lookup::Lookup;
use wasmparser_types::index::CoreTypeId;

/// A list of types that lends chains of supertypes, and how often it did.
#[derive(Drop)]
pub struct ReadCounter<'a> {
    list: &'a TypeList,
    reads: u64,
}

impl<'a> Model for ReadCounter<'a> {
    ghost use Rattle.wasmparser_type_list.specs.TypeTables.{CanAskSubtyping};
    ghost use Rattle.wasmparser_type_list.specs.CountedReads.{CountedReads};

    ghost Value = { CountedReads };

    ghost view = { λ counter. record {
      tables = counter.list.now;
      reads = counter.reads;
    } };

    ghost invariant = { λ counter. CanAskSubtyping counter.list.now };
}

impl<'a> ReadCounter<'a> {
    ghost use Rattle.std.specs.Prelude.{◌≡◌, slice_get};
    ghost use Rattle.wasmparser_type_relations.specs.Chains.{AreBelowEarlier};
    ghost use Rattle.wasmparser_type_list.specs.TypeTables.{TablesAgree, sub_types};

    /// Creates a list of which nothing was read yet.
    pub fn new(list: &'a TypeList) -> ReadCounter<'a>
        requires agree { TablesAgree list.now }
        requires earlier { AreBelowEarlier (slice_get (sub_types list.now)) }
        ensures same { result.tables ≡ list.now }
        ensures unread { result.reads ≡ 0 }
    {
        ReadCounter { list, reads: 0 }
    }
}

impl<'a> Lookup<'a> for ReadCounter<'a> {
    ghost use Rattle.std.specs.Prelude.{slice_get};
    ghost use Rattle.wasmparser_type_list.specs.TypeTables.{sub_types};

    ghost types = { λ counter. slice_get (sub_types counter.tables) };

    ghost count = { λ counter. counter.reads };

    fn reads(&self) -> u64 {
        self.reads
    }

    fn get(&mut self, id: CoreTypeId) -> &'a Chain {
        self.reads += 1;
        let list = self.list;
        list.chain(id).unwrap()
    }
}
