//! The ids of a group's types.

use crate::type_list::TypeList;
use std::alloc::AllocError;
use std::iter::{DoubleEndedIterator, ExactSizeIterator, FusedIterator, Iterator};
use std::marker::Model;
use wasmparser_types::index::{CoreTypeId, RecGroupId};

/// The ids of a group's types that are still to come, in order.
#[derive(Debug, Drop)]
pub struct RecGroupElements {
    next: u32,
    end: u32,
}

impl Model for RecGroupElements {
    ghost use Rattle.std.specs.Prelude.{◌-◌, ℕ, List};
    ghost use Rattle.std.specs.List.{range_with_len};

    ghost Value = { List ℕ };

    ghost view = { λ elements. range_with_len elements.next (elements.end - elements.next) };
}

impl Iterator for RecGroupElements {
    ghost use Rattle.std.specs.Iterator.{YieldsFirst, item_count};

    type Item = CoreTypeId;

    ghost next_gives = { YieldsFirst (λ ids. ids) };

    ghost remaining = { item_count (λ ids. ids) };

    fn next(&mut self) -> Option<CoreTypeId> {
        if self.next >= self.end {
            return None;
        }
        let id = CoreTypeId::from_index(self.next);
        self.next += 1;
        Some(id)
    }

    fn size_hint(&self) -> (usize, Option<usize>) {
        let len = self.len();
        (len, Some(len))
    }
}

impl ExactSizeIterator for RecGroupElements {
    fn len(&self) -> usize {
        self.end.saturating_sub(self.next) as usize
    }
}

impl FusedIterator for RecGroupElements {}

impl TypeList {
    ghost use Rattle.std.specs.Prelude.{◌≡◌};
    ghost use Rattle.wasmparser_type_list.specs.TypeTables.{TablesAgree, group_ids};

    /// Returns the ids of a group's types, in order. An unknown group has none.
    pub fn rec_group_elements(&self, id: RecGroupId) -> RecGroupElements
        requires { TablesAgree self.now }
        ensures { result ≡ group_ids self.now id }
    {
        match self.get(id) {
            Some(ids) => RecGroupElements {
                next: ids.start.index() as u32,
                end: ids.end.index() as u32,
            },
            None => RecGroupElements { next: 0, end: 0 },
        }
    }
}
