//! Lists of labels.

ghost use Rattle.std.specs.Prelude.{◌≡◌, ◌↔◌, IsTrue, [], length};
ghost use Rattle.wasm_core_read.specs.Reading.{Answers};
ghost use Rattle.wasmparser_operators.specs.OperatorReading.{labels_at};

use std::iter::Iterator;
use std::marker::Model;
use wasm_core_read::binary_reader::BinaryReader;
use wasm_core_read::malformed::Malformed;
use wasmparser_readers::passing::{fork, pass_list, passed_part};

/// The labels of a jump by number: those that are counted from 0, which borrow the input, and the one for other numbers.
#[derive(Clone, Debug, Drop)]
pub struct BrTable<'a> {
    list: &'a [u8],
    default: u32,
}

impl<'a> Model for BrTable<'a> {
    ghost use Rattle.wasmparser_operators.specs.BorrowedLists.{LabelTable, AreLabels, labels_of};

    ghost Value = { LabelTable };

    ghost view = { λ t. record { labels = labels_of t.list.now; default = t.default } };

    ghost invariant = { λ t. AreLabels t.list.now };
}

impl<'a> BrTable<'a> {
    /// Returns the label for numbers that count no label.
    pub fn default(&self) -> u32
        ensures { result ≡ self.now.default }
    {
        self.default
    }

    /// Returns the number of labels that are counted, without the default one.
    #[tactic(auto, using(crate::proofs::BorrowedLaws::label_counts))]
    pub fn len(&self) -> u32
        ensures { result ≡ length self.now.labels }
    {
        match BinaryReader::new(self.list, 0).read_var_u32() {
            Ok(count) => count,
            Err(_) => 0,
        }
    }

    /// Checks that none is counted.
    pub fn is_empty(&self) -> bool
        ensures { IsTrue result ↔ (length self.now.labels ≡ 0) }
    {
        self.len() == 0
    }

    /// Returns the labels that are counted, from 0 on.
    #[tactic(auto, using(crate::proofs::BorrowedLaws::label_counts))]
    pub fn targets(&self) -> BrTableTargets<'a>
        ensures { result ≡ self.now.labels }
    {
        let mut reader = BinaryReader::new(self.list, 0);
        match reader.read_var_u32() {
            Ok(left) => BrTableTargets { reader, left },
            Err(_) => BrTableTargets {
                reader: BinaryReader::new(&[], 0),
                left: 0,
            },
        }
    }
}

/// The labels of a table that are still to come. Contracts see it as these.
#[derive(Debug, Drop)]
pub struct BrTableTargets<'a> {
    reader: BinaryReader<'a>,
    left: u32,
}

impl<'a> Model for BrTableTargets<'a> {
    ghost use Rattle.std.specs.Prelude.{ℕ, List};
    ghost use Rattle.wasmparser_operators.specs.BorrowedLists.{AreSoMany, some_labels};

    ghost Value = { List ℕ };

    ghost view = { λ s. some_labels s.left s.reader.rest };

    ghost invariant = { λ s. AreSoMany s.left s.reader.rest };
}

impl<'a> Iterator for BrTableTargets<'a> {
    ghost use Rattle.wasmparser_operators.specs.BorrowedLists.{GivesLabel, at_most_labels};

    type Item = u32;

    ghost next_gives = { λ old next new. GivesLabel old new next };

    ghost remaining = { at_most_labels };

    #[tactic(auto, using(crate::proofs::BorrowedLaws::label_steps))]
    fn next(&mut self) -> Option<u32> {
        if self.left == 0 {
            return None;
        }
        self.left -= 1;
        match self.reader.read_var_u32() {
            Ok(label) => Some(label),
            Err(_) => None,
        }
    }
}

// Reads a list of labels and a label.
#[tactic(auto, using(crate::proofs::BorrowedLaws::labels_again), unfolding(crate::specs::OperatorReading::labels_at))]
pub(crate) fn read_labels<'a>(reader: &mut BinaryReader<'a>) -> Result<BrTable<'a>, Malformed>
    ensures { Answers (λ t. (t.labels, t.default)) reader.old reader.new result (labels_at reader.old.rest) }
{
    let start = fork(reader);
    pass_list::<u32>(reader)?;
    let part = passed_part(start, reader.bytes_remaining());
    let default = reader.read_var_u32()?;
    Ok(BrTable {
        list: part.remaining_buffer(),
        default,
    })
}
