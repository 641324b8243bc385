//! A list that grows at its end, of which a copy can be kept.

ghost use Rattle.std.specs.Prelude.{◌≡◌, ◌↔◌, ◌+◌, ◌<◌, ◌^◌, [], ◌++◌, IfErr, IfOk, IfSome, IsTrue, length, slice_get};
ghost use Rattle.std.specs.List.{AllByRecursion};
ghost use Rattle.std.specs.Option.{option_copied};
ghost use Rattle.wasmparser_type_relations.specs.Snapshots.{IsCounted, IsLastPair, KnowsLengths, elements, snapshot_elements};

use std::alloc::{AllocError, Global};
use std::marker::Model;
use std::ops::Index;
use std::rc::Rc;
use std::{fmt, mem};

// Elements that no longer change, shared by all lists that have them.
#[derive(Drop)]
enum Tree<T> {
    Leaf(Vec<T>),
    // The number of elements on the left, and both sides.
    Pair(usize, Rc<Tree<T>>, Rc<Tree<T>>),
}

// Returns the element at a place.
fn tree_get<T>(tree: &Tree<T>, index: usize) -> Option<&T>
    requires { KnowsLengths tree.now }
    ensures { option_copied result ≡ slice_get (elements tree.now) index }
{
    match tree {
        Tree::Leaf(items) => items.get(index),
        Tree::Pair(left_len, left, right) => {
            if index < *left_len {
                tree_get(left, index)
            } else {
                tree_get(right, index - *left_len)
            }
        }
    }
}

// A tree of a list.
#[derive(Drop)]
struct Snapshot<T: Drop> {
    tree: Rc<Tree<T>>,
    len: usize,
    // Leaves have height 0. Only trees of one height are joined, so that no path is long.
    height: u32,
}

// Returns the element at a place, if the snapshots have one there.
fn snapshot_get<T: Drop>(snapshots: &[Snapshot<T>], index: usize) -> Option<&T>
    requires { AllByRecursion IsCounted snapshots.now }
    ensures { option_copied result ≡ slice_get (snapshot_elements snapshots.now) index }
{
    let mut left = index;
    for snapshot in snapshots {
        if left < snapshot.len {
            return tree_get(&snapshot.tree, left);
        }
        left -= snapshot.len;
    }
    None
}

// Joins two snapshots, without moving an element.
fn pair<T: Drop>(
    alloc: Global,
    left: &Snapshot<T>,
    right: &Snapshot<T>,
) -> Result<Snapshot<T>, AllocError>
    requires left { IsCounted left.now }
    requires right { IsCounted right.now }
    requires room { left.now.len + right.now.len < 2 ^ 64 }
    ensures counted { IfOk result IsCounted }
    ensures joined { IfOk result (λ s. elements s.tree.value ≡ elements left.now.tree.value ++ elements right.now.tree.value) }
{
    let tree = Tree::Pair(left.len, left.tree.clone()?, right.tree.clone()?);
    Ok(Snapshot {
        tree: Rc::new(alloc, tree)?,
        len: left.len + right.len,
        height: left.height.saturating_add(1),
    })
}

// Returns the last two snapshots as one, where they are of one height.
fn last_pair<T: Drop>(
    alloc: Global,
    snapshots: &[Snapshot<T>],
) -> Result<Option<Snapshot<T>>, AllocError>
    requires counted { AllByRecursion IsCounted snapshots.now }
    requires room { length (snapshot_elements snapshots.now) < 2 ^ 64 }
    ensures joins { IfOk result (λ o. IfSome o (IsLastPair snapshots.now)) }
{
    match snapshots {
        [.., left, right] if left.height == right.height => Ok(Some(pair(alloc, left, right)?)),
        _ => Ok(None),
    }
}

// Joins the last snapshots as long as they are of one height.
fn join<T: Drop>(alloc: Global, snapshots: &mut Vec<Snapshot<T>>) -> Result<(), AllocError>
    requires counted { AllByRecursion IsCounted snapshots.old.items }
    requires room { length (snapshot_elements snapshots.old.items) < 2 ^ 64 }
    ensures counted { AllByRecursion IsCounted snapshots.new.items }
    ensures same { snapshot_elements snapshots.new.items ≡ snapshot_elements snapshots.old.items }
{
    while let Some(joined) = last_pair(alloc, snapshots)? {
        snapshots.truncate(snapshots.len() - 2);
        snapshots.push_reserved(joined);
    }
    Ok(())
}

// Moves the elements that were pushed into a snapshot.
fn add_leaf<T: Drop>(
    alloc: Global,
    snapshots: &mut Vec<Snapshot<T>>,
    current: &mut Vec<T>,
) -> Result<(), AllocError>
    requires counted { AllByRecursion IsCounted snapshots.old.items }
    ensures counted { AllByRecursion IsCounted snapshots.new.items }
    ensures same { snapshot_elements snapshots.new.items ++ current.new.items ≡ snapshot_elements snapshots.old.items ++ current.old.items }
    ensures none_left { IfOk result (λ _. current.new.items ≡ []) }
    ensures kept { IfErr result (λ _. (snapshots.new.items ≡ snapshots.old.items) × (current.new.items ≡ current.old.items)) }
{
    snapshots.reserve(1)?;
    let len = current.len();
    let items = mem::replace(current, Vec::new(alloc));
    match Rc::new(alloc, Tree::Leaf(items)) {
        Ok(tree) => {
            snapshots.push_reserved(Snapshot {
                tree,
                len,
                height: 0,
            });
            Ok(())
        }
        Err(refused) => {
            match refused.value {
                Tree::Leaf(items) => *current = items,
                Tree::Pair(_len, _left, _right) => {}
            }
            Err(AllocError)
        }
    }
}

// Returns the same snapshots once more, which share their elements.
fn share<T: Drop>(alloc: Global, snapshots: &[Snapshot<T>]) -> Result<Vec<Snapshot<T>>, AllocError>
    requires counted { AllByRecursion IsCounted snapshots.now }
    ensures counted { IfOk result (λ shared. AllByRecursion IsCounted shared.items) }
    ensures same { IfOk result (λ shared. snapshot_elements shared.items ≡ snapshot_elements snapshots.now) }
{
    let mut shared = Vec::with_capacity(alloc, snapshots.len())?;
    for snapshot in snapshots {
        shared.push(Snapshot {
            tree: snapshot.tree.clone()?,
            len: snapshot.len,
            height: snapshot.height,
        })?;
    }
    Ok(shared)
}

/// A list that grows at its end, of which a copy can be kept: [`SnapshotList::commit`] shares what was pushed before it.
#[derive(Drop)]
pub struct SnapshotList<T: Drop> {
    alloc: Global,
    snapshots: Vec<Snapshot<T>>,
    // Number of elements in all snapshots.
    committed: usize,
    // The elements that were pushed since the last snapshot.
    current: Vec<T>,
}

impl<T: Drop> Model for SnapshotList<T> {
    ghost use Rattle.std.specs.Prelude.{◌-◌, ◌++◌, length, vec_capacity};
    ghost use Rattle.wasmparser_type_relations.specs.Snapshots.{AreSnapshots, Kept, snapshot_elements};

    ghost Value = { Kept T };

    ghost view = { λ list. record {
      items = snapshot_elements list.snapshots.items ++ list.current.items;
      room = vec_capacity list.current - length list.current.items;
    } };

    ghost invariant = { λ list. AreSnapshots list.snapshots.items list.committed (length list.current.items) };
}

impl<T: Drop> SnapshotList<T> {
    ghost use Rattle.std.specs.Prelude.{◌≡◌, ◌+◌, ◌-◌, ◌<◌, ◌≤◌, ◌^◌, ◌⊎◌, [], ◌∷◌, ◌++◌, length, slice_get, IfOk, IfErr};

    /// Creates a list without elements.
    pub fn new(alloc: Global) -> SnapshotList<T>
        ensures { result.items ≡ [] }
    {
        SnapshotList {
            alloc,
            snapshots: Vec::new(alloc),
            committed: 0,
            current: Vec::new(alloc),
        }
    }

    /// Returns the number of elements.
    pub fn len(&self) -> usize
        ensures { result ≡ length self.now.items }
    {
        self.committed + self.current.len()
    }

    /// Checks that there are none.
    pub fn is_empty(&self) -> bool
        ensures { IsTrue result ↔ (self.now.items ≡ []) }
    {
        self.len() == 0
    }

    /// Returns the element at a place, if there is one. It takes logarithmic time, and what was pushed since the last copy is found at once.
    #[tactic(auto, using(crate::proofs::Places::before_current, crate::proofs::Places::in_current))]
    pub fn get(&self, index: usize) -> Option<&T>
        ensures { option_copied result ≡ slice_get self.now.items index }
    {
        // Most calls ask for what was pushed since the last snapshot.
        if index >= self.committed {
            return self.current.get(index - self.committed);
        }
        snapshot_get(&self.snapshots, index)
    }

    /// Appends an element.
    ///
    /// # Errors
    /// Where memory runs out, or there are `usize::MAX` elements. The list is as it was, and the element is dropped.
    pub fn push(&mut self, value: T) -> Result<(), AllocError>
        ensures pushed { IfOk result (λ _. self.new.items ≡ self.old.items ++ value ∷ []) }
        ensures kept { IfErr result (λ _. self.new.items ≡ self.old.items) }
        ensures full { IfErr result (λ _. (self.old.room ≡ 0) ⊎ (length self.old.items ≡ 2 ^ 64 - 1)) }
    {
        if self.len() == usize::MAX {
            return Err(AllocError);
        }
        self.current.push(value)?;
        Ok(())
    }

    /// Makes room for as many elements more, so that [`SnapshotList::push_reserved`] can take them.
    ///
    /// # Errors
    /// Where memory runs out, and there is no room.
    pub fn reserve(&mut self, additional: usize) -> Result<(), AllocError>
        ensures same { self.new.items ≡ self.old.items }
        ensures room { IfOk result (λ _. additional ≤ self.new.room) }
        ensures full { IfErr result (λ _. self.old.room < additional) }
    {
        self.current.reserve(additional)
    }

    /// Appends an element for which there is room.
    pub fn push_reserved(&mut self, value: T)
        requires room { 0 < self.old.room }
        requires count { length self.old.items + 1 < 2 ^ 64 }
        ensures pushed { self.new.items ≡ self.old.items ++ value ∷ [] }
        ensures room { self.old.room ≤ self.new.room + 1 }
    {
        self.current.push_reserved(value);
    }

    /// Appends elements for which there is room.
    pub fn append_reserved(&mut self, mut items: Vec<T>)
        requires room { length items.items ≤ self.old.room }
        requires count { length self.old.items + length items.items < 2 ^ 64 }
        ensures { self.new.items ≡ self.old.items ++ items.items }
    {
        let _ = self.current.append(&mut items);
    }

    /// Gives a list of the same elements, which are shared and not copied. Both lists may grow on, each by itself. Taken over all pushes, a call costs
    /// logarithmic time.
    ///
    /// # Errors
    /// Where memory runs out, the list is as it was.
    pub fn commit(&mut self) -> Result<SnapshotList<T>, AllocError>
        ensures same { self.new.items ≡ self.old.items }
        ensures copy { IfOk result (λ list. list.items ≡ self.old.items) }
    {
        // A call that was refused may have left snapshots of one height.
        join(self.alloc, &mut self.snapshots)?;
        if !self.current.is_empty() {
            let len = self.len();
            add_leaf(self.alloc, &mut self.snapshots, &mut self.current)?;
            self.committed = len;
            join(self.alloc, &mut self.snapshots)?;
        }
        Ok(SnapshotList {
            alloc: self.alloc,
            snapshots: share(self.alloc, &self.snapshots)?,
            committed: self.committed,
            current: Vec::new(self.alloc),
        })
    }
}

/// Shows how many elements there are, and none of them.
impl<T: Drop> fmt::Debug for SnapshotList<T> {
    fn fmt<W: fmt::Write>(&self, f: &mut fmt::Formatter<W>) -> fmt::Result {
        f.debug_struct("SnapshotList")
            .field("len", &self.len())
            .finish_non_exhaustive()
    }
}

impl<T: Drop> Index<usize> for SnapshotList<T> {
    ghost use Rattle.std.specs.Prelude.{◌≡◌, ◌<◌, Some, length, slice_get};

    type Output = T;

    ghost can_index = { λ list place. place < length list.items };

    ghost index_gives = { λ list place element. slice_get list.items place ≡ Some element };

    /// Returns the element at a place, which is below the length.
    fn index(&self, index: usize) -> &T {
        self.get(index).unwrap()
    }
}
