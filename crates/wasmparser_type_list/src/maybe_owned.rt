//! A value with one owner, until it is shared.

use std::alloc::{AllocError, Global};
use std::marker::Model;
use std::mem;
use std::rc::Rc;

#[derive(Drop)]
enum Holder<T> {
    Owned(T),
    Shared(Rc<T>),
    // While the value moves.
    Empty,
}

impl<T> Holder<T> {
    ghost use Rattle.std.specs.Prelude.{◌≡◌, Some, false};
    ghost use Rattle.std.specs.Borrow.{sem};
    ghost use Rattle.wasmparser_type_list.specs.HeldValues.{IsOwned, held};
    ghost use Rattle.std.specs.Option.{option_copied};
    ghost use Rattle.wasmparser_type_list.specs.LentValues.{LendsOwned};

    fn get(&self) -> Option<&T>
        ensures { option_copied result ≡ (held self.now).value }
    {
        match self {
            Holder::Owned(value) => Some(value),
            Holder::Shared(shared) => Some(shared),
            Holder::Empty => None,
        }
    }

    fn owned_mut(&mut self) -> &mut T
        requires { IsOwned self.old }
        ensures* lends { sem 𝓛 (LendsOwned T.row self.entry result) }
        ensures value { self.old ≡ Holder.Owned result.now }
    {
        match self {
            Holder::Owned(value) => value,
            _ => unreachable!(),
        }
    }
}

/// A value with one owner, until it is shared.
#[derive(Drop)]
pub struct MaybeOwned<T: Drop> {
    alloc: Global,
    holder: Holder<T>,
}

impl<T: Drop> Model for MaybeOwned<T> {
    ghost use Rattle.std.specs.Prelude.{IsSome};
    ghost use Rattle.wasmparser_type_list.specs.HeldValues.{Held, held};

    ghost Value = { Held T };

    ghost view = { λ it. held it.holder };

    ghost invariant = { λ it. IsSome (held it.holder).value };
}

impl<T: Drop> MaybeOwned<T> {
    ghost use Rattle.std.specs.Prelude.{◌≡◌, IfErr, IfOk, IsOk, Some, false, is_ok, option_map, true};
    ghost use Rattle.std.specs.Borrow.{sem};
    ghost use Rattle.std.specs.Option.{option_copied};
    ghost use Rattle.wasmparser_type_list.specs.HeldValues.{owned, shared_from_now, shared_value};
    ghost use Rattle.wasmparser_type_list.specs.LentValues.{EndsShared, LendsHeld};

    /// Creates a value with one owner. Its place in memory is taken from the allocator where it is first shared.
    pub fn new(alloc: Global, value: T) -> MaybeOwned<T>
        ensures { result ≡ owned value }
    {
        MaybeOwned {
            alloc,
            holder: Holder::Owned(value),
        }
    }

    /// Returns the value.
    pub fn get(&self) -> &T
        ensures { self.now.value ≡ Some result.now }
    {
        self.holder.get().unwrap()
    }

    /// Returns the value, to be changed, as long as it isn't shared.
    pub fn assert_mut(&mut self) -> &mut T
        requires { self.old.is_shared ≡ false }
        ensures* lends { sem 𝓛 (LendsHeld T.row self.entry result) }
        ensures value { self.old ≡ owned result.now }
    {
        self.holder.owned_mut()
    }

    /// Shares the value from now on.
    ///
    /// # Errors
    /// Where memory runs out, it is as it was.
    pub fn make_shared(&mut self) -> Result<(), AllocError>
        ensures shared { IfOk result (λ _. self.new ≡ shared_from_now self.old) }
        ensures kept { IfErr result (λ _. self.new ≡ self.old) }
        ensures again { self.old.is_shared ≡ true → IsOk result }
    {
        match mem::replace(&mut self.holder, Holder::Empty) {
            Holder::Owned(value) => match Rc::new(self.alloc, value) {
                Ok(shared) => {
                    self.holder = Holder::Shared(shared);
                    Ok(())
                }
                Err(refused) => {
                    self.holder = Holder::Owned(refused.value);
                    Err(AllocError)
                }
            },
            Holder::Shared(shared) => {
                self.holder = Holder::Shared(shared);
                Ok(())
            }
            Holder::Empty => Ok(()),
        }
    }

    /// Returns the shared value, if it is shared.
    pub fn shared(&self) -> Option<&Rc<T>>
        ensures { option_map (λ rc. rc.value) (option_copied result) ≡ shared_value self.now }
    {
        match &self.holder {
            Holder::Shared(it) => Some(it),
            _ => None,
        }
    }

    /// Returns the shared value, which is shared from now on.
    ///
    /// # Errors
    /// Where memory runs out, it is as it was.
    pub fn rc(&mut self) -> Result<&Rc<T>, AllocError>
        ensures* lends { sem 𝓛 (EndsShared T.row self.entry (is_ok result)) }
        ensures value { IfOk result (λ rc. self.old.value ≡ Some rc.now.value) }
        ensures again { self.old.is_shared ≡ true → IsOk result }
    {
        self.make_shared()?;
        // A proof knows that something is held once a field is used.
        let _ = &self.holder;
        Ok(self.shared().unwrap())
    }
}
