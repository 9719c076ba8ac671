//! One value, with a place for it where others can have it too.

ghost use Rattle.std.specs.Prelude.{◌≡◌, true, false, cond, not, IfOk, OnOk, OnErr};
ghost use Rattle.std.specs.Borrow.{sem};
ghost use Rattle.paris_shared.specs.Lending.{LendsValue};

use std::alloc::{AllocError, Global};
use std::marker::Model;
use std::mem;
use std::sync::Arc;

/// A value that may be changed, or one that is only read and may have several owners. Once there is a place for it, it is shared and
/// taken back with no memory. A clause sees the value, whether it may be changed, and whether there is a place.
#[derive(Drop)]
pub struct Held<V> {
    own: V,
    place: Option<Arc<V, Global>>,
    is_own: bool,
}

impl<V> Model for Held<V> {
    ghost use Rattle.paris_shared.specs.Held.{Held, held_of, IsHeld};

    ghost Value = { Held V };

    ghost view = { held_of };

    ghost invariant = { IsHeld };
}

impl<V> Held<V> {
    /// A value that may be changed. It takes no memory, and has no place yet.
    pub fn new(value: V) -> Held<V>
        ensures value { result.value ≡ value }
        ensures own { result.own ≡ true }
        ensures place { result.place ≡ false }
    {
        Held {
            own: value,
            place: None,
            is_own: true,
        }
    }

    /// The value.
    pub fn get(&self) -> &V
        ensures { result.now ≡ self.now.value }
    {
        if self.is_own {
            return &self.own;
        }
        match &self.place {
            Some(place) => place,
            None => unreachable!(),
        }
    }

    /// The value, to change.
    pub fn get_mut(&mut self) -> &mut V
        requires { self.old.own ≡ true }
        ensures* writes_back { sem 𝓛 (LendsValue V.row self.entry result) }
        ensures value { result.now ≡ self.old.value }
    {
        &mut self.own
    }

    /// Whether it may be changed.
    pub fn is_own(&self) -> bool
        ensures { result ≡ self.now.own }
    {
        self.is_own
    }

    /// Exchanges the value for what lies in its place, and tells whether it did: it does where nobody else has the place. It takes no
    /// memory.
    fn exchange(&mut self) -> bool
        ensures value { self.new.value ≡ self.old.value }
        ensures own { self.new.own ≡ cond result (not self.old.own) self.old.own }
        ensures place { self.new.place ≡ self.old.place }
    {
        match &mut self.place {
            Some(place) => match Arc::get_mut(place) {
                Some(inside) => {
                    mem::swap(inside, &mut self.own);
                    self.is_own = !self.is_own;
                    true
                }
                None => false,
            },
            None => false,
        }
    }

    /// Whether it may be changed. Where nobody else has it, it may from here on. It takes no memory.
    pub fn take_back(&mut self) -> bool
        ensures value { self.new.value ≡ self.old.value }
        ensures own { self.new.own ≡ result }
        ensures kept { self.old.own ≡ true → result ≡ true }
        ensures place { self.new.place ≡ self.old.place }
    {
        self.is_own || self.exchange()
    }

    /// Makes it one that others can have too, where there is a place for it. It takes no memory.
    pub fn share(&mut self)
        ensures value { self.new.value ≡ self.old.value }
        ensures place { self.new.place ≡ self.old.place }
    {
        if self.is_own {
            self.exchange();
        }
    }
}

impl<V: Drop> Held<V> {
    /// Puts another value into it, which may be changed, with a place of its own, where an empty one lies meanwhile.
    pub fn put(&mut self, alloc: Global, value: V, empty: V) -> Result<(), AllocError>
        ensures ok { OnOk result (self.new.value ≡ value) }
        ensures own { OnOk result (self.new.own ≡ true) }
        ensures place { OnOk result (self.new.place ≡ true) }
        ensures err { OnErr result (self.new ≡ self.old) }
    {
        match Arc::new(alloc, empty) {
            Ok(place) => {
                self.own = value;
                self.place = Some(place);
                self.is_own = true;
                Ok(())
            }
            Err(_) => Err(AllocError),
        }
    }

    /// Makes a place for a value that may be changed, where there is none, with an empty one in it.
    pub fn make_place(&mut self, alloc: Global, empty: V) -> Result<(), AllocError>
        requires { self.old.own ≡ true }
        ensures value { self.new.value ≡ self.old.value }
        ensures own { self.new.own ≡ true }
        ensures ok { OnOk result (self.new.place ≡ true) }
        ensures err { OnErr result (self.new ≡ self.old) }
    {
        match self.place {
            Some(_) => {}
            None => match Arc::new(alloc, empty) {
                Ok(place) => self.place = Some(place),
                Err(_) => return Err(AllocError),
            },
        }
        Ok(())
    }

    /// One owner more of a value that may not be changed. An empty one lies where one that may be will lie.
    pub fn another(&self, empty: V) -> Result<Held<V>, AllocError>
        requires { self.now.own ≡ false }
        ensures value { IfOk result (λ held. held.value ≡ self.now.value) }
        ensures own { IfOk result (λ held. held.own ≡ false) }
        ensures place { IfOk result (λ held. held.place ≡ true) }
    {
        match &self.place {
            Some(place) => Ok(Held {
                own: empty,
                place: Some(Arc::try_clone(place)?),
                is_own: false,
            }),
            None => unreachable!(),
        }
    }
}
