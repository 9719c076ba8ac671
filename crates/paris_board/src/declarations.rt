//! The declared sets and fields.

ghost use Rattle.std.specs.Prelude.{◌≡◌, ℕ, ◌<◌, ◌≤◌, length, true, None, Some, IfOk, IfErr, IfSome, ok_or};
ghost use Rattle.paris_names.specs.declared.faults.Fault.TheVariants as Fault;
ghost use Rattle.paris_names.specs.Faults.{IsFaultOf};
ghost use Rattle.paris_board.specs.Board.{empty_board, set_named, field_named, key_named, is_taken, axes_of, is_declared, declaration_at, set_of_key, width_of, set_fault, field_fault, with_set, with_field, IsBoard};
ghost use Rattle.paris_names.specs.Profiles.{max_width};
ghost use Rattle.paris_names.specs.declared.profiles.Profile.TheVariants.{One};
ghost use Rattle.paris_names.specs.declared.limits.TheConstants.{MAX_FIELDS, MAX_SETS, MAX_WIDTH};

use indexmap::IndexMap;
use paris_geometry::Geometry;
use paris_names::limits::{MAX_FIELDS, MAX_SETS};
use paris_names::{Fault, FieldNo, Key, KeyName, Name, Profile, SetNo};
use std::alloc::{AllocError, Global};
use std::marker::Model;

/// The set and the width, in bits, of a declared field.
#[derive(Clone, Copy)]
struct FieldDeclaration {
    set: SetNo,
    width: u64,
}

/// The declared sets and fields, and the profile, which says how wide a field may be. A clause sees the profile and both lists, each in
/// the order of its declaration.
#[derive(Drop)]
pub struct Board {
    profile: Profile,
    sets: IndexMap<Name, Geometry>,
    fields: IndexMap<Name, FieldDeclaration>,
}

impl Model for Board {
    ghost use Rattle.paris_board.specs.Board.{Board};

    ghost Value = { Board };

    ghost use Rattle.paris_board.specs.BoardFields.{board_of, IsSound};

    ghost view = { board_of };

    ghost invariant = { IsSound };
}

impl Board {
    /// A board of profile 1 with no sets and no fields, which grows by this allocator.
    pub fn new(alloc: Global) -> Board
        ensures { result ≡ empty_board One }
    {
        Board::with_profile(alloc, Profile::One)
    }

    /// A board of a profile with no sets and no fields, which grows by this allocator.
    pub fn with_profile(alloc: Global, profile: Profile) -> Board
        ensures { result ≡ empty_board profile }
    {
        Board {
            profile,
            sets: IndexMap::new(alloc),
            fields: IndexMap::new(alloc),
        }
    }

    /// A copy that equals the board.
    pub fn copy(&self) -> Result<Board, AllocError>
        ensures { IfOk result (λ board. board ≡ self.now) }
    {
        let sets = self.sets.clone()?;
        let fields = self.fields.clone()?;
        Ok(Board {
            profile: self.profile,
            sets,
            fields,
        })
    }

    /// The profile.
    pub fn profile(&self) -> Profile
        ensures { result ≡ self.now.profile }
    {
        self.profile
    }

    fn set_named(&self, name: Name) -> Option<SetNo>
        ensures value { result ≡ set_named self.now name }
        ensures declared { IfSome result (λ s. s < length self.now.sets) }
        ensures sound { IsBoard self.now }
    {
        match self.sets.get_index_of(&name) {
            Some(place) => Some(SetNo::new(place as u64)),
            None => None,
        }
    }

    fn field_named(&self, name: Name) -> Option<FieldNo>
        ensures value { result ≡ field_named self.now name }
        ensures declared { IfSome result (λ f. f < length self.now.fields) }
        ensures sound { IsBoard self.now }
    {
        match self.fields.get_index_of(&name) {
            Some(place) => Some(FieldNo::new(place as u64)),
            None => None,
        }
    }

    fn is_taken(&self, name: Name) -> bool
        ensures { result ≡ is_taken self.now name }
    {
        self.set_named(name).is_some() || self.field_named(name).is_some()
    }

    /// Why a set of this name can't be declared: `NameTaken`, then `SetsFull`. `None` where it can.
    pub fn set_fault(&self, name: Name) -> Option<Fault>
        ensures value { result ≡ set_fault self.now name }
        ensures sound { IsBoard self.now }
    {
        if self.is_taken(name) {
            Some(Fault::NameTaken)
        } else if self.sets.len() >= MAX_SETS {
            Some(Fault::SetsFull)
        } else {
            None
        }
    }

    /// Why a field of this name and width, in bits, can't be declared in the set of that name: `NoSet`, then `NameTaken`,
    /// `FieldsFull` and `BadWidth`. `None` where it can.
    pub fn field_fault(&self, name: Name, set: Name, width: u64) -> Option<Fault>
        ensures { result ≡ field_fault self.now name set width }
    {
        if self.set_named(set).is_none() {
            Some(Fault::NoSet)
        } else if self.is_taken(name) {
            Some(Fault::NameTaken)
        } else if self.fields.len() >= MAX_FIELDS {
            Some(Fault::FieldsFull)
        } else if width == 0 || width > self.profile.max_width() {
            Some(Fault::BadWidth)
        } else {
            None
        }
    }

    /// Declares a set. It is refused by `set_fault`, or by `NoMemory` where memory for it is refused.
    pub fn add_set(&mut self, name: Name, geometry: Geometry) -> Result<SetNo, Fault>
        ensures ok { IfOk result (λ s. (set_fault self.old name ≡ None)
            × (s ≡ length self.old.sets)
            × (self.new ≡ with_set self.old name geometry)) }
        ensures err { IfErr result (λ fault. (self.new ≡ self.old)
            × IsFaultOf (set_fault self.old name) fault) }
    {
        if let Some(fault) = self.set_fault(name) {
            return Err(fault);
        }
        let place = self.sets.len();
        let Ok(_) = self.sets.insert(name, geometry) else {
            return Err(Fault::NoMemory);
        };
        Ok(SetNo::new(place as u64))
    }

    /// Declares a field of a set, with a width in bits. It is refused by `field_fault`, or by `NoMemory` where memory for it
    /// is refused.
    pub fn add_field(&mut self, name: Name, set: Name, width: u64) -> Result<FieldNo, Fault>
        ensures ok { IfOk result (λ f. (field_fault self.old name set width ≡ None)
            × (f ≡ length self.old.fields)
            × ((s : ℕ) × (set_named self.old set ≡ Some s) × (self.new ≡ with_field self.old name s width))) }
        ensures err { IfErr result (λ fault. (self.new ≡ self.old)
            × IsFaultOf (field_fault self.old name set width) fault) }
    {
        if let Some(fault) = self.field_fault(name, set, width) {
            return Err(fault);
        }
        let set = self.set_of(set)?;
        let place = self.fields.len();
        let Ok(_) = self.fields.insert(name, FieldDeclaration { set, width }) else {
            return Err(Fault::NoMemory);
        };
        Ok(FieldNo::new(place as u64))
    }

    /// The key of a field's name, or of a set's name with a flag. `NoField` where there is none.
    pub fn key_of(&self, name: KeyName) -> Result<Key, Fault>
        ensures value { result ≡ ok_or (key_named self.now name) Fault.NoField }
        ensures declared { IfOk result (λ k. is_declared self.now k ≡ true) }
        ensures sound { IsBoard self.now }
    {
        let key = match name.flag {
            None => self.field_named(name.name).map(Key::Field),
            Some(flag) => self.set_named(name.name).map(|set| Key::Flag(set, flag)),
        };
        key.ok_or(Fault::NoField)
    }

    /// The set of this name. `NoSet` where there is none.
    pub fn set_of(&self, name: Name) -> Result<SetNo, Fault>
        ensures value { result ≡ ok_or (set_named self.now name) Fault.NoSet }
        ensures declared { IfOk result (λ s. s < length self.now.sets) }
    {
        self.set_named(name).ok_or(Fault::NoSet)
    }

    /// How many sets are declared.
    pub fn sets(&self) -> usize
        ensures value { result ≡ length self.now.sets }
        ensures few { result ≤ MAX_SETS }
        ensures sound { IsBoard self.now }
    {
        self.sets.len()
    }

    /// How many fields are declared.
    pub fn fields(&self) -> usize
        ensures value { result ≡ length self.now.fields }
        ensures few { result ≤ MAX_FIELDS }
    {
        self.fields.len()
    }

    /// The lengths of the axes of a declared set.
    pub fn geometry(&self, set: SetNo) -> Geometry
        requires { set < length self.now.sets }
        ensures { result ≡ axes_of self.now set }
    {
        self.sets[set.number() as usize]
    }

    fn declaration(&self, field: FieldNo) -> FieldDeclaration
        requires { field < length self.now.fields }
        ensures set { result.set ≡ (declaration_at self.now field).set_no }
        ensures declared { result.set < length self.now.sets }
        ensures width { result.width ≡ (declaration_at self.now field).width }
        ensures positive { 0 < result.width }
        ensures small { result.width ≤ max_width self.now.profile }
    {
        self.fields[field.number() as usize]
    }

    /// The width of a declared key, in bits. A flag is one bit wide.
    pub fn width(&self, key: Key) -> u64
        requires { is_declared self.now key ≡ true }
        ensures value { result ≡ width_of self.now key }
        ensures positive { 0 < result }
        ensures within { result ≤ max_width self.now.profile }
        ensures small { result ≤ MAX_WIDTH }
    {
        match key {
            Key::Field(field) => self.declaration(field).width,
            Key::Flag(_, _) => 1,
        }
    }

    /// The set of a declared key.
    pub fn set_of_key(&self, key: Key) -> SetNo
        requires { is_declared self.now key ≡ true }
        ensures value { result ≡ set_of_key self.now key }
        ensures declared { result < length self.now.sets }
    {
        match key {
            Key::Field(field) => self.declaration(field).set,
            Key::Flag(set, _) => set,
        }
    }
}
