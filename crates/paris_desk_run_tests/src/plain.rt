//! What a history leads to, in plain lists: the rows, and the numbers at each key before each of them, by the plain program.

ghost use Rattle.std.specs.Prelude.{◌≡◌, IfOk};

use paris_board::Board;
use paris_edits::{Edit, EditReply};
use paris_geometry::Geometry;
use paris_instr::{Plan, resolve};
use paris_model::{Instr, Refusal};
use paris_names::FlagName::{Carry, Context, Overflow, Test};
use paris_names::limits::MAX_WIDTH_OF_ONE;
use paris_names::{Fault, Items, Key, KeyName, Name, RowId, Spot};
use paris_plain::{Inputs, flags_are_bits, outcome};
use std::alloc::{AllocError, Global};
use std::process::Abort;

/// A row of the program.
#[derive(Drop)]
pub(crate) struct Row {
    pub(crate) id: RowId,
    pub(crate) plan: Plan,
}

/// The numbers at each key, by processor.
type World = Vec<Items<u128>>;

/// What the edits of a history lead to. The worlds before and after the rows, and why rows are refused, are those of the last run.
#[derive(Drop)]
pub(crate) struct Plain {
    alloc: Global,
    pub(crate) board: Board,
    keys: Vec<Key>,
    start: World,
    pub(crate) rows: Vec<Row>,
    next: u64,
    worlds: Vec<World>,
    causes: Vec<Option<Refusal>>,
    is_run: bool,
}

/// Adds a list of these numbers to a world.
fn add_list(alloc: Global, world: &mut World, numbers: &[u128]) -> Result<(), AllocError> {
    let list = Vec::from_slice(alloc, numbers)?;
    world.push(Items::new(list))?;
    Ok(())
}

fn add_copies(alloc: Global, world: &mut World, lists: &[Items<u128>]) -> Result<(), AllocError> {
    for list in lists {
        add_list(alloc, world, list.as_slice())?;
    }
    Ok(())
}

fn copies(alloc: Global, lists: &[Items<u128>]) -> Result<World, AllocError> {
    let mut copies = Vec::new(alloc);
    add_copies(alloc, &mut copies, lists)?;
    Ok(copies)
}

/// A list with other numbers from a place on.
fn overwritten(
    alloc: Global,
    list: &[u128],
    from: u64,
    values: &[u128],
) -> Result<Items<u128>, AllocError> {
    let mut new = Vec::new(alloc);
    for (place, old) in list.iter().enumerate() {
        let beside = place.wrapping_sub(from as usize);
        new.push(*values.get(beside).unwrap_or(old))?;
    }
    Ok(Items::new(new))
}

/// What a plan sees in a world.
fn inputs_of(
    rt: &impl Abort,
    alloc: Global,
    keys: &[Key],
    world: &[Items<u128>],
    plan: &Plan,
) -> Result<Inputs, AllocError>
    ensures { IfOk result (λ inputs. inputs.axes ≡ plan.now.axes) }
{
    let keys = Vec::from_slice(alloc, keys)?;
    let values = copies(alloc, world)?;
    assert!(rt; flags_are_bits(keys.as_slice(), values.as_slice()));
    Ok(Inputs::new(plan.set(), plan.geometry(), keys, values))
}

/// What a plan leaves at the keys that it writes, or why it is refused.
fn left_by(
    rt: &impl Abort,
    alloc: Global,
    keys: &[Key],
    world: &[Items<u128>],
    plan: &Plan,
) -> Result<Result<Items<Items<u128>>, Refusal>, AllocError> {
    let inputs = inputs_of(rt, alloc, keys, world, plan)?;
    let action = plan.action();
    assert!(rt; plan.is_within(MAX_WIDTH_OF_ONE));
    outcome(alloc, &inputs, &action, plan.writes())
}

/// Adds the lists of a world to a new one, with other numbers at some keys.
fn add_lists(
    alloc: Global,
    new: &mut World,
    keys: &[Key],
    world: &[Items<u128>],
    written: &[Key],
    lists: &[Items<u128>],
) -> Result<(), AllocError> {
    for (key, old) in keys.iter().zip(world.iter()) {
        let list = list_at(written, lists, *key).unwrap_or(old.as_slice());
        add_list(alloc, new, list)?;
    }
    Ok(())
}

/// A world with other numbers at some keys.
fn with_lists(
    alloc: Global,
    keys: &[Key],
    world: &[Items<u128>],
    written: &[Key],
    lists: &[Items<u128>],
) -> Result<World, AllocError> {
    let mut new = Vec::new(alloc);
    add_lists(alloc, &mut new, keys, world, written, lists)?;
    Ok(new)
}

/// Where a key stands in a list.
fn place_in(keys: &[Key], key: Key) -> Option<usize> {
    for (place, other) in keys.iter().enumerate() {
        if *other == key {
            return Some(place);
        }
    }
    None
}

/// The list beside a key.
fn list_at<'a>(keys: &[Key], lists: &'a [Items<u128>], key: Key) -> Option<&'a [u128]> {
    let place = place_in(keys, key)?;
    match lists.get(place) {
        Some(list) => Some(list.as_slice()),
        None => None,
    }
}

/// Whether a number has a bit above so many.
fn is_wide(value: u128, bits: u32) -> bool {
    match value.checked_shr(bits) {
        Some(above) => above != 0,
        None => false,
    }
}

/// Where the first number stands that has a bit above so many.
fn first_wide(values: &[u128], bits: u32) -> Option<u64> {
    for (place, value) in values.iter().enumerate() {
        if is_wide(*value, bits) {
            return Some(place as u64);
        }
    }
    None
}

impl Plain {
    pub(crate) fn new(alloc: Global) -> Plain {
        Plain {
            alloc,
            board: Board::new(alloc),
            keys: Vec::new(alloc),
            start: Vec::new(alloc),
            rows: Vec::new(alloc),
            next: 1,
            worlds: Vec::new(alloc),
            causes: Vec::new(alloc),
            is_run: false,
        }
    }

    /// Declares a key, with a number in each processor.
    fn declare(&mut self, key: Key, count: usize, number: u128) -> Result<(), AllocError> {
        let mut list = Vec::new(self.alloc);
        for _ in 0..count {
            list.push(number)?;
        }
        self.keys.push(key)?;
        self.start.push(Items::new(list))?;
        Ok(())
    }

    fn add_set(&mut self, name: Name, axes: &[u64]) -> Result<EditReply, Fault> {
        if let Some(fault) = self.board.set_fault(name) {
            return Err(fault);
        }
        let geometry = Geometry::new(axes)?;
        let set = self.board.add_set(name, geometry)?;
        for flag in [Context, Test, Carry, Overflow] {
            let number = if flag == Context { 1 } else { 0 };
            self.declare(Key::Flag(set, flag), geometry.vps(), number)?;
        }
        Ok(EditReply::Accepted)
    }

    fn add_field(&mut self, name: Name, set: Name, width: u64) -> Result<EditReply, Fault> {
        let number = self.board.set_of(set)?;
        let count = self.board.geometry(number).vps();
        let field = self.board.add_field(name, set, width)?;
        self.declare(Key::Field(field), count, 0)?;
        Ok(EditReply::Accepted)
    }

    fn set_input(&mut self, name: KeyName, from: u64, values: &[u128]) -> Result<EditReply, Fault> {
        let key = self.board.key_of(name)?;
        let width = self.board.width(key);
        let place = self.keys.iter().position(|k| *k == key);
        let list = list_at(self.keys.as_slice(), self.start.as_slice(), key).unwrap_or(&[]);
        let end = (values.len() as u64).saturating_add(from);
        if values.is_empty() || end > list.len() as u64 {
            return Err(Fault::WrongCount);
        }
        if let Some(wide) = first_wide(values, width as u32) {
            return Err(Fault::TooWide(from.saturating_add(wide)));
        }
        let new = overwritten(self.alloc, list, from, values)?;
        if let Some(old) = place.and_then(|p| self.start.get_mut(p)) {
            *old = new;
        }
        Ok(EditReply::Accepted)
    }

    /// The place of the row of an id.
    pub(crate) fn place_of(&self, id: RowId) -> Option<usize> {
        for (place, row) in self.rows.iter().enumerate() {
            if row.id == id {
                return Some(place);
            }
        }
        None
    }

    /// How many rows stand before a spot.
    pub(crate) fn place_at(&self, spot: Spot) -> Option<usize> {
        match spot {
            Spot::Start => Some(0),
            Spot::End => Some(self.rows.len()),
            Spot::After(id) => match self.place_of(id) {
                Some(place) => Some(place.saturating_add(1)),
                None => None,
            },
        }
    }

    fn insert(&mut self, rt: &impl Abort, spot: Spot, instr: Instr) -> Result<EditReply, Fault> {
        let place = self.place_at(spot).ok_or(Fault::NoRow)?;
        let plan = resolve(self.alloc, &self.board, instr)?;
        let id = RowId(self.next);
        assert!(rt; place <= self.rows.len());
        let row = Row { id, plan };
        self.rows
            .insert(place, row)
            .ok()
            .expect(rt, "there is memory");
        self.next = self.next.saturating_add(1);
        Ok(EditReply::Row(id))
    }

    fn delete(&mut self, rt: &impl Abort, id: RowId) -> Result<EditReply, Fault> {
        let place = self.place_of(id).ok_or(Fault::NoRow)?;
        assert!(rt; place < self.rows.len());
        let _row = self.rows.remove(place);
        Ok(EditReply::Accepted)
    }

    fn replace(&mut self, id: RowId, instr: Instr) -> Result<EditReply, Fault> {
        let place = self.place_of(id).ok_or(Fault::NoRow)?;
        let plan = resolve(self.alloc, &self.board, instr)?;
        if let Some(row) = self.rows.get_mut(place) {
            row.plan = plan;
        }
        Ok(EditReply::Accepted)
    }

    /// Makes an edit of the history, and tells the answer to it.
    pub(crate) fn edit(&mut self, rt: &impl Abort, edit: &Edit) -> Result<EditReply, Fault> {
        self.is_run = false;
        match edit {
            Edit::AddSet { name, axes } => self.add_set(*name, axes.as_slice()),
            Edit::AddField { name, set, width } => self.add_field(*name, *set, *width),
            Edit::Input { key, from, values } => self.set_input(*key, *from, values.as_slice()),
            Edit::Insert { spot, instr } => self.insert(rt, *spot, *instr),
            Edit::Delete(id) => self.delete(rt, *id),
            Edit::Replace { row, instr } => self.replace(*row, *instr),
        }
    }

    /// The world after a row, and why the row is refused, if it is.
    fn after_row(
        &self,
        rt: &impl Abort,
        world: &[Items<u128>],
        plan: &Plan,
    ) -> Result<(World, Option<Refusal>), AllocError> {
        let keys = self.keys.as_slice();
        match left_by(rt, self.alloc, keys, world, plan)? {
            Ok(lists) => {
                let writes = plan.writes();
                let new = with_lists(self.alloc, keys, world, writes, lists.as_slice())?;
                Ok((new, None))
            }
            Err(cause) => Ok((copies(self.alloc, world)?, Some(cause))),
        }
    }

    /// What the row at a place leaves, and why it is refused, if it is. All rows before it are run.
    fn after(&self, rt: &impl Abort, place: usize) -> Result<(World, Option<Refusal>), AllocError> {
        let row = self.rows.get(place).expect(rt, "there is such a row");
        let world = self.worlds.get(place).expect(rt, "the rows before are run");
        self.after_row(rt, world.as_slice(), &row.plan)
    }

    /// Runs the row at a place.
    fn run_row(&mut self, rt: &impl Abort, place: usize) -> Result<(), AllocError> {
        let (world, cause) = self.after(rt, place)?;
        self.worlds.push(world)?;
        self.causes.push(cause)?;
        Ok(())
    }

    /// Runs the program once from the input data, unless that was done since the last edit.
    pub(crate) fn run(&mut self, rt: &impl Abort) -> Result<(), AllocError> {
        if self.is_run {
            return Ok(());
        }
        self.worlds.clear();
        self.causes.clear();
        self.worlds
            .push(copies(self.alloc, self.start.as_slice())?)?;
        for place in 0..self.rows.len() {
            self.run_row(rt, place)?;
        }
        self.is_run = true;
        Ok(())
    }

    /// The numbers at a key behind so many rows.
    pub(crate) fn numbers(&self, place: usize, key: Key) -> Option<&[u128]> {
        match self.worlds.get(place) {
            Some(world) => list_at(self.keys.as_slice(), world.as_slice(), key),
            None => None,
        }
    }

    /// Why the row at a place is refused, if it is.
    pub(crate) fn cause(&self, place: usize) -> Option<Refusal> {
        self.causes.get(place).copied().unwrap_or(None)
    }

    /// The last row before a place that writes a key.
    pub(crate) fn writer(&self, place: usize, key: Key) -> Option<RowId> {
        let mut last = None;
        for row in self.rows.iter().take(place) {
            if row.plan.writes().contains(&key) {
                last = Some(row.id);
            }
        }
        last
    }
}
