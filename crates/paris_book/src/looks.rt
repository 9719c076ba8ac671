//! What the rows and the input data show.

ghost use Rattle.std.specs.Prelude.{◌≡◌, ◌<◌, ◌≤◌, ◌&&◌, ℕ, not, length, take, map, true, false, Some, None, if◌then◌else◌, IfOk, IfSome, IsSome, is_some, slice_get};
ghost use Rattle.std.specs.Option.{option_map};
ghost use Rattle.std.specs.List.{list_all, list_any};
ghost use Rattle.std.specs.Cmp.Lexicographic.{pointwise};
ghost use Rattle.paris_names.specs.declared.keys.Key.{Key as AnyKey};
ghost use Rattle.paris_names.specs.Keys.{has_key};
ghost use Rattle.paris_model.specs.Instructions.{reads, writes};
ghost use Rattle.paris_depends.specs.Sweeps.{marked};
ghost use Rattle.paris_edits.specs.Rows.{is_settled, is_waiting};
ghost use Rattle.paris_field.specs.Fields.{field_eq};
ghost use Rattle.paris_exec.specs.Tasks.{Task, fits};
ghost use Rattle.paris_events.specs.State.{input_of, start_world, work_of};
ghost use Rattle.paris_events.specs.Show.{origin_at};
ghost use Rattle.paris_events.specs.Orders.{is_firm as is_firm_origin, next_ready, inputs_now};
ghost use Rattle.paris_events.specs.CutOff.{is_present as is_order_present, is_cut as is_row_cut};
ghost use Rattle.paris_events.specs.Results.{verdict_at};
ghost use Rattle.paris_book.specs.Kept.{Sound, present};
ghost use Rattle.paris_book.specs.Whole.{AllFitted, Fitted, shape_in};
ghost use Rattle.paris_book.specs.Among.{inputs_of, shown_at, shared_shown, LookFits};
ghost use Rattle.paris_book.specs.Sources.{AreNamed, AreSources, IsSource, KnownArePresent, TellsResult};
ghost use Rattle.paris_book.specs.Verdicts.{KeptFor, LooksAt};
ghost use Rattle.paris_book.specs.Entries.{Entry, machine_row, seen, rows_seen};
ghost use Rattle.paris_book.specs.Steps.{order_on};

use crate::inputs::{InputData, input_at};
use crate::look::SharedLook;
use crate::program_rows::Rows;
use crate::rows::RowData;
use crate::sources::{Source, Sources};
use paris_depends::{is_any_marked, mark};
use paris_edits::Verdict;
use paris_exec::{Done, Order};
use paris_field::SharedValue;
use paris_instr::Plan;
use paris_names::{Key, RowId};
use std::alloc::{AllocError, Global};

/// What is shown of a key at a place, and where that comes from.
#[derive(Debug, Drop)]
struct Found<'a> {
    look: SharedLook<'a>,
    source: Source,
}

/// What is found of a key at a place. The source of what waits isn't known.
fn find_at<'a>(inputs: &'a InputData, rows: &'a Rows, place: usize, key: &Key) -> Found<'a>
    requires known { IsSome (input_of (inputs_of inputs.now) key.now) }
    requires within { place ≤ length rows.now.rows }
    requires sound { Sound (start_world (inputs_of inputs.now)) (λ _. true) rows.now.rows }
    requires fitted { AllFitted (inputs_of inputs.now) rows.now.rows }
    ensures shown { shared_shown result.look ≡ shown_at (inputs_of inputs.entry.now) rows.entry.now.rows place key.now }
    ensures fits { LookFits result.look (shape_in (inputs_of inputs.entry.now) key.now) }
    ensures source { IsSource (inputs_of inputs.entry.now) rows.entry.now.rows place key.now result.source }
{
    match rows.origin(place, key) {
        None => match input_at(inputs, key) {
            Some(input) => Found {
                look: SharedLook::Settled(&input.value),
                source: Source::Input(input.number),
            },
            None => unreachable!(),
        },
        Some(id) => match rows.row(id) {
            Some(row) => Found {
                look: look_at_row(id, row, key),
                source: source_in(id, row),
            },
            None => unreachable!(),
        },
    }
}

/// What is shown of a key at a place.
pub(crate) fn look_at<'a>(
    inputs: &'a InputData,
    rows: &'a Rows,
    place: usize,
    key: &Key,
) -> SharedLook<'a>
    requires known { IsSome (input_of (inputs_of inputs.now) key.now) }
    requires within { place ≤ length rows.now.rows }
    requires sound { Sound (start_world (inputs_of inputs.now)) (λ _. true) rows.now.rows }
    requires fitted { AllFitted (inputs_of inputs.now) rows.now.rows }
    ensures shown { shared_shown result ≡ shown_at (inputs_of inputs.entry.now) rows.entry.now.rows place key.now }
    ensures fits { LookFits result (shape_in (inputs_of inputs.entry.now) key.now) }
{
    find_at(inputs, rows, place, key).look
}

/// What a row, as the origin of a key, shows of it.
fn look_at_row<'a>(id: RowId, row: &'a RowData, key: &Key) -> SharedLook<'a>
    requires kept { KeptFor (id.0, row.now) key.now }
    ensures { LooksAt result (id.0, row.entry.now) key.now }
{
    if !row.status().is_settled() {
        return SharedLook::Pending(id);
    }
    match row.done() {
        Some(done) => SharedLook::Settled(done.shared_value(key)),
        None => unreachable!(),
    }
}

/// Carries the marks of the keys whose origin is an unsettled row past a row, and answers whether the row waits and reads no
/// marked key.
fn pass(pending: &mut [bool; 128], row: &RowData) -> bool
    ensures ready { result ≡ (is_waiting row.now.status && not (list_any (marked pending.old) (reads row.now.plan))) }
    ensures marks { (k : AnyKey) → marked pending.new k ≡ (if has_key (writes row.now.plan) k then not (is_settled row.now.status) else marked pending.old k) }
{
    let ready = row.status().is_waiting() && !is_any_marked(pending, row.plan().reads());
    mark(pending, row.plan().writes(), !row.status().is_settled());
    ready
}

/// The place of the first ready row.
pub(crate) fn first_ready(rows: &Rows) -> Option<usize>
    ensures { result ≡ option_map (λ e. e.0) (next_ready (rows_seen rows.now.rows)) }
{
    let Some(start) = rows.next_unsettled(0) else {
        return None;
    };
    let mut pending = [false; 128];
    for i in start..rows.len() {
        let (_, row) = rows.at(i);
        if pass(&mut pending, row) {
            return Some(i);
        }
    }
    None
}

/// The values at the keys that a plan reads, with their sources. `None` where one of them waits for an unsettled row.
fn present_inputs(
    alloc: Global,
    inputs: &InputData,
    rows: &Rows,
    place: usize,
    plan: &Plan,
    sources: &mut Sources,
) -> Result<Option<Vec<SharedValue>>, AllocError>
    requires within { place ≤ length rows.now.rows }
    requires sound { Sound (start_world (inputs_of inputs.now)) (λ _. true) rows.now.rows }
    requires fitted { AllFitted (inputs_of inputs.now) rows.now.rows }
    requires plan_fitted { Fitted (inputs_of inputs.now) plan.now }
    ensures values { IfOk result (λ values. option_map (λ v. v.items) values
        ≡ (if list_all (λ k. is_firm_origin (origin_at (rows_seen rows.now.rows) place k)) (reads plan.now)
        then Some (inputs_now (seen (inputs_of inputs.now) rows.now.rows) place plan.now) else None)) }
    ensures fit { IfOk result (λ values. IfSome values (λ values. fits plan.now values.items ≡ true)) }
    ensures sources { IfOk result (λ values. IfSome values (λ values. AreSources (inputs_of inputs.now) rows.now.rows place (reads plan.now) sources.new.keys)) }
{
    *sources = Sources::none();
    let keys = plan.reads();
    let mut values = Vec::new(alloc);
    for number in 0..keys.len() {
        let found = find_at(inputs, rows, place, &keys[number]);
        match found.look {
            SharedLook::Settled(value) => values.push(value.copy()?)?,
            SharedLook::Pending(_) => return Ok(None),
        }
        sources.put(number, found.source);
    }
    Ok(Some(values))
}

/// An order for the row at a place, with the sources of what it reads. `None` where a key that it reads waits for an unsettled row.
pub(crate) fn sourced_order_at(
    alloc: Global,
    inputs: &InputData,
    rows: &Rows,
    place: usize,
    sources: &mut Sources,
) -> Result<Option<Order>, AllocError>
    requires within { place < length rows.now.rows }
    requires sound { Sound (start_world (inputs_of inputs.now)) (λ _. true) rows.now.rows }
    requires fitted { AllFitted (inputs_of inputs.now) rows.now.rows }
    ensures order { IfOk result (λ order. (e : Entry) → slice_get rows.now.rows place ≡ Some e → order ≡ order_on (seen (inputs_of inputs.now) rows.now.rows) place (Some (machine_row e))) }
    ensures sources { IfOk result (λ order. IfSome order (λ order. (e : Entry) → slice_get rows.now.rows place ≡ Some e → AreSources (inputs_of inputs.now) rows.now.rows place (reads e.1.plan) sources.new.keys)) }
{
    let (id, row) = rows.at(place);
    let Some(values) = present_inputs(alloc, inputs, rows, place, row.plan(), sources)? else {
        return Ok(None);
    };
    let plan = row.shared_plan()?;
    match Order::new(id, row.edition(), plan, values) {
        Some(order) => Ok(Some(order)),
        None => unreachable!(),
    }
}

/// An order for the row at a place. `None` where a key that it reads waits for an unsettled row.
pub(crate) fn order_at(
    alloc: Global,
    inputs: &InputData,
    rows: &Rows,
    place: usize,
) -> Result<Option<Order>, AllocError>
    requires within { place < length rows.now.rows }
    requires sound { Sound (start_world (inputs_of inputs.now)) (λ _. true) rows.now.rows }
    requires fitted { AllFitted (inputs_of inputs.now) rows.now.rows }
    ensures { IfOk result (λ order. (e : Entry) → slice_get rows.now.rows place ≡ Some e → order ≡ order_on (seen (inputs_of inputs.now) rows.now.rows) place (Some (machine_row e))) }
{
    let mut sources = Sources::none();
    sourced_order_at(alloc, inputs, rows, place, &mut sources)
}

/// Whether the origin of a key at a place is the start or a settled row.
pub(crate) fn is_firm(rows: &Rows, place: usize, key: &Key) -> bool
    requires { place ≤ length rows.now.rows }
    ensures { result ≡ is_firm_origin (origin_at (rows_seen rows.now.rows) place key.now) }
{
    match rows.origin(place, key) {
        None => true,
        Some(id) => match rows.row(id) {
            Some(row) => row.status().is_settled(),
            None => unreachable!(),
        },
    }
}

/// Where the value of a key comes from whose origin is a row. It isn't known where it waits for the row.
fn source_in(id: RowId, row: &RowData) -> Source
    ensures { TellsResult (id.0, row.now) result }
{
    match row.done() {
        Some(done) if row.status().is_settled() => Source::Row(id, done.order().edition()),
        _ => Source::Unknown,
    }
}

/// Where the value of a key at a place comes from. It isn't known where it waits for an unsettled row.
fn source_at(inputs: &InputData, rows: &Rows, place: usize, key: &Key) -> Source
    requires { place ≤ length rows.now.rows }
    ensures { IsSource (inputs_of inputs.now) rows.now.rows place key.now result }
{
    match rows.origin(place, key) {
        None => match input_at(inputs, key) {
            Some(input) => Source::Input(input.number),
            None => Source::Unknown,
        },
        Some(id) => match rows.row(id) {
            Some(row) => source_in(id, row),
            None => unreachable!(),
        },
    }
}

/// Where the values come from that the row at a place reads.
pub(crate) fn present_sources(inputs: &InputData, rows: &Rows, place: usize) -> Sources
    requires { place < length rows.now.rows }
    ensures { (e : Entry) → slice_get rows.now.rows place ≡ Some e → AreSources (inputs_of inputs.now) rows.now.rows place (reads e.1.plan) result.keys }
{
    let (_, row) = rows.at(place);
    let keys = row.plan().reads();
    let mut sources = Sources::none();
    for number in 0..keys.len() {
        sources.put(number, source_at(inputs, rows, place, &keys[number]));
    }
    sources
}

/// The present sources of what a plan reads, where these values are the present ones. They aren't where a key waits for an unsettled
/// row. Where the present source of a value is the one that is known of it, nothing is compared.
fn sources_if_same(
    inputs: &InputData,
    rows: &Rows,
    place: usize,
    plan: &Plan,
    values: &[SharedValue],
    known: &Sources,
) -> Option<Sources>
    requires within { place ≤ length rows.now.rows }
    requires sound { Sound (start_world (inputs_of inputs.now)) (λ _. true) rows.now.rows }
    requires fitted { AllFitted (inputs_of inputs.now) rows.now.rows }
    requires plan_fitted { Fitted (inputs_of inputs.now) plan.now }
    requires known { KnownArePresent (inputs_of inputs.now) rows.now.rows place plan.now values.now known.now.keys }
    ensures same { is_some result ≡ (list_all (λ k. is_firm_origin (origin_at (rows_seen rows.now.rows) place k)) (reads plan.now)
        && pointwise field_eq (inputs_now (seen (inputs_of inputs.now) rows.now.rows) place plan.now) values.now) }
    ensures sources { IfSome result (λ s. AreSources (inputs_of inputs.now) rows.now.rows place (reads plan.now) s.keys) }
{
    let keys = plan.reads();
    if keys.len() != values.len() {
        return None;
    }
    let mut sources = Sources::none();
    for i in 0..keys.len() {
        let found = find_at(inputs, rows, place, &keys[i]);
        let SharedLook::Settled(value) = found.look else {
            return None;
        };
        if !known.is_known_at(i, found.source) && !value.get().equals(values[i].get()) {
            return None;
        }
        sources.put(i, found.source);
    }
    Some(sources)
}

/// Whether an order is of the plan of the row at a place, and of the present values.
fn is_present(inputs: &InputData, rows: &Rows, place: usize, order: &Order) -> bool
    requires within { place < length rows.now.rows }
    requires sound { Sound (start_world (inputs_of inputs.now)) (λ _. true) rows.now.rows }
    requires fitted { AllFitted (inputs_of inputs.now) rows.now.rows }
    ensures value { (e : Entry) → slice_get rows.now.rows place ≡ Some e → result ≡ is_order_present (seen (inputs_of inputs.now) rows.now.rows) place (machine_row e) (work_of order.now) }
    ensures plan { (e : Entry) → slice_get rows.now.rows place ≡ Some e → result ≡ true → e.1.plan ≡ order.now.plan }
{
    let (_, row) = rows.at(place);
    let unknown = Sources::none();
    row.plan().equals(order.plan())
        && sources_if_same(inputs, rows, place, row.plan(), order.inputs(), &unknown).is_some()
}

/// The present sources of what the row at a place reads, where it is unsettled, and the result that was last kept of it is of its plan
/// and of the present values. Values are compared where no key that the row reads waits, and else none is.
pub(crate) fn sources_if_cut(inputs: &InputData, rows: &Rows, place: usize) -> Option<Sources>
    requires within { place < length rows.now.rows }
    requires sound { Sound (start_world (inputs_of inputs.now)) (λ _. true) rows.now.rows }
    requires fitted { AllFitted (inputs_of inputs.now) rows.now.rows }
    requires named { AreNamed (inputs_of inputs.now) rows.now.rows }
    ensures value { (e : Entry) → slice_get rows.now.rows place ≡ Some e → is_some result ≡ is_row_cut (seen (inputs_of inputs.now) rows.now.rows) place (machine_row e) }
    ensures plan { (e : Entry) (d : Task) → slice_get rows.now.rows place ≡ Some e → is_some result ≡ true → e.1.done ≡ Some d → e.1.plan ≡ d.plan }
    ensures unsettled { (e : Entry) → slice_get rows.now.rows place ≡ Some e → is_some result ≡ true → is_settled e.1.status ≡ false }
    ensures sources { (e : Entry) → slice_get rows.now.rows place ≡ Some e → IfSome result (λ s. AreSources (inputs_of inputs.now) rows.now.rows place (reads e.1.plan) s.keys) }
{
    let (_, row) = rows.at(place);
    if row.status().is_settled() {
        return None;
    }
    match row.result_of_plan() {
        None => None,
        Some(done) => {
            let values = done.order().inputs();
            sources_if_same(inputs, rows, place, row.plan(), values, row.sources())
        }
    }
}

/// The verdict on a result for the row at a place.
pub(crate) fn judge(inputs: &InputData, rows: &Rows, place: usize, done: &Done) -> Verdict
    requires within { place < length rows.now.rows }
    requires sound { Sound (start_world (inputs_of inputs.now)) (λ _. true) rows.now.rows }
    requires fitted { AllFitted (inputs_of inputs.now) rows.now.rows }
    ensures verdict { (e : Entry) → slice_get rows.now.rows place ≡ Some e → result ≡ verdict_at (seen (inputs_of inputs.now) rows.now.rows) (place, machine_row e) done.now }
    ensures plan { (e : Entry) → slice_get rows.now.rows place ≡ Some e → result ≡ Verdict.Kept → e.1.plan ≡ done.now.plan }
    ensures unsettled { (e : Entry) → slice_get rows.now.rows place ≡ Some e → result ≡ Verdict.Kept → is_settled e.1.status ≡ false }
{
    let (_, row) = rows.at(place);
    let order = done.order();
    if row.edition().0 != order.edition().0 {
        return Verdict::Stale(row.edition());
    }
    if row.status().is_settled() {
        return Verdict::Repeated;
    }
    if is_present(inputs, rows, place, order) {
        Verdict::Kept
    } else {
        Verdict::Foreign
    }
}
