//! How the lock's holder publishes.

ghost use Rattle.std.specs.Prelude.{◌≡◌, ◌≤◌, ◌++◌, [], ◌∷◌, drop, fold, IfOk, OnOk};
ghost use mathlib.Core.List.{IsPrefix};
ghost use Rattle.std.specs.Arc.{arc_value};
ghost use Rattle.paris_records.specs.History.{state_of};
ghost use Rattle.paris_desk.specs.Rules.{IsSound, Posted, posted};

use crate::log::Known;
use crate::office::Office;
use crate::published::{DeskWriter, OneLog, Published};
use paris_book::Book;
use std::alloc::{AllocError, Global};
use std::sync::{Arc, Wait};

/// Publishes what was appended. It goes on until that is done; only a book with too many owners could refuse it.
fn publish_pending<L: Office, R: Wait>(rt: &R, start: DeskWriter<L>) -> DeskWriter<L>
    requires { let next : Posted = fold (λ _ o. o) start.desk.shown.value (drop start.behind start.log.items) in (next.log ≡ L.log) × IsPrefix start.desk.shown.value.history next.history × IsSound L.profile next }
    ensures shown { result.desk.shown.value ≡ fold (λ _ o. o) start.desk.shown.value (drop start.behind start.log.items) }
    ensures pending { drop result.behind result.log.items ≡ [] }
{
    let mut writer = start;
    for _ in rt.forever() {
        let (next, done) = writer.publish_as::<OneLog<L>, R>(rt);
        writer = next;
        if done.is_ok() {
            return writer;
        }
    }
    unreachable!()
}

/// Publishes. It goes on until the queue takes what is to be shown: since the desk was made it has room for that.
pub(crate) fn publish<L: Office, R: Wait>(
    rt: &R,
    start: DeskWriter<L>,
    next: Published,
) -> DeskWriter<L>
    requires writer { drop start.behind start.log.items ≡ [] }
    requires shown { (next.log ≡ L.log) × IsPrefix start.desk.shown.value.history next.history × IsSound L.profile next }
    ensures { (result.desk.shown.value ≡ next) × (drop result.behind result.log.items ≡ []) }
{
    let (mut writer, mut shown) = (start, next);
    for _ in rt.forever() {
        match writer.append(shown) {
            Ok(()) => return publish_pending(rt, writer),
            Err(back) => shown = back,
        }
    }
    unreachable!()
}

/// Appends what is shown once more. The error says that memory for the queue was refused, or that the book has too many owners.
fn append_again<L: Office>(writer: &mut DeskWriter<L>) -> Result<(), AllocError>
    ensures shown { writer.new.desk ≡ writer.old.desk }
    ensures pending { OnOk result (drop writer.new.behind writer.new.log.items ≡ drop writer.old.behind writer.old.log.items ++ writer.old.desk.shown.value ∷ []) }
{
    let next = writer.published().again()?;
    match writer.append(next) {
        Ok(()) => Ok(()),
        Err(_back) => Err(AllocError),
    }
}

/// Publishes what is shown once more. Where that is refused the writer is ended.
fn publish_again<L: Office, R: Wait>(
    rt: &R,
    start: DeskWriter<L>,
) -> Result<DeskWriter<L>, AllocError>
    requires shown { (start.desk.shown.value.log ≡ L.log) × IsSound L.profile start.desk.shown.value }
    requires writer { drop start.behind start.log.items ≡ [] }
    ensures { IfOk result (λ w. (w.desk.shown.value ≡ start.desk.shown.value) × (drop w.behind w.log.items ≡ [])) }
{
    let mut writer = start;
    match append_again(&mut writer) {
        Ok(()) => Ok(publish_pending(rt, writer)),
        Err(refused) => {
            writer.take(rt);
            Err(refused)
        }
    }
}

/// A writer that shows an empty book. What it shows is published twice, so that its queue has room from then on. The error says
/// that memory was refused.
pub(crate) fn opened<L: Office, R: Wait>(
    rt: &R,
    alloc: Global,
    book: &Arc<Book, Global>,
    known: &Known<L>,
    readers: u64,
) -> Result<DeskWriter<L>, AllocError>
    requires empty { (known.now ≡ []) × (arc_value book.now ≡ state_of L.profile []) }
    requires few { (1 ≤ readers) × (readers ≤ 16) }
    ensures { IfOk result (λ w. (w.desk.shown.value ≡ posted L.profile L.log []) × (drop w.behind w.log.items ≡ [])) }
{
    let first = Published::new::<L>(Arc::try_clone(book)?, known.again());
    let second = first.again()?;
    let writer = DeskWriter::new(alloc, first, second, readers as usize)?;
    let writer = publish_again(rt, writer)?;
    publish_again(rt, writer)
}

/// Ends what publishes, once nobody looks any more.
pub(crate) fn end<L: Office, R: Wait>(rt: &R, writer: Option<DeskWriter<L>>) {
    match writer {
        Some(writer) => {
            writer.take(rt);
        }
        None => {}
    }
}
