//! What the first seat does before all threads begin: replies of each kind come, whatever the threads do later.

use crate::seats::{Player, Shape, TURNS, brings, edits_with, lists, shows_at, takes};
use crate::spellings::{instr_of, key, name};
use paris_desk::{Desk, Office, work};
use paris_edits::{Edit, EditReply};
use paris_exec::OpenGate;
use paris_names::{Fault, Items, Spot};
use std::alloc::{AllocError, Global};
use std::process::Abort;
use std::sync::Wait;

/// Declares the set once more, which is refused.
fn is_refused_again<L: Office>(
    rt: &(impl Abort + Wait),
    alloc: Global,
    desk: &Desk<L>,
    player: &mut Player<L>,
    shape: Shape,
) -> Result<(), AllocError> {
    let set = Edit::AddSet {
        name: name(rt, b"s"),
        axes: Items::new(Vec::from_slice(alloc, shape.axes)?),
    };
    let answer = edits_with(rt, desk, player, set);
    assert!(rt; answer.is_err());
    Ok(())
}

/// Puts a row at the end.
fn appends<L: Office>(
    rt: &(impl Abort + Wait),
    desk: &Desk<L>,
    player: &mut Player<L>,
    text: &[u8],
) {
    let insert = Edit::Insert {
        spot: Spot::End,
        instr: instr_of(rt, text),
    };
    let answer = edits_with(rt, desk, player, insert);
    assert!(rt; matches!(answer, Ok(EditReply::Row(_))));
}

/// Sets the first address that `get-1L c b a 8` reads to one that no processor has.
fn misleads<L: Office>(
    rt: &(impl Abort + Wait),
    alloc: Global,
    desk: &Desk<L>,
    player: &mut Player<L>,
    shape: Shape,
) -> Result<(), AllocError> {
    let address = [u128::from(shape.count)];
    let input = Edit::Input {
        key: key(rt, b"b"),
        from: 0,
        values: Items::new(Vec::from_slice(alloc, address.as_slice())?),
    };
    let answer = edits_with(rt, desk, player, input);
    assert!(rt; matches!(answer, Ok(EditReply::Accepted)));
    Ok(())
}

/// Two rows are put in, of which the second is refused when it runs. A key that they write is pending, then one result is brought
/// twice, all rows are run, and the key is shown and the rows are listed again.
pub(crate) fn begins<L: Office>(
    rt: &(impl Abort + Wait),
    alloc: Global,
    desk: &Desk<L>,
    player: &mut Player<L>,
    shape: Shape,
) -> Result<(), Fault> {
    is_refused_again(rt, alloc, desk, player, shape)?;
    misleads(rt, alloc, desk, player, shape)?;
    appends(rt, desk, player, b"u-move-constant-1L d 3 8");
    appends(rt, desk, player, b"get-1L c b a 8");
    shows_at(rt, desk, player, b"c", Spot::End);
    takes(rt, alloc, desk, player)?;
    brings(rt, desk, player)?;
    brings(rt, desk, player)?;
    work(rt, alloc, desk, &mut player.seat, &OpenGate, TURNS)?;
    shows_at(rt, desk, player, b"d", Spot::End);
    lists(rt, desk, player)
}
