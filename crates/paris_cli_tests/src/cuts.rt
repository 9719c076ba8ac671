//! The first script, cut after each of its bytes.

use crate::tests::assert_run;
use std::alloc::{AllocError, Global};
use std::process::Abort;
use std::sync::Wait;
use std::test::*;
use std::thread::Threads;

const SCRIPT: &[u8] =
    b"set S 4\nfield a S 8\nfield b S 8\nfield c S 8\ninput a 0 10 20 30 250\ninput b 0 1 2 3 10\ninsert end u-add-3-1L c a b 8\nshow c end\ntake\nbring 1\nshow c end\n";

const WRITTEN: &[u8] =
    b"ok\nok\nok\nok\nok\nok\nrow 1\npending 1\norder 1 row 1 edition 7\nkept\nvalues 11 22 33 4\n";

/// From so many bytes on: how much of all that is written stands for the whole lines, and the reply to the line that is cut.
const CUTS: &[(usize, usize, &[u8])] = &[
    (0, 0, b""),
    (1, 0, b"refused 20 1\n"),
    (3, 0, b"refused 20 4\n"),
    (4, 0, b"refused 20 5\n"),
    (5, 0, b"refused 20 6\n"),
    (6, 0, b"refused 20 7\n"),
    (7, 0, b"ok\n"),
    (8, 3, b""),
    (9, 3, b"refused 20 1\n"),
    (13, 3, b"refused 20 6\n"),
    (14, 3, b"refused 20 7\n"),
    (15, 3, b"refused 20 8\n"),
    (16, 3, b"refused 20 9\n"),
    (17, 3, b"refused 20 10\n"),
    (18, 3, b"refused 20 11\n"),
    (19, 3, b"ok\n"),
    (20, 6, b""),
    (21, 6, b"refused 20 1\n"),
    (25, 6, b"refused 20 6\n"),
    (26, 6, b"refused 20 7\n"),
    (27, 6, b"refused 20 8\n"),
    (28, 6, b"refused 20 9\n"),
    (29, 6, b"refused 20 10\n"),
    (30, 6, b"refused 20 11\n"),
    (31, 6, b"ok\n"),
    (32, 9, b""),
    (33, 9, b"refused 20 1\n"),
    (37, 9, b"refused 20 6\n"),
    (38, 9, b"refused 20 7\n"),
    (39, 9, b"refused 20 8\n"),
    (40, 9, b"refused 20 9\n"),
    (41, 9, b"refused 20 10\n"),
    (42, 9, b"refused 20 11\n"),
    (43, 9, b"ok\n"),
    (44, 12, b""),
    (45, 12, b"refused 20 1\n"),
    (49, 12, b"refused 20 6\n"),
    (50, 12, b"refused 20 7\n"),
    (51, 12, b"refused 20 8\n"),
    (52, 12, b"refused 20 9\n"),
    (53, 12, b"refused 20 10\n"),
    (54, 12, b"refused 20 11\n"),
    (55, 12, b"ok\n"),
    (57, 12, b"refused 20 14\n"),
    (58, 12, b"ok\n"),
    (60, 12, b"refused 20 17\n"),
    (61, 12, b"ok\n"),
    (63, 12, b"refused 20 20\n"),
    (64, 12, b"ok\n"),
    (67, 15, b""),
    (68, 15, b"refused 20 1\n"),
    (72, 15, b"refused 20 6\n"),
    (73, 15, b"refused 20 7\n"),
    (74, 15, b"refused 20 8\n"),
    (75, 15, b"refused 20 9\n"),
    (76, 15, b"refused 20 10\n"),
    (77, 15, b"refused 20 11\n"),
    (78, 15, b"ok\n"),
    (79, 15, b"refused 20 13\n"),
    (80, 15, b"ok\n"),
    (81, 15, b"refused 20 15\n"),
    (82, 15, b"ok\n"),
    (83, 15, b"refused 20 17\n"),
    (84, 15, b"ok\n"),
    (86, 18, b""),
    (87, 18, b"refused 20 1\n"),
    (92, 18, b"refused 20 7\n"),
    (93, 18, b"refused 20 8\n"),
    (96, 18, b"refused 20 11\n"),
    (97, 18, b"refused 20 12\n"),
    (107, 18, b"refused 20 22\n"),
    (108, 18, b"refused 20 23\n"),
    (109, 18, b"refused 20 24\n"),
    (110, 18, b"refused 20 25\n"),
    (111, 18, b"refused 20 26\n"),
    (112, 18, b"refused 20 27\n"),
    (113, 18, b"refused 20 28\n"),
    (114, 18, b"refused 20 29\n"),
    (115, 18, b"row 1\n"),
    (116, 24, b""),
    (117, 24, b"refused 20 1\n"),
    (120, 24, b"refused 20 5\n"),
    (121, 24, b"refused 20 6\n"),
    (122, 24, b"refused 20 7\n"),
    (123, 24, b"refused 20 8\n"),
    (126, 24, b"pending 1\n"),
    (127, 34, b""),
    (128, 34, b"refused 20 1\n"),
    (131, 34, b"order 1 row 1 edition 7\n"),
    (132, 58, b""),
    (133, 58, b"refused 20 1\n"),
    (137, 58, b"refused 20 6\n"),
    (138, 58, b"refused 20 7\n"),
    (139, 58, b"kept\n"),
    (140, 63, b""),
    (141, 63, b"refused 20 1\n"),
    (144, 63, b"refused 20 5\n"),
    (145, 63, b"refused 20 6\n"),
    (146, 63, b"refused 20 7\n"),
    (147, 63, b"refused 20 8\n"),
    (150, 63, b"values 11 22 33 4\n"),
    (151, 81, b""),
];

/// How much stands for whole lines, and the reply to the line that is cut, after so many bytes.
fn cut_after(bytes: usize) -> (usize, &'static [u8]) {
    let mut last: (usize, &'static [u8]) = (0, b"");
    for (from, whole, reply) in CUTS {
        if *from <= bytes {
            last = (*whole, *reply);
        }
    }
    last
}

/// What is written for the first so many bytes of the script.
fn written_after(alloc: Global, bytes: usize) -> Result<Vec<u8>, AllocError> {
    let (whole, reply) = cut_after(bytes);
    let mut written = Vec::from_slice(alloc, WRITTEN.get(..whole).unwrap_or(b""))?;
    written.extend_from_slice(reply)?;
    Ok(written)
}

/// Runs the first so many bytes of the script.
fn assert_cut<H: Abort + Threads + Wait + Sync + AllocGlobal>(
    rt: &H,
    bytes: usize,
) -> Result<(), Fail> {
    let (_, reply) = cut_after(bytes);
    let status = if reply.starts_with(b"refused") { 1 } else { 0 };
    let written = written_after(rt.alloc(), bytes)?;
    let script = SCRIPT
        .get(..bytes)
        .expect(rt, "it is a front of the script");
    assert_run(rt, script, status, written.as_slice());
    Ok(())
}

#[test]
fn a_script_that_is_cut_is_answered_so_far(rt: HostRuntime) -> Result<(), Fail> {
    for bytes in 0..SCRIPT.len() + 1 {
        assert_cut(&rt, bytes)?;
    }
    Ok(())
}
