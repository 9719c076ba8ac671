//! Worked rows on instructions between processors, through the book: to neighbours, along lines, and by mail.

use crate::instructions::{FOUR, ZEROS};
use crate::programs::{Given, Row, hold};
use paris_edits::RowFault;
use paris_model::Refusal;
use paris_names::RowId;
use std::alloc::AllocError;

#[test]
fn a_get_from_the_neighbour_wraps_round(rt: HostRuntime) -> Result<(), AllocError> {
    const ROWS: &[Row] = &[
        Row {
            axes: FOUR,
            fields: &[(b"v", 8, &[1, 2, 3, 4]), (b"d", 8, &[1, 2, 3, 4])],
            flags: &[],
            program: &[b"get-from-news-1L d v 0 upward 8"],
            wanted: &[(b"d", &[2, 3, 4, 1])],
            refused: &[],
        },
        Row {
            axes: &[1],
            fields: &[(b"v", 8, &[7]), (b"d", 8, &[7])],
            flags: &[],
            program: &[b"get-from-news-1L d v 0 upward 8"],
            wanted: &[(b"d", &[7])],
            refused: &[],
        },
        Row {
            axes: &[2, 2],
            fields: &[(b"v", 8, &[1, 2, 3, 4]), (b"d", 8, &[1, 2, 3, 4])],
            flags: &[],
            program: &[b"get-from-news-1L d v 1 upward 8"],
            wanted: &[(b"d", &[3, 4, 1, 2])],
            refused: &[],
        },
    ];
    hold(&rt, rt.alloc(), ROWS)
}

#[test]
fn the_context_of_the_sender_decides(rt: HostRuntime) -> Result<(), AllocError> {
    const ROWS: &[Row] = &[Row {
        axes: FOUR,
        fields: &[(b"v", 8, &[1, 2, 3, 4]), (b"d", 8, ZEROS)],
        flags: &[(b"s.context", &[1, 0, 1, 1])],
        program: &[b"send-to-news-1L d v 0 upward 8"],
        wanted: &[(b"d", &[4, 1, 0, 3])],
        refused: &[],
    }];
    hold(&rt, rt.alloc(), ROWS)
}

/// A source, a destination, and segments that begin nowhere.
const UNCUT: &[Given<'static>] = &[(b"v", 8, &[1, 2, 3, 4]), (b"d", 8, ZEROS), (b"g", 1, ZEROS)];

#[test]
fn a_scan_leaves_unselected_processors_out(rt: HostRuntime) -> Result<(), AllocError> {
    const ROWS: &[Row] = &[Row {
        axes: FOUR,
        fields: UNCUT,
        flags: &[(b"s.context", &[1, 0, 1, 1])],
        program: &[b"scan-with-u-add-1L d v 0 8 upward inclusive none"],
        wanted: &[(b"d", &[1, 0, 4, 8])],
        refused: &[],
    }];
    hold(&rt, rt.alloc(), ROWS)
}

/// A source, a destination, and segments of which one begins in the third processor.
const CUT: &[Given<'static>] = &[
    (b"v", 8, &[1, 2, 3, 4]),
    (b"d", 8, ZEROS),
    (b"g", 1, &[0, 0, 1, 0]),
];

#[test]
fn a_scan_begins_anew_at_a_segment(rt: HostRuntime) -> Result<(), AllocError> {
    const ROWS: &[Row] = &[
        Row {
            axes: FOUR,
            fields: CUT,
            flags: &[(b"s.context", &[1, 1, 1, 1])],
            program: &[b"scan-with-u-add-1L d v 0 8 upward inclusive g"],
            wanted: &[(b"d", &[1, 3, 3, 7])],
            refused: &[],
        },
        Row {
            axes: FOUR,
            fields: CUT,
            flags: &[(b"s.context", &[1, 1, 1, 1])],
            program: &[b"scan-with-u-add-1L d v 0 8 downward inclusive g"],
            wanted: &[(b"d", &[6, 5, 3, 4])],
            refused: &[],
        },
        Row {
            axes: FOUR,
            fields: CUT,
            flags: &[(b"s.context", &[1, 1, 1, 1])],
            program: &[b"scan-with-u-add-1L d v 0 8 upward exclusive g"],
            wanted: &[(b"d", &[0, 1, 0, 3])],
            refused: &[],
        },
    ];
    hold(&rt, rt.alloc(), ROWS)
}

#[test]
fn the_first_of_an_exclusive_scan_gets_the_unit(rt: HostRuntime) -> Result<(), AllocError> {
    const ROWS: &[Row] = &[Row {
        axes: FOUR,
        fields: UNCUT,
        flags: &[(b"s.context", &[1, 1, 1, 1])],
        program: &[b"scan-with-u-min-1L d v 0 8 upward exclusive none"],
        wanted: &[(b"d", &[255, 1, 1, 1])],
        refused: &[],
    }];
    hold(&rt, rt.alloc(), ROWS)
}

#[test]
fn a_scan_overflows_by_the_exact_sum(rt: HostRuntime) -> Result<(), AllocError> {
    const ROWS: &[Row] = &[Row {
        axes: FOUR,
        fields: &[(b"v", 8, &[200, 100, 1, 2]), (b"d", 8, ZEROS)],
        flags: &[],
        program: &[b"scan-with-u-add-1L d v 0 8 upward inclusive none"],
        wanted: &[(b"d", &[200, 44, 45, 47]), (b"s.overflow", &[0, 1, 1, 1])],
        refused: &[],
    }];
    hold(&rt, rt.alloc(), ROWS)
}

#[test]
fn a_segment_begins_at_an_unselected_processor_too(rt: HostRuntime) -> Result<(), AllocError> {
    const ROWS: &[Row] = &[Row {
        axes: FOUR,
        fields: &[
            (b"v", 8, &[9, 2, 3, 4]),
            (b"d", 8, ZEROS),
            (b"g", 1, &[0, 1, 0, 0]),
        ],
        flags: &[(b"s.context", &[1, 0, 1, 1])],
        program: &[b"scan-with-copy-1L d v 0 8 upward g"],
        wanted: &[(b"d", &[9, 0, 3, 3])],
        refused: &[],
    }];
    hold(&rt, rt.alloc(), ROWS)
}

#[test]
fn spreads_and_reduces_go_over_the_selected_ones(rt: HostRuntime) -> Result<(), AllocError> {
    const ROWS: &[Row] = &[
        Row {
            axes: FOUR,
            fields: UNCUT,
            flags: &[(b"s.context", &[0, 1, 1, 0])],
            program: &[b"spread-with-u-add-1L d v 0 8"],
            wanted: &[(b"d", &[0, 5, 5, 0])],
            refused: &[],
        },
        Row {
            axes: FOUR,
            fields: UNCUT,
            flags: &[(b"s.context", &[0, 1, 1, 0])],
            program: &[b"spread-with-copy-1L d v 0 8 3"],
            wanted: &[(b"d", &[0, 4, 4, 0])],
            refused: &[],
        },
        Row {
            axes: FOUR,
            fields: UNCUT,
            flags: &[(b"s.context", &[0, 1, 1, 0])],
            program: &[b"reduce-with-u-max-1L d v 0 8 1"],
            wanted: &[(b"d", &[0, 3, 0, 0])],
            refused: &[],
        },
        Row {
            axes: FOUR,
            fields: UNCUT,
            flags: &[(b"s.context", &[0, 1, 1, 0])],
            program: &[b"reduce-with-u-max-1L d v 0 8 0"],
            wanted: &[(b"d", ZEROS)],
            refused: &[],
        },
    ];
    hold(&rt, rt.alloc(), ROWS)
}

#[test]
fn a_get_fetches_by_address(rt: HostRuntime) -> Result<(), AllocError> {
    const ROWS: &[Row] = &[Row {
        axes: FOUR,
        fields: &[
            (b"ad", 2, &[3, 3, 0, 1]),
            (b"v", 8, &[1, 2, 3, 4]),
            (b"d", 8, ZEROS),
        ],
        flags: &[(b"s.context", &[1, 1, 0, 1])],
        program: &[b"get-1L d ad v 8"],
        wanted: &[(b"d", &[4, 4, 0, 2])],
        refused: &[],
    }];
    hold(&rt, rt.alloc(), ROWS)
}

#[test]
fn a_collision_changes_nothing(rt: HostRuntime) -> Result<(), AllocError> {
    const ROWS: &[Row] = &[Row {
        axes: FOUR,
        fields: &[
            (b"ad", 3, &[0, 0, 1, 2]),
            (b"v", 8, &[1, 2, 3, 4]),
            (b"d", 8, &[10, 0, 0, 0]),
            (b"n", 1, &[1, 1, 1, 1]),
        ],
        flags: &[],
        program: &[b"send-1L d ad v 8 n", b"u-move-1L v d 8"],
        wanted: &[
            (b"d", &[10, 0, 0, 0]),
            (b"n", &[1, 1, 1, 1]),
            (b"v", &[10, 0, 0, 0]),
        ],
        refused: &[RowFault {
            id: RowId(1),
            cause: Refusal::Collision(0),
        }],
    }];
    hold(&rt, rt.alloc(), ROWS)
}

#[test]
fn a_bad_address_comes_before_a_collision(rt: HostRuntime) -> Result<(), AllocError> {
    const ROWS: &[Row] = &[Row {
        axes: FOUR,
        fields: &[
            (b"ad", 3, &[0, 0, 4, 1]),
            (b"v", 8, &[1, 2, 3, 4]),
            (b"d", 8, &[10, 0, 0, 0]),
            (b"n", 1, &[1, 1, 1, 1]),
        ],
        flags: &[],
        program: &[b"send-1L d ad v 8 n", b"u-move-1L v d 8"],
        wanted: &[
            (b"d", &[10, 0, 0, 0]),
            (b"n", &[1, 1, 1, 1]),
            (b"v", &[10, 0, 0, 0]),
        ],
        refused: &[RowFault {
            id: RowId(1),
            cause: Refusal::BadAddress(2),
        }],
    }];
    hold(&rt, rt.alloc(), ROWS)
}

#[test]
fn a_combining_send_adds_to_the_old_value(rt: HostRuntime) -> Result<(), AllocError> {
    const ROWS: &[Row] = &[Row {
        axes: FOUR,
        fields: &[
            (b"ad", 3, &[0, 0, 1, 2]),
            (b"v", 8, &[1, 2, 3, 4]),
            (b"d", 8, &[10, 0, 0, 0]),
            (b"n", 1, &[1, 1, 1, 1]),
        ],
        flags: &[],
        program: &[b"send-with-u-add-1L d ad v 8 n", b"u-move-1L v d 8"],
        wanted: &[(b"d", &[13, 3, 4, 0]), (b"n", &[1, 1, 1, 0])],
        refused: &[],
    }];
    hold(&rt, rt.alloc(), ROWS)
}

#[test]
fn a_combining_send_keeps_the_common_bits(rt: HostRuntime) -> Result<(), AllocError> {
    const ROWS: &[Row] = &[Row {
        axes: FOUR,
        fields: &[
            (b"ad", 2, &[1, 1, 1, 3]),
            (b"v", 8, &[6, 12, 255, 7]),
            (b"d", 8, &[255, 14, 255, 3]),
        ],
        flags: &[],
        program: &[b"send-with-logand-1L d ad v 8 none"],
        wanted: &[(b"d", &[255, 4, 255, 3])],
        refused: &[],
    }];
    hold(&rt, rt.alloc(), ROWS)
}
