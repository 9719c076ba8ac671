//! Worked rows on instructions within each processor, through the book. The set is `s`, and its flags are keys as its fields are.

use crate::programs::{Given, Row, hold};
use std::alloc::AllocError;

pub(crate) const FOUR: &[u64] = &[4];

pub(crate) const ZEROS: &[u128] = &[0, 0, 0, 0];

#[test]
fn a_signed_sum_sets_carry_and_overflow_apart(rt: HostRuntime) -> Result<(), AllocError> {
    const ROWS: &[Row] = &[Row {
        axes: FOUR,
        fields: &[
            (b"a", 8, &[127, 128, 255, 0]),
            (b"b", 8, &[1, 255, 255, 0]),
            (b"c", 8, ZEROS),
        ],
        flags: &[],
        program: &[b"s-add-3-1L c a b 8"],
        wanted: &[
            (b"c", &[128, 127, 254, 0]),
            (b"s.overflow", &[1, 1, 0, 0]),
            (b"s.carry", &[0, 1, 1, 0]),
        ],
        refused: &[],
    }];
    hold(&rt, rt.alloc(), ROWS)
}

#[test]
fn unselected_processors_keep_number_and_flags(rt: HostRuntime) -> Result<(), AllocError> {
    const ROWS: &[Row] = &[Row {
        axes: FOUR,
        fields: &[
            (b"a", 8, &[255, 255, 1, 1]),
            (b"b", 8, &[1, 1, 1, 1]),
            (b"c", 8, &[9, 9, 9, 9]),
        ],
        flags: &[
            (b"s.context", &[1, 0, 1, 1]),
            (b"s.carry", &[0, 1, 0, 1]),
            (b"s.overflow", &[0, 1, 0, 1]),
        ],
        program: &[b"u-add-3-1L c a b 8"],
        wanted: &[
            (b"c", &[0, 9, 2, 2]),
            (b"s.carry", &[1, 1, 0, 0]),
            (b"s.overflow", &[1, 1, 0, 0]),
        ],
        refused: &[],
    }];
    hold(&rt, rt.alloc(), ROWS)
}

#[test]
fn a_sum_of_64_bits_carries(rt: HostRuntime) -> Result<(), AllocError> {
    const ROWS: &[Row] = &[Row {
        axes: &[1],
        fields: &[
            (b"a", 64, &[18_446_744_073_709_551_615]),
            (b"b", 64, &[1]),
            (b"c", 64, &[7]),
        ],
        flags: &[],
        program: &[b"u-add-3-1L c a b 64"],
        wanted: &[(b"c", &[0]), (b"s.carry", &[1]), (b"s.overflow", &[1])],
        refused: &[],
    }];
    hold(&rt, rt.alloc(), ROWS)
}

#[test]
fn a_difference_borrows(rt: HostRuntime) -> Result<(), AllocError> {
    const ROWS: &[Row] = &[
        Row {
            axes: FOUR,
            fields: &[
                (b"a", 8, &[5, 0, 255, 128]),
                (b"b", 8, &[6, 0, 1, 128]),
                (b"c", 8, ZEROS),
            ],
            flags: &[],
            program: &[b"u-subtract-3-1L c a b 8"],
            wanted: &[
                (b"c", &[255, 0, 254, 0]),
                (b"s.carry", &[1, 0, 0, 0]),
                (b"s.overflow", &[1, 0, 0, 0]),
            ],
            refused: &[],
        },
        Row {
            axes: FOUR,
            fields: &[
                (b"a", 8, &[128, 0, 127, 5]),
                (b"b", 8, &[1, 128, 255, 5]),
                (b"c", 8, ZEROS),
            ],
            flags: &[],
            program: &[b"s-subtract-3-1L c a b 8"],
            wanted: &[
                (b"c", &[127, 128, 128, 0]),
                (b"s.overflow", &[1, 1, 1, 0]),
                (b"s.carry", &[0, 1, 1, 0]),
            ],
            refused: &[],
        },
    ];
    hold(&rt, rt.alloc(), ROWS)
}

#[test]
fn the_old_carry_is_added(rt: HostRuntime) -> Result<(), AllocError> {
    const ROWS: &[Row] = &[Row {
        axes: FOUR,
        fields: &[
            (b"a", 8, &[255, 255, 1, 1]),
            (b"b", 8, ZEROS),
            (b"c", 8, ZEROS),
        ],
        flags: &[(b"s.carry", &[1, 0, 1, 0])],
        program: &[b"u-add-carry-3-1L c a b 8"],
        wanted: &[(b"c", &[0, 255, 2, 1]), (b"s.carry", &[1, 0, 0, 0])],
        refused: &[],
    }];
    hold(&rt, rt.alloc(), ROWS)
}

/// Numbers whose products have 8 bits and more.
const FACTORS: &[Given<'static>] = &[
    (b"a", 8, &[16, 255, 2, 0]),
    (b"b", 8, &[16, 255, 100, 9]),
    (b"c", 8, ZEROS),
];

#[test]
fn products_overflow_by_their_sign(rt: HostRuntime) -> Result<(), AllocError> {
    const ROWS: &[Row] = &[
        Row {
            axes: FOUR,
            fields: FACTORS,
            flags: &[],
            program: &[b"u-multiply-3-1L c a b 8"],
            wanted: &[(b"c", &[0, 1, 200, 0]), (b"s.overflow", &[1, 1, 0, 0])],
            refused: &[],
        },
        Row {
            axes: FOUR,
            fields: FACTORS,
            flags: &[],
            program: &[b"s-multiply-3-1L c a b 8"],
            wanted: &[(b"c", &[0, 1, 200, 0]), (b"s.overflow", &[1, 0, 1, 0])],
            refused: &[],
        },
    ];
    hold(&rt, rt.alloc(), ROWS)
}

/// The greatest numbers of 64 bits.
const GREAT_FACTORS: &[Given<'static>] = &[
    (b"a", 64, &[18_446_744_073_709_551_615]),
    (b"b", 64, &[18_446_744_073_709_551_615]),
    (b"c", 64, &[0]),
];

#[test]
fn products_of_64_bits_overflow_over_the_whole_product(rt: HostRuntime) -> Result<(), AllocError> {
    const ROWS: &[Row] = &[
        Row {
            axes: &[1],
            fields: GREAT_FACTORS,
            flags: &[],
            program: &[b"u-multiply-3-1L c a b 64"],
            wanted: &[(b"c", &[1]), (b"s.overflow", &[1])],
            refused: &[],
        },
        Row {
            axes: &[1],
            fields: GREAT_FACTORS,
            flags: &[],
            program: &[b"s-multiply-3-1L c a b 64"],
            wanted: &[(b"c", &[1]), (b"s.overflow", &[0])],
            refused: &[],
        },
    ];
    hold(&rt, rt.alloc(), ROWS)
}

/// A dividend and a divisor, which is 0 in one processor.
const DIVIDED: &[Given<'static>] = &[
    (b"x", 8, &[7, 8, 9, 255]),
    (b"y", 8, &[2, 0, 3, 16]),
    (b"d", 8, &[5, 5, 5, 5]),
];

#[test]
fn division_by_0_keeps_the_destination(rt: HostRuntime) -> Result<(), AllocError> {
    const ROWS: &[Row] = &[
        Row {
            axes: FOUR,
            fields: DIVIDED,
            flags: &[],
            program: &[b"u-truncate-3-1L d x y 8"],
            wanted: &[(b"d", &[3, 5, 3, 15]), (b"s.overflow", &[0, 1, 0, 0])],
            refused: &[],
        },
        Row {
            axes: FOUR,
            fields: DIVIDED,
            flags: &[],
            program: &[b"u-rem-3-1L d x y 8"],
            wanted: &[(b"d", &[1, 5, 0, 15]), (b"s.overflow", &[0, 1, 0, 0])],
            refused: &[],
        },
    ];
    hold(&rt, rt.alloc(), ROWS)
}

/// Numbers whose order hangs on their sign.
const COMPARED: &[Given<'static>] = &[
    (b"a", 8, &[1, 200, 128, 127]),
    (b"b", 8, &[2, 100, 127, 128]),
    (b"c", 8, ZEROS),
];

#[test]
fn maximum_and_minimum_go_by_the_sign(rt: HostRuntime) -> Result<(), AllocError> {
    const ROWS: &[Row] = &[
        Row {
            axes: FOUR,
            fields: COMPARED,
            flags: &[],
            program: &[b"u-max-3-1L c a b 8"],
            wanted: &[(b"c", &[2, 200, 128, 128])],
            refused: &[],
        },
        Row {
            axes: FOUR,
            fields: COMPARED,
            flags: &[],
            program: &[b"s-max-3-1L c a b 8"],
            wanted: &[(b"c", &[2, 100, 127, 127])],
            refused: &[],
        },
        Row {
            axes: FOUR,
            fields: COMPARED,
            flags: &[],
            program: &[b"u-min-3-1L c a b 8"],
            wanted: &[(b"c", &[1, 100, 127, 127])],
            refused: &[],
        },
        Row {
            axes: FOUR,
            fields: COMPARED,
            flags: &[],
            program: &[b"s-min-3-1L c a b 8"],
            wanted: &[(b"c", &[1, 200, 128, 128])],
            refused: &[],
        },
    ];
    hold(&rt, rt.alloc(), ROWS)
}

#[test]
fn the_least_number_has_no_opposite(rt: HostRuntime) -> Result<(), AllocError> {
    const ROWS: &[Row] = &[Row {
        axes: FOUR,
        fields: &[(b"a", 8, &[128, 1, 0, 255]), (b"c", 8, ZEROS)],
        flags: &[],
        program: &[b"s-negate-2-1L c a 8"],
        wanted: &[(b"c", &[128, 255, 0, 1]), (b"s.overflow", &[1, 0, 0, 0])],
        refused: &[],
    }];
    hold(&rt, rt.alloc(), ROWS)
}

#[test]
fn a_short_move_keeps_the_upper_bits(rt: HostRuntime) -> Result<(), AllocError> {
    const ROWS: &[Row] = &[Row {
        axes: FOUR,
        fields: &[
            (b"a", 8, &[3, 15, 16, 255]),
            (b"c", 8, &[240, 240, 240, 240]),
        ],
        flags: &[],
        program: &[b"u-move-1L c a 4"],
        wanted: &[(b"c", &[243, 255, 240, 255])],
        refused: &[],
    }];
    hold(&rt, rt.alloc(), ROWS)
}

/// Numbers around the greatest ones of three and of four bits.
const RESIZED: &[Given<'static>] = &[(b"a", 8, &[7, 8, 15, 16]), (b"c", 8, ZEROS)];

#[test]
fn moves_widen_by_the_sign_and_narrow(rt: HostRuntime) -> Result<(), AllocError> {
    const ROWS: &[Row] = &[
        Row {
            axes: FOUR,
            fields: RESIZED,
            flags: &[],
            program: &[b"s-move-2L c a 8 4"],
            wanted: &[(b"c", &[7, 248, 255, 0]), (b"s.overflow", ZEROS)],
            refused: &[],
        },
        Row {
            axes: FOUR,
            fields: RESIZED,
            flags: &[],
            program: &[b"u-move-2L c a 3 8"],
            wanted: &[(b"c", &[7, 0, 7, 0]), (b"s.overflow", &[0, 1, 1, 1])],
            refused: &[],
        },
    ];
    hold(&rt, rt.alloc(), ROWS)
}

#[test]
fn a_comparison_sets_the_test_flag(rt: HostRuntime) -> Result<(), AllocError> {
    const ROWS: &[Row] = &[
        Row {
            axes: FOUR,
            fields: &[(b"a", 8, &[1, 200, 3, 4]), (b"b", 8, &[2, 100, 3, 0])],
            flags: &[],
            program: &[b"u-lt-1L a b 8"],
            wanted: &[(b"s.test", &[1, 0, 0, 0])],
            refused: &[],
        },
        Row {
            axes: FOUR,
            fields: &[(b"a", 8, &[1, 200, 3, 4]), (b"b", 8, &[2, 100, 3, 0])],
            flags: &[],
            program: &[b"s-lt-1L a b 8"],
            wanted: &[(b"s.test", &[1, 1, 0, 0])],
            refused: &[],
        },
    ];
    hold(&rt, rt.alloc(), ROWS)
}

#[test]
fn a_processor_knows_its_coordinates_and_its_address(rt: HostRuntime) -> Result<(), AllocError> {
    const ROWS: &[Row] = &[Row {
        axes: &[2, 2],
        fields: &[(b"c", 8, ZEROS), (b"d", 8, ZEROS), (b"e", 8, ZEROS)],
        flags: &[],
        program: &[
            b"my-news-coordinate-1L c 0 8",
            b"my-news-coordinate-1L d 1 8",
            b"my-send-address-1L e 1",
        ],
        wanted: &[
            (b"c", &[0, 1, 0, 1]),
            (b"d", &[0, 0, 1, 1]),
            (b"e", &[0, 1, 0, 1]),
        ],
        refused: &[],
    }];
    hold(&rt, rt.alloc(), ROWS)
}

#[test]
fn the_context_is_loaded_inverted_and_stored(rt: HostRuntime) -> Result<(), AllocError> {
    const ROWS: &[Row] = &[Row {
        axes: FOUR,
        fields: &[(b"f", 1, &[1, 0, 1, 0]), (b"g", 1, ZEROS), (b"c", 8, ZEROS)],
        flags: &[],
        program: &[
            b"load-context f",
            b"u-move-constant-1L c 7 8",
            b"invert-context s",
            b"u-move-constant-1L c 9 8",
            b"store-context g",
            b"set-context s",
        ],
        wanted: &[
            (b"c", &[7, 9, 7, 9]),
            (b"g", &[0, 1, 0, 1]),
            (b"s.context", &[1, 1, 1, 1]),
        ],
        refused: &[],
    }];
    hold(&rt, rt.alloc(), ROWS)
}

#[test]
fn the_context_is_cut_by_the_test_flag(rt: HostRuntime) -> Result<(), AllocError> {
    const ROWS: &[Row] = &[Row {
        axes: FOUR,
        fields: &[(b"a", 8, &[1, 5, 3, 4]), (b"b", 8, &[4, 4, 4, 4])],
        flags: &[],
        program: &[
            b"u-lt-1L a b 8",
            b"logand-context-with-test s",
            b"set-test s",
        ],
        wanted: &[(b"s.context", &[1, 0, 1, 0]), (b"s.test", &[1, 0, 1, 0])],
        refused: &[],
    }];
    hold(&rt, rt.alloc(), ROWS)
}
