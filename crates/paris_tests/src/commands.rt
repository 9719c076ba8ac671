//! Commands that are read, and wrong lines.

use paris_edits::Edit;
use paris_model::{Action, Conditional};
use paris_names::{Fault, FlagName, Profile, RowId, Spot};
use paris_text::{Command, Setting, read_command, read_command_in};

#[test]
fn each_command_is_read(rt: HostRuntime) {
    for line in [
        "set S 4",
        "set S 8x4x2x18446744073709551615",
        "field a S 8",
        "input a 0 10",
        "input S.test 3 0 1 340282366920938463463374607431768211455",
        "insert start u-add-3-1L c a b 8",
        "insert after 12 set-test S",
        "insert end scan-with-copy-1L d v 0 8 upward none",
        "delete 1",
        "replace 2 u-move-1L d a 8",
        "take",
        "bring 3",
        "release",
        "show a start",
        "show S.overflow after 7",
        "show S.context end",
        "list",
        "faults",
        "settle",
    ] {
        for first in [false, true] {
            let read = read_command(rt.alloc(), line.as_bytes(), first);
            assert!(rt; read.is_ok(), "{line} is not read");
        }
    }
}

#[test]
fn a_set_has_its_axes(rt: HostRuntime) {
    let read = read_command(rt.alloc(), b"set S 8x4x2", false);
    match &read {
        Ok(Command::Edit(Edit::AddSet { name, axes })) => {
            assert!(rt; name.as_bytes() == b"S".as_slice());
            assert!(rt; axes.as_slice() == [8, 4, 2].as_slice());
        }
        _other => assert!(rt; false, "a set is read"),
    }
}

#[test]
fn an_input_has_its_values(rt: HostRuntime) {
    let read = read_command(rt.alloc(), b"input S.carry 2 1 0 1", false);
    match &read {
        Ok(Command::Edit(Edit::Input { key, from, values })) => {
            assert!(rt; key.name.as_bytes() == b"S".as_slice());
            assert!(rt; key.flag == Some(FlagName::Carry));
            assert!(rt; *from == 2);
            assert!(rt; values.as_slice() == [1, 0, 1].as_slice());
        }
        _other => assert!(rt; false, "an input is read"),
    }
}

#[test]
fn a_value_is_read_at_each_length(rt: HostRuntime) {
    for (line, value) in [
        ("input a 0 5 0", 0),
        ("input a 0 5 18", 18),
        ("input a 0 5 1000000000000000000", 1_000_000_000_000_000_000),
        ("input a 0 5 9999999999999999999", 9_999_999_999_999_999_999),
        (
            "input a 0 5 10000000000000000000",
            10_000_000_000_000_000_000,
        ),
        ("input a 0 5 18446744073709551609", (1 << 64) - 7),
        ("input a 0 5 18446744073709551615", (1 << 64) - 1),
        ("input a 0 5 18446744073709551616", 1 << 64),
        ("input a 0 5 18446744073709551620", (1 << 64) + 4),
        (
            "input a 0 5 99999999999999999999",
            99_999_999_999_999_999_999,
        ),
        (
            "input a 0 5 184467440737095516159",
            10 * ((1 << 64) - 1) + 9,
        ),
        (
            "input a 0 5 170141183460469231731687303715884105728",
            1 << 127,
        ),
        (
            "input a 0 5 340282366920938463463374607431768211455",
            u128::MAX,
        ),
    ] {
        let read = read_command(rt.alloc(), line.as_bytes(), false);
        match &read {
            Ok(
                Command::Edit(
                    Edit::Input {
                        key: _,
                        from: _,
                        values,
                    },
                ),
            ) => {
                assert!(rt; values.as_slice() == [5u128, value].as_slice(), "of {line}");
            }
            _other => assert!(rt; false, "{line} is not read"),
        }
    }
}

#[test]
fn values_of_different_lengths_stand_in_one_line(rt: HostRuntime) {
    let line =
        b"input a 3 18446744073709551615 0 18446744073709551616 9999999999999999999 340282366920938463463374607431768211455 12 10000000000000000000";
    let read = read_command(rt.alloc(), line, false);
    match &read {
        Ok(
            Command::Edit(
                Edit::Input {
                    key: _,
                    from,
                    values,
                },
            ),
        ) => {
            assert!(rt; *from == 3);
            let all = [
                (1u128 << 64) - 1,
                0,
                1 << 64,
                9_999_999_999_999_999_999,
                u128::MAX,
                12,
                10_000_000_000_000_000_000,
            ];
            assert!(rt; values.as_slice() == all.as_slice());
        }
        _other => assert!(rt; false, "an input is read"),
    }
}

#[test]
fn an_insertion_has_its_place(rt: HostRuntime) {
    let read = read_command(rt.alloc(), b"insert after 7 set-test S", false);
    match &read {
        Ok(
            Command::Edit(
                Edit::Insert {
                    spot,
                    instr: Action::OnSelected(Conditional::SetTest(set)),
                },
            ),
        ) => {
            assert!(rt; *spot == Spot::After(RowId(7)));
            assert!(rt; set.as_bytes() == b"S".as_slice());
        }
        _other => assert!(rt; false, "an insertion is read"),
    }
}

#[test]
fn wrong_lines_have_the_column_of_the_first_wrong_word(rt: HostRuntime) {
    for (line, column) in [
        ("", 1),
        ("shw a end", 1),
        ("show a", 7),
        ("show  a end", 6),
        ("field a S", 10),
        ("paris", 1),
        ("paris 2", 1),
        ("paris 3", 1),
        ("session", 1),
        ("SET S 4", 1),
        ("take ", 6),
        ("settle\r", 1),
        ("set S", 6),
        ("set S 2x", 7),
        ("set S 2x02", 7),
        ("set S 18446744073709551616", 7),
        ("set S 2 2", 9),
        ("input a 0", 10),
        ("input a 0 1 x", 13),
        ("input a 0 ", 11),
        ("input a 0  1", 11),
        ("input a 0 1  2", 13),
        ("input a 0 1 ", 13),
        ("input a 0 1  ", 13),
        ("input a 0 00", 11),
        ("input a 0 1 01", 13),
        ("input a 0 0123456789012345678", 11),
        ("input a 0 01234567890123456789", 11),
        ("input a 0 00000000000000000000", 11),
        ("input a 0 18446744073709551615x", 11),
        ("input a 0 1844674407370955161x", 11),
        ("input a 0 18446744073709551616:", 11),
        ("input a 0 340282366920938463463374607431768211456", 11),
        ("input a 0 1 999999999999999999999999999999999999999 x", 13),
        ("input a 0 1 1000000000000000000000000000000000000000", 13),
        ("input a.flag 0 1", 7),
        ("input a. 0 1", 7),
        ("insert at end", 8),
        ("insert end", 11),
        ("insert after u-add-3-1L c a b 8", 14),
        ("insert after 1", 15),
        ("insert end add c", 12),
        ("insert end u-add-3-1L c a b", 28),
        ("insert start u-add-3-1L c none b 8", 27),
        ("replace 1 set-test S x", 22),
        ("replace 1", 10),
        ("delete -1", 8),
        ("bring 18446744073709551616", 7),
        ("release now", 9),
        ("show S.carry after end", 20),
        ("show a at", 8),
    ] {
        let read = read_command(rt.alloc(), line.as_bytes(), false);
        assert_eq!(rt; column_of(read), column, "of {line}");
    }
}

/// The column of a wrong line, and 0 for a command.
fn column_of(read: Result<Command, Fault>) -> u64 {
    match read {
        Err(Fault::Syntax(column)) => column,
        _ => 0,
    }
}

#[test]
fn the_first_command_may_choose_the_profile(rt: HostRuntime) {
    for (line, chosen) in [("paris 1", Profile::One), ("paris 2", Profile::Two)] {
        let read = read_command(rt.alloc(), line.as_bytes(), true);
        match &read {
            Ok(Command::Paris(profile)) => assert!(rt; *profile == chosen, "of {line}"),
            _other => assert!(rt; false, "{line} is not read"),
        }
    }
}

#[test]
fn a_wrong_choice_of_the_profile_has_the_column_of_its_wrong_word(rt: HostRuntime) {
    for (line, column) in [
        ("paris", 6),
        ("paris ", 7),
        ("paris 0", 7),
        ("paris 3", 7),
        ("paris 02", 7),
        ("paris two", 7),
        ("paris 2 ", 9),
        ("paris 2 x", 9),
        ("Paris 2", 1),
        (" paris 2", 1),
    ] {
        let read = read_command(rt.alloc(), line.as_bytes(), true);
        assert_eq!(rt; column_of(read), column, "of {line}");
    }
}

#[test]
fn where_a_line_stands_says_which_first_words_it_may_have(rt: HostRuntime) {
    for is_shared in [false, true] {
        for is_first in [false, true] {
            let setting = Setting {
                is_shared,
                is_first,
            };
            let settle = column_of(read_command_in(rt.alloc(), setting, b"settle"));
            assert_eq!(rt; settle, u64::from(is_shared));
            let paris = column_of(read_command_in(rt.alloc(), setting, b"paris 2"));
            assert_eq!(rt; paris, u64::from(!is_first));
        }
    }
}
