//! Worked spellings and wrong lines.

use paris_geometry::Direction;
use paris_model::{Action, BinaryOperator, Combiner, Conditional, Inclusion, Line, Mail, Sign};
use paris_names::Name;
use paris_text::{Syntax, read_instr, write_instr};
use std::test::Fail;

#[test]
fn spellings_are_read_and_written_again(rt: HostRuntime) -> Result<(), Fail> {
    for line in [
        "u-add-3-1L c a b 8",
        "s-max-3-1L c a b 64",
        "logxor-3-1L c a b 1",
        "s-negate-2-1L c a 8",
        "u-move-constant-1L c 340282366920938463463374607431768211455 128",
        "s-move-2L c a 8 4",
        "u-ne-1L a b 18446744073709551615",
        "s-ge-1L a b 0",
        "my-news-coordinate-1L c 0 8",
        "my-send-address-1L c 8",
        "store-test f",
        "u-move-always-1L c a 8",
        "invert-context S",
        "logand-context-with-test S",
        "get-from-news-1L d a 0 upward 8",
        "send-to-news-1L d a 1 downward 8",
        "scan-with-u-add-1L d v 0 8 upward inclusive none",
        "scan-with-logand-1L d v 0 8 downward exclusive g",
        "scan-with-copy-1L d v 0 8 upward g",
        "spread-with-u-min-1L d v 0 8",
        "spread-with-copy-1L d v 0 8 3",
        "reduce-with-u-max-1L d v 0 8 1",
        "get-1L d ad v 8",
        "send-1L d ad v 8 n",
        "send-with-logior-1L d ad v 8 none",
    ] {
        let Ok(instr) = read_instr(line.as_bytes()) else {
            assert!(rt; false, "{line} is not read");
            return Ok(());
        };
        let written = write_instr(rt.alloc(), &instr)?;
        assert_eq!(rt; written.as_slice(), line.as_bytes(), "of {line}");
    }
    Ok(())
}

/// The names d, a and b.
fn three_names() -> Option<(Name, Name, Name)> {
    Some((Name::new(b"d")?, Name::new(b"a")?, Name::new(b"b")?))
}

#[test]
fn operands_are_in_the_order_of_the_line(rt: HostRuntime) {
    let Some((d, a, b)) = three_names() else {
        assert!(rt; false, "they are names");
        return;
    };
    let subtract = Conditional::Binary {
        operator: BinaryOperator::UnsignedSubtract,
        to: d,
        left: a,
        right: b,
        length: 8,
    };
    let resize = Conditional::Resize {
        sign: Sign::Signed,
        to: d,
        from: a,
        length: 8,
        from_length: 4,
    };
    assert!(rt; read_instr(b"u-subtract-3-1L d a b 8") == Ok(Action::OnSelected(subtract)));
    assert!(rt; read_instr(b"s-move-2L d a 8 4") == Ok(Action::OnSelected(resize)));
}

#[test]
fn operands_of_scans_and_sends_are_in_the_order_of_the_line(rt: HostRuntime) {
    let Some((d, a, b)) = three_names() else {
        assert!(rt; false, "they are names");
        return;
    };
    let scan = Line::Scan {
        combiner: Combiner::Maximum,
        to: d,
        from: a,
        axis: 1,
        length: 8,
        direction: Direction::Upward,
        inclusion: Inclusion::Exclusive,
        segments: Some(b),
    };
    let line = b"scan-with-u-max-1L d a 1 8 upward exclusive b";
    assert!(rt; read_instr(line) == Ok(Action::AlongLine(scan)));
    let send = Mail::Send {
        to: d,
        addresses: a,
        from: b,
        length: 8,
        notify: None,
    };
    assert!(rt; read_instr(b"send-1L d a b 8 none") == Ok(Action::ByMail(send)));
}

#[test]
fn wrong_lines_have_the_column_of_the_first_wrong_word(rt: HostRuntime) {
    for (line, column) in [
        ("", 1),
        ("add c a b 8", 1),
        ("U-add-3-1L c a b 8", 1),
        (" u-add-3-1L c a b 8", 1),
        ("u-add-3-1L", 11),
        ("u-add-3-1L ", 12),
        ("u-add-3-1L none a b 8", 12),
        ("u-add-3-1L c  a b 8", 14),
        ("u-add-3-1L c a b", 17),
        ("u-add-3-1L c a b ", 18),
        ("u-add-3-1L c a b 08", 18),
        ("u-add-3-1L c a b 8 9", 20),
        ("u-add-3-1L c a b 8 ", 20),
        ("u-move-1L d\ta 8", 11),
        ("u-move-1L d a 18446744073709551616", 15),
        (
            "u-move-constant-1L d 340282366920938463463374607431768211456 8",
            22,
        ),
        ("get-from-news-1L d a 0 up 8", 24),
        ("scan-with-u-add-1L d v 0 8 upward inclusive", 44),
        ("send-1L d ad v 8 0", 18),
    ] {
        assert!(rt;
            read_instr(line.as_bytes()) == Err(Syntax(column)),
            "of {line}"
        );
    }
}
