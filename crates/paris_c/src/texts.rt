//! What statuses and causes are called in words.

ghost use Rattle.std.specs.Prelude.{◌≡◌};
ghost use Rattle.paris_c.specs.Texts.{status_text, cause_text};

/// The text of a status: that of a fault by its number, or that of a status of the library. No other number has one.
pub(crate) fn status_text(status: u32) -> &'static [u8]
    ensures { result.now ≡ status_text status }
{
    match status {
        1 => b"as many sets as a board may have are declared",
        2 => b"the lengths of the axes make no geometry",
        3 => b"a set or a field has this name",
        4 => b"no set has this name",
        5 => b"as many fields as a board may have are declared",
        6 => b"the width is 0 or above the greatest one",
        7 => b"no field has this name, or no set has the name before the dot",
        8 => b"there are no values, or more than fit from the first place on",
        9 => b"a value does not fit the width",
        10 => b"no row has this id",
        11 => b"the program has as many rows as it may have",
        12 => b"a length is 0, or above the width of an operand",
        13 => b"fields of two sets are named",
        14 => b"the set has no axis of this number",
        15 =>
            b"an operand of one bit is wider, a constant is too great, or a coordinate is outside its axis",
        16 => b"the notify field is the destination",
        17 => b"the edit counter is at its greatest value",
        18 => b"the history has as many entries as it may have",
        19 => b"there is no memory left",
        20 => b"the line is not in the grammar",
        21 => b"the seat has seen more entries than the history has",
        22 => b"no order has this number",
        23 => b"a look found no entry",
        101 => b"the handle is closed",
        102 => b"the word is no key",
        103 => b"a row has to be settled first",
        104 => b"the room has another number of words than what is to be put there",
        105 => b"the script is too long, or the session has answered as many lines as it can count",
        106 => b"a number is wider than a word",
        107 => b"there was no memory left while rows were settled: those that ran are settled",
        108 => b"no profile has this number",
        109 => b"no row is ready",
        110 => b"the order is not executed",
        111 => b"the two values differ in width or in the number of their processors",
        112 => b"the line is no event of a desk",
        113 => b"the seat is of another desk",
        _ => b"",
    }
}

/// The text of a cause, by its number. No other number has one.
pub(crate) fn cause_text(cause: u32) -> &'static [u8]
    ensures { result.now ≡ cause_text cause }
{
    match cause {
        1 => b"two messages meet at a processor",
        2 => b"a processor holds an address outside its set",
        _ => b"",
    }
}
