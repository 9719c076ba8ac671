//! Instructions in five families, over any kind of name for fields and sets: as they are written they have names, and in
//! a plan operands and set numbers. The fields of a variant come in the order of the instruction's spelling.

use crate::operators::{BinaryOperator, Combiner, Comparison, Inclusion, Sign, UnaryOperator};
use paris_geometry::Direction;
use paris_names::{FieldNo, Name};

/// A field operand with its whole width in bits.
#[derive(Clone, Copy, PartialEq, Eq, Debug)]
pub struct Operand {
    /// The number of the field.
    pub field: FieldNo,
    /// The whole width of the field, in bits.
    pub width: u64,
}

/// Instructions that store in selected processors, each by itself. Lengths are in bits.
#[derive(Clone, Copy, PartialEq, Eq, Debug)]
pub enum Conditional<F, S> {
    /// Stores what the operator makes of the low `length` bits of two sources.
    Binary {
        operator: BinaryOperator,
        to: F,
        left: F,
        right: F,
        length: u64,
    },
    /// Stores what the operator makes of the low `length` bits of a source.
    Unary {
        operator: UnaryOperator,
        to: F,
        from: F,
        length: u64,
    },
    /// Stores a constant below `2 ^ length`.
    MoveConstant {
        to: F,
        value: u128,
        length: u64,
    },
    /// Stores the low `from_length` bits of a source as a number of `length` bits.
    Resize {
        sign: Sign,
        to: F,
        from: F,
        length: u64,
        from_length: u64,
    },
    /// Sets the test flag to a comparison of the low `length` bits of two sources.
    Compare {
        comparison: Comparison,
        left: F,
        right: F,
        length: u64,
    },
    /// Stores the processor's own coordinate on an axis.
    MyCoordinate {
        to: F,
        axis: u64,
        length: u64,
    },
    /// Stores the processor's own send address.
    MyAddress {
        to: F,
        length: u64,
    },
    /// Sets the test flag to 1.
    SetTest(S),
    /// Sets the test flag to 0.
    ClearTest(S),
    /// Sets the test flag to a field of one bit.
    LoadTest(F),
    /// Stores the test flag into a field of one bit.
    StoreTest(F),
}

/// Instructions that store in every processor. Lengths are in bits.
#[derive(Clone, Copy, PartialEq, Eq, Debug)]
pub enum Unconditional<F, S> {
    /// Stores the low `length` bits of a source.
    MoveAlways { to: F, from: F, length: u64 },
    /// Sets the context to 1.
    SetContext(S),
    /// Sets the context to 0.
    ClearContext(S),
    /// Turns the context.
    InvertContext(S),
    /// Sets the context to a field of one bit.
    LoadContext(F),
    /// Keeps the context where a field of one bit is 1, else sets it to 0.
    AndContext(F),
    /// Keeps the context where a field of one bit is 0, else sets it to 1.
    OrContext(F),
    /// Keeps the context where the test flag is 1, else sets it to 0.
    AndContextWithTest(S),
    /// Stores the context into a field of one bit.
    StoreContext(F),
}

/// Moves of the low `length` bits to and from the neighbour along an axis, which wraps round.
#[derive(Clone, Copy, PartialEq, Eq, Debug)]
pub enum News<F> {
    /// Each selected processor stores the value of its neighbour.
    Get {
        to: F,
        from: F,
        axis: u64,
        direction: Direction,
        length: u64,
    },
    /// Each selected processor's value is stored by its neighbour.
    Send {
        to: F,
        from: F,
        axis: u64,
        direction: Direction,
        length: u64,
    },
}

/// Scans, spreads and reduces of the low `length` bits of a source, along the lines of an axis.
#[derive(Clone, Copy, PartialEq, Eq, Debug)]
pub enum Line<F> {
    /// Each selected processor stores what the values of its segment combine to, from the segment's start to itself.
    Scan {
        combiner: Combiner,
        to: F,
        from: F,
        axis: u64,
        length: u64,
        direction: Direction,
        inclusion: Inclusion,
        segments: Option<F>,
    },
    /// Each selected processor stores the first value of its segment.
    CopyScan {
        to: F,
        from: F,
        axis: u64,
        length: u64,
        direction: Direction,
        segments: Option<F>,
    },
    /// Each selected processor stores what the values of its line combine to.
    Spread {
        combiner: Combiner,
        to: F,
        from: F,
        axis: u64,
        length: u64,
    },
    /// Each selected processor stores the value at a coordinate of its line.
    CopySpread {
        to: F,
        from: F,
        axis: u64,
        length: u64,
        coordinate: u64,
    },
    /// The processor at a coordinate of each line stores what the values of the line combine to, where it is selected.
    Reduce {
        combiner: Combiner,
        to: F,
        from: F,
        axis: u64,
        length: u64,
        coordinate: u64,
    },
}

/// Moves of the low `length` bits by send address, which is a field read at its whole width.
#[derive(Clone, Copy, PartialEq, Eq, Debug)]
pub enum Mail<F> {
    /// Each selected processor stores the value at the address that it holds.
    Get {
        to: F,
        addresses: F,
        from: F,
        length: u64,
    },
    /// Each selected processor sends its value to the address that it holds, where it is stored. Two messages must not meet.
    Send {
        to: F,
        addresses: F,
        from: F,
        length: u64,
        notify: Option<F>,
    },
    /// Each selected processor sends its value to the address that it holds, where it is combined with what stands there.
    CombiningSend {
        combiner: Combiner,
        to: F,
        addresses: F,
        from: F,
        length: u64,
        notify: Option<F>,
    },
}

/// An instruction, by its family.
#[derive(Clone, Copy, PartialEq, Eq, Debug)]
pub enum Action<F, S> {
    /// It stores in selected processors, each by itself.
    OnSelected(Conditional<F, S>),
    /// It stores in every processor.
    OnAll(Unconditional<F, S>),
    /// It moves to or from the neighbour along an axis.
    ByNews(News<F>),
    /// It combines along the lines of an axis.
    AlongLine(Line<F>),
    /// It moves by send address.
    ByMail(Mail<F>),
}

/// Why an instruction was refused when it ran.
#[derive(Clone, Copy, PartialEq, Eq, Debug)]
pub enum Refusal {
    /// Two messages meet in this processor.
    Collision(u32),
    /// This processor holds an address outside its set.
    BadAddress(u32),
}

/// An instruction as it is written, with names for its fields and sets.
pub type Instr = Action<Name, Name>;
