//! The operators that instructions are made of.

/// How the bits of an operand are read.
#[derive(Clone, Copy, PartialEq, Eq, Debug)]
pub enum Sign {
    /// As a number that is not negative.
    Unsigned,
    /// As two's complement.
    Signed,
}

/// An operator of two sources and a destination.
#[derive(Clone, Copy, PartialEq, Eq, Debug)]
pub enum BinaryOperator {
    /// The sum of unsigned numbers.
    UnsignedAdd,
    /// The sum of unsigned numbers and the carry flag.
    UnsignedAddCarry,
    /// The difference of unsigned numbers.
    UnsignedSubtract,
    /// The sum of signed numbers.
    SignedAdd,
    /// The difference of signed numbers.
    SignedSubtract,
    /// The product of unsigned numbers.
    UnsignedMultiply,
    /// The product of signed numbers.
    SignedMultiply,
    /// The quotient of unsigned numbers, rounded down.
    Truncate,
    /// The remainder of unsigned numbers.
    Remainder,
    /// The greater operand.
    Maximum(Sign),
    /// The lesser operand.
    Minimum(Sign),
    /// The bits that both have.
    BitAnd,
    /// The bits that one or both have.
    BitOr,
    /// The bits that just one has.
    BitXor,
}

/// An operator of one source and a destination.
#[derive(Clone, Copy, PartialEq, Eq, Debug)]
pub enum UnaryOperator {
    /// The signed number with the other sign.
    Negate,
    /// Each bit turned.
    BitNot,
    /// The number itself.
    Move,
}

/// A comparison of two sources.
#[derive(Clone, Copy, PartialEq, Eq, Debug)]
pub enum Comparison {
    /// Whether the two have the same bits.
    Equal,
    /// Whether they differ in a bit.
    NotEqual,
    /// Whether the left number is below the right one.
    Less(Sign),
    /// Whether it is not above it.
    LessOrEqual(Sign),
    /// Whether it is above it.
    Greater(Sign),
    /// Whether it is not below it.
    GreaterOrEqual(Sign),
}

/// An associative and commutative operator with a unit, for scans, spreads, reduces and combining sends.
#[derive(Clone, Copy, PartialEq, Eq, Debug)]
pub enum Combiner {
    /// The sum of unsigned numbers.
    Sum,
    /// The bits that one or more have.
    BitOr,
    /// The bits that all have.
    BitAnd,
    /// The bits that an odd count of them have.
    BitXor,
    /// The greatest unsigned number.
    Maximum,
    /// The least unsigned number.
    Minimum,
}

/// Whether a scan counts the processor's own value.
#[derive(Clone, Copy, PartialEq, Eq, Debug)]
pub enum Inclusion {
    /// The values up to the processor, with its own.
    Inclusive,
    /// The values before the processor.
    Exclusive,
}
