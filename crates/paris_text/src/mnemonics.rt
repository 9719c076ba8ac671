//! The first words of instructions.

ghost use Rattle.std.specs.Prelude.{◌≡◌, find};
ghost use Rattle.std.specs.Str.{bytes_eq};
ghost use Rattle.paris_text.specs.Mnemonics.{binary_text, unary_text, comparison_text, flag_text, scan_text, spread_text, reduce_text, send_text, text, mnemonic_word};

use paris_model::{BinaryOperator, Combiner, Comparison, Sign, UnaryOperator};

/// The instructions on a flag that name one set or one field.
#[derive(Clone, Copy, PartialEq, Eq, Debug)]
pub enum FlagAction {
    SetTest,
    ClearTest,
    LoadTest,
    StoreTest,
    SetContext,
    ClearContext,
    InvertContext,
    LoadContext,
    AndContext,
    OrContext,
    AndContextWithTest,
    StoreContext,
}

/// The two moves to and from the neighbour along an axis.
#[derive(Clone, Copy, PartialEq, Eq, Debug)]
pub enum NewsMove {
    Get,
    Send,
}

/// The first word of an instruction, by what it stands for.
#[derive(Clone, Copy, PartialEq, Eq, Debug)]
pub enum Mnemonic {
    Binary(BinaryOperator),
    Unary(UnaryOperator),
    MoveConstant,
    Resize(Sign),
    Compare(Comparison),
    MyCoordinate,
    MyAddress,
    MoveAlways,
    Flag(FlagAction),
    News(NewsMove),
    Scan(Combiner),
    CopyScan,
    Spread(Combiner),
    CopySpread,
    Reduce(Combiner),
    Get,
    Send,
    CombiningSend(Combiner),
}

/// All mnemonics.
const MNEMONICS: [Mnemonic; 77] = [
    Mnemonic::Binary(BinaryOperator::UnsignedAdd),
    Mnemonic::Binary(BinaryOperator::UnsignedAddCarry),
    Mnemonic::Binary(BinaryOperator::UnsignedSubtract),
    Mnemonic::Binary(BinaryOperator::SignedAdd),
    Mnemonic::Binary(BinaryOperator::SignedSubtract),
    Mnemonic::Binary(BinaryOperator::UnsignedMultiply),
    Mnemonic::Binary(BinaryOperator::SignedMultiply),
    Mnemonic::Binary(BinaryOperator::Truncate),
    Mnemonic::Binary(BinaryOperator::Remainder),
    Mnemonic::Binary(BinaryOperator::Maximum(Sign::Unsigned)),
    Mnemonic::Binary(BinaryOperator::Maximum(Sign::Signed)),
    Mnemonic::Binary(BinaryOperator::Minimum(Sign::Unsigned)),
    Mnemonic::Binary(BinaryOperator::Minimum(Sign::Signed)),
    Mnemonic::Binary(BinaryOperator::BitAnd),
    Mnemonic::Binary(BinaryOperator::BitOr),
    Mnemonic::Binary(BinaryOperator::BitXor),
    Mnemonic::Unary(UnaryOperator::Negate),
    Mnemonic::Unary(UnaryOperator::BitNot),
    Mnemonic::Unary(UnaryOperator::Move),
    Mnemonic::MoveConstant,
    Mnemonic::Resize(Sign::Unsigned),
    Mnemonic::Resize(Sign::Signed),
    Mnemonic::Compare(Comparison::Equal),
    Mnemonic::Compare(Comparison::NotEqual),
    Mnemonic::Compare(Comparison::Less(Sign::Unsigned)),
    Mnemonic::Compare(Comparison::Less(Sign::Signed)),
    Mnemonic::Compare(Comparison::LessOrEqual(Sign::Unsigned)),
    Mnemonic::Compare(Comparison::LessOrEqual(Sign::Signed)),
    Mnemonic::Compare(Comparison::Greater(Sign::Unsigned)),
    Mnemonic::Compare(Comparison::Greater(Sign::Signed)),
    Mnemonic::Compare(Comparison::GreaterOrEqual(Sign::Unsigned)),
    Mnemonic::Compare(Comparison::GreaterOrEqual(Sign::Signed)),
    Mnemonic::MyCoordinate,
    Mnemonic::MyAddress,
    Mnemonic::MoveAlways,
    Mnemonic::Flag(FlagAction::SetTest),
    Mnemonic::Flag(FlagAction::ClearTest),
    Mnemonic::Flag(FlagAction::LoadTest),
    Mnemonic::Flag(FlagAction::StoreTest),
    Mnemonic::Flag(FlagAction::SetContext),
    Mnemonic::Flag(FlagAction::ClearContext),
    Mnemonic::Flag(FlagAction::InvertContext),
    Mnemonic::Flag(FlagAction::LoadContext),
    Mnemonic::Flag(FlagAction::AndContext),
    Mnemonic::Flag(FlagAction::OrContext),
    Mnemonic::Flag(FlagAction::AndContextWithTest),
    Mnemonic::Flag(FlagAction::StoreContext),
    Mnemonic::News(NewsMove::Get),
    Mnemonic::News(NewsMove::Send),
    Mnemonic::Scan(Combiner::Sum),
    Mnemonic::Scan(Combiner::BitOr),
    Mnemonic::Scan(Combiner::BitAnd),
    Mnemonic::Scan(Combiner::BitXor),
    Mnemonic::Scan(Combiner::Maximum),
    Mnemonic::Scan(Combiner::Minimum),
    Mnemonic::CopyScan,
    Mnemonic::Spread(Combiner::Sum),
    Mnemonic::Spread(Combiner::BitOr),
    Mnemonic::Spread(Combiner::BitAnd),
    Mnemonic::Spread(Combiner::BitXor),
    Mnemonic::Spread(Combiner::Maximum),
    Mnemonic::Spread(Combiner::Minimum),
    Mnemonic::CopySpread,
    Mnemonic::Reduce(Combiner::Sum),
    Mnemonic::Reduce(Combiner::BitOr),
    Mnemonic::Reduce(Combiner::BitAnd),
    Mnemonic::Reduce(Combiner::BitXor),
    Mnemonic::Reduce(Combiner::Maximum),
    Mnemonic::Reduce(Combiner::Minimum),
    Mnemonic::Get,
    Mnemonic::Send,
    Mnemonic::CombiningSend(Combiner::Sum),
    Mnemonic::CombiningSend(Combiner::BitOr),
    Mnemonic::CombiningSend(Combiner::BitAnd),
    Mnemonic::CombiningSend(Combiner::BitXor),
    Mnemonic::CombiningSend(Combiner::Maximum),
    Mnemonic::CombiningSend(Combiner::Minimum),
];

fn binary_text(operator: BinaryOperator) -> &'static [u8]
    ensures { result.now ≡ binary_text operator }
{
    match operator {
        BinaryOperator::UnsignedAdd => b"u-add-3-1L",
        BinaryOperator::UnsignedAddCarry => b"u-add-carry-3-1L",
        BinaryOperator::UnsignedSubtract => b"u-subtract-3-1L",
        BinaryOperator::SignedAdd => b"s-add-3-1L",
        BinaryOperator::SignedSubtract => b"s-subtract-3-1L",
        BinaryOperator::UnsignedMultiply => b"u-multiply-3-1L",
        BinaryOperator::SignedMultiply => b"s-multiply-3-1L",
        BinaryOperator::Truncate => b"u-truncate-3-1L",
        BinaryOperator::Remainder => b"u-rem-3-1L",
        BinaryOperator::Maximum(Sign::Unsigned) => b"u-max-3-1L",
        BinaryOperator::Maximum(Sign::Signed) => b"s-max-3-1L",
        BinaryOperator::Minimum(Sign::Unsigned) => b"u-min-3-1L",
        BinaryOperator::Minimum(Sign::Signed) => b"s-min-3-1L",
        BinaryOperator::BitAnd => b"logand-3-1L",
        BinaryOperator::BitOr => b"logior-3-1L",
        BinaryOperator::BitXor => b"logxor-3-1L",
    }
}

fn unary_text(operator: UnaryOperator) -> &'static [u8]
    ensures { result.now ≡ unary_text operator }
{
    match operator {
        UnaryOperator::Negate => b"s-negate-2-1L",
        UnaryOperator::BitNot => b"lognot-2-1L",
        UnaryOperator::Move => b"u-move-1L",
    }
}

fn comparison_text(comparison: Comparison) -> &'static [u8]
    ensures { result.now ≡ comparison_text comparison }
{
    match comparison {
        Comparison::Equal => b"u-eq-1L",
        Comparison::NotEqual => b"u-ne-1L",
        Comparison::Less(Sign::Unsigned) => b"u-lt-1L",
        Comparison::Less(Sign::Signed) => b"s-lt-1L",
        Comparison::LessOrEqual(Sign::Unsigned) => b"u-le-1L",
        Comparison::LessOrEqual(Sign::Signed) => b"s-le-1L",
        Comparison::Greater(Sign::Unsigned) => b"u-gt-1L",
        Comparison::Greater(Sign::Signed) => b"s-gt-1L",
        Comparison::GreaterOrEqual(Sign::Unsigned) => b"u-ge-1L",
        Comparison::GreaterOrEqual(Sign::Signed) => b"s-ge-1L",
    }
}

fn flag_text(action: FlagAction) -> &'static [u8]
    ensures { result.now ≡ flag_text action }
{
    match action {
        FlagAction::SetTest => b"set-test",
        FlagAction::ClearTest => b"clear-test",
        FlagAction::LoadTest => b"load-test",
        FlagAction::StoreTest => b"store-test",
        FlagAction::SetContext => b"set-context",
        FlagAction::ClearContext => b"clear-context",
        FlagAction::InvertContext => b"invert-context",
        FlagAction::LoadContext => b"load-context",
        FlagAction::AndContext => b"logand-context",
        FlagAction::OrContext => b"logior-context",
        FlagAction::AndContextWithTest => b"logand-context-with-test",
        FlagAction::StoreContext => b"store-context",
    }
}

fn scan_text(combiner: Combiner) -> &'static [u8]
    ensures { result.now ≡ scan_text combiner }
{
    match combiner {
        Combiner::Sum => b"scan-with-u-add-1L",
        Combiner::BitOr => b"scan-with-logior-1L",
        Combiner::BitAnd => b"scan-with-logand-1L",
        Combiner::BitXor => b"scan-with-logxor-1L",
        Combiner::Maximum => b"scan-with-u-max-1L",
        Combiner::Minimum => b"scan-with-u-min-1L",
    }
}

fn spread_text(combiner: Combiner) -> &'static [u8]
    ensures { result.now ≡ spread_text combiner }
{
    match combiner {
        Combiner::Sum => b"spread-with-u-add-1L",
        Combiner::BitOr => b"spread-with-logior-1L",
        Combiner::BitAnd => b"spread-with-logand-1L",
        Combiner::BitXor => b"spread-with-logxor-1L",
        Combiner::Maximum => b"spread-with-u-max-1L",
        Combiner::Minimum => b"spread-with-u-min-1L",
    }
}

fn reduce_text(combiner: Combiner) -> &'static [u8]
    ensures { result.now ≡ reduce_text combiner }
{
    match combiner {
        Combiner::Sum => b"reduce-with-u-add-1L",
        Combiner::BitOr => b"reduce-with-logior-1L",
        Combiner::BitAnd => b"reduce-with-logand-1L",
        Combiner::BitXor => b"reduce-with-logxor-1L",
        Combiner::Maximum => b"reduce-with-u-max-1L",
        Combiner::Minimum => b"reduce-with-u-min-1L",
    }
}

fn send_text(combiner: Combiner) -> &'static [u8]
    ensures { result.now ≡ send_text combiner }
{
    match combiner {
        Combiner::Sum => b"send-with-u-add-1L",
        Combiner::BitOr => b"send-with-logior-1L",
        Combiner::BitAnd => b"send-with-logand-1L",
        Combiner::BitXor => b"send-with-logxor-1L",
        Combiner::Maximum => b"send-with-u-max-1L",
        Combiner::Minimum => b"send-with-u-min-1L",
    }
}

impl Mnemonic {
    /// The word itself.
    #[tactic(auto, unfolding(crate::specs::Mnemonics::text))]
    pub fn text(self) -> &'static [u8]
        ensures { result.now ≡ text self }
    {
        match self {
            Mnemonic::Binary(operator) => binary_text(operator),
            Mnemonic::Unary(operator) => unary_text(operator),
            Mnemonic::MoveConstant => b"u-move-constant-1L",
            Mnemonic::Resize(Sign::Unsigned) => b"u-move-2L",
            Mnemonic::Resize(Sign::Signed) => b"s-move-2L",
            Mnemonic::Compare(comparison) => comparison_text(comparison),
            Mnemonic::MyCoordinate => b"my-news-coordinate-1L",
            Mnemonic::MyAddress => b"my-send-address-1L",
            Mnemonic::MoveAlways => b"u-move-always-1L",
            Mnemonic::Flag(action) => flag_text(action),
            Mnemonic::News(NewsMove::Get) => b"get-from-news-1L",
            Mnemonic::News(NewsMove::Send) => b"send-to-news-1L",
            Mnemonic::Scan(combiner) => scan_text(combiner),
            Mnemonic::CopyScan => b"scan-with-copy-1L",
            Mnemonic::Spread(combiner) => spread_text(combiner),
            Mnemonic::CopySpread => b"spread-with-copy-1L",
            Mnemonic::Reduce(combiner) => reduce_text(combiner),
            Mnemonic::Get => b"get-1L",
            Mnemonic::Send => b"send-1L",
            Mnemonic::CombiningSend(combiner) => send_text(combiner),
        }
    }

    /// The mnemonic that a word is, if it is one.
    #[tactic(auto, unfolding(crate::specs::Mnemonics::mnemonic_word))]
    pub fn of_word(word: &[u8]) -> Option<Mnemonic>
        ensures { result ≡ mnemonic_word word.now }
    {
        first_spelled(&MNEMONICS, word)
    }
}

/// The first of some mnemonics that a word is.
fn first_spelled(mnemonics: &[Mnemonic], word: &[u8]) -> Option<Mnemonic>
    ensures { result ≡ find (λ m. bytes_eq (text m) word.now) mnemonics.now }
{
    mnemonics
        .iter()
        .copied()
        .find(|mnemonic| mnemonic.text() == word)
}
