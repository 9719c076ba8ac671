//! Squares of bits, turned about their diagonals: one of 64 by 64, or two of 32 by 32, four of 16 by 16 or eight of 8 by 8 side by side.

ghost use Rattle.std.specs.Prelude.{◌≡◌, ℕ, ◌+◌, ◌-◌, ◌*◌, ◌/◌, ◌%◌, ◌<◌, ◌≤◌, ◌==◌, cond, slice_index};
ghost use Rattle.paris_plane.specs.Bits.{word_bit};
ghost use Rattle.paris_plane.specs.Digits.{MarksZeros, digit};
ghost use Rattle.paris_field.specs.Square.{crossed};

/// Turns a square of bits about its diagonal: bit i of word j becomes bit j of word i.
pub fn transpose64(rows: &mut [u64; 64])
    ensures { (j i : ℕ) → j < 64 → i < 64 → word_bit (slice_index rows.new j) i ≡ word_bit (slice_index rows.old i) j }
{
    exchange_digits::<1>(rows, 32, 0x5555_5555_5555_5555);
    exchange_digits::<2>(rows, 32, 0x3333_3333_3333_3333);
    exchange_digits::<4>(rows, 32, 0x0F0F_0F0F_0F0F_0F0F);
    exchange_digits::<8>(rows, 32, 0x00FF_00FF_00FF_00FF);
    exchange_digits::<16>(rows, 32, 0x0000_FFFF_0000_FFFF);
    exchange_digits::<32>(rows, 32, 0x0000_0000_FFFF_FFFF);
}

/// Turns two squares of 32 by 32 bits, which lie side by side in the first 32 words, each about its own diagonal.
pub(crate) fn transpose32(rows: &mut [u64; 64])
    ensures { (j i : ℕ) → j < 32 → i < 64 → word_bit (slice_index rows.new j) i ≡ word_bit (slice_index rows.old (i % 32)) (i / 32 * 32 + j) }
{
    exchange_digits::<1>(rows, 16, 0x5555_5555_5555_5555);
    exchange_digits::<2>(rows, 16, 0x3333_3333_3333_3333);
    exchange_digits::<4>(rows, 16, 0x0F0F_0F0F_0F0F_0F0F);
    exchange_digits::<8>(rows, 16, 0x00FF_00FF_00FF_00FF);
    exchange_digits::<16>(rows, 16, 0x0000_FFFF_0000_FFFF);
}

/// Turns four squares of 16 by 16 bits, which lie side by side in the first 16 words, each about its own diagonal.
pub(crate) fn transpose16(rows: &mut [u64; 64])
    ensures { (j i : ℕ) → j < 16 → i < 64 → word_bit (slice_index rows.new j) i ≡ word_bit (slice_index rows.old (i % 16)) (i / 16 * 16 + j) }
{
    exchange_digits::<1>(rows, 8, 0x5555_5555_5555_5555);
    exchange_digits::<2>(rows, 8, 0x3333_3333_3333_3333);
    exchange_digits::<4>(rows, 8, 0x0F0F_0F0F_0F0F_0F0F);
    exchange_digits::<8>(rows, 8, 0x00FF_00FF_00FF_00FF);
}

/// Turns eight squares of 8 by 8 bits, which lie side by side in the first 8 words, each about its own diagonal.
pub(crate) fn transpose8(rows: &mut [u64; 64])
    ensures { (j i : ℕ) → j < 8 → i < 64 → word_bit (slice_index rows.new j) i ≡ word_bit (slice_index rows.old (i % 8)) (i / 8 * 8 + j) }
{
    exchange_digits::<1>(rows, 4, 0x5555_5555_5555_5555);
    exchange_digits::<2>(rows, 4, 0x3333_3333_3333_3333);
    exchange_digits::<4>(rows, 4, 0x0F0F_0F0F_0F0F_0F0F);
}

/// In the first `2 * half` rows, moves each bit to where the binary digits of weight `S` of its row and of its place are exchanged.
fn exchange_digits<const S: usize>(rows: &mut [u64; 64], half: usize, mask: u64)
    requires shift { (0 < S) × (S < 64) }
    requires blocks { half / S * S ≡ half }
    requires within { half ≤ 32 }
    requires mask { MarksZeros S mask }
    ensures { (j i : ℕ) → j < 2 * half → i < 64 → word_bit (slice_index rows.new j) i ≡ word_bit (slice_index rows.old (crossed S j i)) (crossed S i j) }
{
    for block in 0..half / S {
        exchange_block::<S>(rows, 2 * S * block, mask);
    }
}

/// Exchanges the bits of each of the `S` rows from `start` on with those of the row `S` rows above it.
fn exchange_block<const S: usize>(rows: &mut [u64; 64], start: usize, mask: u64)
    requires shift { (0 < S) × (S < 64) }
    requires within { start + 2 * S ≤ 64 }
    requires mask { MarksZeros S mask }
    ensures upper { (j i : ℕ) → start ≤ j → j < start + S → i < 64 → word_bit (slice_index rows.new j) i ≡ cond (digit S i == 0) (word_bit (slice_index rows.old j) i) (word_bit (slice_index rows.old (j + S)) (i - S)) }
    ensures lower { (j i : ℕ) → start ≤ j → j < start + S → i < 64 → word_bit (slice_index rows.new (j + S)) i ≡ cond (digit S i == 0) (word_bit (slice_index rows.old j) (i + S)) (word_bit (slice_index rows.old (j + S)) i) }
    ensures others { (j : ℕ) → (start ≤ j → start + 2 * S ≤ j) → slice_index rows.new j ≡ slice_index rows.old j }
{
    for row in start..start + S {
        let (upper, lower) = exchange_words::<S>(rows[row], rows[row + S], mask);
        rows[row] = upper;
        rows[row + S] = lower;
    }
}

/// Two words, where the bits of the first at places with the digit 1 and those of the second at places with the digit 0 are exchanged.
fn exchange_words<const S: usize>(upper: u64, lower: u64, mask: u64) -> (u64, u64)
    requires shift { (0 < S) × (S < 64) }
    requires mask { MarksZeros S mask }
    ensures upper { (i : ℕ) → i < 64 → word_bit result.0 i ≡ cond (digit S i == 0) (word_bit upper i) (word_bit lower (i - S)) }
    ensures lower { (i : ℕ) → i < 64 → word_bit result.1 i ≡ cond (digit S i == 0) (word_bit upper (i + S)) (word_bit lower i) }
{
    let moved = ((upper >> S) ^ lower) & mask;
    (upper ^ (moved << S), lower ^ moved)
}
