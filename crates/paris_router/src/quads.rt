//! Which processors of a quad, four neighbouring blocks of 64, are selected.

ghost use Rattle.std.specs.Prelude.{◌≡◌, ℕ, ◌+◌, ◌*◌, ◌/◌, ◌%◌, ◌<◌, length, slice_index};
ghost use Rattle.paris_plane.specs.Bits.{word_bit};
ghost use Rattle.paris_field.specs.Numbers.{has};

use paris_layer::Layer;

/// A word of each block of a quad whose bits say which of its processors are selected. Those past the last processor mean nothing.
pub(crate) fn quad_chosen(selected: &Layer, quad: usize) -> [u64; 4]
    requires { 256 * quad < length selected.now }
    ensures { (i : ℕ) → i < 256 → 256 * quad + i < length selected.now → word_bit (slice_index result (i / 64)) (i % 64) ≡ has selected.now (256 * quad + i) }
{
    let mut words = [0u64; 4];
    for q in 0..(selected.len() - 256 * quad).div_ceil(64).min(4) {
        words[q] = selected.word(4 * quad + q);
    }
    words
}
