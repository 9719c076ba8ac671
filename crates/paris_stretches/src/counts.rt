//! On how many processors a value is other than 0.

ghost use Rattle.std.specs.Prelude.{◌≡◌, ℕ, ◌+◌, ◌-◌, ◌*◌, ◌<◌, ◌≤◌, map};
ghost use Rattle.std.specs.List.{range_with_len};
ghost use Rattle.paris_plane.specs.Bits.{word_bit};
ghost use Rattle.paris_field.specs.Numbers.{AllOf, number_at};
ghost use Rattle.paris_stretches.specs.Stretches.{count_others, is_other};

use crate::bounds::low_bits;
use paris_field::FieldValue;
use paris_layer::Layer;

/// A 1 for each processor of a block whose number is other than 0. The bits of those past the last processor mean nothing.
fn others_in(layers: &[Layer], block: usize, vps: usize) -> u64
    requires within { 64 * block < vps }
    requires long { AllOf vps layers.now }
    ensures { (i : ℕ) → i < 64 → 64 * block + i < vps → word_bit result i ≡ is_other (number_at layers.now (64 * block + i)) }
{
    let mut word = 0u64;
    for k in (0..layers.len()).rev() {
        word |= layers[k].word(block);
    }
    word
}

/// Of how many of the processors from one to before another the number is other than 0. It takes no memory.
pub(crate) fn count_between(layers: &[Layer], start: usize, stop: usize, vps: usize) -> u64
    requires long { AllOf vps layers.now }
    requires order { start ≤ stop }
    requires within { stop ≤ vps }
    ensures { result ≡ count_others (map (number_at layers.now) (range_with_len start (stop - start))) }
{
    let mut count = 0u64;
    for block in start / 64..stop.div_ceil(64) {
        let from = start.max(64 * block);
        let place = from - 64 * block;
        let bits = (stop - from).min(64 - place);
        let others = low_bits(others_in(layers, block, vps) >> place, bits);
        count += u64::from(others.count_ones());
    }
    count
}

/// Of how many processors a value's number is other than 0. It takes no memory.
pub fn count_of(value: &FieldValue) -> u64
    ensures { result ≡ count_others value.now.numbers }
{
    count_between(value.planes(), 0, value.len(), value.len())
}
