//! What messages come to, one after another, quad by quad of 256 senders.

ghost use Rattle.std.specs.Prelude.{◌≡◌, ℕ, ◌+◌, ◌-◌, ◌*◌, ◌/◌, ◌%◌, ◌<◌, ◌≤◌, ◌&&◌, ◌++◌, ◌∷◌, List, [], IfSome, None, find, length, min, nat_le, slice_index};
ghost use Rattle.paris_geometry.specs.Geometry.{numbers_below};
ghost use Rattle.paris_model.specs.Mail.{bad_sender, messages};
ghost use Rattle.paris_plane.specs.Bits.{word_bit};
ghost use Rattle.paris_field.specs.Numbers.{AllOf, has, number_at};
ghost use Rattle.paris_router.specs.Mail.{bad_sender_of, mail_in};

use crate::quads::quad_chosen;
use paris_field::{FieldValue, quad_operands};
use paris_layer::Layer;

/// What processors have of words that come to them one after another.
///
/// An implementation says of how many processors it is, what is so of each inbox, and what one has that has had some mail since it began.
pub trait Inbox {
    ghost count: { Self → ℕ };

    ghost IsWhole: { Self → Type 0 };

    ghost HasHad: { Self → List (ℕ × ℕ) → Self → Type 0 };

    /// How many processors there are.
    fn len(&self) -> usize
        ensures { result ≡ count self.now };

    /// Takes a word that comes to a processor.
    fn accept(&mut self, place: usize, word: u64)
        requires whole { IsWhole self.old }
        requires within { place < count self.old }
        ensures whole { IsWhole self.new }
        ensures count { count self.new ≡ count self.old }
        ensures come { (start : Self) (mail : List (ℕ × ℕ)) → HasHad start mail self.old → HasHad start (mail ++ (place, word) ∷ []) self.new };
}

/// Brings the words of the chosen processors of a quad to their addresses. Gives the place of the first chosen one whose address is
/// outside the set, if there is one, and those behind it send nothing then.
fn deliver_words<I: Inbox>(
    addresses: &[u64; 256],
    words: &[u64; 256],
    chosen: &[u64; 4],
    count: usize,
    inbox: &mut I,
) -> Option<usize>
    requires within { count ≤ 256 }
    requires whole { I.IsWhole inbox.old }
    ensures whole { I.IsWhole inbox.new }
    ensures count { I.count inbox.new ≡ I.count inbox.old }
    ensures bad { result ≡ find (λ i. word_bit (slice_index chosen.now (i / 64)) (i % 64) && nat_le (I.count inbox.old) (slice_index addresses.now i)) (numbers_below count) }
    ensures inside { IfSome result (λ i. i < count) }
    ensures come { result ≡ None → (start : I) (mail : List (ℕ × ℕ)) → I.HasHad start mail inbox.old → I.HasHad start (mail ++ messages count (λ i. word_bit (slice_index chosen.now (i / 64)) (i % 64)) (slice_index addresses.now) (slice_index words.now)) inbox.new }
{
    let vps = inbox.len() as u64;
    for i in 0..count {
        if (chosen[i / 64] >> (i % 64)) % 2 == 1 {
            let address = addresses[i];
            if address >= vps {
                return Some(i);
            }
            inbox.accept(address as usize, words[i]);
        }
    }
    None
}

/// Brings the numbers of the selected processors of a quad to their addresses. Gives the place in the quad of the first selected
/// processor whose address is outside the set, if there is one.
fn deliver_quad<I: Inbox>(
    addresses: &[Layer],
    x: &[Layer],
    selected: &Layer,
    quad: usize,
    inbox: &mut I,
) -> Option<usize>
    requires address_bits { length addresses.now ≤ 64 }
    requires narrow { length x.now ≤ 64 }
    requires within { 256 * quad < I.count inbox.old }
    requires selected { length selected.now ≡ I.count inbox.old }
    requires addresses { AllOf (I.count inbox.old) addresses.now }
    requires x { AllOf (I.count inbox.old) x.now }
    requires whole { I.IsWhole inbox.old }
    ensures whole { I.IsWhole inbox.new }
    ensures count { I.count inbox.new ≡ I.count inbox.old }
    ensures bad { result ≡ find (λ i. has selected.now (256 * quad + i) && nat_le (I.count inbox.old) (number_at addresses.now (256 * quad + i))) (numbers_below (min (I.count inbox.old - 256 * quad) 256)) }
    ensures inside { IfSome result (λ i. 256 * quad + i < I.count inbox.old) }
    ensures come { result ≡ None → (start : I) → I.HasHad start (messages (256 * quad) (has selected.now) (number_at addresses.now) (number_at x.now)) inbox.old → I.HasHad start (messages (min (256 * quad + 256) (I.count inbox.old)) (has selected.now) (number_at addresses.now) (number_at x.now)) inbox.new }
{
    let vps = inbox.len();
    let count = (vps - 256 * quad).min(256);
    let mut places = [0u64; 256];
    let mut words = [0u64; 256];
    quad_operands(addresses, x, quad, vps, &mut places, &mut words);
    let chosen = quad_chosen(selected, quad);
    deliver_words(&places, &words, &chosen, count, inbox)
}

/// Brings the numbers of the selected processors to their addresses. Gives the least selected processor whose address is outside the
/// set, if there is one.
fn deliver_all<I: Inbox>(
    addresses: &[Layer],
    x: &[Layer],
    selected: &Layer,
    inbox: &mut I,
) -> Option<usize>
    requires address_bits { length addresses.now ≤ 64 }
    requires narrow { length x.now ≤ 64 }
    requires selected { length selected.now ≡ I.count inbox.old }
    requires addresses { AllOf (I.count inbox.old) addresses.now }
    requires x { AllOf (I.count inbox.old) x.now }
    requires whole { I.IsWhole inbox.old }
    ensures whole { I.IsWhole inbox.new }
    ensures count { I.count inbox.new ≡ I.count inbox.old }
    ensures bad { result ≡ bad_sender (I.count inbox.old) (has selected.now) (number_at addresses.now) }
    ensures inside { IfSome result (λ v. v < I.count inbox.old) }
    ensures come { result ≡ None → (start : I) → I.HasHad start [] inbox.old → I.HasHad start (messages (I.count inbox.old) (has selected.now) (number_at addresses.now) (number_at x.now)) inbox.new }
{
    for quad in 0..inbox.len().div_ceil(256) {
        if let Some(i) = deliver_quad(addresses, x, selected, quad, inbox) {
            return Some(256 * quad + i);
        }
    }
    None
}

/// Brings the low `bits` bits of `x`, up to 64, of each selected processor to the address that it holds, of up to 64 bits too, one after
/// another by sender. Gives the least selected processor whose address is outside the set, if there is one.
pub fn deliver_mail<I: Inbox>(
    addresses: &FieldValue,
    x: &FieldValue,
    selected: &Layer,
    bits: u64,
    inbox: &mut I,
) -> Option<usize>
    requires narrow { bits ≤ 64 }
    requires x_width { bits ≤ x.now.width }
    requires address_width { addresses.now.width ≤ 64 }
    requires addresses { length addresses.now.numbers ≡ length x.now.numbers }
    requires selected { length selected.now ≡ length x.now.numbers }
    requires count { I.count inbox.old ≡ length x.now.numbers }
    requires whole { I.IsWhole inbox.old }
    ensures whole { I.IsWhole inbox.new }
    ensures count { I.count inbox.new ≡ I.count inbox.old }
    ensures bad { result ≡ bad_sender_of addresses.now selected.now }
    ensures inside { IfSome result (λ v. v < length x.now.numbers) }
    ensures come { result ≡ None → (start : I) → I.HasHad start [] inbox.old → I.HasHad start (mail_in bits addresses.now x.now selected.now) inbox.new }
{
    deliver_all(addresses.planes(), x.low(bits), selected, inbox)
}
