//! What lists of values come to on planes.

ghost use Rattle.std.specs.Prelude.{◌≡◌, ℕ, ◌+◌, ◌^◌, ◌<◌, ◌≤◌, ◌++◌, All, List, [], ◌∷◌, length};
ghost use Rattle.paris_field.specs.Numbers.{AllOf, number_at};
ghost use Rattle.paris_scan.specs.Brings.{Among, Brings};

use crate::partner::Partner;
use paris_plane::Plane;

/// What the values of a list come to, as a number that planes hold, and how the numbers of two lists make that of one after
/// the other. The values have as many bits as there are planes without `extra`.
pub trait Combine {
    ghost extra: { ℕ };

    ghost shows: { ℕ → List ℕ → ℕ };

    /// Puts into each processor what the list that its partner's planes show and the one that its own show come to, one after
    /// the other. `brought` and `spare` are written over.
    fn join(partner: &Partner, state: &mut [Plane], brought: &mut [Plane], spare: &mut Plane)
        requires some { extra ≤ length state.old }
        requires same { length brought.old ≡ length state.old }
        requires partner { Among (length spare.old) partner.now }
        requires state { AllOf (length spare.old) state.old }
        requires brought { AllOf (length spare.old) brought.old }
        ensures spare { length spare.new ≡ length spare.old }
        ensures long { AllOf (length spare.old) state.new }
        ensures brought { AllOf (length spare.old) brought.new }
        ensures joined { (L v : ℕ) (xs ys : List ℕ) → length state.old ≡ L + extra → v < length spare.old → All (λ x. x < 2 ^ L) xs → All (λ x. x < 2 ^ L) ys
            → ((x : ℕ) → Brings 0 partner.now (length spare.old) (number_at state.old) v x → x ≡ shows L xs) → number_at state.old v ≡ shows L ys → number_at state.new v ≡ shows L (xs ++ ys) };

    ghost none: { (L : ℕ) → shows L [] ≡ 0 };
}

/// Where the order of two lists doesn't matter, and a value alone comes to itself.
pub trait Commute: Combine {
    ghost one: { (L x : ℕ) → x < 2 ^ L → Self.shows L (x ∷ []) ≡ x };

    ghost swapped: { (L : ℕ) (xs ys : List ℕ) → Self.shows L (xs ++ ys) ≡ Self.shows L (ys ++ xs) };
}
