//! The profile that the lines of a part choose.

ghost use Rattle.std.specs.Prelude.{◌≡◌, IfOk};
ghost use Rattle.paris_parts.specs.Beginning.{chosen_by, profile_of};

use crate::parts::Part;
use paris_names::Profile;
use paris_session::{Asked, Hand};
use std::alloc::{AllocError, Global};

/// The profile that is chosen by what a command asks for.
fn chosen_by(asked: &Asked) -> Profile
    ensures { result ≡ chosen_by asked.now }
{
    match asked {
        Asked::Chosen(profile) => *profile,
        _ => Profile::One,
    }
}

/// The profile that the first part of a script chooses by its first command. The error says that memory was refused.
pub(crate) fn profile_of(alloc: Global, part: &Part) -> Result<Profile, AllocError>
    ensures { IfOk result (λ profile. profile ≡ profile_of part.now) }
{
    let hand = Hand::new(alloc, true);
    let lines = part.lines();
    for line in lines {
        if let Some(asked) = hand.asked(true, line.as_slice())? {
            return Ok(chosen_by(&asked));
        }
    }
    Ok(Profile::One)
}
