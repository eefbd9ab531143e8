ghost use Rattle.std.specs.Prelude.{◌≡◌, Ok, Err, MatchResult};
ghost use Rattle.roast.specs.Narrowing.{narrowed};
ghost use Rattle.firmware.specs.Drums.{settling};

use balance::refusal::Refusal;
use balance::system::System;
use roast::roast::Roast;

const ROUNDS: usize = 64;

// Makes rounds until one changes nothing, 64 at most, and says whether the box is at rest then: it is if the last round changed nothing.
pub(crate) fn settle<S: System>(roast: &mut Roast<S>) -> Result<bool, Refusal>
    ensures { let call = settling (narrowed (S.meaning roast.old.system)) roast.old.bounds in
        MatchResult result (λ rests. (Ok rests, roast.new.bounds) ≡ call) (λ e. Err e ≡ call.0) }
{
    for _ in 0..ROUNDS {
        if roast.round()? == 0 {
            return Ok(true);
        }
    }
    Ok(roast.at_rest())
}
