ghost use Rattle.std.specs.Prelude.{◌≡◌, Ok};
ghost use Rattle.balance.specs.Places.{first_refusal, unless_refused, Searched};

use super::refusal::Refusal;
use super::system::System;

/// Whether every place answers, or the refusal of the first one that does not: row by row, each row's columns and then its right side.
pub fn every_place_answers<S: System>(system: &S) -> Result<(), Refusal>
    ensures answers { result ≡ unless_refused (first_refusal (S.meaning system.now)) (Ok tt) }
    ensures names_the_first_refused_place { Searched (S.meaning system.now) result }
{
    let size = system.size();
    'search: {
        for row in 1..=size {
            for column in 1..=size {
                if let Err(refusal) = system.coefficient(row, column) {
                    break 'search Err(refusal);
                }
            }
            if let Err(refusal) = system.right_side(row) {
                break 'search Err(refusal);
            }
        }
        Ok(())
    }
}
