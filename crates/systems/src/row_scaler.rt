ghost use Rattle.std.specs.Prelude.{◌≡◌, ◌^◌, ◌≤◌, Some, None, Ok, Err, IfOk, unsigned_abs};
ghost use Rattle.balance.specs.Ranges.{range, Between};
ghost use Rattle.balance.specs.Meanings.{IsNode, answer, placed};
ghost use Rattle.balance.specs.Places.{unless_refused};
ghost use Rattle.systems.specs.RowScalers.{scaled, factor_at, row_scaled, factor_allowed, factors_refusal, KeepsSolutions};
ghost use Rattle.systems.specs.RowScalersLemmas.{scaled_lawful};

use super::entries::{check_entries, kept};
use balance::range::Range;
use balance::refusal::{Refusal, Returned};
use balance::system::{COEFFICIENTS, RIGHT_SIDES, System, limited};

// The layer's part number, a constant of the module as a generic `impl` does not show the value of `Self::PART` to the checker.
const ROW_SCALER_PART: usize = 3;

// Other than 0, and within ±1,024.
fn factor_allowed(factor: i64) -> bool
    ensures { result ≡ factor_allowed factor }
{
    (1..=1024).contains(&factor.unsigned_abs())
}

fn check_factors(size: usize, factors: &[i64]) -> Result<(), Refusal>
    ensures { result ≡ unless_refused (factors_refusal size factors.now) (Ok tt) }
{
    check_entries(size, factors, |_, factor| factor_allowed(*factor))
}

// A range times a factor; a negative one exchanges the ends. By `Range::checked_mul` the exchange would be hidden among four products, in an `Option`
// that is always told.
#[tactic(auto, using(crate::specs::RowScalersLemmas::product_fits, crate::specs::RowScalersLemmas::product_held))]
fn scaled(range: Range, factor: i64) -> Range
    requires range_keeps_the_limit { Between (2 ^ 42) range }
    requires factor_keeps_the_limit { unsigned_abs factor ≤ 1024 }
    ensures { result ≡ scaled factor range }
{
    let by_lower = range.lower * factor;
    let by_upper = range.upper * factor;
    if factor < 0 {
        Range {
            lower: by_upper,
            upper: by_lower,
        }
    } else {
        Range {
            lower: by_lower,
            upper: by_upper,
        }
    }
}

// A layer over any system: each row, its right side too, is multiplied by a factor. The solutions stay.
#[derive(Drop)]
pub struct RowScaler<S: System> {
    system: S,
    factors: Vec<i64>,
    ghost taken: { factors_refusal (S.meaning system).size factors.items ≡ None },
}

impl<S: System> RowScaler<S> {
    // A wrong count, or the first factor that is not allowed, is refused, and the system and the factors come back.
    pub fn new(system: S, factors: Vec<i64>) -> Result<RowScaler<S>, Returned<(S, Vec<i64>)>>
        ensures made_exactly_when_every_factor_is_taken { elim result [ Ok l ↦ factors_refusal (S.meaning system).size factors.items ≡ None | Err e ↦ factors_refusal (S.meaning system).size factors.items ≡ Some e.refusal ] }
        ensures holds_the_system_and_the_factors { elim result [ Ok l ↦ (l.system ≡ system) × (l.factors ≡ factors) | Err e ↦ e.value ≡ (system, factors) ] }
        ensures keeps_the_solutions { IfOk result (λ l. KeepsSolutions (S.meaning system) (row_scaled factors.items (S.meaning system))) }
    {
        let checked = check_factors(system.size(), &factors);
        let (system, factors) = kept(checked, (system, factors))?;
        Ok(RowScaler { system, factors })
    }

    fn factor(&self, row: usize) -> i64
        requires row_is_a_node { IsNode (S.meaning self.now.system) row }
        ensures is { result ≡ factor_at self.now.factors.items row }
        ensures keeps_the_limit { unsigned_abs result ≤ 1024 }
    {
        self.factors[row - 1]
    }

    // Ends from below times the factor of their row, as an answer, or the refusal of the place.
    fn answer(
        &self,
        ends: (i64, i64),
        limits: Range,
        row: usize,
        column: usize,
    ) -> Result<(i64, i64), Refusal>
        requires row_is_a_node { IsNode (S.meaning self.now.system) row }
        requires ends_keep_the_limit { Between (2 ^ 42) (range ends.0 ends.1) }
        ensures { result ≡ answer (placed limits 3 row column (scaled (factor_at self.now.factors.items row) (range ends.0 ends.1))) }
    {
        let range = scaled(ends.into(), self.factor(row));
        limited(range, limits, ROW_SCALER_PART, row, column)
    }
}

impl<S: System> System for RowScaler<S> {
    const PART: usize = ROW_SCALER_PART;

    ghost meaning = { λ l. row_scaled l.factors.items (S.System.meaning l.system) };

    ghost lawful = { λ s. scaled_lawful s.factors.items (S.System.meaning s.system) (S.System.lawful s.system) };

    fn size(&self) -> usize {
        self.system.size()
    }

    fn coefficient(&self, row: usize, column: usize) -> Result<(i64, i64), Refusal> {
        let ends = self.system.coefficient(row, column)?;
        self.answer(ends, COEFFICIENTS, row, column)
    }

    fn right_side(&self, row: usize) -> Result<(i64, i64), Refusal> {
        let ends = self.system.right_side(row)?;
        self.answer(ends, RIGHT_SIDES, row, self.system.size() + 1)
    }
}
