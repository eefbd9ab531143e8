// The test of a certificate, and the first box.
ghost use Rattle.std.specs.Prelude.{◌≡◌, if◌then◌else◌, ℕ, ◌+◌, ◌-◌, ◌*◌, ◌^◌, ◌<◌, ◌≤◌, All, length, take, pos, ◌≤ℤ◌, None, Ok, Err, MatchResult, fold, max, unsigned_abs};
ghost use Rattle.balance.specs.Ranges.{Between, Ordered, limits};
ghost use Rattle.balance.specs.Meanings.{Among, coefficient_range};
ghost use Rattle.balance.specs.Places.{first, first_refusal, unless_refused};
ghost use Rattle.roast.specs.Matrices.{Assembled};
ghost use Rattle.roast.specs.Assembled.{meant};
ghost use Rattle.roast.specs.Certificates.{magnitude, mignitude, number, u, others, v, rounded_up, listed, certificate_refusal, dominance_refusal, opening};
ghost use Rattle.roast.specs.FirstBox.{Narrow, row, row_made, rows_made, range_made, box_made, largest_end};

use super::bounds::Bounds;
use super::matrix::Matrix;
use balance::range::Range;
use balance::refusal::Refusal;
use balance::system::System;

// A number of a certificate lies in 1 to 2^20.
const NUMBERS: Range = Range {
    lower: 1,
    upper: 1_048_576,
};

// No end of the first box lies beyond ±2^30.
const END_LIMIT: u64 = 1_073_741_824;

// Refuses a certificate of another length, or the first number that is not allowed.
pub(crate) fn check_certificate(size: usize, certificate: &[i64]) -> Result<(), Refusal>
    ensures { result ≡ unless_refused (certificate_refusal size certificate.now) (Ok tt) }
{
    if certificate.len() != size {
        return Err(Refusal::Certificate { place: 0 });
    }
    match NUMBERS.first_outside(certificate) {
        Some(i) => Err(Refusal::Certificate { place: i + 1 }),
        None => Ok(()),
    }
}

// The largest absolute value in a range: that of an end, and the ends are in order.
fn magnitude(a: Range) -> u64
    requires in_order { Ordered a }
    requires narrow { unsigned_abs a.lower ≤ 2 ^ 42 }
    ensures { result ≡ magnitude a }
{
    a.upper.max(-a.lower) as u64
}

// The smallest absolute value in a range.
fn mignitude(a: Range) -> u64
    ensures { result ≡ mignitude a }
{
    if a.contains(0) {
        0
    } else if 0 < a.lower {
        a.lower.unsigned_abs()
    } else {
        a.upper.unsigned_abs()
    }
}

// A coefficient's magnitude or mignitude times a number of the certificate.
fn weight(size: u64, number: u64) -> u64
    requires size { size ≤ 2 ^ 20 }
    requires number { number ≤ 2 ^ 20 }
    ensures is { result ≡ size * number }
    ensures small { result ≤ 2 ^ 40 }
{
    size * number
}

// What a column adds to the rest of its row, of which the diagonal is no part.
fn other(a: Range, number: u64, diagonal: bool) -> u64
    requires coefficient_is_narrow { Between (2 ^ 20) a }
    requires number_is_small { number ≤ 2 ^ 20 }
    ensures is { result ≡ (if diagonal then 0 else magnitude a * number) }
    ensures small { result ≤ 2 ^ 40 }
{
    if diagonal {
        0
    } else {
        weight(magnitude(a), number)
    }
}

// The magnitude of a row's right side, and what its diagonal has over the rest of it.
#[derive(Clone, Copy, Default)]
struct Row {
    side: u64,
    margin: u64,
}

impl Row {
    // The larger of an end and number × side / margin, rounded up. It divides only where the end grows: most rows leave it, and a division costs
    // more than all else here.
    fn grown(self, number: u64, end: u64) -> u64
        requires number_is_small { number ≤ 2 ^ 20 }
        requires row_is_narrow { Narrow self }
        ensures { result ≡ max end (rounded_up (number * self.side) self.margin) }
    {
        let need = number * self.side;
        if need <= end.saturating_mul(self.margin) {
            end
        } else {
            need.div_ceil(self.margin)
        }
    }
}

// The largest end that a row gives.
fn largest_end(number: u64, rows: &[Row]) -> u64
    requires number_is_small { number ≤ 2 ^ 20 }
    requires rows_are_narrow { All Narrow rows.now }
    ensures { result ≡ largest_end number rows.now }
{
    rows.iter().fold(0, |end, row| row.grown(number, end))
}

// ±end.
fn limits(end: u64) -> Range
    requires { end ≤ 2 ^ 30 }
    ensures { result ≡ limits end }
{
    Range {
        lower: -(end as i64),
        upper: end as i64,
    }
}

// An assembled matrix and the numbers of a certificate, an allowed one for each node.
#[derive(Drop)]
struct Weighted<'a> {
    matrix: &'a Matrix,
    numbers: &'a [i64],
    ghost counted: { length numbers.now ≡ matrix.now.size },
    ghost positive: { (i : ℕ) → Among matrix.now.size i → pos 1 ≤ℤ number numbers.now i },
    ghost small: { (i : ℕ) → Among matrix.now.size i → u numbers.now i ≤ 2 ^ 20 },
}

impl<'a> Weighted<'a> {
    // The number of a node.
    fn number(&self, node: usize) -> u64
        requires { Among self.now.matrix.now.size node }
        ensures is { result ≡ u self.now.numbers.now node }
        ensures small { result ≤ 2 ^ 20 }
    {
        self.numbers[node - 1] as u64
    }

    // The magnitudes of a row but its diagonal, each times its number.
    fn others(&self, row: usize) -> u64
        requires { Among self.now.matrix.now.size row }
        ensures is { let w = self.now in
            result ≡ others (meant w.matrix.now) w.numbers.now row w.matrix.now.size }
        ensures small { result ≤ 2 ^ 45 }
    {
        let cells = self.matrix.row(row);
        let mut sum = 0;
        for j in 0..cells.len() {
            sum += other(cells[j], self.number(j + 1), j + 1 == row);
        }
        sum
    }

    // What the diagonal of a row has over the rest of it.
    fn margin(&self, row: usize) -> i64
        requires { Among self.now.matrix.now.size row }
        ensures is { result ≡ v (meant self.now.matrix.now) self.now.numbers.now row }
        ensures small { result ≤ℤ pos (2 ^ 40) }
    {
        let diagonal = self.matrix.coefficient(row, row);
        let own = weight(mignitude(diagonal), self.number(row));
        own as i64 - self.others(row) as i64
    }

    // What a node's row gives to the first box, where its diagonal dominates it.
    fn row(&self, node: usize) -> Result<Row, Refusal>
        requires { Among self.now.matrix.now.size node }
        ensures { result ≡ row_made (meant self.now.matrix.now) self.now.numbers.now node }
    {
        let margin = self.margin(node);
        if margin < 1 {
            return Err(Refusal::Dominance { place: node });
        }
        Ok(Row {
            side: magnitude(self.matrix.side(node)),
            margin: margin.unsigned_abs(),
        })
    }

    // All rows, node 1 first, or the first whose diagonal does not dominate it. Rows behind the last node stay as they begin.
    fn rows(&self) -> Result<[Row; 32], Refusal>
        ensures { let n = self.now.matrix.now.size in
            let made = rows_made (meant self.now.matrix.now) self.now.numbers.now in
            MatchResult result (λ rows. Ok (take n rows) ≡ made) (λ e. Err e ≡ made) }
    {
        let mut rows = [Row::default(); 32];
        for node in 1..=self.numbers.len() {
            rows[node - 1] = self.row(node)?;
        }
        Ok(rows)
    }

    // A node's first range ±k, where it is not too wide.
    fn range(&self, rows: &[Row], node: usize) -> Result<Range, Refusal>
        requires node { Among self.now.matrix.now.size node }
        requires dominant { first (dominance_refusal (meant self.now.matrix.now) self.now.numbers.now) self.now.matrix.now.size ≡ None }
        requires all_rows { rows.now ≡ listed (row (meant self.now.matrix.now) self.now.numbers.now) self.now.matrix.now.size }
        ensures { result ≡ range_made (meant self.now.matrix.now) self.now.numbers.now node }
    {
        let end = largest_end(self.number(node), rows);
        if END_LIMIT < end {
            return Err(Refusal::Wide { place: node });
        }
        Ok(limits(end))
    }

    // The ranges of all nodes, or the first row that is not dominated, or else the first node whose range is too wide.
    fn first_box(&self) -> Result<Bounds, Refusal>
        ensures { result ≡ box_made (meant self.now.matrix.now) self.now.numbers.now }
    {
        let rows = self.rows()?;
        let mut bounds = Bounds::default();
        for node in 1..self.numbers.len() + 1 {
            bounds.push(self.range(&rows[..self.numbers.len()], node)?);
        }
        Ok(bounds)
    }
}

// The bounds that an opening with this certificate gives, where every place answers.
fn bounds_of(matrix: &Matrix, certificate: &[i64]) -> Result<Bounds, Refusal>
    ensures { result ≡ opening (meant matrix.now) certificate.now }
{
    check_certificate(matrix.size(), certificate)?;
    let weighted = Weighted {
        matrix,
        numbers: certificate,
    };
    weighted.first_box()
}

// Assembles the matrix of a system, and makes the bounds that an opening with this certificate gives.
pub(crate) fn first_bounds<S: System>(
    system: &S,
    matrix: &mut Matrix,
    certificate: &[i64],
) -> Result<Bounds, Refusal>
    ensures is { result ≡ opening (S.meaning system.now) certificate.now }
    ensures assembles { first_refusal (S.meaning system.now) ≡ None → Assembled (S.meaning system.now) matrix.new.size matrix.new.coefficients matrix.new.sides }
{
    matrix.assemble(system)?;
    bounds_of(matrix, certificate)
}
