// Drums of one node at the limits and just beyond them, with answers that were found by hand.
use super::report::{Counted, Difference, Report};
use balance::range::Range;
use balance::refusal::Refusal;
use balance::table::Table;
use roast::roast::Roast;
use std::alloc::Global;

const COEFFICIENT: i64 = 1_048_576;

const SIDE: i64 = 4_398_046_511_104;

const END: i64 = 1_073_741_824;

type Ends = Result<(i64, i64), Refusal>;

const WIDE: Ends = Err(Refusal::Wide { place: 1 });

const NOT_DOMINATED: Ends = Err(Refusal::Dominance { place: 1 });

const COEFFICIENT_REFUSED: Ends = Err(Refusal::Limit {
    part: 1,
    row: 1,
    column: 1,
});

const SIDE_REFUSED: Ends = Err(Refusal::Limit {
    part: 1,
    row: 1,
    column: 2,
});

// The ends of a coefficient and of a right side, and what comes of them.
const CASES: [(i64, i64, i64, i64, Ends); 19] = [
    (1, 1, END, END, Ok((END, END))),
    (1, 1, -END, END, Ok((-END, END))),
    (1, 1, END, END + 1, WIDE),
    (-1, -1, -END - 1, 0, WIDE),
    (4096, 4096, SIDE, SIDE, Ok((END, END))),
    (4095, 4096, 0, SIDE, WIDE),
    (7, 9, 0, 0, Ok((0, 0))),
    (COEFFICIENT, COEFFICIENT, 1, 1, Ok((0, 1))),
    (1, COEFFICIENT + 1, 0, 0, COEFFICIENT_REFUSED),
    (-COEFFICIENT - 1, -1, 0, 0, COEFFICIENT_REFUSED),
    (1, 1, 0, SIDE + 1, SIDE_REFUSED),
    (1, 1, -SIDE - 1, 0, SIDE_REFUSED),
    (0, 0, 1, 1, NOT_DOMINATED),
    (-1, 1, 1, 1, NOT_DOMINATED),
    (3, 3, -7, -7, Ok((-3, -2))),
    (-3, -3, -7, -7, Ok((2, 3))),
    (-5, -4, 8, 10, Ok((-3, -1))),
    (4, 5, -1, 10, Ok((-1, 3))),
    (4, 5, 8, 8, Ok((1, 2))),
];

// The ends of a node once the drum is opened and its row has stepped.
fn stepped(system: Table<Range>) -> Ends {
    let mut roast = Roast::new(system);
    roast.open(&[1])?;
    roast.row_step(1)?;
    roast.ends(1)
}

pub(crate) fn compare(heap: Global, report: &mut Report) -> Result<(), Difference> {
    for (number, case) in CASES.iter().enumerate() {
        let (a, b, c, d, wanted) = *case;
        let cells = [Range { lower: a, upper: b }, Range { lower: c, upper: d }];
        let answer = stepped(Table::new(1, cells.to_vec(heap)?)?);
        report.expect(answer == wanted, Difference::Limit(number));
        report.more(Counted::Limit);
    }
    Ok(())
}
