// The drum, the records and the refusals of the tests.
use balance::range::Range;
use balance::refusal::Refusal;
use systems::record::Record;

// Two nodes, written again here since a program exports nothing: rows [4, 5] [-1, 1] | [8, 10] and [-1, 1] [4, 5] | [-10, -8].
pub(crate) const RANGES: [Range; 6] = [
    Range { lower: 4, upper: 5 },
    Range {
        lower: -1,
        upper: 1,
    },
    Range {
        lower: 8,
        upper: 10,
    },
    Range {
        lower: -1,
        upper: 1,
    },
    Range { lower: 4, upper: 5 },
    Range {
        lower: -10,
        upper: -8,
    },
];

pub(crate) fn range(lower: i64, upper: i64) -> Range {
    Range { lower, upper }
}

// The tests of `fitting` have the same: a program exports nothing, nor does a crate of tests.
pub(crate) fn limit(part: usize, row: usize, column: usize) -> Refusal {
    Refusal::Limit { part, row, column }
}

pub(crate) fn link(first: usize, second: usize, lower: i64, upper: i64) -> Record {
    Record::Link {
        first,
        second,
        conductance: range(lower, upper),
    }
}

pub(crate) fn outside(node: usize, conductance: Range, temperature: Range) -> Record {
    Record::Outside {
        node,
        conductance,
        temperature,
    }
}

pub(crate) fn heat(node: usize, lower: i64, upper: i64) -> Record {
    Record::Heat {
        node,
        heat: range(lower, upper),
    }
}

// What was made, or what was handed back, is let go; only the refusal is told.
pub(crate) fn outcome<T: Drop, E>(made: Result<T, E>) -> Result<(), Refusal>
where
    Refusal: From<E>,
{
    made.map(drop).map_err(Refusal::from)
}
