// What is counted, and what can differ.
use balance::refusal::Returned;
use std::alloc::{AllocError, AllocFailed};

// What is compared, or what it is answered with.
#[derive(Clone, Copy)]
pub(crate) enum Counted {
    Drum,
    Member,
    Possible,
    NotPossible,
    Opened,
    Refused,
    Box,
    Held,
    Rest,
    Accepted,
    NotAccepted,
    Orders,
    Limit,
}

pub(crate) const LABELS: [&str; 13] = [
    "drums",
    "solutions of members",
    "points possible",
    "points not possible",
    "openings accepted",
    "openings refused",
    "boxes compared",
    "solutions held by a box",
    "boxes at rest",
    "readings accepted",
    "readings refused",
    "pairs of orders at rest in one box",
    "limit cases",
];

// How often, by what is counted, and the first difference that was met.
#[derive(Clone, Copy)]
pub(crate) struct Report {
    pub counts: [u64; 13],
    pub difference: Option<Difference>,
}

impl Report {
    pub(crate) fn more(&mut self, counted: Counted) {
        if let Some(count) = self.counts.get_mut(counted as usize) {
            *count = count.wrapping_add(1);
        }
    }

    // Notes a difference where something does not hold.
    pub(crate) fn expect(&mut self, holds: bool, difference: Difference) {
        if !holds && self.difference.is_none() {
            self.difference = Some(difference);
        }
    }
}

// Where the libraries and this program disagree.
#[derive(Clone, Copy, Debug)]
pub(crate) enum Difference {
    Memory,
    Making,
    Place,
    Point,
    Opening,
    Members,
    Box,
    Rest,
    SolutionLost,
    RowStep,
    Round,
    Reading,
    Record,
    Orders,
    Limit(usize),
}

impl From<AllocError> for Difference {
    fn from(_: AllocError) -> Difference {
        Difference::Memory
    }
}

impl<T: Drop> From<AllocFailed<T>> for Difference {
    fn from(_: AllocFailed<T>) -> Difference {
        Difference::Memory
    }
}

impl<T: Drop> From<Returned<T>> for Difference {
    fn from(_: Returned<T>) -> Difference {
        Difference::Making
    }
}
