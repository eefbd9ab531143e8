ghost use Rattle.std.specs.Prelude.{◌≡◌, Some};
ghost use Rattle.balance.specs.Refusals.{number, first_value, written};

use std::error::Error;
use std::fmt;

// Why a call said no. Each variant has a number that users see, and the values that go with it; place 0 is what they see where none is named.
#[derive(Clone, Copy, PartialEq, Eq, Debug)]
pub enum Refusal {
    // 1: the file is empty or too long, or its trailer is malformed, points wrongly or miscounts
    File,
    // 2: a data line has another shape, or the size line is missing
    Shape {
        place: usize,
    },
    // 3: the size, the number of cells or the number of records is wrong
    Size {
        place: usize,
    },
    // 4: a node lies outside 1 to n
    Node {
        place: usize,
    },
    // 5: a data line is repeated or out of order
    Order {
        place: usize,
    },
    // 6: a lower end is above its upper end
    Crossed {
        place: usize,
    },
    // 7: a factor, or an entry of a permutation, is not allowed
    Entry {
        place: usize,
    },
    // 8: a number goes beyond its limits
    Limit {
        part: usize,
        row: usize,
        column: usize,
    },
    // 9: the certificate has another length, or one of its numbers is out of range
    Certificate {
        place: usize,
    },
    // 10: a row is not dominated by its diagonal under the certificate
    Dominance {
        place: usize,
    },
    // 11: an end of the first box is too large
    Wide {
        place: usize,
    },
    // 12: a node's range and what a row or a reading leaves of it share nothing
    Conflict {
        place: usize,
    },
    // 13: a numerator, the denominator or the count of a point is not allowed
    Point {
        place: usize,
    },
    // 14: a buffer is too short
    Room,
}

// The cases are a closed list that is matched here and in its text, so that clauses see which it is.
impl Refusal {
    // A byte and no enum of its own: users see the number, and it is written into a record of readings.
    pub fn number(&self) -> u8
        ensures numbers_the_case { result ≡ number self.now }
    {
        match self {
            Refusal::File => 1,
            Refusal::Shape { .. } => 2,
            Refusal::Size { .. } => 3,
            Refusal::Node { .. } => 4,
            Refusal::Order { .. } => 5,
            Refusal::Crossed { .. } => 6,
            Refusal::Entry { .. } => 7,
            Refusal::Limit { .. } => 8,
            Refusal::Certificate { .. } => 9,
            Refusal::Dominance { .. } => 10,
            Refusal::Wide { .. } => 11,
            Refusal::Conflict { .. } => 12,
            Refusal::Point { .. } => 13,
            Refusal::Room => 14,
        }
    }

    // The value that follows the number; number 8 has two more.
    pub fn first_value(&self) -> usize
        ensures tells_the_place_or_part { result ≡ first_value self.now }
    {
        match self {
            Refusal::File | Refusal::Room => 0,
            Refusal::Limit { part, .. } => *part,
            Refusal::Shape { place }
            | Refusal::Size { place }
            | Refusal::Node { place }
            | Refusal::Order { place }
            | Refusal::Crossed { place }
            | Refusal::Entry { place }
            | Refusal::Certificate { place }
            | Refusal::Dominance { place }
            | Refusal::Wide { place }
            | Refusal::Conflict { place }
            | Refusal::Point { place } => *place,
        }
    }
}

impl fmt::Display for Refusal {
    ghost output = { λ r. Some (written r) };

    fn fmt<W: fmt::Write>(&self, f: &mut fmt::Formatter<W>) -> fmt::Result {
        let number = self.number();
        let first = self.first_value();
        match self {
            Refusal::Limit { row, column, .. } => write!(
                f,
                "refused {number} {first} {row} {column}"
            ),
            _ => write!(f, "refused {number} {first}"),
        }
    }
}

impl Error for Refusal {}

// A refusal, and the value that the refused call was given. It is shown as its refusal.
#[derive(Drop)]
#[derive_where(Debug)]
pub struct Returned<T> {
    pub refusal: Refusal,
    #[derive_where(skip)]
    pub value: T,
}

impl<T> fmt::Display for Returned<T> {
    ghost output = { λ e. Some (written e.refusal) };

    fn fmt<W: fmt::Write>(&self, f: &mut fmt::Formatter<W>) -> fmt::Result {
        self.refusal.fmt(f)
    }
}

impl<T: Drop> Error for Returned<T> {}

// For a caller that needs nothing back.
impl<T: Drop> From<Returned<T>> for Refusal {
    ghost from_gives = { λ e r. r ≡ e.refusal };

    fn from(e: Returned<T>) -> Refusal {
        e.refusal
    }
}
