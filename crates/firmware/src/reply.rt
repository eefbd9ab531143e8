ghost use Rattle.std.specs.Prelude.{◌≡◌};
ghost use Rattle.firmware.specs.Replies.{yes_or_no, count, no_value, refused, reply};

use balance::refusal::Refusal;

// What a C function answers: 0 and a value, or the number of the refusal and the values that go with it.
#[derive(Clone, Copy)]
#[repr(C)]
pub struct Reply {
    pub refusal: u8,
    pub place: usize,
    pub part: usize,
    pub row: usize,
    pub column: usize,
    pub value: usize,
}

// Fields of C: it has no enum that carries values.
pub(crate) const ACCEPTED: Reply = Reply {
    refusal: 0,
    place: 0,
    part: 0,
    row: 0,
    column: 0,
    value: 0,
};

impl From<Refusal> for Reply {
    ghost from_gives = { λ r a. a ≡ refused r };

    fn from(refusal: Refusal) -> Reply {
        match refusal {
            Refusal::Limit { part, row, column } => Reply {
                refusal: refusal.number(),
                part,
                row,
                column,
                ..ACCEPTED
            },
            _ => Reply {
                refusal: refusal.number(),
                place: refusal.first_value(),
                ..ACCEPTED
            },
        }
    }
}

impl From<Result<usize, Refusal>> for Reply {
    ghost from_gives = { λ r a. a ≡ reply count r };

    fn from(answer: Result<usize, Refusal>) -> Reply {
        match answer {
            Ok(value) => Reply { value, ..ACCEPTED },
            Err(refusal) => Reply::from(refusal),
        }
    }
}

impl From<Result<bool, Refusal>> for Reply {
    ghost from_gives = { λ r a. a ≡ reply yes_or_no r };

    fn from(answer: Result<bool, Refusal>) -> Reply {
        Reply::from(answer.map(usize::from))
    }
}

impl From<Result<(), Refusal>> for Reply {
    ghost from_gives = { λ r a. a ≡ reply no_value r };

    fn from(answer: Result<(), Refusal>) -> Reply {
        Reply::from(answer.map(|()| 0))
    }
}
