ghost use Rattle.std.specs.Prelude.{◌≡◌, Some};
ghost use Rattle.balance.specs.Ranges.{range};
ghost use Rattle.roast.specs.Texts.{reading_text, call_text, answer_text};

use balance::range::Range;
use balance::refusal::Refusal;
use std::fmt;

/// One reading of a list: a node and two ends in millidegrees, and 0 or the number of its refusal once it was taken.
///
/// It is four numbers in place, as a recorder sends them; crossed ends are refused by the call that takes it.
#[derive(Clone, Copy, PartialEq, Eq, Debug)]
pub struct Reading {
    pub node: usize,
    pub lower: i64,
    pub upper: i64,
    pub answer: u8,
}

impl Reading {
    /// One that was not taken yet.
    pub fn new(node: usize, lower: i64, upper: i64) -> Reading
        ensures is_unanswered { result ≡ record { node = node; lower = lower; upper = upper; answer = 0 } }
    {
        Reading {
            node,
            lower,
            upper,
            answer: 0,
        }
    }
}

/// A call on a roast.
#[derive(PartialEq, Eq, Debug, Drop)]
pub enum Call {
    RowStep { node: usize },
    Round,
    Reading { node: usize, lower: i64, upper: i64 },
    Readings { records: Vec<Reading> },
    AtRest,
    Ends { node: usize },
}

/// What a call answers.
#[derive(Clone, Copy, PartialEq, Eq, Debug)]
pub enum Answer {
    // A row step or a reading: whether it changed the node's range.
    Changed(bool),
    // A round: how many of its row steps changed a range.
    Changes(usize),
    // A list of readings answers nothing; its records are written.
    Done,
    // Whether the box is at rest.
    AtRest(bool),
    // A node's two ends.
    Ends((i64, i64)),
}

/// A call with its answer or refusal, once it was made.
#[derive(PartialEq, Eq, Debug, Drop)]
pub struct Entry {
    pub call: Call,
    pub answer: Option<Result<Answer, Refusal>>,
}

impl From<Reading> for Range {
    ghost from_gives = { λ r x. x ≡ range r.lower r.upper };

    fn from(reading: Reading) -> Range {
        Range {
            lower: reading.lower,
            upper: reading.upper,
        }
    }
}

// A record is shown by what was read.
impl fmt::Display for Reading {
    ghost output = { λ r. Some (reading_text r.node r.lower r.upper) };

    fn fmt<W: fmt::Write>(&self, f: &mut fmt::Formatter<W>) -> fmt::Result {
        let range = Range::from(*self);
        write!(f, "reading {range} at node {}", self.node)
    }
}

impl fmt::Display for Call {
    ghost output = { λ c. Some (call_text c) };

    fn fmt<W: fmt::Write>(&self, f: &mut fmt::Formatter<W>) -> fmt::Result {
        match self {
            Call::RowStep { node } => write!(f, "row step {node}"),
            Call::Round => f.write_str("round"),
            Call::Reading { node, lower, upper } => Reading::new(*node, *lower, *upper).fmt(f),
            Call::Readings { .. } => f.write_str("readings list"),
            Call::AtRest => f.write_str("at rest"),
            Call::Ends { node } => write!(f, "ends of node {node}"),
        }
    }
}

impl fmt::Display for Answer {
    ghost output = { λ a. Some (answer_text a) };

    fn fmt<W: fmt::Write>(&self, f: &mut fmt::Formatter<W>) -> fmt::Result {
        match self {
            Answer::Changed(true) => f.write_str("changed"),
            Answer::Changed(false) => f.write_str("unchanged"),
            Answer::Changes(count) => write!(f, "{count} changed"),
            Answer::Done => f.write_str("done"),
            Answer::AtRest(true) => f.write_str("yes"),
            Answer::AtRest(false) => f.write_str("no"),
            Answer::Ends(ends) => Range::from(*ends).fmt(f),
        }
    }
}
