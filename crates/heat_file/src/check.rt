ghost use Rattle.std.specs.Prelude.{◌≡◌, IfOk};
ghost use Rattle.heat_file.specs.Checks.{key, before, is_size, sized, inside, ordered, size_after, entry_check, Few};

use super::line::Entry;
use balance::range::Range;
use balance::refusal::Refusal;

// What the lines are sorted by: the sort, then row and column.
type Key = (u8, i64, i64);

// What the lines so far leave for the next one to be checked by: the size of the file, and the last key.
#[derive(Clone, Copy)]
pub(crate) struct Standing {
    pub(crate) size: i64,
    pub(crate) last: Key,
}

// A size lies in 1 to 32.
const SIZES: Range = Range {
    lower: 1,
    upper: 32,
};

impl Standing {
    // Before the first line: no size, and a key that is before all others.
    pub(crate) const START: Standing = Standing {
        size: 0,
        last: (0, 0, 0),
    };

    // What an entry leaves, or its refusal by the lowest number that applies. The first entry is to be a size.
    pub(crate) fn check(self, entry: Entry, place: usize) -> Result<Standing, Refusal>
        requires few_nodes { Few self.size }
        ensures is { result ≡ entry_check self place entry }
        ensures few_nodes { IfOk result (λ s. Few s.size) }
    {
        if self.last.0 == 0 && !entry.is_size() {
            Err(Refusal::Shape { place })
        } else if !entry.has_allowed_size() {
            Err(Refusal::Size { place })
        } else if !entry.has_nodes_within(self.size) {
            Err(Refusal::Node { place })
        } else if !is_before(self.last, entry.key()) {
            Err(Refusal::Order { place })
        } else if !entry.has_ordered_ends() {
            Err(Refusal::Crossed { place })
        } else {
            Ok(Standing {
                size: entry.size_or(self.size),
                last: entry.key(),
            })
        }
    }
}

fn is_before(first: Key, second: Key) -> bool
    ensures { result ≡ before first second }
{
    first < second
}

impl Entry {
    fn key(self) -> Key
        ensures { result ≡ key self }
    {
        match self {
            Entry::Size(_) => (1, 0, 0),
            Entry::Coefficient { row, column, .. } => (2, row, column),
            Entry::RightSide { row, .. } => (3, row, 0),
            Entry::Weight { node, .. } => (4, node, 0),
        }
    }

    fn is_size(self) -> bool
        ensures { result ≡ is_size self }
    {
        matches!(self, Entry::Size(_))
    }

    fn has_allowed_size(self) -> bool
        ensures { result ≡ sized self }
    {
        match self {
            Entry::Size(size) => SIZES.contains(size),
            _ => true,
        }
    }

    fn has_nodes_within(self, size: i64) -> bool
        ensures { result ≡ inside size self }
    {
        let nodes = Range {
            lower: 1,
            upper: size,
        };
        match self {
            Entry::Size(_) => true,
            Entry::Coefficient { row, column, .. } => nodes.contains(row) && nodes.contains(column),
            Entry::RightSide { row, .. } => nodes.contains(row),
            Entry::Weight { node, .. } => nodes.contains(node),
        }
    }

    fn has_ordered_ends(self) -> bool
        ensures { result ≡ ordered self }
    {
        match self {
            Entry::Coefficient { range, .. } | Entry::RightSide { range, .. } => {
                range.is_in_order()
            }
            _ => true,
        }
    }

    // The size that the entry gives the file, or the one given before.
    fn size_or(self, size: i64) -> i64
        ensures { result ≡ size_after size self }
    {
        match self {
            Entry::Size(given) => given,
            _ => size,
        }
    }
}
