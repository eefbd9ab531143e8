ghost use Rattle.std.specs.Prelude.{◌≡◌};
ghost use Rattle.systems.specs.Networks.{names, names_nodes, ends_in_order, ends_within, adds, amount_at};

use balance::range::Range;
use balance::system::{RIGHT_SIDES, is_node};

// Conductances lie in 0 to 2^20.
const CONDUCTANCES: Range = Range {
    lower: 0,
    upper: 1_048_576,
};

// Outside temperatures lie within ±2^30.
const TEMPERATURES: Range = Range {
    lower: -1_073_741_824,
    upper: 1_073_741_824,
};

// One record of a network. Conductances are in mW/K, temperatures in millidegrees Celsius, heats in µW.
// The sorts are a closed list, so each question matches them: closures or `dyn` would hide from clauses which sort a record is.
#[derive(Clone, Copy, PartialEq, Eq, Debug)]
pub enum Record {
    // heat flows between two nodes, by the difference of their temperatures
    Link {
        first: usize,
        second: usize,
        conductance: Range,
    },
    // heat flows between a node and the outside
    Outside {
        node: usize,
        conductance: Range,
        temperature: Range,
    },
    // heat is put into a node
    Heat {
        node: usize,
        heat: Range,
    },
}

impl Record {
    // Whether it names this node. All sorts are compared alike, since every place of a network asks this of every record.
    pub(crate) fn names(&self, number: usize) -> bool
        ensures { result ≡ names number self.now }
    {
        let (first, second) = match *self {
            Record::Link { first, second, .. } => (first, second),
            Record::Outside { node, .. } | Record::Heat { node, .. } => (node, node),
        };
        first == number || second == number
    }

    // Whether the nodes that it names are among 1 to n.
    pub(crate) fn names_nodes(&self, size: usize) -> bool
        ensures { result ≡ names_nodes size self.now }
    {
        match *self {
            Record::Link { first, second, .. } => is_node(size, first) && is_node(size, second),
            Record::Outside { node, .. } | Record::Heat { node, .. } => is_node(size, node),
        }
    }

    // Whether no lower end is above its upper end.
    pub(crate) fn is_in_order(&self) -> bool
        ensures { result ≡ ends_in_order self.now }
    {
        match *self {
            Record::Link { conductance, .. } => conductance.is_in_order(),
            Record::Outside {
                conductance,
                temperature,
                ..
            } => conductance.is_in_order() && temperature.is_in_order(),
            Record::Heat { heat, .. } => heat.is_in_order(),
        }
    }

    // Whether no end lies beyond the limits of its quantity; a heat is part of a right side and has its limits.
    pub(crate) fn is_within_limits(&self) -> bool
        ensures { result ≡ ends_within self.now }
    {
        match *self {
            Record::Link { conductance, .. } => conductance.is_within(CONDUCTANCES),
            Record::Outside {
                conductance,
                temperature,
                ..
            } => conductance.is_within(CONDUCTANCES) && temperature.is_within(TEMPERATURES),
            Record::Heat { heat, .. } => heat.is_within(RIGHT_SIDES),
        }
    }
}

// A range that a record adds at one place; column n + 1 is the right side.
#[derive(Clone, Copy)]
pub(crate) struct Addition {
    pub(crate) row: usize,
    pub(crate) column: usize,
    pub(crate) amount: Range,
}

impl Addition {
    pub(crate) fn new(row: usize, column: usize, amount: Range) -> Addition
        ensures { result ≡ adds row column amount }
    {
        Addition {
            row,
            column,
            amount,
        }
    }

    // The amount, where it goes to this place, and nothing elsewhere.
    pub(crate) fn amount_at(self, row: usize, column: usize) -> Range
        ensures { result ≡ amount_at row column self }
    {
        if self.row == row && self.column == column {
            self.amount
        } else {
            Range::ZERO
        }
    }
}
