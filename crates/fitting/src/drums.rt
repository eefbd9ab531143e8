use balance::cell::Centred;
use balance::range::Range;

// The worked drum: two nodes, rows [4, 5] [-1, 1] | [8, 10] and [-1, 1] [4, 5] | [-10, -8]. `limits` writes it again, since a program exports
// nothing.
pub const RANGES: [Range; 6] = [
    Range { lower: 4, upper: 5 },
    Range {
        lower: -1,
        upper: 1,
    },
    Range {
        lower: 8,
        upper: 10,
    },
    Range {
        lower: -1,
        upper: 1,
    },
    Range { lower: 4, upper: 5 },
    Range {
        lower: -10,
        upper: -8,
    },
];

// The same rows doubled: a centre with a tolerance spans an even width, and a doubled row has the same solutions.
pub const CENTRES: [Centred; 6] = [
    Centred {
        centre: 9,
        tolerance: 1,
    },
    Centred {
        centre: 0,
        tolerance: 2,
    },
    Centred {
        centre: 18,
        tolerance: 2,
    },
    Centred {
        centre: 0,
        tolerance: 2,
    },
    Centred {
        centre: 9,
        tolerance: 1,
    },
    Centred {
        centre: -18,
        tolerance: 2,
    },
];
