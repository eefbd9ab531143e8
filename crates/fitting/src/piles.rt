// One drum as a network of links and as a table, and layers over the network. At rest the ranges agree node by node.
use super::tell;
use balance::range::Range;
use balance::refusal::Refusal;
use balance::system::System;
use balance::table::Table;
use roast::roast::Roast;
use std::alloc::Global;
use systems::network::Network;
use systems::record::Record;
use systems::renumbering::Renumbering;
use systems::row_scaler::RowScaler;

const OUTSIDE: Range = Range {
    lower: 20_000,
    upper: 25_000,
};

// Three nodes: the drum wall, the air and the beans. All three lose heat to the outside, and the wall is heated.
const RECORDS: [Record; 7] = [
    Record::Link {
        first: 1,
        second: 2,
        conductance: Range {
            lower: 400,
            upper: 420,
        },
    },
    Record::Link {
        first: 2,
        second: 3,
        conductance: Range {
            lower: 300,
            upper: 315,
        },
    },
    Record::Link {
        first: 1,
        second: 3,
        conductance: Range {
            lower: 150,
            upper: 160,
        },
    },
    Record::Outside {
        node: 1,
        conductance: Range {
            lower: 500,
            upper: 520,
        },
        temperature: OUTSIDE,
    },
    Record::Outside {
        node: 2,
        conductance: Range {
            lower: 350,
            upper: 360,
        },
        temperature: OUTSIDE,
    },
    Record::Outside {
        node: 3,
        conductance: Range {
            lower: 200,
            upper: 210,
        },
        temperature: OUTSIDE,
    },
    Record::Heat {
        node: 1,
        heat: Range {
            lower: 130_000_000,
            upper: 134_000_000,
        },
    },
];

// The same drum, its sums made by hand.
const CELLS: [Range; 12] = [
    Range {
        lower: 1_050,
        upper: 1_100,
    },
    Range {
        lower: -420,
        upper: -400,
    },
    Range {
        lower: -160,
        upper: -150,
    },
    Range {
        lower: 140_000_000,
        upper: 147_000_000,
    },
    Range {
        lower: -420,
        upper: -400,
    },
    Range {
        lower: 1_050,
        upper: 1_095,
    },
    Range {
        lower: -315,
        upper: -300,
    },
    Range {
        lower: 7_000_000,
        upper: 9_000_000,
    },
    Range {
        lower: -160,
        upper: -150,
    },
    Range {
        lower: -315,
        upper: -300,
    },
    Range {
        lower: 650,
        upper: 685,
    },
    Range {
        lower: 4_000_000,
        upper: 5_250_000,
    },
];

// A certificate that passes for the drum.
const ONES: [i64; 3] = [1, 1, 1];

fn drum(heap: Global) -> anyhow::Result<Network> {
    Ok(Network::new(3, RECORDS.to_vec(heap)?)?)
}

// Opens a roast of three nodes, makes rounds until one changes nothing, 64 at most, and asks for the ends.
pub fn settled<S: System + Drop>(system: S, certificate: [i64; 3]) -> Result<[Range; 3], Refusal> {
    let mut roast = Roast::new(system);
    roast.open(&certificate)?;
    for _ in 0..64 {
        if roast.round()? == 0 {
            break;
        }
    }
    Ok([
        roast.ends(1)?.into(),
        roast.ends(2)?.into(),
        roast.ends(3)?.into(),
    ])
}

// Node i of a drum beside node p(i) of the table.
fn compare(
    rt: &HostRuntime,
    drum: [Range; 3],
    order: [usize; 3],
    keyed_in: [Range; 3],
) -> anyhow::Result<()> {
    for (i, (range, other)) in drum.iter().zip(order.iter()).enumerate() {
        print!(rt; "  node {}: {range}; node {other} of the table: ", i + 1)?;
        match keyed_in.get(other.saturating_sub(1)) {
            Some(same) if range == same => println!(rt; "{same}, they agree")?,
            Some(same) => println!(rt; "{same}, they differ")?,
            None => println!(rt; "none")?,
        }
    }
    Ok(())
}

pub fn run(rt: &HostRuntime) -> anyhow::Result<()> {
    let heap = rt.alloc();
    let keyed_in = settled(Table::new(3, CELLS.to_vec(heap)?)?, ONES)?;
    println!(rt; "a drum of three nodes as a network of links, beside its table")?;
    compare(rt, settled(drum(heap)?, ONES)?, [1, 2, 3], keyed_in)?;
    println!(rt; "the network under a row scaler and a renumbering (3, 1, 2)")?;
    let scaler = RowScaler::new(drum(heap)?, [2, -3, 5].to_vec(heap)?)?;
    let pile = Renumbering::new(scaler, [3, 1, 2].to_vec(heap)?)?;
    compare(rt, settled(pile, ONES)?, [3, 1, 2], keyed_in)?;
    three_high(rt, keyed_in)?;
    slips(rt)
}

// Three layers over the network: renumbered, scaled, and renumbered back.
fn three_high(rt: &HostRuntime, keyed_in: [Range; 3]) -> anyhow::Result<()> {
    let heap = rt.alloc();
    println!(rt; "a pile three high: renumbered, scaled, renumbered back")?;
    let there = Renumbering::new(drum(heap)?, [3, 1, 2].to_vec(heap)?)?;
    let scaler = RowScaler::new(there, [-1, 7, -900].to_vec(heap)?)?;
    let back = Renumbering::new(scaler, [2, 3, 1].to_vec(heap)?)?;
    compare(rt, settled(back, ONES)?, [1, 2, 3], keyed_in)
}

fn slips(rt: &HostRuntime) -> anyhow::Result<()> {
    let heap = rt.alloc();
    println!(rt; "slips in networks and layers")?;
    let made = Network::new(2, RECORDS.to_vec(heap)?);
    tell(rt, "the records over two nodes", made)?;
    let made = RowScaler::new(drum(heap)?, [2, 0, 5].to_vec(heap)?);
    tell(rt, "the factors 2, 0, 5", made)?;
    let made = Renumbering::new(drum(heap)?, [3, 1, 3].to_vec(heap)?);
    tell(rt, "the order 3, 1, 3", made)?;
    let large = RowScaler::new(drum(heap)?, [1, 1000, 1].to_vec(heap)?)?;
    tell(
        rt,
        "the coefficient of row 2, column 2 times 1000",
        large.coefficient(2, 2),
    )
}
