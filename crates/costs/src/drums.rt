// Drums that are made by a rule, as a network, as a pile of layers, and as the table that tells the same.
use balance::range::Range;
use balance::system::System;
use balance::table::Table;
use std::alloc::{AllocError, Global};
use systems::network::Network;
use systems::record::Record;
use systems::renumbering::Renumbering;
use systems::row_scaler::RowScaler;

// Three layers over a table.
pub(crate) type Pile = Renumbering<RowScaler<Renumbering<Table<Range>>>>;

// A node is linked to the six behind it, where there are so many: 32 nodes have 256 records.
const REACH: usize = 6;

fn link(size: usize, node: usize, distance: usize) -> Record {
    let second = node.wrapping_add(distance);
    let strength = ((node % 7) * 10 + distance % 7) as i64;
    Record::Link {
        first: node,
        second: if second <= size {
            second
        } else {
            second.wrapping_sub(size)
        },
        conductance: Range {
            lower: 300 + strength,
            upper: 304 + strength,
        },
    }
}

fn outside(node: usize) -> Record {
    let strength = (node % 5) as i64;
    Record::Outside {
        node,
        conductance: Range {
            lower: 900 + strength,
            upper: 920 + strength,
        },
        temperature: Range {
            lower: 20_000,
            upper: 25_000,
        },
    }
}

// About what holds a node at 100 °C.
fn heat(node: usize) -> Record {
    let more = 10_000 * (node % 3) as i64;
    Record::Heat {
        node,
        heat: Range {
            lower: 66_000_000 + more,
            upper: 70_000_000 + more,
        },
    }
}

fn records(heap: Global, size: usize) -> Result<Vec<Record>, AllocError> {
    let mut records = Vec::new(heap);
    for node in 1..=size {
        records.push(outside(node))?;
        records.push(heat(node))?;
        for distance in 1..size.min(REACH + 1) {
            records.push(link(size, node, distance))?;
        }
    }
    Ok(records)
}

pub(crate) fn network(heap: Global, size: usize) -> anyhow::Result<Network> {
    Ok(Network::new(size, records(heap, size)?)?)
}

// The table that tells at each place what a system tells.
pub(crate) fn table_of<S: System>(heap: Global, system: &S) -> anyhow::Result<Table<Range>> {
    let size = system.size();
    let mut cells: Vec<Range> = Vec::new(heap);
    for row in 1..=size {
        for column in 1..=size {
            cells.push(system.coefficient(row, column)?.into())?;
        }
        cells.push(system.right_side(row)?.into())?;
    }
    Ok(Table::new(size, cells)?)
}

// 2, 3, .. n, 1
fn shifted(heap: Global, size: usize) -> Result<Vec<usize>, AllocError> {
    let mut order = Vec::new(heap);
    for node in 2..=size {
        order.push(node)?;
    }
    order.push(1)?;
    Ok(order)
}

// 1, -2, 3, 1, -2, ..
fn factors(heap: Global, size: usize) -> Result<Vec<i64>, AllocError> {
    let mut factors = Vec::new(heap);
    for row in 0..size {
        factors.push([1, -2, 3][row % 3])?;
    }
    Ok(factors)
}

// A network's table, renumbered, scaled and renumbered again.
pub(crate) fn pile(heap: Global, size: usize) -> anyhow::Result<Pile> {
    let table = table_of(heap, &network(heap, size)?)?;
    let below = Renumbering::new(table, shifted(heap, size)?)?;
    let scaler = RowScaler::new(below, factors(heap, size)?)?;
    Ok(Renumbering::new(scaler, shifted(heap, size)?)?)
}
