// Random networks: links, losses to the outside, and heats that make a planted point solve some member. What each record adds is counted here.
use super::drum::{Drum, multiplied};
use super::random::Random;
use super::report::Difference;
use super::tables::{Shape, around, empty, from_end, value};
use balance::range::Range;
use std::alloc::Global;
use systems::record::Record;

fn add(drum: &mut Drum, row: usize, column: usize, more: Range) {
    let old = drum.range(row, column);
    let sum = Range {
        lower: old.lower.wrapping_add(more.lower),
        upper: old.upper.wrapping_add(more.upper),
    };
    drum.put(row, column, sum);
}

fn link(random: &mut Random, shape: Shape, drum: &mut Drum) -> Record {
    let lower = random.between(0, shape.reach);
    let conductance = from_end(random, lower, shape.width);
    let negated = multiplied(conductance, -1);
    let first = random.below(shape.size);
    let second = random.below(shape.size);
    add(drum, first, first, conductance);
    add(drum, first, second, negated);
    add(drum, second, first, negated);
    add(drum, second, second, conductance);
    Record::Link {
        first: first.wrapping_add(1),
        second: second.wrapping_add(1),
        conductance,
    }
}

fn outside(random: &mut Random, shape: Shape, drum: &mut Drum, row: usize) -> Record {
    let lower = random.between(1, shape.extra);
    let conductance = from_end(random, lower, shape.width);
    let cold = random.between(shape.warmth.wrapping_neg(), shape.warmth);
    let temperature = from_end(random, cold, shape.slack);
    add(drum, row, row, conductance);
    // No conductance is below 0.
    let heat = Range {
        lower: multiplied(conductance, temperature.lower).lower,
        upper: multiplied(conductance, temperature.upper).upper,
    };
    add(drum, row, shape.size, heat);
    Record::Outside {
        node: row.wrapping_add(1),
        conductance,
        temperature,
    }
}

// The heat that a node needs for its row to hold at the planted point.
fn heat(random: &mut Random, shape: Shape, drum: &mut Drum, row: usize) -> Record {
    let side = drum.range(row, shape.size);
    let given = random.between(side.lower, side.upper);
    let needed = value(random, drum, row).wrapping_sub(given);
    let heat = around(random, needed, shape.slack);
    add(drum, row, shape.size, heat);
    Record::Heat {
        node: row.wrapping_add(1),
        heat,
    }
}

// Records, and the drum that they add up to.
pub(crate) fn network(
    heap: Global,
    random: &mut Random,
    shape: Shape,
) -> Result<(Vec<Record>, Drum), Difference> {
    let mut drum = empty(random, shape);
    let mut records = Vec::new(heap);
    for _ in 0..random.below(shape.size.wrapping_mul(2)) {
        records.push(link(random, shape, &mut drum))?;
    }
    for row in 0..shape.size {
        records.push(outside(random, shape, &mut drum, row))?;
        records.push(heat(random, shape, &mut drum, row))?;
    }
    Ok((records, drum))
}
