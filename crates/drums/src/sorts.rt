// The sorts of drums: as what they are keyed in.
use super::random::Random;
use super::records::network;
use super::report::{Difference, Report};
use super::tables::{any_shape, table};
use super::trial::compare;
use balance::table::Table;
use std::alloc::Global;
use systems::network::Network;
use systems::renumbering::Renumbering;
use systems::row_scaler::RowScaler;

fn ranges(heap: Global, random: &mut Random, report: &mut Report) -> Result<(), Difference> {
    let most = if random.below(8) == 0 { 32 } else { 6 };
    let shape = any_shape(random, most);
    let drum = table(random, shape);
    let cells = shape.size.wrapping_mul(shape.size.wrapping_add(1));
    let system = Table::new(shape.size, drum.ranges[..cells.min(1056)].to_vec(heap)?)?;
    compare(system, &drum, random, report);
    Ok(())
}

fn links(heap: Global, random: &mut Random, report: &mut Report) -> Result<(), Difference> {
    let shape = any_shape(random, 6);
    let (records, drum) = network(heap, random, shape)?;
    let system = Network::new(shape.size, records)?;
    compare(system, &drum, random, report);
    Ok(())
}

// The nodes from some node on, and then those before it.
fn turned(random: &mut Random, size: usize) -> [usize; 32] {
    let turn = random.below(size);
    let mut order = [0; 32];
    for (i, node) in order.iter_mut().enumerate() {
        let below = i.wrapping_add(turn).checked_rem(size).unwrap_or(0);
        *node = below.wrapping_add(1);
    }
    order
}

// Small factors other than 0.
fn small_factors(random: &mut Random) -> [i64; 32] {
    let mut factors = [1; 32];
    for factor in &mut factors {
        let size = random.between(1, 3);
        *factor = if random.below(2) == 0 {
            size
        } else {
            size.wrapping_neg()
        };
    }
    factors
}

// A network with its nodes in another order, and each row times a factor.
fn layers(heap: Global, random: &mut Random, report: &mut Report) -> Result<(), Difference> {
    let shape = any_shape(random, 4);
    let (records, drum) = network(heap, random, shape)?;
    let count = shape.size.min(32);
    let order = turned(random, shape.size)[..count].to_vec(heap)?;
    let factors = small_factors(random)[..count].to_vec(heap)?;
    let layered = drum.layered(&order, &factors);
    let renumbered = Renumbering::new(Network::new(shape.size, records)?, order)?;
    let system = RowScaler::new(renumbered, factors)?;
    compare(system, &layered, random, report);
    Ok(())
}

// One drum after the other, of each sort in turn.
pub(crate) fn drum(
    heap: Global,
    number: u64,
    random: &mut Random,
    report: &mut Report,
) -> Result<(), Difference> {
    match number % 3 {
        0 => ranges(heap, random, report),
        1 => links(heap, random, report),
        _ => layers(heap, random, report),
    }
}
