// The part number of each system: as a caller over any system sees it, and in a refusal 8 of its own.
use super::made::{heat, limit, outcome, range};
use balance::refusal::Refusal;
use balance::system::System;
use balance::table::{Cells, Table};
use chain::Chain;
use std::test::Fail;
use systems::network::Network;
use systems::renumbering::Renumbering;
use systems::row_scaler::RowScaler;

// No right side goes so far.
const BEYOND: i64 = 4_398_046_511_105;

fn part<S: System>(_system: &S) -> usize {
    S::PART
}

#[test]
fn tables_are_part_1(rt: HostRuntime) -> Result<(), Fail> {
    let cells = [1, BEYOND];
    let table = Table::new(1, cells.to_vec(rt.alloc())?)?;
    assert_eq!(rt; part(&table), 1);
    assert_eq!(rt; table.right_side(1), Err(limit(1, 1, 2)));
    let lent = Cells::new(1, &cells)?;
    assert_eq!(rt; part(&lent), 1);
    assert_eq!(rt; lent.right_side(1), Err(limit(1, 1, 2)));
    Ok(())
}

#[test]
fn networks_are_part_2(rt: HostRuntime) -> Result<(), Fail> {
    let heap = rt.alloc();
    let network = Network::new(1, [heat(1, 0, BEYOND - 1), heat(1, 0, 1)].to_vec(heap)?)?;
    assert_eq!(rt; part(&network), 2);
    assert_eq!(rt; network.right_side(1), Err(limit(2, 1, 2)));
    let refused = Network::new(1, [heat(1, 0, BEYOND)].to_vec(heap)?);
    assert_eq!(rt; outcome(refused), Err(limit(2, 1, 0)));
    Ok(())
}

#[test]
fn row_scalers_are_part_3(rt: HostRuntime) -> Result<(), Fail> {
    let heap = rt.alloc();
    let scaler = RowScaler::new(
        Table::new(1, [1, BEYOND - 1].to_vec(heap)?)?,
        [2].to_vec(heap)?,
    )?;
    assert_eq!(rt; part(&scaler), 3);
    assert_eq!(rt; scaler.right_side(1), Err(limit(3, 1, 2)));
    Ok(())
}

// It has no refusal 8 of its own.
#[test]
fn renumberings_are_part_4(rt: HostRuntime) -> Result<(), Fail> {
    let heap = rt.alloc();
    let renumbering = Renumbering::new(
        Table::new(1, [1, BEYOND].to_vec(heap)?)?,
        [1].to_vec(heap)?,
    )?;
    assert_eq!(rt; part(&renumbering), 4);
    assert_eq!(rt; renumbering.right_side(1), Err(limit(1, 1, 2)));
    Ok(())
}

#[test]
fn chains_are_part_100(rt: HostRuntime) -> Result<(), Refusal> {
    let widest = range(0, 1_048_576);
    let one = range(1, 1);
    let chain = Chain::new(2, widest, one, one)?;
    assert_eq!(rt; part(&chain), 100);
    assert_eq!(rt; chain.coefficient(1, 1), Err(limit(100, 1, 1)));
    let refused = Chain::new(2, widest, one, range(0, BEYOND));
    assert_eq!(rt; outcome(refused), Err(limit(100, 3, 0)));
    Ok(())
}
