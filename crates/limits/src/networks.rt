// The records of a network, and the sums of its places.
use super::made::{heat, limit, link, outcome, outside, range};
use balance::refusal::Refusal;
use balance::system::System;
use std::alloc::Global;
use std::test::Fail;
use systems::network::Network;
use systems::record::Record;

const CONDUCTANCE: i64 = 1_048_576;

const TEMPERATURE: i64 = 1_073_741_824;

const HEAT: i64 = 4_398_046_511_104;

// What a network of two nodes with these records is answered with. (Factors and orders are made by other calls.)
fn made<const N: usize>(heap: Global, records: [Record; N]) -> Result<Result<(), Refusal>, Fail> {
    Ok(outcome(Network::new(2, records.to_vec(heap)?)))
}

#[test]
fn at_most_256_records_over_1_to_32_nodes(rt: HostRuntime) -> Result<(), Fail> {
    let heap = rt.alloc();
    let wrong = Err(Refusal::Size { place: 0 });
    let one = heat(1, 0, 1);
    assert_eq!(rt; outcome(Network::new(1, vec![in heap; one; 256]?)), Ok(()));
    assert_eq!(rt; outcome(Network::new(1, vec![in heap; one; 257]?)), wrong);
    assert_eq!(rt; outcome(Network::new(32, vec![in heap; one; 0]?)), Ok(()));
    assert_eq!(rt; outcome(Network::new(33, vec![in heap; one; 0]?)), wrong);
    assert_eq!(rt; outcome(Network::new(0, vec![in heap; one; 0]?)), wrong);
    Ok(())
}

#[test]
fn records_are_refused_in_order(rt: HostRuntime) -> Result<(), Fail> {
    let heap = rt.alloc();
    let good = heat(1, 0, 1);
    let node = Err(Refusal::Node { place: 2 });
    let crossed = Err(Refusal::Crossed { place: 2 });
    assert_eq!(rt; made(heap, [good, link(1, 3, 5, -4)])?, node);
    assert_eq!(rt; made(heap, [good, link(0, 1, 5, -4)])?, node);
    assert_eq!(rt; made(heap, [good, link(1, 2, 5, -4)])?, crossed);
    assert_eq!(rt;
        made(heap, [good, outside(1, range(1, 2), range(5, 4))])?,
        crossed
    );
    assert_eq!(rt; made(heap, [good, link(1, 2, -1, 4)])?, Err(limit(2, 2, 0)));
    assert_eq!(rt;
        made(heap, [heat(3, 0, 0), link(9, 9, 5, 4)])?,
        Err(Refusal::Node { place: 1 })
    );
    Ok(())
}

#[test]
fn records_keep_their_limits(rt: HostRuntime) -> Result<(), Fail> {
    let heap = rt.alloc();
    let beyond = Err(limit(2, 1, 0));
    assert_eq!(rt; made(heap, [link(1, 2, 0, CONDUCTANCE)])?, Ok(()));
    assert_eq!(rt; made(heap, [link(1, 2, 0, CONDUCTANCE + 1)])?, beyond);
    let one = range(1, 1);
    let widest = range(-TEMPERATURE, TEMPERATURE);
    assert_eq!(rt; made(heap, [outside(1, one, widest)])?, Ok(()));
    assert_eq!(rt;
        made(heap, [outside(1, one, range(0, TEMPERATURE + 1))])?,
        beyond
    );
    assert_eq!(rt;
        made(heap, [outside(1, one, range(-TEMPERATURE - 1, 0))])?,
        beyond
    );
    assert_eq!(rt; made(heap, [outside(1, range(-1, 1), widest)])?, beyond);
    assert_eq!(rt; made(heap, [heat(2, -HEAT, HEAT)])?, Ok(()));
    assert_eq!(rt; made(heap, [heat(2, -HEAT - 1, 0)])?, beyond);
    assert_eq!(rt; made(heap, [heat(2, 0, HEAT + 1)])?, beyond);
    Ok(())
}

#[test]
fn sums_of_coefficients_keep_the_limit(rt: HostRuntime) -> Result<(), Fail> {
    let heap = rt.alloc();
    let records = [
        link(1, 2, 3, CONDUCTANCE),
        outside(2, range(1, 1), range(0, 0)),
    ];
    let drum = Network::new(2, records.to_vec(heap)?)?;
    assert_eq!(rt; drum.coefficient(1, 1), Ok((3, CONDUCTANCE)));
    assert_eq!(rt; drum.coefficient(1, 2), Ok((-CONDUCTANCE, -3)));
    assert_eq!(rt; drum.coefficient(2, 1), Ok((-CONDUCTANCE, -3)));
    assert_eq!(rt; drum.coefficient(2, 2), Err(limit(2, 2, 2)));
    assert_eq!(rt; drum.coefficient(3, 9), Err(Refusal::Node { place: 3 }));
    assert_eq!(rt; drum.coefficient(2, 9), Err(Refusal::Node { place: 9 }));
    Ok(())
}

#[test]
fn negated_sums_keep_the_limit(rt: HostRuntime) -> Result<(), Fail> {
    let heap = rt.alloc();
    let records = [
        link(1, 2, 0, CONDUCTANCE),
        link(1, 2, 0, 1),
        link(1, 3, 0, CONDUCTANCE - 1),
        link(3, 1, 0, 1),
    ];
    let drum = Network::new(3, records.to_vec(heap)?)?;
    assert_eq!(rt; drum.coefficient(1, 2), Err(limit(2, 1, 2)));
    assert_eq!(rt; drum.coefficient(2, 1), Err(limit(2, 2, 1)));
    assert_eq!(rt; drum.coefficient(1, 3), Ok((-CONDUCTANCE, 0)));
    assert_eq!(rt; drum.coefficient(3, 3), Ok((0, CONDUCTANCE)));
    assert_eq!(rt; drum.coefficient(2, 2), Err(limit(2, 2, 2)));
    Ok(())
}

#[test]
fn sums_of_right_sides_keep_the_limit(rt: HostRuntime) -> Result<(), Fail> {
    let heap = rt.alloc();
    let records = [
        heat(1, -HEAT, HEAT - 1),
        heat(1, 0, 1),
        heat(2, -HEAT, HEAT - 1),
        heat(2, -1, 1),
    ];
    let drum = Network::new(2, records.to_vec(heap)?)?;
    assert_eq!(rt; drum.right_side(1), Ok((-HEAT, HEAT)));
    assert_eq!(rt; drum.right_side(2), Err(limit(2, 2, 3)));
    assert_eq!(rt; drum.right_side(0), Err(Refusal::Node { place: 0 }));
    Ok(())
}

#[test]
fn products_take_all_four_ends(rt: HostRuntime) -> Result<(), Fail> {
    let heap = rt.alloc();
    let records = [outside(1, range(2, 3), range(-10, 5)), link(2, 2, 3, 5)];
    let drum = Network::new(2, records.to_vec(heap)?)?;
    assert_eq!(rt; drum.right_side(1), Ok((-30, 15)));
    assert_eq!(rt; drum.coefficient(1, 1), Ok((2, 3)));
    assert_eq!(rt; drum.coefficient(2, 2), Ok((-4, 4)));
    assert_eq!(rt; drum.coefficient(1, 2), Ok((0, 0)));
    Ok(())
}
