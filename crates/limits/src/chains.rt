// The ranges of a chain, and the sums of its places.
use super::made::{limit, outcome, range};
use balance::range::Range;
use balance::refusal::Refusal;
use balance::system::System;
use chain::Chain;

const CONDUCTANCE: i64 = 1_048_576;

const HEAT: i64 = 4_398_046_511_104;

const ONE: Range = Range { lower: 1, upper: 1 };

// What a chain of two nodes with these ranges is answered with.
fn made(link: Range, outside: Range, heat: Range) -> Result<(), Refusal> {
    outcome(Chain::new(2, link, outside, heat))
}

#[test]
fn a_chain_has_1_to_32_nodes(rt: HostRuntime) {
    let wrong = Err(Refusal::Size { place: 0 });
    assert_eq!(rt; outcome(Chain::new(0, ONE, ONE, ONE)), wrong);
    assert_eq!(rt; outcome(Chain::new(1, ONE, ONE, ONE)), Ok(()));
    assert_eq!(rt; outcome(Chain::new(32, ONE, ONE, ONE)), Ok(()));
    assert_eq!(rt; outcome(Chain::new(33, ONE, ONE, ONE)), wrong);
}

#[test]
fn ranges_are_refused_in_order(rt: HostRuntime) {
    let crossed = range(5, 4);
    let widest = range(0, CONDUCTANCE);
    let beyond = range(0, CONDUCTANCE + 1);
    assert_eq!(rt; made(widest, widest, range(-HEAT, HEAT)), Ok(()));
    assert_eq!(rt;
        made(crossed, beyond, crossed),
        Err(Refusal::Crossed { place: 1 })
    );
    assert_eq!(rt; made(beyond, crossed, ONE), Err(limit(100, 1, 0)));
    assert_eq!(rt; made(range(-1, 1), ONE, ONE), Err(limit(100, 1, 0)));
    assert_eq!(rt; made(ONE, crossed, ONE), Err(Refusal::Crossed { place: 2 }));
    assert_eq!(rt; made(ONE, beyond, crossed), Err(limit(100, 2, 0)));
    assert_eq!(rt; made(ONE, ONE, crossed), Err(Refusal::Crossed { place: 3 }));
    assert_eq!(rt; made(ONE, ONE, range(0, HEAT + 1)), Err(limit(100, 3, 0)));
    assert_eq!(rt; made(ONE, ONE, range(-HEAT - 1, 0)), Err(limit(100, 3, 0)));
}

#[test]
fn places_have_their_sums(rt: HostRuntime) -> Result<(), Refusal> {
    let chain = Chain::new(3, range(4, 5), range(1, 2), range(7, 9))?;
    assert_eq!(rt; chain.coefficient(1, 1), Ok((5, 7)));
    assert_eq!(rt; chain.coefficient(2, 2), Ok((8, 10)));
    assert_eq!(rt; chain.coefficient(3, 3), Ok((4, 5)));
    assert_eq!(rt; chain.coefficient(3, 2), Ok((-5, -4)));
    assert_eq!(rt; chain.coefficient(1, 3), Ok((0, 0)));
    assert_eq!(rt; chain.right_side(1), Ok((0, 0)));
    assert_eq!(rt; chain.right_side(3), Ok((7, 9)));
    assert_eq!(rt; chain.right_side(4), Err(Refusal::Node { place: 4 }));
    assert_eq!(rt; chain.coefficient(4, 0), Err(Refusal::Node { place: 4 }));
    Ok(())
}

#[test]
fn sums_keep_the_limit_of_a_coefficient(rt: HostRuntime) -> Result<(), Refusal> {
    let half = CONDUCTANCE / 2;
    let most = Chain::new(3, range(0, half), range(0, half), ONE)?;
    assert_eq!(rt; most.coefficient(1, 1), Ok((0, CONDUCTANCE)));
    assert_eq!(rt; most.coefficient(2, 2), Ok((0, CONDUCTANCE)));
    let more = Chain::new(3, range(0, half), range(0, half + 1), ONE)?;
    assert_eq!(rt; more.coefficient(1, 1), Err(limit(100, 1, 1)));
    assert_eq!(rt; more.coefficient(2, 2), Ok((0, CONDUCTANCE)));
    Ok(())
}
