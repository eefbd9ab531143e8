// Factors and permutations, and what layers pass up.
use super::made::{RANGES, limit, outcome};
use balance::refusal::Refusal;
use balance::system::System;
use balance::table::Table;
use std::alloc::Global;
use std::test::Fail;
use systems::renumbering::Renumbering;
use systems::row_scaler::RowScaler;

// What the two-node drum is answered with under these factors. (The order below and the records of a network differ in the making that is called,
// and one helper for all would take it as a closure over lists of another kind: no shorter.)
fn scaler<const N: usize>(heap: Global, factors: [i64; N]) -> Result<Result<(), Refusal>, Fail> {
    let drum = Table::new(2, RANGES.to_vec(heap)?)?;
    Ok(outcome(RowScaler::new(drum, factors.to_vec(heap)?)))
}

// What the two-node drum is answered with under this order.
fn renumbering<const N: usize>(
    heap: Global,
    order: [usize; N],
) -> Result<Result<(), Refusal>, Fail> {
    let drum = Table::new(2, RANGES.to_vec(heap)?)?;
    Ok(outcome(Renumbering::new(drum, order.to_vec(heap)?)))
}

#[test]
fn factors_keep_their_limits(rt: HostRuntime) -> Result<(), Fail> {
    let heap = rt.alloc();
    assert_eq!(rt; scaler(heap, [1024, -1024])?, Ok(()));
    assert_eq!(rt; scaler(heap, [1025, 1])?, Err(Refusal::Entry { place: 1 }));
    assert_eq!(rt; scaler(heap, [1, -1025])?, Err(Refusal::Entry { place: 2 }));
    assert_eq!(rt; scaler(heap, [-1, 0])?, Err(Refusal::Entry { place: 2 }));
    assert_eq!(rt; scaler(heap, [0])?, Err(Refusal::Entry { place: 0 }));
    assert_eq!(rt;
        scaler(heap, [i64::MIN, 0])?,
        Err(Refusal::Entry { place: 1 })
    );
    Ok(())
}

#[test]
fn scaled_ends_keep_their_limits(rt: HostRuntime) -> Result<(), Fail> {
    let heap = rt.alloc();
    let cells = [1024, 1025, 4_294_967_296, 0, -1024, -4_294_967_297];
    let drum = RowScaler::new(
        Table::new(2, cells.to_vec(heap)?)?,
        [1024, -1024].to_vec(heap)?,
    )?;
    assert_eq!(rt; drum.coefficient(1, 1), Ok((1_048_576, 1_048_576)));
    assert_eq!(rt; drum.coefficient(1, 2), Err(limit(3, 1, 2)));
    assert_eq!(rt; drum.coefficient(2, 2), Ok((1_048_576, 1_048_576)));
    assert_eq!(rt;
        drum.right_side(1),
        Ok((4_398_046_511_104, 4_398_046_511_104))
    );
    assert_eq!(rt; drum.right_side(2), Err(limit(3, 2, 3)));
    Ok(())
}

#[test]
fn a_negative_factor_exchanges_the_ends(rt: HostRuntime) -> Result<(), Fail> {
    let heap = rt.alloc();
    let drum = RowScaler::new(Table::new(2, RANGES.to_vec(heap)?)?, [-2, 3].to_vec(heap)?)?;
    assert_eq!(rt; drum.size(), 2);
    assert_eq!(rt; drum.coefficient(1, 1), Ok((-10, -8)));
    assert_eq!(rt; drum.right_side(1), Ok((-20, -16)));
    assert_eq!(rt; drum.coefficient(2, 2), Ok((12, 15)));
    assert_eq!(rt; drum.coefficient(3, 1), Err(Refusal::Node { place: 3 }));
    assert_eq!(rt; drum.right_side(0), Err(Refusal::Node { place: 0 }));
    Ok(())
}

#[test]
fn only_permutations_are_taken(rt: HostRuntime) -> Result<(), Fail> {
    let heap = rt.alloc();
    assert_eq!(rt; renumbering(heap, [2, 1])?, Ok(()));
    assert_eq!(rt;
        renumbering(heap, [2, 1, 3])?,
        Err(Refusal::Entry { place: 0 })
    );
    assert_eq!(rt;
        renumbering(heap, [0, 0])?,
        Err(Refusal::Entry { place: 1 })
    );
    assert_eq!(rt;
        renumbering(heap, [2, 3])?,
        Err(Refusal::Entry { place: 2 })
    );
    assert_eq!(rt;
        renumbering(heap, [2, 2])?,
        Err(Refusal::Entry { place: 2 })
    );
    Ok(())
}

#[test]
fn refusals_from_below_are_passed_up_unaltered(rt: HostRuntime) -> Result<(), Fail> {
    let heap = rt.alloc();
    let cells = [1, 2, 3, 1_048_577, 5, 6];
    let drum = Renumbering::new(
        RowScaler::new(Table::new(2, cells.to_vec(heap)?)?, [7, -1].to_vec(heap)?)?,
        [2, 1].to_vec(heap)?,
    )?;
    assert_eq!(rt; drum.coefficient(1, 2), Err(limit(1, 2, 1)));
    assert_eq!(rt; drum.coefficient(2, 1), Ok((14, 14)));
    assert_eq!(rt; drum.coefficient(1, 1), Ok((-5, -5)));
    assert_eq!(rt; drum.right_side(1), Ok((-6, -6)));
    assert_eq!(rt; drum.coefficient(1, 3), Err(Refusal::Node { place: 3 }));
    assert_eq!(rt; drum.right_side(3), Err(Refusal::Node { place: 3 }));
    Ok(())
}

#[test]
fn a_refused_making_hands_the_system_back(rt: HostRuntime) -> Result<(), Fail> {
    let heap = rt.alloc();
    let drum = Table::new(1, [3, 4].to_vec(heap)?)?;
    let Err(returned) = RowScaler::new(drum, [0].to_vec(heap)?) else {
        return Err(Fail::new("made with the factor 0"));
    };
    let (drum, factors) = returned.value;
    assert_eq!(rt; factors.len(), 1);
    let Err(returned) = Renumbering::new(drum, [2].to_vec(heap)?) else {
        return Err(Fail::new("made with the entry 2"));
    };
    assert_eq!(rt; returned.value.0.right_side(1), Ok((4, 4)));
    Ok(())
}
