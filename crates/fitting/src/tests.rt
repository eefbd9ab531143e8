// Every limit and every refusal of the library, at and just beyond its edge.
#[cfg(test)]
mod at_the_limits {
    use super::super::*;
    use balance::places::every_place_answers;
    use std::alloc::Global;
    use std::test::Fail;

    const LARGE: i64 = 4_398_046_511_104;

    // `limits` has the same: a crate of tests exports nothing.
    fn limit(part: usize, row: usize, column: usize) -> Refusal {
        Refusal::Limit { part, row, column }
    }

    // What a table with this many nodes and cells is answered with.
    fn outcome(heap: Global, nodes: usize, cells: usize) -> Result<Result<(), Refusal>, Fail> {
        Ok(
            Table::new(nodes, vec![in heap; 1i64; cells]?)
                .map(drop)
                .map_err(Refusal::from),
        )
    }

    #[test]
    fn refusals_are_shown_with_their_values(rt: HostRuntime) -> Result<(), Fail> {
        let heap = rt.alloc();
        assert_eq!(rt; Refusal::File.to_string(heap)?.as_str(), "refused 1 0");
        assert_eq!(rt;
            Refusal::Conflict { place: 32 }.to_string(heap)?.as_str(),
            "refused 12 32"
        );
        assert_eq!(rt;
            limit(3, 1, 33).to_string(heap)?.as_str(),
            "refused 8 3 1 33"
        );
        assert_eq!(rt; Refusal::Room.number(), 14);
        Ok(())
    }

    #[test]
    fn cells_are_made_within_their_limits(rt: HostRuntime) {
        assert_eq!(rt;
            Range::new(-3, -3),
            Ok(Range {
                lower: -3,
                upper: -3,
            })
        );
        assert_eq!(rt; Range::new(1, 0), Err(Refusal::Crossed { place: 0 }));
        assert_eq!(rt;
            Centred::new(-LARGE, LARGE),
            Ok(Centred {
                centre: -LARGE,
                tolerance: LARGE,
            })
        );
        assert_eq!(rt; Centred::new(LARGE + 1, 0), Err(limit(0, 0, 0)));
        assert_eq!(rt; Centred::new(-LARGE - 1, 0), Err(limit(0, 0, 0)));
        assert_eq!(rt; Centred::new(0, LARGE + 1), Err(limit(0, 0, 0)));
        assert_eq!(rt; Centred::new(0, -1), Err(limit(0, 0, 0)));
    }

    #[test]
    fn cells_that_no_making_allows_tell_zero(rt: HostRuntime) {
        assert_eq!(rt; Range { lower: 1, upper: 0 }.tell(), Range::ZERO);
        assert_eq!(rt;
            Centred {
                centre: i64::MAX,
                tolerance: 1,
            }
            .tell(),
            Range::ZERO
        );
        assert_eq!(rt;
            Centred {
                centre: 7,
                tolerance: -1,
            }
            .tell(),
            Range::ZERO
        );
        assert_eq!(rt;
            Centred {
                centre: 7,
                tolerance: 2,
            }
            .tell(),
            Range { lower: 5, upper: 9 }
        );
        assert_eq!(rt;
            (-9i64).tell(),
            Range {
                lower: -9,
                upper: -9,
            }
        );
    }

    #[test]
    fn tables_have_1_to_32_nodes_and_all_their_cells(rt: HostRuntime) -> Result<(), Fail> {
        let heap = rt.alloc();
        let wrong = Err(Refusal::Size { place: 0 });
        assert_eq!(rt; outcome(heap, 32, 1056)?, Ok(()));
        assert_eq!(rt; outcome(heap, 32, 1055)?, wrong);
        assert_eq!(rt; outcome(heap, 33, 1122)?, wrong);
        assert_eq!(rt; outcome(heap, 0, 0)?, wrong);
        Ok(())
    }

    #[test]
    fn places_keep_their_limits(rt: HostRuntime) -> Result<(), Fail> {
        let heap = rt.alloc();
        let within = Table::new(1, [1_048_576, LARGE].to_vec(heap)?)?;
        assert_eq!(rt; within.coefficient(1, 1), Ok((1_048_576, 1_048_576)));
        assert_eq!(rt; within.right_side(1), Ok((LARGE, LARGE)));
        assert_eq!(rt; every_place_answers(&within), Ok(()));
        let beyond = Table::new(1, [-1_048_577, -LARGE - 1].to_vec(heap)?)?;
        assert_eq!(rt; beyond.coefficient(1, 1), Err(limit(1, 1, 1)));
        assert_eq!(rt; beyond.right_side(1), Err(limit(1, 1, 2)));
        assert_eq!(rt; every_place_answers(&beyond), Err(limit(1, 1, 1)));
        assert_eq!(rt; beyond.coefficient(2, 0), Err(Refusal::Node { place: 2 }));
        assert_eq!(rt; beyond.coefficient(1, 0), Err(Refusal::Node { place: 0 }));
        assert_eq!(rt; beyond.right_side(2), Err(Refusal::Node { place: 2 }));
        Ok(())
    }

    #[test]
    fn a_refused_place_comes_before_a_refused_point(rt: HostRuntime) -> Result<(), Fail> {
        let heap = rt.alloc();
        let side = Table::new(1, [1, LARGE + 1].to_vec(heap)?)?;
        assert_eq!(rt; possible(&side, &[], 0), Err(limit(1, 1, 2)));
        let drum = Table::new(1, [1, 5].to_vec(heap)?)?;
        assert_eq!(rt; possible(&drum, &[], 1), Err(Refusal::Point { place: 0 }));
        assert_eq!(rt;
            possible(&drum, &[137_438_953_473], 0),
            Err(Refusal::Point { place: 0 })
        );
        assert_eq!(rt;
            possible(&drum, &[5], 1_048_577),
            Err(Refusal::Point { place: 0 })
        );
        assert_eq!(rt;
            possible(&drum, &[-137_438_953_473], 1),
            Err(Refusal::Point { place: 1 })
        );
        assert_eq!(rt; possible(&drum, &[5_242_880], 1_048_576), Ok(true));
        Ok(())
    }

    // The largest sums that can be asked for: 32 times 2^20 × 2^37 against 2^20 × 2^42.
    #[test]
    fn the_largest_point_touches_the_largest_right_side(rt: HostRuntime) -> Result<(), Fail> {
        let heap = rt.alloc();
        let mut cells = vec![in heap; 1_048_576i64; 1056]?;
        // By row: the last of its 33 cells is the right side.
        for row in cells.chunks_mut(33) {
            if let Some(side) = row.last_mut() {
                *side = LARGE;
            }
        }
        let drum = Table::new(32, cells)?;
        assert_eq!(rt;
            possible(&drum, &[137_438_953_472; 32], 1_048_576),
            Ok(true)
        );
        assert_eq!(rt;
            possible(&drum, &[-137_438_953_472; 32], 1_048_576),
            Ok(false)
        );
        Ok(())
    }
}

// The limits of opening and of the calls of a roast.
#[cfg(test)]
mod roasting {
    use super::super::*;
    use roast::call::Reading;
    use roast::roast::Roast;
    use std::alloc::Global;
    use std::test::Fail;

    const WIDEST: i64 = 1_073_741_824;

    // One node with a coefficient and a right side, opened with u = 1.
    fn open_one(
        heap: Global,
        coefficient: i64,
        side: i64,
    ) -> Result<(Result<(), Refusal>, Result<(i64, i64), Refusal>), Fail> {
        let mut roast = Roast::new(Table::new(1, [coefficient, side].to_vec(heap)?)?);
        let opened = roast.open(&[1]);
        Ok((opened, roast.ends(1)))
    }

    #[test]
    fn first_ends_keep_their_limit(rt: HostRuntime) -> Result<(), Fail> {
        let heap = rt.alloc();
        assert!(rt; open_one(heap, 1, WIDEST)? == (Ok(()), Ok((-WIDEST, WIDEST))));
        assert!(rt;
            open_one(heap, 1, WIDEST + 1)?
                == (
                    Err(Refusal::Wide { place: 1 }),
                    Err(Refusal::Node { place: 1 }),
                )
        );
        assert!(rt; open_one(heap, 1_048_576, 0)? == (Ok(()), Ok((0, 0))));
        let place = Refusal::Limit {
            part: 1,
            row: 1,
            column: 1,
        };
        assert!(rt; open_one(heap, 1_048_577, 0)? == (Err(place), Err(Refusal::Node { place: 1 })));
        Ok(())
    }

    // How wide a node's range is. A caller subtracts plainly, as each end of a roast lies within ±2^30.
    fn width<S: System>(roast: &Roast<S>, node: usize) -> Result<i64, Refusal> {
        let (lower, upper) = roast.ends(node)?;
        Ok(upper - lower)
    }

    #[test]
    fn widths_need_no_test(rt: HostRuntime) -> Result<(), Fail> {
        let mut roast = Roast::new(Table::new(1, [1, WIDEST].to_vec(rt.alloc())?)?);
        assert_eq!(rt; width(&roast, 1), Err(Refusal::Node { place: 1 }));
        assert_eq!(rt; roast.open(&[1]), Ok(()));
        assert_eq!(rt; width(&roast, 1), Ok(2 * WIDEST));
        Ok(())
    }

    #[test]
    fn certificates_are_refused_in_order(rt: HostRuntime) -> Result<(), Fail> {
        let mut roast = Roast::new(Table::new(2, drums::RANGES.to_vec(rt.alloc())?)?);
        assert_eq!(rt; roast.open(&[1]), Err(Refusal::Certificate { place: 0 }));
        assert_eq!(rt;
            roast.open(&[1, 1_048_577]),
            Err(Refusal::Certificate { place: 2 })
        );
        assert_eq!(rt; roast.open(&[0, 0]), Err(Refusal::Certificate { place: 1 }));
        assert_eq!(rt; roast.open(&[4, 1]), Err(Refusal::Dominance { place: 2 }));
        assert_eq!(rt; roast.open(&[1_048_576, 1_048_576]), Ok(()));
        assert_eq!(rt; roast.ends(2), Ok((-4, 4)));
        assert_eq!(rt; roast.open(&[1, 4]), Err(Refusal::Dominance { place: 1 }));
        assert_eq!(rt; roast.ends(2), Ok((-4, 4)));
        Ok(())
    }

    #[test]
    fn a_roast_that_was_never_opened_rests(rt: HostRuntime) -> Result<(), Fail> {
        let mut roast = Roast::new(Table::new(2, drums::RANGES.to_vec(rt.alloc())?)?);
        assert!(rt; roast.at_rest());
        assert_eq!(rt; roast.round(), Ok(0));
        assert_eq!(rt; roast.row_step(1), Err(Refusal::Node { place: 1 }));
        assert_eq!(rt; roast.reading(1, 0, 1), Err(Refusal::Node { place: 1 }));
        Ok(())
    }

    #[test]
    fn a_conflict_restores_the_box(rt: HostRuntime) -> Result<(), Fail> {
        let mut roast = Roast::new(Table::new(2, drums::RANGES.to_vec(rt.alloc())?)?);
        assert_eq!(rt; roast.open(&[1, 1]), Ok(()));
        assert_eq!(rt; roast.reading(2, 1, 4), Ok(true));
        assert_eq!(rt; roast.round(), Err(Refusal::Conflict { place: 2 }));
        assert_eq!(rt; roast.ends(1), Ok((-4, 4)));
        assert_eq!(rt; roast.reading(3, 0, 1), Err(Refusal::Node { place: 3 }));
        assert_eq!(rt; roast.reading(1, 1, 0), Err(Refusal::Crossed { place: 1 }));
        assert_eq!(rt; roast.reading(1, i64::MIN, i64::MAX), Ok(false));
        Ok(())
    }

    #[test]
    fn records_are_marked_in_place(rt: HostRuntime) -> Result<(), Fail> {
        let mut roast = Roast::new(Table::new(2, drums::RANGES.to_vec(rt.alloc())?)?);
        assert_eq!(rt; roast.open(&[1, 1]), Ok(()));
        let mut list = [
            Reading {
                answer: 99,
                ..Reading::new(1, 2, 3)
            },
            Reading {
                answer: 99,
                ..Reading::new(1, 4, 9)
            },
            Reading {
                answer: 99,
                ..Reading::new(0, 4, 9)
            },
            Reading {
                answer: 99,
                ..Reading::new(2, 9, 4)
            },
        ];
        roast.readings(&mut list);
        assert_eq!(rt; list[0].answer, 0);
        assert_eq!(rt; list[1].answer, 12);
        assert_eq!(rt; list[2].answer, 4);
        assert_eq!(rt;
            list[3],
            Reading {
                answer: 6,
                ..Reading::new(2, 9, 4)
            }
        );
        assert_eq!(rt; roast.ends(1), Ok((2, 3)));
        Ok(())
    }
}
