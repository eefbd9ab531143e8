// A system with a roast of it, and the calls that are compared and measured.
use balance::point::possible;
use balance::refusal::Refusal;
use balance::system::System;
use roast::roast::Roast;
use std::alloc::{AllocError, Global};

#[derive(Clone, Copy)]
pub(crate) enum Call {
    Opening,
    Round,
    Point,
}

#[derive(Drop)]
pub(crate) struct Subject<S: System> {
    system: S,
    roast: Roast<S>,
    certificate: Vec<i64>,
    numerators: Vec<i64>,
    // what all calls answered, added up
    pub(crate) answers: usize,
}

impl<S: System + Drop> Subject<S> {
    // Of a system that was made twice, since a roast keeps its own. The certificate is ones, the point 100 °C at each node.
    pub(crate) fn new(heap: Global, system: S, same: S) -> Result<Subject<S>, AllocError> {
        let size = system.size();
        Ok(Subject {
            system,
            roast: Roast::new(same),
            certificate: vec![in heap; 1; size]?,
            numerators: vec![in heap; 100_000; size]?,
            answers: 0,
        })
    }

    pub(crate) fn size(&self) -> usize {
        self.system.size()
    }

    pub(crate) fn at_rest(&self) -> bool {
        self.roast.at_rest()
    }

    pub(crate) fn ends(&self, node: usize) -> Result<(i64, i64), Refusal> {
        self.roast.ends(node)
    }

    // Answers how many ranges a round changed, and 1 if a point is possible.
    pub(crate) fn make(&mut self, call: Call, denominator: i64) -> Result<usize, Refusal> {
        match call {
            Call::Opening => {
                self.roast.open(&self.certificate)?;
                Ok(0)
            }
            Call::Round => self.roast.round(),
            Call::Point => {
                let is_possible = possible(&self.system, &self.numerators, denominator)?;
                Ok(usize::from(is_possible))
            }
        }
    }

    // Makes a call so many times. (Two points take turns, and all answers are kept, so that no call can be left out.)
    pub(crate) fn repeat(&mut self, call: Call, times: usize) -> Result<(), Refusal> {
        for i in 0..times {
            let answer = self.make(call, 1 + (i % 2) as i64)?;
            self.answers = self.answers.wrapping_add(answer);
        }
        Ok(())
    }
}
