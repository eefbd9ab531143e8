// A system beside its table: the same calls are made on both.
use super::drums::table_of;
use super::subject::{Call, Subject};
use balance::range::Range;
use balance::refusal::Refusal;
use balance::system::System;
use balance::table::Table;
use std::alloc::Global;

// So many rounds at most.
const ROUNDS: usize = 64;

#[derive(Drop)]
pub(crate) struct Pair<S: System> {
    pub(crate) one: Subject<S>,
    pub(crate) table: Subject<Table<Range>>,
    // whether all that was compared is the same
    pub(crate) agree: bool,
}

impl<S: System + Drop> Pair<S> {
    pub(crate) fn new(heap: Global, system: S, same: S) -> anyhow::Result<Pair<S>> {
        let table = table_of(heap, &system)?;
        let again = table_of(heap, &system)?;
        Ok(Pair {
            one: Subject::new(heap, system, same)?,
            table: Subject::new(heap, table, again)?,
            agree: true,
        })
    }

    fn same_box(&self) -> bool {
        (1..=self.one.size()).all(|node| self.one.ends(node) == self.table.ends(node))
    }

    // Makes a call on both, and looks whether they answer the same and leave the same box.
    pub(crate) fn make(&mut self, call: Call, denominator: i64) -> Result<usize, Refusal> {
        let answer = self.one.make(call, denominator)?;
        let other = self.table.make(call, denominator)?;
        if answer != other || !self.same_box() {
            self.agree = false;
        }
        Ok(answer)
    }

    // Makes rounds until one changes nothing, and counts that one too.
    pub(crate) fn settle(&mut self) -> Result<usize, Refusal> {
        for rounds in 1..=ROUNDS {
            if self.make(Call::Round, 1)? == 0 {
                return Ok(rounds);
            }
        }
        Ok(ROUNDS)
    }
}
