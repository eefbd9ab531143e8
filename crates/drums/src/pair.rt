// A roast beside the second solver: each call is made on both, and answers and boxes are compared.
use super::drum::Drum;
use super::exact::{member_count, solution};
use super::report::{Counted, Difference, Report};
use super::second::Second;
use super::span::Span;
use balance::refusal::Refusal;
use balance::system::System;
use roast::call::Reading;
use roast::roast::Roast;

// Readings that were accepted, in order; those beyond 32 are not kept.
#[derive(Clone, Copy)]
pub(crate) struct Readings {
    pub list: [Reading; 32],
    pub count: usize,
}

impl Readings {
    pub(crate) fn none() -> Readings {
        Readings {
            list: [Reading::new(1, 0, 0); 32],
            count: 0,
        }
    }

    pub(crate) fn all(&self) -> &[Reading] {
        &self.list[..self.count.min(32)]
    }

    fn push(&mut self, reading: Reading) {
        if self.count < 32 {
            self.list[self.count] = reading;
            self.count = self.count.wrapping_add(1);
        }
    }

    // From the last to the first.
    pub(crate) fn reversed(&self) -> Readings {
        let mut reversed = Readings::none();
        for reading in self.all().iter().rev() {
            reversed.push(*reading);
        }
        reversed
    }
}

#[derive(Drop)]
pub(crate) struct Pair<S: System> {
    pub drum: Drum,
    pub roast: Roast<S>,
    pub second: Second,
    pub accepted: Readings,
}

// Rounds until one changes nothing; whether that came within 120.
fn settle<S: System>(roast: &mut Roast<S>) -> Result<bool, Refusal> {
    for _ in 0..120 {
        if roast.round()? == 0 {
            return Ok(true);
        }
    }
    Ok(false)
}

impl<S: System> Pair<S> {
    // Node by node, the library's ends are the second solver's, and both say the same of rest.
    fn compare_boxes(&self, report: &mut Report) {
        for node in 1..=self.drum.size {
            let ours = self.second.at(node.wrapping_sub(1));
            let theirs = match self.roast.ends(node) {
                Ok((lower, upper)) => Some(Span::new(lower, upper)),
                Err(_) => None,
            };
            report.expect(theirs == Some(ours), Difference::Box);
        }
        let rests = self.second.rests(&self.drum);
        report.expect(self.roast.at_rest() == rests, Difference::Rest);
        report.more(Counted::Box);
    }

    // Each member has just one solution, and one that agrees with the accepted readings lies in the box.
    fn compare_member(&self, member: usize, report: &mut Report) {
        match solution(&self.drum, member) {
            Some(point) => {
                if point.agrees_with(self.accepted.all()) {
                    let held = point.is_in(&self.second.spans);
                    report.expect(held, Difference::SolutionLost);
                    report.more(Counted::Held);
                }
            }
            None => report.expect(false, Difference::Members),
        }
    }

    fn compare(&self, report: &mut Report) {
        self.compare_boxes(report);
        for member in 0..=member_count(self.drum.size) {
            self.compare_member(member, report);
        }
    }

    // Opens with a certificate; whether that was accepted.
    pub(crate) fn open(&mut self, certificate: &[i64], report: &mut Report) -> bool {
        let theirs = self.roast.open(certificate);
        match Second::opened(&self.drum, certificate) {
            Ok(second) => {
                report.expect(theirs == Ok(()), Difference::Opening);
                report.more(Counted::Opened);
                self.second = second;
                self.accepted = Readings::none();
                self.compare(report);
                true
            }
            Err(refusal) => {
                report.expect(theirs == Err(refusal), Difference::Opening);
                report.more(Counted::Refused);
                false
            }
        }
    }

    pub(crate) fn step(&mut self, node: usize, report: &mut Report) {
        let ours = self.second.step(&self.drum, node);
        report.expect(self.roast.row_step(node) == ours, Difference::RowStep);
        self.compare(report);
    }

    pub(crate) fn round(&mut self, report: &mut Report) {
        let ours = self.second.round(&self.drum);
        report.expect(self.roast.round() == ours, Difference::Round);
        self.compare(report);
    }

    // Takes a reading by the second solver alone.
    fn take(&mut self, reading: Reading, report: &mut Report) -> Result<bool, Refusal> {
        let answer = self.second.read(&self.drum, &reading);
        if answer.is_ok() {
            self.accepted.push(reading);
            report.more(Counted::Accepted);
        } else {
            report.more(Counted::NotAccepted);
        }
        answer
    }

    pub(crate) fn read(&mut self, reading: Reading, report: &mut Report) {
        let ours = self.take(reading, report);
        let theirs = self
            .roast
            .reading(reading.node, reading.lower, reading.upper);
        report.expect(theirs == ours, Difference::Reading);
        self.compare(report);
    }

    pub(crate) fn read_all(&mut self, list: &mut [Reading], report: &mut Report) {
        self.roast.readings(list);
        for reading in list {
            let number = match self.take(*reading, report) {
                Ok(_) => 0,
                Err(refusal) => refusal.number(),
            };
            report.expect(reading.answer == number, Difference::Record);
        }
        self.compare(report);
    }

    // Lets both come to rest, by rounds and by passes in reverse order; whether they did.
    pub(crate) fn settle(&mut self, report: &mut Report) -> bool {
        let theirs = settle(&mut self.roast) == Ok(true);
        let ours = self.second.settle(&self.drum) == Ok(true);
        if ours && theirs {
            report.more(Counted::Rest);
            self.compare(report);
        }
        ours && theirs
    }
}
