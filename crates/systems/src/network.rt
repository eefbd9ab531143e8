ghost use Rattle.std.specs.Prelude.{◌≡◌, ◌≤◌, true, length, Some, None, Ok, Err};
ghost use Rattle.balance.specs.Meanings.{answer, placed};
ghost use Rattle.balance.specs.Places.{unless_refused};
ghost use Rattle.systems.specs.Networks.{ends_in_order, ends_within, record_refusal, network_refusal, additions, sum_at, Small, network_sum, network};
ghost use Rattle.systems.specs.NetworksLemmas.{accepted, network_lawful};

use super::entries::kept;
use super::record::{Addition, Record};
use balance::range::Range;
use balance::refusal::{Refusal, Returned};
use balance::system::{
    COEFFICIENTS, RIGHT_SIDES, System, check_node, check_place, is_size, limited,
};

// A wrong node comes before crossed ends, and these before an end beyond its limits.
fn check_record(size: usize, number: usize, record: &Record) -> Result<(), Refusal>
    ensures { result ≡ unless_refused (record_refusal size number «record».now) (Ok tt) }
{
    if !record.names_nodes(size) {
        return Err(Refusal::Node { place: number });
    }
    if !record.is_in_order() {
        return Err(Refusal::Crossed { place: number });
    }
    if !record.is_within_limits() {
        return Err(Refusal::Limit {
            part: Network::PART,
            row: number,
            column: 0,
        });
    }
    Ok(())
}

// Refuses a wrong size or count, then the first record that the network does not take.
fn check_records(size: usize, records: &[Record]) -> Result<(), Refusal>
    ensures { result ≡ unless_refused (network_refusal size records.now) (Ok tt) }
{
    if !is_size(size) || records.len() > 256 {
        return Err(Refusal::Size { place: 0 });
    }
    for (k, record) in records.iter().enumerate() {
        check_record(size, k + 1, record)?;
    }
    Ok(())
}

// What terms add up to at a place.
fn sum_of(row: usize, column: usize, terms: &[Addition]) -> Option<Range>
    requires small { Small terms.now }
    requires few { length terms.now ≤ 4 }
    ensures { result ≡ Some (sum_at row column terms.now) }
{
    let mut sum = Range::ZERO;
    for addition in terms {
        sum = sum.checked_add(addition.amount_at(row, column))?;
    }
    Some(sum)
}

// What a record adds at a place. In rows and columns of nodes that it does not name that is nothing, so a place passes over most records.
fn added(size: usize, record: &Record, row: usize, column: usize) -> Option<Range>
    requires in_order { ends_in_order «record».now ≡ true }
    requires within_limits { ends_within «record».now ≡ true }
    requires few_nodes { size ≤ 32 }
    ensures { result ≡ Some (sum_at row column (additions size «record».now)) }
{
    if !record.names(row) {
        return Some(Range::ZERO);
    }
    if column <= size && !record.names(column) {
        return Some(Range::ZERO);
    }
    // Matched, as the sorts are a closed list: closures or `dyn` would hide from the contract which sort it is.
    match *record {
        Record::Link {
            first,
            second,
            conductance,
        } => {
            let negated = Range::ZERO.checked_sub(conductance)?;
            // All four go to one place where a link leads from a node to itself.
            sum_of(
                row,
                column,
                &[
                    Addition::new(first, first, conductance),
                    Addition::new(second, second, conductance),
                    Addition::new(first, second, negated),
                    Addition::new(second, first, negated),
                ],
            )
        }
        Record::Outside {
            node,
            conductance,
            temperature,
        } => {
            let product = conductance.checked_mul(temperature)?;
            sum_of(
                row,
                column,
                &[
                    Addition::new(node, node, conductance),
                    Addition::new(node, size + 1, product),
                ],
            )
        }
        Record::Heat { node, heat } => {
            sum_of(row, column, &[Addition::new(node, size + 1, heat)])
        },
    }
}

// At most 256 records over 1 to 32 nodes. A place is the sum of what the records add to it.
#[derive(Drop)]
pub struct Network {
    size: usize,
    records: Vec<Record>,
    ghost taken: { network_refusal size records.items ≡ None },
}

impl Network {
    // The first record that is not allowed is refused by its number, and the records come back.
    pub fn new(size: usize, records: Vec<Record>) -> Result<Network, Returned<Vec<Record>>>
        ensures made_exactly_when_every_record_is_taken { elim result [ Ok t ↦ network_refusal size records.items ≡ None | Err e ↦ network_refusal size records.items ≡ Some e.refusal ] }
        ensures holds_the_records { elim result [ Ok t ↦ (t.size ≡ size) × (t.records ≡ records) | Err e ↦ e.value ≡ records ] }
    {
        let records = kept(check_records(size, &records), records)?;
        Ok(Network { size, records })
    }

    // What all records add at a place; column n + 1 is the right side.
    fn sum_at(&self, row: usize, column: usize) -> Option<Range>
        ensures { result ≡ Some (network_sum self.now.size self.now.records.items row column) }
    {
        let mut sum = Range::ZERO;
        for record in &self.records {
            sum = sum.checked_add(added(self.size, record, row, column)?)?;
        }
        Some(sum)
    }

    // The sum at a place as an answer, or the refusal of the place.
    fn answer(&self, limits: Range, row: usize, column: usize) -> Result<(i64, i64), Refusal>
        ensures { result ≡ answer (placed limits 2 row column (network_sum self.now.size self.now.records.items row column)) }
    {
        let sum = self.sum_at(row, column).unwrap_or_default();
        limited(sum, limits, Network::PART, row, column)
    }
}

impl System for Network {
    // The part that refusals of records name too.
    const PART: usize = 2;

    ghost meaning = { λ t. network t.size t.records.items };

    ghost lawful = { λ s. network_lawful s.size s.records.items (accepted s.size s.records.items s.taken) };

    fn size(&self) -> usize {
        self.size
    }

    fn coefficient(&self, row: usize, column: usize) -> Result<(i64, i64), Refusal> {
        check_place(self.size, row, column)?;
        self.answer(COEFFICIENTS, row, column)
    }

    fn right_side(&self, row: usize) -> Result<(i64, i64), Refusal> {
        check_node(self.size, row)?;
        self.answer(RIGHT_SIDES, row, self.size + 1)
    }
}
