ghost use Rattle.std.specs.Prelude.{◌≡◌, ◌==◌, ◌&&◌, not, Some, None, Ok, Err, IfOk};
ghost use Rattle.std.specs.List.{list_any};
ghost use Rattle.balance.specs.Meanings.{IsNode, is_node};
ghost use Rattle.balance.specs.Places.{unless_refused};
ghost use Rattle.systems.specs.Renumberings.{entry_at, renumbered, order_refusal, IsPermutation, RenumbersSolutions};
ghost use Rattle.systems.specs.RenumberingsLemmas.{renumbered_lawful};

use super::entries::{check_entries, kept};
use balance::refusal::{Refusal, Returned};
use balance::system::{System, check_node, check_place, is_node};

// Whether an entry is a node, and none of the entries before it.
fn entry_allowed(size: usize, before: &[usize], entry: usize) -> bool
    ensures { result ≡ (is_node size entry && not (list_any (λ p. p == entry) before.now)) }
{
    is_node(size, entry) && !before.contains(&entry)
}

fn check_order(size: usize, order: &[usize]) -> Result<(), Refusal>
    ensures { result ≡ unless_refused (order_refusal size order.now) (Ok tt) }
{
    check_entries(
        size,
        order,
        |before, entry| entry_allowed(size, before, *entry),
    )
}

// A layer over any system: node i is node p(i) below, for a permutation p of the nodes.
#[derive(Drop)]
pub struct Renumbering<S: System> {
    system: S,
    order: Vec<usize>,
    ghost taken: { order_refusal (S.meaning system).size order.items ≡ None },
}

impl<S: System> Renumbering<S> {
    // A wrong count, or the first entry that is no node or repeats an earlier one, is refused, and the system and the list come back.
    pub fn new(system: S, order: Vec<usize>) -> Result<Renumbering<S>, Returned<(S, Vec<usize>)>>
        ensures made_or_refused_at_the_first_entry { elim result [ Ok l ↦ order_refusal (S.meaning system).size order.items ≡ None | Err e ↦ order_refusal (S.meaning system).size order.items ≡ Some e.refusal ] }
        ensures made_exactly_for_a_permutation { elim result [ Ok l ↦ IsPermutation (S.meaning system).size order.items | Err e ↦ (IsPermutation (S.meaning system).size order.items → ⊥) ] }
        ensures holds_the_system_and_the_order { elim result [ Ok l ↦ (l.system ≡ system) × (l.order ≡ order) | Err e ↦ e.value ≡ (system, order) ] }
        ensures renumbers_the_solutions { IfOk result (λ l. RenumbersSolutions order.items (S.meaning system)) }
    {
        let checked = check_order(system.size(), &order);
        let (system, order) = kept(checked, (system, order))?;
        Ok(Renumbering { system, order })
    }

    // The node below.
    fn below(&self, node: usize) -> usize
        requires is_a_node { IsNode (S.meaning self.now.system) node }
        ensures { result ≡ entry_at self.now.order.items node }
    {
        self.order[node - 1]
    }
}

impl<S: System> System for Renumbering<S> {
    const PART: usize = 4;

    ghost meaning = { λ l. renumbered l.order.items (S.System.meaning l.system) };

    ghost lawful = { λ s. renumbered_lawful s.order.items (S.System.meaning s.system) s.taken (S.System.lawful s.system) };

    fn size(&self) -> usize {
        self.system.size()
    }

    fn coefficient(&self, row: usize, column: usize) -> Result<(i64, i64), Refusal> {
        check_place(self.system.size(), row, column)?;
        self.system.coefficient(self.below(row), self.below(column))
    }

    fn right_side(&self, row: usize) -> Result<(i64, i64), Refusal> {
        check_node(self.system.size(), row)?;
        self.system.right_side(self.below(row))
    }
}
