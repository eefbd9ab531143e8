ghost use Rattle.std.specs.Prelude.{◌≡◌, ℕ, Bool, Ok, Err, length};
ghost use Rattle.balance.specs.Places.{unless_refused};
ghost use Rattle.systems.specs.Entries.{entries_refusal, Tests};

use balance::refusal::{Refusal, Returned};

// Refuses another count than the system's size, then the first entry that is not allowed. The test sees the entries before it too.
pub(crate) fn check_entries<T, F: Fn(&[T], &T) -> bool>(
    size: usize,
    entries: &[T],
    allowed: F,
) -> Result<(), Refusal>
    requires { F.IsAlwaysCallable allowed }
    ensures refuses_the_first_not_allowed { (test : ℕ → Bool) → Tests (F.post allowed) entries.now test → result ≡ unless_refused (entries_refusal size (length entries.now) test) (Ok tt) }
{
    if entries.len() != size {
        return Err(Refusal::Entry { place: 0 });
    }
    for (k, entry) in entries.iter().enumerate() {
        if !allowed(&entries[..k], entry) {
            return Err(Refusal::Entry { place: k + 1 });
        }
    }
    Ok(())
}

// A value that passed its check; else the refusal, and the value back.
pub(crate) fn kept<T>(checked: Result<(), Refusal>, value: T) -> Result<T, Returned<T>>
    ensures kept_exactly_when_it_passed { elim result [ Ok v ↦ checked ≡ Ok tt | Err e ↦ checked ≡ Err e.refusal ] }
    ensures hands_back_the_value { elim result [ Ok v ↦ v ≡ value | Err e ↦ e.value ≡ value ] }
{
    match checked {
        Ok(()) => Ok(value),
        Err(refusal) => Err(Returned { refusal, value }),
    }
}
