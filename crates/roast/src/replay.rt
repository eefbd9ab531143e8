ghost use Rattle.std.specs.Prelude.{◌≡◌, map, Some};
ghost use Rattle.roast.specs.Certificates.{opening};
ghost use Rattle.roast.specs.Narrowing.{narrowed};
ghost use Rattle.roast.specs.Machine.{replacement, outcome, ask_of, after};
ghost use Rattle.roast.specs.Replays.{ask, shown, answered, replayed, Replayed};

use super::call::{Answer, Call, Entry};
use super::roast::Roast;
use balance::refusal::Refusal;
use balance::system::System;

// Makes a call of any kind.
fn play<S: System>(roast: &mut Roast<S>, call: &mut Call) -> Result<Answer, Refusal>
    ensures answers { result ≡ (outcome (narrowed (S.meaning roast.old.system)) roast.old.bounds (ask_of call.old)).answer }
    ensures leaves { let o = outcome (narrowed (S.meaning roast.old.system)) roast.old.bounds (ask_of call.old) in
        roast.new.bounds ≡ o.box }
    ensures records { let o = outcome (narrowed (S.meaning roast.old.system)) roast.old.bounds (ask_of call.old) in
        ask_of call.new ≡ answered (ask_of call.old) o }
    ensures same { roast.new.system ≡ roast.old.system }
{
    match *call {
        Call::RowStep { node } => roast.row_step(node).map(Answer::Changed),
        Call::Round => roast.round().map(Answer::Changes),
        Call::Reading { node, lower, upper } => roast
            .reading(node, lower, upper)
            .map(Answer::Changed),
        Call::Readings { ref mut records } => {
            roast.readings(records.as_mut_slice());
            Ok(Answer::Done)
        }
        Call::AtRest => Ok(Answer::AtRest(roast.at_rest())),
        Call::Ends { node } => roast.ends(node).map(Answer::Ends),
    }
}

// Makes the call of an entry, and writes its answer beside it.
fn play_entry<S: System>(roast: &mut Roast<S>, entry: &mut Entry)
    ensures leaves { let o = outcome (narrowed (S.meaning roast.old.system)) roast.old.bounds (ask entry.old) in
        roast.new.bounds ≡ o.box }
    ensures answers { let o = outcome (narrowed (S.meaning roast.old.system)) roast.old.bounds (ask entry.old) in
        entry.new.answer ≡ Some o.answer }
    ensures records { let o = outcome (narrowed (S.meaning roast.old.system)) roast.old.bounds (ask entry.old) in
        ask entry.new ≡ answered (ask entry.old) o }
    ensures same { roast.new.system ≡ roast.old.system }
{
    entry.answer = Some(play(roast, &mut entry.call));
}

// Makes each call in order.
fn play_all<S: System>(roast: &mut Roast<S>, entries: &mut [Entry])
    ensures leaves { let f = narrowed (S.meaning roast.old.system) in
        roast.new.bounds ≡ after f roast.old.bounds (map ask entries.old) }
    ensures answers { let f = narrowed (S.meaning roast.old.system) in
        map shown entries.new ≡ replayed f roast.old.bounds (map ask entries.old) }
    ensures same { roast.new.system ≡ roast.old.system }
{
    for entry in entries {
        play_entry(roast, entry);
    }
}

impl<S: System> Roast<S> {
    /// Opens the roast and makes a list of calls of any kind, writing each answer beside its call. A refused opening makes none.
    ///
    /// Refused is what an opening refuses; a refused call is an answer.
    pub fn replay(&mut self, certificate: &[i64], entries: &mut [Entry]) -> Result<(), Refusal>
        ensures opens_or_refuses_as_opening_does { let m = S.meaning self.old.system in
            result ≡ (replacement self.old.bounds (opening m certificate.now)).0 }
        ensures replays_as_the_machine_and_is_dependable { let m = S.meaning self.old.system in
            Replayed m certificate.now entries.old entries.new self.old.bounds self.new.bounds result }
        ensures keeps_the_system { self.new.system ≡ self.old.system }
    {
        self.open(certificate)?;
        play_all(self, entries);
        Ok(())
    }
}
