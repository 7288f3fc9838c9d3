//! The view of a bus.

ghost use Rattle.std.specs.Prelude.{◌≡◌, ◌≤◌, ◌↔◌, true, false, Some, length};
ghost use Rattle.std.specs.Prelude.{is_some, option_map, IfOk, IfErr, IfSome, OnOk, OnErr};
ghost use Rattle.seq_bus_core.specs.Answers.{answer};
ghost use Rattle.std.specs.List.{AllByRecursion, list_any};
ghost use Rattle.seq_bus_core.specs.Batches.{IsBatch};
ghost use Rattle.seq_bus_core.specs.Bounds.{IsBounded};
ghost use Rattle.seq_bus_core.specs.BusState.{connection_of, is_monitor};
ghost use Rattle.seq_bus_core.specs.Histories.{History};
ghost use Rattle.seq_bus_core.specs.Recipients.{recipients};
ghost use Rattle.bus_view.specs.Bodies.{Answers};
ghost use Rattle.bus_view.specs.declared.answer.AskFault.TheVariants.{Gone as AskGone, NoMemory as AskNoMemory};
ghost use Rattle.bus_view.specs.Views.{Knowledge, bus_seen, AreChanged, IsChanged, IsRead, IsUnread, IsNoted};
ghost use Rattle.bus_view.specs.declared.refusal.Cause.TheVariants.{NoMemory};

use crate::answer::{AskFault, Asked};
use crate::cheap_copy::CheapCopy;
use crate::refusal::{BatchCause, Gone, Refused, RefusedAll};
use match_rules::Facts;
use seq_bus_core::{Change, Outcome, Query, Verdict};

/// A bus, as one of those sees it that make changes of it.
///
/// What it `knows` is a beginning of the one history of the bus, which only grows. Where it is
/// `alone`, nobody else makes changes: then each answer is what the bus says after all that was
/// seen, and notes tell nothing.
pub trait BusView {
    ghost use Rattle.std.specs.Prelude.{Bool, ℕ};

    /// What is told to other views of the same bus: whoever takes it sees no less.
    type Note: CheapCopy + Drop;

    /// What it takes to make changes.
    type Right;

    /// Nobody else makes changes.
    ghost alone: { Bool };

    ghost knows: { Self → Knowledge };

    /// The beginning of the history that a note tells.
    ghost told: { Self.Note → History };

    /// The registry that a note is of.
    ghost registry_of: { Self.Note → ℕ };

    /// Makes a change, and tells of it in a note.
    ///
    /// A change that is refused is handed back, and is not made, then or later. One that is made
    /// settles 512 tickets at most, which is how many can wait, and brings 194 signals at most.
    fn change(
        &mut self,
        right: &Self::Right,
        change: Change,
    ) -> Result<(Outcome, Self::Note), Refused>
        ensures made { IfOk result (λ r.
            IsChanged alone (knows self.old) change r.0 (knows self.new)) }
        ensures few { IfOk result (λ r. IsBounded r.0) }
        ensures note { IfOk result (λ r. registry_of r.1 ≡ (knows self.new).registry) }
        ensures told { alone ≡ false →
            IfOk result (λ r. told r.1 ≡ (knows self.new).seen) }
        ensures handed_back { IfErr result (λ refused. refused.change ≡ change) }
        ensures cause { alone ≡ true → IfErr result (λ refused. refused.cause ≡ NoMemory) }
        ensures unchanged { OnErr result (knows self.new ≡ knows self.old) };

    /// Makes a batch of 1 to 64 changes, all in one publication, and tells of them in a note.
    /// Nobody ever sees some of them without the others.
    ///
    /// Where one of them is refused, as `change` refuses it, or there are too many or none, all are
    /// handed back, and none is made, then or later.
    fn change_all(
        &mut self,
        right: &Self::Right,
        changes: Vec<Change>,
    ) -> Result<(Vec<Outcome>, Self::Note), RefusedAll>
        ensures made { IfOk result (λ r.
            AreChanged alone (knows self.old) changes.items r.0.items (knows self.new)) }
        ensures few { IfOk result (λ r. AllByRecursion IsBounded r.0.items) }
        ensures note { IfOk result (λ r. registry_of r.1 ≡ (knows self.new).registry) }
        ensures told { alone ≡ false →
            IfOk result (λ r. told r.1 ≡ (knows self.new).seen) }
        ensures batch { OnOk result (IsBatch changes.items) }
        ensures handed_back { IfErr result (λ refused. refused.changes ≡ changes) }
        ensures no_batch { IfErr result (λ refused.
            (refused.cause ≡ BatchCause.Batch) ↔ ¬ IsBatch changes.items) }
        ensures cause { alone ≡ true → IfErr result (λ refused. IsBatch changes.items →
            refused.cause ≡ BatchCause.Refused NoMemory) }
        ensures unchanged { OnErr result (knows self.new ≡ knows self.old) };

    /// Answers a query: appends the body of the reply, in little-endian order as from offset 0 on,
    /// or says that the name has no owner. After a fault nothing is appended.
    ///
    /// It makes no change, whatever it says. For want of memory it may have read the bus all the
    /// same; where the bus has ended, nothing was read.
    fn ask(&mut self, query: &Query, body: &mut Vec<u8>) -> Result<Asked, AskFault>
        ensures answered { IfOk result (λ asked.
            Answers asked (answer (bus_seen (knows self.new)).state query.now)
            body.old.items body.new.items) }
        ensures read { OnOk result (IsRead alone (knows self.old) (knows self.new)) }
        ensures unanswered { OnErr result (body.new.items ≡ body.old.items) }
        ensures unread { OnErr result (IsUnread alone (knows self.old) (knows self.new)) }
        ensures read_no_less { IfErr result (λ fault. fault ≡ AskNoMemory →
            IsRead alone (knows self.old) (knows self.new)) }
        ensures gone { IfErr result (λ fault. fault ≡ AskGone → knows self.new ≡ knows self.old) }
        ensures there { alone ≡ true → IfErr result (λ fault. fault ≡ AskGone → ⊥) };

    /// Where a message from a connection goes, and which monitors are shown it. 0 is the bus. It
    /// takes no memory.
    ///
    /// The sender that the facts name is not looked at.
    fn route(&mut self, from: u64, facts: &Facts<'_>) -> Result<Verdict, Gone>
        ensures verdict { IfOk result (λ verdict.
            verdict ≡ recipients (bus_seen (knows self.new)).state from facts.now) }
        ensures read { OnOk result (IsRead alone (knows self.old) (knows self.new)) }
        ensures gone { OnErr result (knows self.new ≡ knows self.old) }
        ensures there { alone ≡ true → OnErr result ⊥ };

    /// The same as `route`, told where there is room for it: a verdict is large, and is not moved.
    /// Where the bus does not say, it stays as it is.
    fn route_into(&mut self, from: u64, facts: &Facts<'_>, found: &mut Verdict) -> Result<(), Gone>
        ensures verdict { OnOk result
            (found.new ≡ recipients (bus_seen (knows self.new)).state from facts.now) }
        ensures read { OnOk result (IsRead alone (knows self.old) (knows self.new)) }
        ensures gone { OnErr result (knows self.new ≡ knows self.old) }
        ensures untold { OnErr result (found.new ≡ found.old) }
        ensures there { alone ≡ true → OnErr result ⊥ };

    /// Whether there is a connection of this number. It takes no memory.
    fn present(&mut self, number: u64) -> Result<bool, Gone>
        ensures present { IfOk result (λ present.
            present ≡ is_some (connection_of (bus_seen (knows self.new)).state number)) }
        ensures read { OnOk result (IsRead alone (knows self.old) (knows self.new)) }
        ensures gone { OnErr result (knows self.new ≡ knows self.old) }
        ensures there { alone ≡ true → OnErr result ⊥ };

    /// Whether a monitor may be shown messages, as far as this one has seen. Where not, the bus had
    /// none when it was read last, which was at the end of what was seen. It reads nothing, and
    /// takes no memory.
    fn is_watched(&self) -> bool
        ensures read { result ≡ false → IsRead alone (knows self.now) (knows self.now) }
        ensures none { result ≡ false →
            list_any is_monitor (bus_seen (knows self.now)).state.connections ≡ false };

    /// Takes in what another view of the same bus told: from now on this one sees no less. It takes
    /// no memory.
    fn take_note(&mut self, note: &Self::Note)
        requires own { registry_of note.now ≡ (knows self.old).registry }
        ensures { IsNoted alone (knows self.old) (told note.now) (knows self.new) };

    /// The furthest note that it made or took; none where it made and took none. It takes no
    /// memory.
    fn note(&self) -> Option<Self::Note>
        ensures some { is_some result ≡ is_some (knows self.now).held }
        ensures own { IfSome result (λ note. registry_of note ≡ (knows self.now).registry) }
        ensures told { alone ≡ false →
            option_map told result ≡ (knows self.now).held };

    /// How many changes of the history it has seen. It takes no memory.
    fn place(&self) -> u64
        ensures { result ≡ length (knows self.now).seen };

    /// How many of them it made. It takes no memory.
    fn made(&self) -> u64
        ensures { result ≡ (knows self.now).made };

    /// The place in the history of the last change that it made, from 1; 0 where it made none. It
    /// takes no memory.
    fn last(&self) -> u64
        ensures { result ≡ (knows self.now).last };

    /// The number of its seat.
    fn seat(&self) -> u8
        ensures { result ≡ (knows self.now).seat };
}
