//! Answers to queries.

ghost use Rattle.std.specs.Prelude.{◌≡◌, Some, IfOk};
ghost use Rattle.seq_bus_core.specs.Answers.{Answer, answer};
ghost use Rattle.seq_bus_core.specs.BusState.{BusState};
ghost use Rattle.bus_view.specs.Bodies.{IsBody};
ghost use Rattle.outbox_core.specs.Answers.{IsAnswerTo, kind_of};

use driver::{BodyKind, SpelledBody};
use seq_bus_core::{Query, SharedBytes};
use std::alloc::AllocError;
use std::marker::Model;

/// What the body of the reply to this query is, where there is an answer.
fn kind_for(query: &Query) -> BodyKind
    ensures { (state : BusState) (told : Answer) → answer state query.now ≡ Some told
        → result ≡ kind_of told }
{
    match query {
        Query::GetNameOwner(_) => BodyKind::String,
        Query::NameHasOwner(_) => BodyKind::Boolean,
        Query::ListNames | Query::ListActivatableNames | Query::ListQueuedOwners(_) => {
            BodyKind::Strings
        }
    }
}

/// The body of the reply to a query, as the bus appends it: in little-endian order, as from offset
/// 0 on. Contracts see the answer.
#[derive(Debug, Drop)]
pub struct AnswerBody {
    kind: BodyKind,
    bytes: SharedBytes,
}

impl Model for AnswerBody {
    ghost use Rattle.seq_bus_core.specs.Answers.{Answer};
    ghost use Rattle.outbox_core.specs.Answers.{Carries, answer_of};

    ghost Value = { Answer };

    ghost view = { λ b. answer_of (record { kind = b.kind; bytes = b.bytes }) };

    ghost invariant = { λ b. Carries (record { kind = b.kind; bytes = b.bytes })
        (answer_of (record { kind = b.kind; bytes = b.bytes })) };
}

impl AnswerBody {
    /// The body that a bus appended for this query.
    pub fn new(query: &Query, bytes: SharedBytes) -> Self
        requires { (told : Answer) × IsAnswerTo query.now bytes told }
        ensures { (told : Answer) → IsAnswerTo query.now bytes told → result ≡ told }
    {
        AnswerBody {
            kind: kind_for(query),
            bytes,
        }
    }

    pub(crate) fn kind(&self) -> BodyKind
        ensures { result ≡ kind_of self.now }
    {
        self.kind
    }

    /// The bytes of the body, which are those of the answer.
    pub fn bytes(&self) -> &[u8]
        ensures { IsBody self.now result.now }
    {
        self.bytes.as_slice()
    }

    /// As it is written.
    pub(crate) fn spelled(&self) -> SpelledBody<'_>
        ensures kind { result.kind ≡ kind_of self.now }
        ensures body { IsBody self.now result.bytes.now }
    {
        SpelledBody {
            kind: self.kind(),
            bytes: self.bytes(),
        }
    }

    /// The same answer once more. No bytes are copied; it fails where too many share them already.
    pub fn try_clone(&self) -> Result<AnswerBody, AllocError>
        ensures { IfOk result (λ body. body ≡ self.now) }
    {
        let bytes = self.bytes.try_clone()?;
        Ok(AnswerBody {
            kind: self.kind,
            bytes,
        })
    }
}
