//! What one router sends another.

ghost use Rattle.std.specs.Prelude.{◌≡◌, IfOk};

use crate::content::Content;
use bus_view::CheapCopy;
use std::alloc::AllocError;

/// What one router sends another for a connection.
pub struct Envelope<N: Drop> {
    /// The number of the connection that it is for. Its slot may be another's by now.
    pub number: u64,
    /// What the sender knew of the bus: the furthest note that it had made or taken.
    pub note: Option<N>,
    pub content: Content,
}

impl<N: Drop> Drop for Envelope<N> {
    fn drop(self) {
        let Envelope {
            number: _,
            note,
            content,
        } = self;
        drop(note);
        drop(content);
    }
}

impl<N: CheapCopy + Drop> Envelope<N> {
    /// The same for another connection. No bytes are copied; it fails where too many share them
    /// already.
    pub fn for_another(&self, number: u64) -> Result<Envelope<N>, AllocError>
        ensures { IfOk result (λ envelope. envelope ≡ record self.now { number = number }) }
    {
        let content = self.content.try_clone()?;
        let note = match &self.note {
            Some(note) => Some(note.copy()),
            None => None,
        };
        Ok(Envelope {
            number,
            note,
            content,
        })
    }
}
