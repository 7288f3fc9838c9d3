//! What a seat tells others.

ghost use Rattle.std.specs.Prelude.{◌≡◌, Some};
ghost use Rattle.seq_bus_core.specs.Histories.{longer};

use crate::history::Prefix;
use crate::naming::Naming;
use bus_view::CheapCopy;
use std::marker::{Model, PhantomData};

/// What a seat told of the history. Whoever takes it sees no less.
///
/// Contracts see the beginning of the history that it tells. Which registry it is of is said by its
/// type.
pub struct Note<J: Naming> {
    prefix: Prefix,
    of: PhantomData<J>,
}

impl<J: Naming> Model for Note<J> {
    ghost use Rattle.std.specs.Prelude.{◌≡◌};
    ghost use Rattle.seq_bus_core.specs.Histories.{History};

    ghost Value = { History };

    ghost view = { λ n. n.prefix.log };

    ghost invariant = { λ n. n.prefix.book ≡ J.book };
}

impl<J: Naming> Drop for Note<J> {
    fn drop(self) {
        let Note { prefix, of: _ } = self;
        drop(prefix);
    }
}

impl<J: Naming> CheapCopy for Note<J> {
    fn copy(&self) -> Note<J> {
        Note {
            prefix: self.prefix.copy(),
            of: PhantomData,
        }
    }
}

impl<J: Naming> Note<J> {
    /// What tells this beginning of the history.
    pub fn of(prefix: &Prefix) -> Note<J>
        requires { prefix.now.book ≡ J.book }
        ensures { result ≡ prefix.now.log }
    {
        Note {
            prefix: prefix.copy(),
            of: PhantomData,
        }
    }

    /// What it tells.
    pub fn prefix(&self) -> &Prefix
        ensures { (result.now.log ≡ self.now) × (result.now.book ≡ J.book) }
    {
        &self.prefix
    }

    /// Of the two, the longer.
    pub fn or_longer(&self, note: &Note<J>) -> Note<J>
        ensures { result ≡ longer (Some self.now) note.now }
    {
        if self.prefix.len() < note.prefix.len() {
            note.copy()
        } else {
            self.copy()
        }
    }
}
