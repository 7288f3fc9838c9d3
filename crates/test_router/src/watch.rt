//! What a gate finds of the bus when it is shown a call.

use crate::journal::Journal;
use anyhow::Result;
use bus_view::BusView;
use driver::Call;
use match_rules::{Facts, MessageKind};
use names::BusName;
use registry_snapshots::{Desk, Naming};
use router_core::Gate;
use seq_bus_core::Query;
use std::alloc::{AllocError, Global};
use std::cell::RefCell;
use std::mem;
use std::rc::Rc;
use std::sync::Wait;

/// What was found and is not told yet. Each of its copies has the same.
#[derive(Drop)]
pub struct Findings {
    alloc: Global,
    text: Rc<RefCell<String>>,
}

impl Findings {
    pub fn new(alloc: Global) -> Result<Findings, AllocError> {
        Ok(Findings {
            alloc,
            text: Rc::new(alloc, RefCell::new(String::new(alloc)))?,
        })
    }

    pub fn try_clone(&self) -> Result<Findings, AllocError> {
        Ok(Findings {
            alloc: self.alloc,
            text: Rc::clone(&self.text)?,
        })
    }

    fn note(&self, found: &str) -> Result<()> {
        if let Ok(mut text) = self.text.try_borrow_mut() {
            if !text.is_empty() {
                text.push_str("; ")?;
            }
            text.push_str(found)?;
        }
        Ok(())
    }

    /// Tells what was found since this was asked last.
    pub fn tell(&self, journal: &mut Journal) -> Result<()> {
        if let Ok(mut text) = self.text.try_borrow_mut() {
            let text = mem::replace(&mut *text, String::new(self.alloc));
            if !text.is_empty() {
                journal.begin(text.as_str())?;
            }
        }
        Ok(())
    }
}

/// A seat of its own, through which a gate looks.
#[derive(Drop)]
pub struct Lookout<'b, J: Naming, R: Wait> {
    pub desk: Desk<'b, J, R>,
    pub findings: Findings,
}

impl<'b, J: Naming, R: Wait> Lookout<'b, J, R> {
    /// Looks whether a name has an owner.
    fn look(&mut self, alloc: Global, name: &BusName) -> Result<()> {
        let mut body = Vec::new(alloc);
        let _told = self.desk.ask(&Query::NameHasOwner(*name), &mut body)?;
        let has_owner = body.as_slice() == [1, 0, 0, 0].as_slice();
        let so = if has_owner { "an" } else { "no" };
        let found = format!(in alloc; "{name} has {so} owner")?;
        self.findings.note(found.as_str())
    }

    /// Looks whether anybody hears a signal `Ticked`.
    fn listen(&mut self) -> Result<()> {
        let verdict = self.desk.route(0, &TICKED)?;
        self.findings.note(if verdict.to.as_slice().is_empty() {
            "Ticked has no listener"
        } else {
            "Ticked has a listener"
        })
    }
}

/// What rules see of the signal that a gate looks for listeners of.
const TICKED: Facts<'static> = Facts {
    kind: MessageKind::Signal,
    auto_start: true,
    sender: 0,
    path: Some("/"),
    interface: Some("com.example.Clock"),
    member: Some("Ticked"),
    destination: None,
    arguments: &[],
};

/// Lets each call pass. Where it has a lookout, it looks whether the name has an owner that a call
/// requests or releases, and whether a signal has a listener where a call adds or removes a rule.
#[derive(Drop)]
pub struct Watch<'b, J: Naming, R: Wait> {
    pub alloc: Global,
    pub lookout: Option<Lookout<'b, J, R>>,
}

impl<'b, J: Naming, R: Wait> Gate for Watch<'b, J, R> {
    ghost passes = { λ _ _ _. Unit {0} };

    fn before<V: BusView>(&mut self, _seat: u8, call: &Call, _bus: &V) {
        let Some(lookout) = &mut self.lookout else {
            return;
        };
        let _unnoted = match call {
            Call::RequestName { name, flags: _ } => lookout.look(self.alloc, name),
            Call::ReleaseName { name } => lookout.look(self.alloc, name),
            Call::AddMatch { rule: _ } => lookout.listen(),
            Call::RemoveMatch { rule: _ } => lookout.listen(),
            _ => return,
        };
    }
}
