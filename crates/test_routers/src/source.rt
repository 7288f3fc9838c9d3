//! What happens to a router, as its scenario says.

use crate::client::ClientSocket;
use crate::progress::{LOOKS, Progress, pause};
use crate::scenario::Step;
use router_host::{Ended, OpenFault};
use routers::{Fault, Source, SourceEvent, Timeout};
use std::rt::Clock;
use std::sync::Wait;

/// The most clients of a scenario.
const CLIENTS: usize = 12;

/// What happens to a router, as its scenario says.
#[derive(Drop)]
pub(crate) struct ScenarioSource<'a, R: Wait + Clock> {
    rt: &'a R,
    progress: &'a Progress,
    /// Which router it is.
    me: usize,
    /// What did not happen yet.
    steps: &'static [Step],
    /// The keys of the clients' sockets.
    keys: [usize; CLIENTS],
    /// The login time runs.
    is_timed: bool,
    /// It waits until something happens, and the login time does not run.
    is_resting: bool,
}

impl<'a, R: Wait + Clock> ScenarioSource<'a, R> {
    pub(crate) fn new(
        rt: &'a R,
        progress: &'a Progress,
        me: usize,
        steps: &'static [Step],
    ) -> ScenarioSource<'a, R> {
        ScenarioSource {
            rt,
            progress,
            me,
            steps,
            keys: [0; CLIENTS],
            is_timed: false,
            is_resting: false,
        }
    }

    fn key_of(&self, index: usize) -> usize {
        match self.keys.get(index) {
            Some(key) => *key,
            None => 0,
        }
    }

    /// A client has connected.
    fn accepted(
        &self,
        index: usize,
        challenge: Option<[u8; 16]>,
    ) -> Option<SourceEvent<ClientSocket<'a, R>>> {
        let socket = ClientSocket {
            rt: self.rt,
            client: self.progress.client(index)?,
            index,
        };
        Some(SourceEvent::Accepted { socket, challenge })
    }

    /// Goes over the conditions that hold. Tells the step that is behind them, if there is one.
    fn next_step(&mut self) -> Option<Step> {
        for _ in 0..self.steps.len() {
            let (step, rest) = self.steps.split_first()?;
            let holds = match *step {
                Step::Awaits(condition) => self.progress.holds(self.rt, self.me, condition),
                Step::Rests => self.is_resting,
                step => return Some(step),
            };
            if !holds {
                return None;
            }
            self.steps = rest;
        }
        None
    }

    /// Goes over the step that was made.
    fn step_over(&mut self) {
        self.steps = self.steps.get(1..).unwrap_or(&[]);
    }
}

impl<'a, R: Wait + Clock> Source<ClientSocket<'a, R>> for ScenarioSource<'a, R> {
    ghost asks = { λ _ _. Unit {0} };

    fn wait(&mut self, timeout: Timeout) -> Result<(), Fault> {
        self.is_resting = timeout == Timeout::Never && !self.is_timed;
        let looks = match timeout {
            Timeout::Zero => 0,
            Timeout::Short => 1,
            Timeout::Never => LOOKS,
        };
        for _ in 0..looks {
            let is_woken = self.progress.is_woken(self.me);
            let step = self.next_step();
            if let Some(Step::Fails(fault)) = step {
                return Err(fault);
            }
            if is_woken || step.is_some() {
                self.progress.is_up(self.me);
                return Ok(());
            }
            pause(self.rt);
        }
        match timeout {
            Timeout::Never => Err(Fault::Poll),
            _ => Ok(()),
        }
    }

    fn next<Q: Wait>(&mut self, _rt: &Q) -> Option<SourceEvent<ClientSocket<'a, R>>> {
        let step = self.next_step()?;
        let event = match step {
            Step::Awaits(_) | Step::Rests | Step::LoginTimePasses | Step::Fails(_) => return None,
            Step::Connects(index) => self.accepted(index, None)?,
            Step::IsAsked(index) => self.accepted(index, Some([7; 16]))?,
            Step::Sends(index, message) => {
                if !self.progress.send(self.rt, index, message) {
                    return None;
                }
                let key = self.key_of(index);
                SourceEvent::Readable {
                    key,
                    closing: false,
                }
            }
            Step::HangsUp(index) => {
                self.progress.hang_up(self.rt, index);
                let key = self.key_of(index);
                SourceEvent::Readable { key, closing: true }
            }
            Step::TakesAll(index) => {
                self.progress.take_all(self.rt, index);
                let key = self.key_of(index);
                SourceEvent::Writable { key }
            }
            Step::Ends => SourceEvent::Ended,
        };
        self.step_over();
        Some(event)
    }

    fn login_time_passes(&mut self, is_wanted: bool) -> bool {
        self.is_timed = is_wanted;
        let Some(Step::LoginTimePasses) = self.next_step() else {
            return false;
        };
        self.step_over();
        is_wanted
    }

    fn watch(&mut self, key: usize, socket: &mut ClientSocket<'a, R>) -> bool {
        match self.keys.get_mut(socket.index) {
            Some(known) => {
                *known = key;
                true
            }
            None => false,
        }
    }

    fn refused(&mut self, fault: OpenFault) {
        self.progress.note_refused(self.rt, fault);
    }

    fn ended(&mut self, ended: Ended) {
        self.progress.note(self.rt, ended);
    }
}
