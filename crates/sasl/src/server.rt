//! One conversation.

ghost use Rattle.std.specs.Prelude.{◌≡◌, ◌⊎◌, ◌<◌, ◌≤◌, true, [], ◌∷◌, ◌++◌, OnOk, OnErr};
ghost use Rattle.std.specs.Arc.{arc_str_bytes};
ghost use Rattle.sasl.specs.declared.phase.Phase.TheVariants.{Closed as closed};
ghost use Rattle.sasl.specs.Conversations.{after, at, is_open, reads_lines};

use crate::server_line::ServerLine;
use crate::setting::Setting;
use crate::words::completes_end;
use crate::{AuthenticationFault, Cookie, Phase, Progress, Step};
use std::alloc::{AllocError, Global};
use std::marker::Model;
use std::sync::ArcStr;

/// The most bytes of a line, with its end.
const MAX_LINE: usize = 4096;

/// The rejection that closes.
const MAX_REJECTIONS: u64 = 6;

/// The server's side of the conversation by which a client is let in. (D-Bus Specification:
/// "Authentication Protocol".)
///
/// Bytes may come in any pieces: what is sent, and how it ends, depend on the bytes so far and not
/// on their cuts.
pub struct Server {
    alloc: Global,
    setting: Setting,
    phase: Phase,
    rejections: u64,
    line: Vec<u8>,
}

impl Model for Server {
    ghost use Rattle.sasl.specs.Servers.{Speaker, IsKept};

    ghost Value = { Speaker };

    ghost view = { λ s. record {
      setting = s.setting;
      state = record { phase = s.phase; rejections = s.rejections };
      unfinished = s.line.items;
    } };

    ghost invariant = { λ s. IsKept s.phase s.rejections s.line.items };
}

impl Drop for Server {
    fn drop(self) {
        let Server {
            alloc: _,
            setting,
            phase: _,
            rejections: _,
            line,
        } = self;
        drop(setting);
        drop(line);
    }
}

/// The state after a reply: rejections are counted, and the sixth closes.
fn after(reply: ServerLine, next: Phase, rejections: u64) -> (Phase, u64)
    requires { rejections < MAX_REJECTIONS }
    ensures state { at result.0 result.1 ≡ after reply next rejections }
    ensures few { is_open result.0 ≡ true → result.1 < MAX_REJECTIONS }
{
    match reply {
        ServerLine::Reject if rejections + 1 < MAX_REJECTIONS => (next, rejections + 1),
        ServerLine::Reject => (
            Phase::Closed(AuthenticationFault::Rejections),
            rejections + 1,
        ),
        _ => (next, rejections),
    }
}

impl Server {
    ghost use Rattle.sasl.specs.Servers.{GoesOn, HandsOn, Hears, HearsNothing, IsCutOff, IsTold, brought_by, brought_by_line, brought_in_line, newcomer};

    /// A server that has heard nothing. It has the sixteen bytes of its GUID, the name of the user
    /// whose cookie this is, a challenge of sixteen bytes that nobody can guess, and lets anonymous
    /// clients in or not. No memory is taken.
    pub fn new(
        alloc: Global,
        guid: [u8; 16],
        user: ArcStr,
        cookie: Cookie,
        challenge: [u8; 16],
        allow_anonymous: bool,
    ) -> Server
        ensures { result ≡ newcomer (record {
          login = record {
            guid = guid;
            user = arc_str_bytes user;
            cookie = cookie;
            allow_anonymous = allow_anonymous;
          };
          challenge = challenge;
        }) }
    {
        Server {
            alloc,
            setting: Setting::new(guid, user, cookie, challenge, allow_anonymous),
            phase: Phase::WaitingForNul,
            rejections: 0,
            line: Vec::new(alloc),
        }
    }

    /// Takes a piece of the client's bytes, and says what is to be sent and where the conversation
    /// stands. Once it is done, each piece is handed on whole, and once it is closed, it stays so:
    /// nothing is sent.
    ///
    /// # Errors
    ///
    /// `Closed` with the fault that the bytes so far have, or with `NoMemory`, only where memory
    /// was refused, and then for good.
    pub fn feed<'a>(&mut self, piece: &'a [u8]) -> Step<'a>
        ensures { GoesOn self.old piece.now result self.new
            ⊎ IsCutOff self.old piece.now result self.new }
    {
        let mut sent = Vec::new(self.alloc);
        let mut used = 0;
        while used < piece.len() && self.phase.is_open() {
            match self.hear(piece[used], &mut sent) {
                Ok(()) => used += 1,
                Err(_) => {
                    self.close(AuthenticationFault::NoMemory);
                    let progress = Progress::Closed(AuthenticationFault::NoMemory);
                    return Step { sent, progress };
                }
            }
        }
        let progress = self.progress(&piece[used..]);
        Step { sent, progress }
    }

    /// Where the conversation stands, with these bytes behind it.
    fn progress<'a>(&self, rest: &'a [u8]) -> Progress<'a>
        ensures told { IsTold self.now.state.phase result }
        ensures rest { HandsOn result rest.now }
    {
        match self.phase {
            Phase::Done(identity) => Progress::Done { identity, rest },
            Phase::Closed(fault) => Progress::Closed(fault),
            _ => Progress::Going,
        }
    }

    /// Closes the conversation.
    fn close(&mut self, fault: AuthenticationFault)
        ensures { self.new ≡ record self.old {
          state = at (closed fault) self.old.state.rejections;
          unfinished = [];
        } }
    {
        self.phase = Phase::Closed(fault);
        self.line.clear();
    }

    /// Takes one byte, and adds what is to be sent.
    fn hear(&mut self, byte: u8, sent: &mut Vec<u8>) -> Result<(), AllocError>
        requires { is_open self.old.state.phase ≡ true }
        ensures ok { OnOk result
            (Hears self.old (brought_by self.old byte) sent.old.items self.new sent.new.items) }
        ensures err { OnErr result (HearsNothing self.old sent.old.items self.new sent.new.items) }
    {
        if let Phase::WaitingForNul = self.phase {
            if byte == 0 {
                self.phase = Phase::WaitingForAuth;
            } else {
                self.close(AuthenticationFault::FirstByte);
            }
            return Ok(());
        }
        self.hear_in_line(byte, sent)
    }

    /// Takes one byte of a line, and adds what is to be sent.
    fn hear_in_line(&mut self, byte: u8, sent: &mut Vec<u8>) -> Result<(), AllocError>
        requires { reads_lines self.old.state.phase ≡ true }
        ensures ok { OnOk result (Hears self.old (brought_in_line self.old byte)
            sent.old.items self.new sent.new.items) }
        ensures err { OnErr result (HearsNothing self.old sent.old.items self.new sent.new.items) }
    {
        if completes_end(&self.line, byte) {
            self.line.pop();
            return self.hear_line(sent);
        }
        if self.line.len() + 1 < MAX_LINE {
            self.line.push(byte)?;
        } else {
            self.close(AuthenticationFault::LineTooLong);
        }
        Ok(())
    }

    /// Answers the line that has come, without its end, and adds what is to be sent.
    fn hear_line(&mut self, sent: &mut Vec<u8>) -> Result<(), AllocError>
        requires { reads_lines self.old.state.phase ≡ true }
        ensures ok { OnOk result
            (Hears self.old (brought_by_line self.old) sent.old.items self.new sent.new.items) }
        ensures err { OnErr result (HearsNothing self.old sent.old.items self.new sent.new.items) }
    {
        let (reply, next) = self.setting.answer(self.alloc, self.phase, &self.line)?;
        let text = self.setting.server_line_text(self.alloc, reply)?;
        sent.extend_from_slice(&text)?;
        let (phase, rejections) = after(reply, next, self.rejections);
        self.phase = phase;
        self.rejections = rejections;
        self.line.clear();
        Ok(())
    }
}
