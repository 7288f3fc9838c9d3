//! What a conversation is set up with, and what a line is answered.

ghost use Rattle.std.specs.Prelude.{◌≡◌, ◌++◌, option_map, IfOk};
ghost use Rattle.std.specs.Arc.{arc_str_bytes};
ghost use Rattle.hex.specs.Hex.{encode_lower};
ghost use Rattle.sasl.specs.Lines.{hex_value, line_end, words};
ghost use Rattle.sasl.specs.Settings.{challenge_text, question};
ghost use Rattle.sasl.specs.Table.{server_line_text};
ghost use Rattle.sasl.specs.Hearing.{accepted, answer, answer_command, are, attempted, attempted_by, named, responded, responded_with, shows_cookie, shows_parts, traced};

use crate::command::Command;
use crate::digest::{are_equal, write_hex};
use crate::server_line::ServerLine;
use crate::words::{SPACE, Words, are_printable};
use crate::{AuthenticationFault, Awaited, Cookie, Identity, Phase, cookie_digest};
use hex::FromHexError;
use std::alloc::{AllocError, Global};
use std::marker::Model;
use std::sync::ArcStr;

const COOKIE_SHA1: &[u8] = b"DBUS_COOKIE_SHA1";

const ANONYMOUS: &[u8] = b"ANONYMOUS";

/// What a line is answered, and the state after.
type Answer = (ServerLine, Phase);

const REJECTED: Answer = (ServerLine::Reject, Phase::WaitingForAuth);

const CHALLENGED: Answer = (
    ServerLine::Challenge,
    Phase::WaitingForData(Awaited::Digest),
);

const BEGUN_EARLY: Answer = (
    ServerLine::Silence,
    Phase::Closed(AuthenticationFault::BeginEarly),
);

/// The client is who it says, once it begins.
fn accepted(identity: Identity) -> Answer
    ensures { result ≡ accepted identity }
{
    (ServerLine::Accept, Phase::WaitingForBegin(identity))
}

/// The bytes of a word in hex; none where it is no hex.
fn unhex(alloc: Global, word: &[u8]) -> Result<Option<Vec<u8>>, AllocError>
    ensures { IfOk result (λ found. option_map (λ bytes. bytes.items) found ≡ hex_value word.now) }
{
    match hex::decode(alloc, word) {
        Ok(bytes) => Ok(Some(bytes)),
        Err(FromHexError::OutOfMemory) => Err(AllocError),
        Err(_) => Ok(None),
    }
}

/// A line for the client: a word, bytes in hex, and the end.
fn line_of(alloc: Global, word: &[u8], bytes: &[u8]) -> Result<Vec<u8>, AllocError>
    ensures { IfOk result (λ line. line.items ≡ word.now ++ encode_lower bytes.now ++ line_end) }
{
    let hex = hex::encode(alloc, bytes)?;
    let mut line = Vec::from_slice(alloc, word)?;
    line.extend_from_slice(hex.as_bytes())?;
    line.extend_from_slice(b"\r\n")?;
    Ok(line)
}

/// What AUTH ANONYMOUS is answered, with this word behind it, where anonymous clients are let in.
fn traced(alloc: Global, word: Option<&[u8]>) -> Result<Answer, AllocError>
    ensures { IfOk result (λ turn. turn ≡ traced (option_map (λ w. w.now) word.entry)) }
{
    let Some(word) = word else {
        return Ok(accepted(Identity::Anonymous));
    };
    match unhex(alloc, word)? {
        Some(_) => Ok(accepted(Identity::Anonymous)),
        None => Ok(REJECTED),
    }
}

/// What a conversation is set up with.
#[derive(Drop)]
pub(crate) struct Setting {
    guid: [u8; 16],
    user: ArcStr,
    cookie: Cookie,
    challenge: [u8; 16],
    allow_anonymous: bool,
}

impl Model for Setting {
    ghost use Rattle.std.specs.Arc.{arc_str_bytes};
    ghost use Rattle.sasl.specs.Settings.{Setting as Said};

    ghost Value = { Said };

    ghost view = { λ s. record {
      login = record {
        guid = s.guid;
        user = arc_str_bytes s.user;
        cookie = s.cookie;
        allow_anonymous = s.allow_anonymous;
      };
      challenge = s.challenge;
    } };
}

impl Setting {
    pub fn new(
        guid: [u8; 16],
        user: ArcStr,
        cookie: Cookie,
        challenge: [u8; 16],
        allow_anonymous: bool,
    ) -> Setting
        ensures { result ≡ record {
          login = record {
            guid = guid;
            user = arc_str_bytes user;
            cookie = cookie;
            allow_anonymous = allow_anonymous;
          };
          challenge = challenge;
        } }
    {
        Setting {
            guid,
            user,
            cookie,
            challenge,
            allow_anonymous,
        }
    }

    /// The challenge as the client is told it.
    fn challenge_text(&self) -> [u8; 32]
        ensures { result ≡ challenge_text self.now }
    {
        let mut text = [0; 32];
        write_hex(&self.challenge, &mut text);
        text
    }

    /// What a client is asked that says it is the user.
    fn question(&self, alloc: Global) -> Result<Vec<u8>, AllocError>
        ensures { IfOk result (λ bytes. bytes.items ≡ question self.now) }
    {
        let mut question = Vec::from_slice(alloc, b"org_freedesktop_general ")?;
        question.extend_from_slice(self.cookie.id())?;
        question.push(SPACE)?;
        question.extend_from_slice(&self.challenge_text())?;
        Ok(question)
    }

    /// A reply as it is sent.
    pub fn server_line_text(&self, alloc: Global, reply: ServerLine) -> Result<Vec<u8>, AllocError>
        ensures { IfOk result (λ bytes. bytes.items ≡ server_line_text self.now reply) }
    {
        match reply {
            ServerLine::Challenge => line_of(alloc, b"DATA ", &self.question(alloc)?),
            ServerLine::AskName => Vec::from_slice(alloc, b"DATA\r\n"),
            ServerLine::Accept => line_of(alloc, b"OK ", &self.guid),
            ServerLine::Reject if self.allow_anonymous => Vec::from_slice(
                alloc,
                b"REJECTED DBUS_COOKIE_SHA1 ANONYMOUS\r\n",
            ),
            ServerLine::Reject => Vec::from_slice(alloc, b"REJECTED DBUS_COOKIE_SHA1\r\n"),
            ServerLine::NotUnderstood => Vec::from_slice(alloc, b"ERROR\r\n"),
            ServerLine::Silence => Ok(Vec::new(alloc)),
        }
    }

    /// Whether a word is the hex of the user's name.
    fn names_user(&self, alloc: Global, word: &[u8]) -> Result<bool, AllocError>
        ensures { IfOk result (λ b. b ≡ are self.now.login.user (hex_value word.now)) }
    {
        match unhex(alloc, word)? {
            Some(name) => Ok(name.as_slice() == self.user.as_bytes()),
            None => Ok(false),
        }
    }

    /// Whether these are a client's challenge and the digest of it.
    fn is_shown(&self, words: &mut Words<'_>) -> bool
        ensures { result ≡ shows_parts self.now words.old }
    {
        let Some(client) = words.next() else {
            return false;
        };
        let Some(digest) = words.next() else {
            return false;
        };
        let right = cookie_digest(&self.challenge_text(), client, self.cookie.secret());
        words.is_empty() && !client.is_empty() && are_equal(&right, digest)
    }

    /// Whether a word is the hex of what shows that the client knows the cookie.
    fn shows_cookie(&self, alloc: Global, word: &[u8]) -> Result<bool, AllocError>
        ensures { IfOk result (λ b. b ≡ shows_cookie self.now (hex_value word.now)) }
    {
        let Some(said) = unhex(alloc, word)? else {
            return Ok(false);
        };
        Ok(self.is_shown(&mut Words::of(&said)))
    }

    /// What AUTH DBUS_COOKIE_SHA1 is answered, with this word behind it.
    fn named(&self, alloc: Global, word: Option<&[u8]>) -> Result<Answer, AllocError>
        ensures { IfOk result (λ turn. turn ≡ named self.now (option_map (λ w. w.now) word.entry)) }
    {
        let Some(name) = word else {
            return Ok((ServerLine::AskName, Phase::WaitingForData(Awaited::Name)));
        };
        if self.names_user(alloc, name)? {
            Ok(CHALLENGED)
        } else {
            Ok(REJECTED)
        }
    }

    /// What AUTH with this mechanism is answered, and this word behind it.
    fn attempted_by(
        &self,
        alloc: Global,
        mechanism: &[u8],
        word: Option<&[u8]>,
    ) -> Result<Answer, AllocError>
        ensures { IfOk result (λ turn.
            turn ≡ attempted_by self.now mechanism.now (option_map (λ w. w.now) word.entry)) }
    {
        if mechanism == COOKIE_SHA1 {
            self.named(alloc, word)
        } else if mechanism == ANONYMOUS && self.allow_anonymous {
            traced(alloc, word)
        } else {
            Ok(REJECTED)
        }
    }

    /// What AUTH with these words behind it is answered.
    fn attempted(&self, alloc: Global, words: &mut Words<'_>) -> Result<Answer, AllocError>
        ensures { IfOk result (λ turn. turn ≡ attempted self.now words.old) }
    {
        let Some(mechanism) = words.next() else {
            return Ok(REJECTED);
        };
        let word = words.next();
        if words.is_empty() {
            self.attempted_by(alloc, mechanism, word)
        } else {
            Ok(REJECTED)
        }
    }

    /// What DATA with this word behind it is answered, where it is awaited.
    fn responded_with(&self, alloc: Global, due: Awaited, word: &[u8]) -> Result<Answer, AllocError>
        ensures { IfOk result (λ turn. turn ≡ responded_with self.now due word.now) }
    {
        let (right, answer) = match due {
            Awaited::Name => (self.names_user(alloc, word)?, CHALLENGED),
            Awaited::Digest => (self.shows_cookie(alloc, word)?, accepted(Identity::User)),
        };
        Ok(if right { answer } else { REJECTED })
    }

    /// What DATA with these words behind it is answered, where it is awaited.
    fn responded(
        &self,
        alloc: Global,
        due: Awaited,
        words: &mut Words<'_>,
    ) -> Result<Answer, AllocError>
        ensures { IfOk result (λ turn. turn ≡ responded self.now due words.old) }
    {
        match words.next() {
            Some(word) if words.is_empty() => self.responded_with(alloc, due, word),
            _ => Ok(REJECTED),
        }
    }

    /// What a command with these words behind it is answered, and the state after.
    fn answer_command(
        &self,
        alloc: Global,
        phase: Phase,
        command: Command,
        words: &mut Words<'_>,
    ) -> Result<Answer, AllocError>
        ensures { IfOk result (λ turn. turn ≡ answer_command self.now phase command words.old) }
    {
        match (phase, command) {
            (Phase::WaitingForAuth, Command::Auth) => self.attempted(alloc, words),
            (Phase::WaitingForAuth, Command::Error) => Ok(REJECTED),
            (Phase::WaitingForAuth, Command::Begin) => Ok(BEGUN_EARLY),

            (Phase::WaitingForData(due), Command::Data) => self.responded(alloc, due, words),
            (Phase::WaitingForData(_), Command::Error | Command::Cancel) => Ok(REJECTED),
            (Phase::WaitingForData(_), Command::Begin) => Ok(BEGUN_EARLY),

            (Phase::WaitingForBegin(identity), Command::Begin) => Ok((
                ServerLine::Silence,
                Phase::Done(identity),
            )),
            (Phase::WaitingForBegin(_), Command::Error | Command::Cancel) => Ok(REJECTED),

            _ => Ok((ServerLine::NotUnderstood, phase)),
        }
    }

    /// What a line, without its end, is answered, and the state after.
    pub fn answer(&self, alloc: Global, phase: Phase, line: &[u8]) -> Result<Answer, AllocError>
        ensures { IfOk result (λ turn. turn ≡ answer self.now phase (words line.now)) }
    {
        if !are_printable(line) {
            return Ok((ServerLine::NotUnderstood, phase));
        }
        let mut words = Words::of(line);
        let Some(word) = words.next() else {
            return Ok((ServerLine::NotUnderstood, phase));
        };
        let command = Command::of(word, &words);
        self.answer_command(alloc, phase, command, &mut words)
    }
}
