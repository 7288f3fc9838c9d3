//! Scenarios.

ghost use Rattle.std.specs.Prelude.{◌≤◌, ◌<◌};

use crate::words::Words;
use router::Login;
use sasl::Cookie;
use std::alloc::{AllocError, Global};
use std::sync::ArcStr;

/// Who has the bus.
#[derive(Clone, Copy, PartialEq, Eq)]
pub enum View {
    /// One thread.
    Plain,
    /// Several routers.
    Registry,
    /// Each of the two must answer the same.
    Both,
    /// An engine that no host serves.
    Engine,
}

/// How the bytes of a client come that it sends at once.
#[derive(Clone, Copy, PartialEq, Eq)]
pub enum Pieces {
    Whole,
    /// In two pieces, of which the first has this length, or all bytes where they are fewer.
    CutAt(usize),
    ByteByByte,
}

impl Pieces {
    /// Where so many bytes are cut first.
    pub fn cut(self, length: usize) -> usize
        ensures { result ≤ length }
    {
        match self {
            Pieces::CutAt(place) => place.min(length),
            Pieces::Whole => length,
            Pieces::ByteByByte => length.min(1),
        }
    }

    /// How long a piece is at most that follows.
    pub fn longest(self) -> usize
        ensures { 0 < result }
    {
        match self {
            Pieces::ByteByByte => 1,
            Pieces::Whole | Pieces::CutAt(_) => usize::MAX,
        }
    }
}

/// The rows of a scenario, and what its first rows say of the bus.
#[derive(Clone, Copy)]
pub struct Scenario<'a> {
    pub rows: &'a [String],
    pub view: View,
    /// How many routers the bus has.
    pub routers: u8,
    pub pieces: Pieces,
    /// It is played again byte by byte,
    pub is_again: bool,
    /// and cut at each place up to this.
    pub last_cut: usize,
    /// It is told what a gate finds of the bus.
    pub is_watched: bool,
    has_login: bool,
    lets_in_anybody: bool,
}

impl<'a> Scenario<'a> {
    pub fn new(rows: &'a [String]) -> Scenario<'a> {
        let mut scenario = Scenario {
            rows,
            view: View::Plain,
            routers: 1,
            pieces: Pieces::Whole,
            is_again: false,
            last_cut: 0,
            is_watched: false,
            has_login: false,
            lets_in_anybody: false,
        };
        for row in rows {
            scenario.read(Words::of(row.as_str()));
        }
        scenario
    }

    /// What a row says of the bus, if it does.
    fn read(&mut self, mut words: Words<'_>) {
        match words.next() {
            "bus" => {
                self.view = match words.next() {
                    "plain" => View::Plain,
                    "registry" => View::Registry,
                    _ => View::Both,
                };
                self.routers = u8::try_from(words.number()).unwrap_or(0);
            }
            "engine" => self.view = View::Engine,
            "watch" => self.is_watched = true,
            "login" => {
                self.has_login = true;
                self.lets_in_anybody = words.next() == "anonymous";
            }
            "again" => {
                self.is_again = true;
                let _cut = words.next();
                self.last_cut = words.number() as usize;
            }
            _ => {}
        }
    }

    /// The same, where bytes come in these pieces.
    pub fn in_pieces(self, pieces: Pieces) -> Scenario<'a> {
        Scenario { pieces, ..self }
    }

    /// Who may log in, if anybody may.
    pub fn login(&self, alloc: Global) -> Result<Option<Login>, AllocError> {
        if !self.has_login {
            return Ok(None);
        }
        Ok(Some(Login {
            guid: *b"\xa0\xa1\xa2\xa3\xa4\xa5\xa6\xa7\xa8\xa9\xaa\xab\xac\xad\xae\xaf",
            user: ArcStr::from_str(alloc, "alice")?,
            cookie: Cookie::new(alloc, b"5", b"c0ffee")?,
            allow_anonymous: self.lets_in_anybody,
        }))
    }
}
