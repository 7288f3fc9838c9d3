//! Rows of conversations with a server.

use sasl::{Cookie, Identity, Progress, Server, cookie_digest};
use sha1::Sha1;
use std::alloc::{AllocError, Global};
use std::str;
use std::sync::ArcStr;
use test_support::{Escaped, Row};

/// What became of a conversation: all that was sent, how it stands, and all that was handed on.
#[derive(PartialEq, Drop)]
struct Outcome {
    sent: Vec<u8>,
    end: End,
    rest: Vec<u8>,
}

#[derive(Clone, Copy, PartialEq)]
enum End {
    Going,
    Done(Identity),
    Closed(u8),
}

/// Speaks to a server whose user's cookie is that of the line `5 1700000000 c0ffee`, and whose
/// challenge are the bytes 0 to 15, in pieces of this length.
fn speak(
    alloc: Global,
    user: &str,
    allow_anonymous: bool,
    text: &[u8],
    length: usize,
) -> Result<Outcome, AllocError> {
    let guid = *b"\xa0\xa1\xa2\xa3\xa4\xa5\xa6\xa7\xa8\xa9\xaa\xab\xac\xad\xae\xaf";
    let challenge = [0, 1, 2, 3, 4, 5, 6, 7, 8, 9, 10, 11, 12, 13, 14, 15];
    let user = ArcStr::from_str(alloc, user)?;
    let cookie = Cookie::new(alloc, b"5", b"c0ffee")?.try_clone()?;
    let mut server = Server::new(alloc, guid, user, cookie, challenge, allow_anonymous);
    let mut outcome = Outcome {
        sent: Vec::new(alloc),
        end: End::Going,
        rest: Vec::new(alloc),
    };
    let spoken = feed(&mut server, text, length, &mut outcome);
    drop(server);
    spoken?;
    Ok(outcome)
}

/// Feeds the server a text in pieces of a length.
fn feed(
    server: &mut Server,
    text: &[u8],
    length: usize,
    outcome: &mut Outcome,
) -> Result<(), AllocError> {
    for piece in text.chunks(length.max(1)) {
        let step = server.feed(piece);
        outcome.sent.extend_from_slice(&step.sent)?;
        outcome.end = match step.progress {
            Progress::Going => End::Going,
            Progress::Done { identity, rest } => {
                outcome.rest.extend_from_slice(rest)?;
                End::Done(identity)
            }
            Progress::Closed(fault) => End::Closed(fault.code()),
        };
    }
    Ok(())
}

/// `talk | USER | anonymous or not | BYTES`: what the server sends, and how the conversation
/// stands, in one piece and byte by byte.
fn talk(
    alloc: Global,
    user: &str,
    allow_anonymous: bool,
    text: &[u8],
) -> Result<String, AllocError> {
    let whole = speak(alloc, user, allow_anonymous, text, text.len())?;
    if speak(alloc, user, allow_anonymous, text, 1)? != whole {
        return String::from_str(alloc, "the cut makes a difference");
    }
    let sent = Escaped(&whole.sent);
    let rest = Escaped(&whole.rest);
    match whole.end {
        End::Going => format!(in alloc; "{sent} going"),
        End::Done(identity) => format!(in alloc; "{sent} {identity:?}, then {rest}"),
        End::Closed(code) => format!(in alloc; "{sent} closed {code}"),
    }
}

/// `letters | NUMBER`: a line of so many letters.
fn letters(alloc: Global, number: u64) -> Result<String, AllocError> {
    let mut text = vec![in alloc; 0]?;
    for _ in 0..number {
        text.push(b'x')?;
    }
    text.extend_from_slice(b"\r\n")?;
    talk(alloc, "alice", false, &text)
}

/// `talk`, `letters`; `digest | CHALLENGE | CLIENT | COOKIE`: what shows that a client knows the
/// cookie; `sha1 | BYTES`: the hash that it stands on.
pub fn authentication(alloc: Global, row: &Row<'_>) -> Result<String, AllocError> {
    match row.text(0) {
        "talk" => talk(
            alloc,
            row.text(1),
            row.text(2) == "anonymous",
            &row.bytes(alloc, 3)?,
        ),
        "letters" => letters(alloc, row.number(1)),
        "digest" => {
            let digest = cookie_digest(
                &row.bytes(alloc, 1)?,
                &row.bytes(alloc, 2)?,
                &row.bytes(alloc, 3)?,
            );
            String::from_str(alloc, str::from_utf8(&digest).unwrap_or("no text"))
        }
        "sha1" => hex::encode(alloc, Sha1::digest(&row.bytes(alloc, 1)?)),
        _ => String::from_str(alloc, "no such row"),
    }
}
