//! A conversation by which a client is let in.

use sasl::{AuthenticationFault, Identity, KeyringFault, Progress, Server, read_keyring};
use std::alloc::{AllocError, Global};
use std::sync::ArcStr;
use test_support::messages::HELLO;

/// The first piece of a client, which asks for two mechanisms,
const ASKS: &[u8] = b"\0AUTH EXTERNAL 31303030\r\nAUTH DBUS_COOKIE_SHA1\r\n";

/// the second, which ends within a line,
const NAMES: &[u8] = b"DATA 616c696365\r\nDATA 61626364203332653731";

/// and the third, which ends that line, and has one that the server does not know.
const ANSWERS: &[u8] =
    b"3435333039613434313531663962646234326364653933343537626138666432353164\r\nHELLO\r\n";

/// The pieces of a client, of which the last has a byte of a message.
pub const PIECES: [&[u8]; 4] = [ASKS, NAMES, ANSWERS, b"BEGIN\r\nl"];

/// The same, of a client whose first message comes in a piece of its own.
pub const CONVERSATION: [&[u8]; 5] = [ASKS, NAMES, ANSWERS, b"BEGIN\r\n", HELLO];

/// What the server sends in all.
pub const SENT: &[u8] =
    b"REJECTED DBUS_COOKIE_SHA1 ANONYMOUS\r\nDATA\r\nDATA 6f72675f667265656465736b746f705f67656e6572616c2035203030303130323033303430353036303730383039306130623063306430653066\r\nOK a0a1a2a3a4a5a6a7a8a9aaabacadaeaf\r\nERROR\r\n";

/// What identifies the bus.
pub const GUID: [u8; 16] = *b"\xa0\xa1\xa2\xa3\xa4\xa5\xa6\xa7\xa8\xa9\xaa\xab\xac\xad\xae\xaf";

/// What nobody could guess.
pub const CHALLENGE: [u8; 16] = [0, 1, 2, 3, 4, 5, 6, 7, 8, 9, 10, 11, 12, 13, 14, 15];

/// Whether a closed server stays closed and sends nothing.
fn stays_closed(server: &mut Server) -> bool {
    let step = server.feed(b"AUTH\r\n");
    step.sent.is_empty() && step.progress == Progress::Closed(AuthenticationFault::NoMemory)
}

/// Whether the client is let in; an error where memory was refused, and all calls said so. What the
/// server sends is appended.
fn converse(server: &mut Server, sent: &mut Vec<u8>) -> Result<bool, AllocError> {
    let mut is_done = false;
    for piece in PIECES {
        let step = server.feed(piece);
        sent.extend_from_slice(&step.sent)?;
        match step.progress {
            Progress::Going => {}
            Progress::Done { identity, rest } => {
                is_done = identity == Identity::User && rest == b"l".as_slice();
            }
            Progress::Closed(AuthenticationFault::NoMemory) => {
                return if stays_closed(server) {
                    Err(AllocError)
                } else {
                    Ok(false)
                };
            }
            Progress::Closed(_) => return Ok(false),
        }
    }
    Ok(is_done)
}

/// Whether the client is let in, and all that is sent is as it should be.
fn let_in(alloc: Global) -> Result<bool, AllocError> {
    let cookie = match read_keyring(alloc, b"4 1 decaf\n5 2 c0ffee\n") {
        Ok(cookie) => cookie,
        Err(KeyringFault::NoMemory) => return Err(AllocError),
        Err(_) => return Ok(false),
    };
    let user = ArcStr::from_str(alloc, "alice")?;
    let mut server = Server::new(alloc, GUID, user, cookie, CHALLENGE, true);
    let mut sent = Vec::new(alloc);
    let is_done = converse(&mut server, &mut sent);
    drop(server);
    Ok(is_done? && sent.as_slice() == SENT)
}

/// Whether a client is let in, at the second try where memory was refused at the first.
pub fn is_let_in(alloc: Global) -> bool {
    match let_in(alloc) {
        Ok(is_right) => is_right,
        Err(_) => let_in(alloc).unwrap_or(false),
    }
}
