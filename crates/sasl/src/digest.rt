//! What shows that a client knows a cookie.

ghost use Rattle.std.specs.Prelude.{◌≡◌, ◌*◌, length};
ghost use Rattle.std.specs.Str.{bytes_eq};
ghost use Rattle.hex.specs.Hex.{encode_lower};
ghost use Rattle.sasl.specs.Settings.{cookie_digest};

use sha1::Sha1;

/// Writes bytes in hex where there is just room for them.
pub(crate) fn write_hex(bytes: &[u8], room: &mut [u8])
    requires { length room.old ≡ 2 * length bytes.now }
    ensures { room.new ≡ encode_lower bytes.now }
{
    let _ = hex::encode_to_slice(bytes, room);
}

/// The digest by which a client shows that it knows the cookie: the hex of the SHA-1 of the
/// server's challenge, as it was sent, the client's own, and the cookie, with colons between them.
/// No memory is taken. (D-Bus Specification: "DBUS_COOKIE_SHA1".)
pub fn cookie_digest(challenge: &[u8], client: &[u8], cookie: &[u8]) -> [u8; 40]
    ensures { result ≡ cookie_digest challenge.now client.now cookie.now }
{
    let mut hasher = Sha1::new();
    hasher.update(challenge);
    hasher.update(b":");
    hasher.update(client);
    hasher.update(b":");
    hasher.update(cookie);
    let mut digest = [0; 40];
    write_hex(&hasher.finalize(), &mut digest);
    digest
}

/// Whether a client's digest is the right one. Every byte is looked at, whichever differs, so that
/// the time it takes tells nothing about the right one.
pub(crate) fn are_equal(right: &[u8; 40], found: &[u8]) -> bool
    ensures { result ≡ bytes_eq found.now right.now }
{
    if found.len() != right.len() {
        return false;
    }
    let mut same = true;
    for i in 0..right.len() {
        same &= right[i] == found[i];
    }
    same
}
