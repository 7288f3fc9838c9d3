//! Cookies.

ghost use Rattle.std.specs.Prelude.{◌≡◌, IfOk};

use std::alloc::{AllocError, Global};
use std::marker::Model;
use std::sync::Arc;

#[derive(Drop)]
struct Parts {
    id: Vec<u8>,
    secret: Vec<u8>,
}

/// A secret that a server shares with its user, and the number by which the user finds it in its
/// keyring. Whoever knows the secret is taken for the user. (D-Bus Specification:
/// "DBUS_COOKIE_SHA1".)
pub struct Cookie {
    parts: Arc<Parts>,
}

impl Model for Cookie {
    ghost use Rattle.std.specs.Arc.{arc_value};
    ghost use Rattle.sasl.specs.Settings.{Cookie as Said};

    ghost Value = { Said };

    ghost view = { λ c.
        record { id = (arc_value c.parts).id.items; secret = (arc_value c.parts).secret.items } };
}

impl Drop for Cookie {
    fn drop(self) {
        let Cookie { parts } = self;
        drop(parts);
    }
}

impl Cookie {
    /// A cookie of this number, in digits, and this secret. It takes memory.
    pub fn new(alloc: Global, id: &[u8], secret: &[u8]) -> Result<Cookie, AllocError>
        ensures { IfOk result (λ cookie. cookie ≡ record { id = id.now; secret = secret.now }) }
    {
        let id = Vec::from_slice(alloc, id)?;
        let secret = Vec::from_slice(alloc, secret)?;
        match Arc::new(alloc, Parts { id, secret }) {
            Ok(parts) => Ok(Cookie { parts }),
            Err(_) => Err(AllocError),
        }
    }

    /// The number, in digits.
    pub fn id(&self) -> &[u8]
        ensures { result.now ≡ self.now.id }
    {
        &self.parts.id
    }

    /// The secret itself.
    pub fn secret(&self) -> &[u8]
        ensures { result.now ≡ self.now.secret }
    {
        &self.parts.secret
    }

    /// The same cookie, for one more. Nothing is copied; it fails where too many share it already.
    pub fn try_clone(&self) -> Result<Cookie, AllocError>
        ensures { IfOk result (λ cookie. cookie ≡ self.now) }
    {
        let parts = Arc::try_clone(&self.parts)?;
        Ok(Cookie { parts })
    }
}
