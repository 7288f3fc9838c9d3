//! Who may log in.

use sasl::Cookie;
use std::marker::Model;
use std::sync::ArcStr;

/// Who may log in: the user whose cookie this is, and, where they are allowed, anonymous clients.
/// (D-Bus Specification: "Authentication Mechanisms".)
pub struct Login {
    /// What identifies the bus to its clients.
    pub guid: [u8; 16],
    pub user: ArcStr,
    pub cookie: Cookie,
    pub allow_anonymous: bool,
}

impl Model for Login {
    ghost use Rattle.std.specs.Arc.{arc_str_bytes};
    ghost use Rattle.sasl.specs.Settings.{Login as Allowed};

    ghost Value = { Allowed };

    ghost view = { λ l. record {
      guid = l.guid;
      user = arc_str_bytes l.user;
      cookie = l.cookie;
      allow_anonymous =
          l.allow_anonymous;
    } };
}

impl Drop for Login {
    fn drop(self) {
        let Login {
            guid: _,
            user,
            cookie,
            allow_anonymous: _,
        } = self;
        drop(user);
        drop(cookie);
    }
}
