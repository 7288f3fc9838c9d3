//! Who may log in.

use busd_core::{Options, ServeFault};
use router::Login;
use sasl::Cookie;
use std::alloc::Global;
use std::sync::ArcStr;

/// Who may log in, and what the bus is known by.
#[derive(Drop)]
pub(crate) struct LoginSettings<'a> {
    pub(crate) guid: [u8; 16],
    pub(crate) user: &'a str,
    pub(crate) cookie: Cookie,
    pub(crate) allow_anonymous: bool,
}

impl<'a> LoginSettings<'a> {
    /// What the options ask for, with the cookie of their keyring.
    pub(crate) fn new(options: &Options<'a>, guid: [u8; 16], cookie: Cookie) -> LoginSettings<'a> {
        LoginSettings {
            guid,
            user: options.user,
            cookie,
            allow_anonymous: options.allow_anonymous,
        }
    }

    /// The login of one router.
    pub(crate) fn login(&self, alloc: Global) -> Result<Login, ServeFault> {
        Ok(Login {
            guid: self.guid,
            user: ArcStr::from_str(alloc, self.user)?,
            cookie: self.cookie.try_clone()?,
            allow_anonymous: self.allow_anonymous,
        })
    }
}
