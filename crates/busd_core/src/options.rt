//! What the command line asks for.

ghost use Rattle.std.specs.Prelude.{◌≤◌, IfOk};

use crate::address::SocketPath;
use crate::serve_fault::ServeFault;
use clap::ArgMatches;

/// What `busd serve` is asked for.
#[derive(Clone, Copy)]
pub struct Options<'a> {
    pub path: SocketPath<'a>,
    /// How many threads serve connections, 1 to 8.
    pub routers: u8,
    /// The folder of the services' files.
    pub services: &'a str,
    /// The file of the cookies.
    pub keyring: &'a str,
    /// The name of the user whose cookies they are.
    pub user: &'a str,
    /// The folder that the run is recorded in, if it is to be.
    pub trace: Option<&'a str>,
    pub allow_anonymous: bool,
    pub prints_address: bool,
    pub is_verbose: bool,
}

impl<'a> Options<'a> {
    /// What the matches of [`serve_command`](crate::serve_command) ask for.
    ///
    /// # Errors
    ///
    /// `Address` where the path is none that an address holds as it is.
    pub fn of(found: &ArgMatches<'a>) -> Result<Options<'a>, ServeFault>
        ensures { IfOk result (λ options. (1 ≤ options.routers) × (options.routers ≤ 8)) }
    {
        let Some(path) = SocketPath::of(found.get_str("address").unwrap_or("")) else {
            return Err(ServeFault::Address);
        };
        Ok(Options {
            path,
            routers: found.get_one::<u8>("routers").unwrap_or(1).clamp(1, 8),
            services: found.get_str("services").unwrap_or(""),
            keyring: found.get_str("keyring").unwrap_or(""),
            user: found.get_str("user").unwrap_or(""),
            trace: found.get_str("trace"),
            allow_anonymous: found.get_flag("anonymous"),
            prints_address: found.get_flag("print-address"),
            is_verbose: found.get_flag("verbose"),
        })
    }
}
