//! A bus that clients can connect to.

use crate::fault::listen_fault;
use crate::login::LoginSettings;
use crate::polls::{Polls, open_polls};
use crate::runtime::DaemonRuntime;
use crate::serving::serve_bus;
use crate::tracing::{TraceFile, begin_files, open_files};
use busd_core::{
    Options, ServeFault, SocketPath, TraceFiles, open_random, random_bytes, read_cookie,
    read_services, rising_names,
};
use busd_sockets::{Entrance, NewConnections, PollWaker};
use mio::Poll;
use mio::net::UnixListener;
use names::WellKnown;
use routers::Coordinator;
use sasl::Cookie;
use service_files::Service;
use std::alloc::{AllocError, Global};
use std::fmt;
use std::fs::{OpenFile, remove_file};
use std::io::Write;
use std::net::Net;
use std::rt::Files;

/// A bus that clients can connect to. Any thread may stop it.
pub struct Bus<'a> {
    pub(crate) options: Options<'a>,
    pub(crate) login: LoginSettings<'a>,
    pub(crate) coordinator: Coordinator<PollWaker>,
    /// By routers.
    pub(crate) new_connections: Vec<NewConnections>,
}

impl Drop for Bus<'_> {
    fn drop(self) {
        let Bus {
            options,
            login,
            coordinator,
            new_connections,
        } = self;
        drop(options);
        drop(login);
        drop(coordinator);
        drop(new_connections);
    }
}

/// What the threads of a bus will work with, made when it is opened.
#[derive(Drop)]
pub struct Listening<F: Drop> {
    pub(crate) entrance: Entrance<F>,
    pub(crate) services: Vec<Service>,
    /// Their names, which rise.
    pub(crate) names: Vec<WellKnown>,
    /// By seats.
    pub(crate) traces: Vec<TraceFile<F>>,
    /// What ends the wait of the thread that accepts.
    pub(crate) waker: PollWaker,
    /// By routers.
    pub(crate) router_polls: Vec<Poll>,
}

/// Where a bus is reached, and its guid. (D-Bus Specification: "Server Addresses".)
///
/// It is shown as clients are told it: `unix:path=/run/user/1000/bus.sock,guid=` and 32 digits.
#[derive(Clone, Copy)]
pub struct BusAddress<'a> {
    path: SocketPath<'a>,
    guid: [u8; 16],
}

impl fmt::Display for BusAddress<'_> {
    fn fmt<W: fmt::Write>(&self, f: &mut fmt::Formatter<W>) -> fmt::Result {
        let guid = u128::from_be_bytes(self.guid);
        write!(f, "{},guid={guid:032x}", self.path)
    }
}

/// What is read and opened before the socket is made.
#[derive(Drop)]
struct Prepared<'a, F: Drop> {
    cookie: Cookie,
    services: Vec<Service>,
    names: Vec<WellKnown>,
    traces: Option<TraceFiles<'a, F>>,
    random: F,
    guid: [u8; 16],
}

/// Reads what the options name, and opens the files of the trace where they want one.
fn prepare<'a, R: Files + AllocGlobal + Clone + Drop>(
    rt: &R,
    options: &Options<'a>,
) -> Result<Prepared<'a, R::File>, ServeFault> {
    let cookie = read_cookie(rt, options.keyring)?;
    let services = read_services(rt, options.services)?;
    let names = rising_names(rt.alloc(), services.as_slice())?;
    let traces = open_files(rt, options)?;
    let mut random = open_random(rt)?;
    let guid = random_bytes(&mut random)?;
    Ok(Prepared {
        cookie,
        services,
        names,
        traces,
        random,
        guid,
    })
}

/// Above glibc's default mmap threshold, so that the block is mapped.
const LARGE: usize = 4_194_304;

/// Has the process keep what messages leave free: when a mapped block is freed, glibc raises its
/// mmap threshold to the block's size and its trim threshold to twice that (mallopt(3),
/// M_MMAP_THRESHOLD). Else a turn with large messages gives megabytes back, and the next gets them
/// anew, page by page.
fn keep_free_memory(alloc: Global) {
    let _block: Result<Vec<u8>, AllocError> = Vec::with_capacity(alloc, LARGE);
}

/// Makes what the threads work with, and begins the trace.
fn set_up<'a, F: OpenFile + Write + Drop, R: Net + Files + AllocGlobal + Clone + Drop>(
    rt: &R,
    options: Options<'a>,
    prepared: Prepared<'a, F>,
    listener: UnixListener,
) -> Result<(Bus<'a>, Listening<F>), ServeFault> {
    let Prepared {
        cookie,
        services,
        names,
        traces,
        random,
        guid,
    } = prepared;
    let Polls {
        poll,
        waker,
        coordinator,
        router_polls,
        new_connections,
    } = open_polls(rt, rt.alloc(), options.routers)?;
    let traces = begin_files(rt, traces, options.routers, names.as_slice())?;
    let bus = Bus {
        login: LoginSettings::new(&options, guid, cookie),
        options,
        coordinator,
        new_connections,
    };
    let listening = Listening {
        entrance: Entrance {
            listener,
            random,
            poll,
        },
        services,
        names,
        traces,
        waker,
        router_polls,
    };
    Ok((bus, listening))
}

impl<'a> Bus<'a> {
    /// Reads what the options name, makes the socket, and begins the trace where they want one.
    /// From then on clients can connect; they are served once [`Bus::serve`] runs.
    ///
    /// # Errors
    ///
    /// What is wrong at the start, the first of: the keyring, the services, the files of the trace,
    /// random bytes, the socket, the polls, the trace that can't be written; `Memory` where there
    /// is none for one of them. Then no socket is left that was made, and where there was one
    /// already, an earlier trace stands as it stood.
    pub fn open<R: Net + Files + AllocGlobal + Clone + Drop>(
        rt: &R,
        options: Options<'a>,
    ) -> Result<(Bus<'a>, Listening<R::File>), ServeFault> {
        let prepared = prepare(rt, &options)?;
        keep_free_memory(rt.alloc());
        let path = options.path;
        let listener = UnixListener::bind(rt, path.as_str()).map_err(listen_fault)?;
        match set_up(rt, options, prepared, listener) {
            Ok(made) => Ok(made),
            Err(fault) => {
                let _left = remove_file(rt, path.as_str());
                Err(fault)
            }
        }
    }

    /// Where clients connect.
    pub fn address(&self) -> BusAddress<'a> {
        BusAddress {
            path: self.options.path,
            guid: self.login.guid,
        }
    }

    /// Serves the clients that connect, until the bus is stopped: each router in a thread of its
    /// own, and this one accepts, and starts the programs of services that are called. Programs
    /// that run when the bus is stopped go on. What is told of connections, where the options want
    /// that, goes to standard error. Where they want a trace, each thread writes its lines at the
    /// end of a turn: so all are written while the bus is idle, and once this has returned.
    ///
    /// # Errors
    ///
    /// What the system gave no more: memory, threads, which is told as want of memory, word of the
    /// sockets, random bytes, or files of the trace that take its lines. Then all connections are
    /// closed.
    pub fn serve<R: DaemonRuntime>(
        &self,
        rt: &R,
        listening: Listening<R::File>,
    ) -> Result<(), ServeFault>
    where
        R::File: Send,
    {
        serve_bus(rt, self, listening)
    }

    /// The bus is to end: its threads do so after their turn, and [`Bus::serve`] returns.
    pub fn stop(&self) {
        self.coordinator.stop();
    }
}
