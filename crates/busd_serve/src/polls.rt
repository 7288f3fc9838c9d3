//! How routers hear of their sockets.

use crate::fault::poll_fault;
use busd_core::ServeFault;
use busd_sockets::{MAX_WAITING, NewConnections, PollWaker};
use crossbeam_queue::ArrayQueue;
use mio::Poll;
use routers::Coordinator;
use std::alloc::Global;
use std::net::Net;

/// The polls of a bus, with what wakes its threads and the queues of the connections that come to
/// them.
#[derive(Drop)]
pub(crate) struct Polls {
    /// The poll of the thread that accepts.
    pub(crate) poll: Poll,
    /// What ends the wait of that thread.
    pub(crate) waker: PollWaker,
    pub(crate) coordinator: Coordinator<PollWaker>,
    /// By routers.
    pub(crate) router_polls: Vec<Poll>,
    /// By routers.
    pub(crate) new_connections: Vec<NewConnections>,
}

/// The polls of a bus with so many routers.
pub(crate) fn open_polls<R: Net>(rt: &R, alloc: Global, routers: u8) -> Result<Polls, ServeFault> {
    let poll = Poll::new(rt).map_err(poll_fault)?;
    let waker = PollWaker::new(alloc, &poll).map_err(poll_fault)?;
    let main_waker = waker.try_clone()?;
    let RouterPolls {
        polls,
        wakers,
        new_connections,
    } = open_router_polls(rt, alloc, routers)?;
    Ok(Polls {
        coordinator: Coordinator::new(alloc, wakers, main_waker)?,
        poll,
        waker,
        router_polls: polls,
        new_connections,
    })
}

/// What is made for each router.
#[derive(Drop)]
struct RouterPolls {
    polls: Vec<Poll>,
    wakers: Vec<PollWaker>,
    new_connections: Vec<NewConnections>,
}

fn open_router_polls<R: Net>(
    rt: &R,
    alloc: Global,
    routers: u8,
) -> Result<RouterPolls, ServeFault> {
    let mut polls = RouterPolls {
        polls: Vec::new(alloc),
        wakers: Vec::new(alloc),
        new_connections: Vec::new(alloc),
    };
    for _router in 0..routers {
        polls.open_one(rt, alloc)?;
    }
    Ok(polls)
}

impl RouterPolls {
    /// One more.
    fn open_one<R: Net>(&mut self, rt: &R, alloc: Global) -> Result<(), ServeFault> {
        let poll = Poll::new(rt).map_err(poll_fault)?;
        let waker = PollWaker::new(alloc, &poll).map_err(poll_fault)?;
        self.wakers.push(waker)?;
        self.polls.push(poll)?;
        let new_connections = ArrayQueue::new(alloc, MAX_WAITING)?;
        self.new_connections.push(new_connections)?;
        Ok(())
    }
}
