//! A bus that a thread of this program serves while another plays its clients.

use crate::client::Wrong;
use crate::crowd::crowd;
use crate::half_messages::half_messages;
use crate::scene::Scene;
use crate::two_clients::two_clients;
use busd_core::ServeFault;
use busd_serve::Bus;
use std::net::Net;
use std::rt::Files;

/// Plays the clients of a scene, and stops the bus.
pub(crate) fn play<R: Net + Files + AllocGlobal>(
    rt: &R,
    scene: Scene,
    bus: &Bus<'_>,
) -> Result<(), Wrong> {
    let path = scene.name();
    let played = match scene {
        Scene::TwoClients => two_clients(rt, rt.alloc(), path),
        Scene::Crowd => crowd(rt, rt.alloc(), path),
        Scene::HalfMessages => half_messages(rt, rt.alloc(), path),
    };
    bus.stop();
    played
}

/// How a scene went, over a bus that is to end in order when it is stopped.
pub(crate) fn outcome(
    played: Result<(), Wrong>,
    served: Result<(), ServeFault>,
) -> Result<(), Wrong> {
    played?;
    match served {
        Ok(()) => Ok(()),
        Err(_fault) => Err(Wrong("the bus ends by a fault")),
    }
}
