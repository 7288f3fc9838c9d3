//! Worked runs of a message bus, computed from the definitions of `seq_bus_core`. Each function of
//! a run does nothing: what it ensures is the run. The program goes through them, makes one by
//! calls, and makes once each what takes memory.
#![tactic(auto)]

mod limits;
mod monitors;
mod pushing;
mod queues;
mod routers;
mod routing;
mod services;
mod waiting;

use owner_queues::Profile;
use std::io;

fn go_through() {
    limits::no_65th_name();
    monitors::monitor_gives_up_its_names();
    monitors::monitor_is_shown_what_its_rules_fit();
    queues::owns_its_unique_name();
    queues::replaced_owner_waits_next();
    queues::replaced_owner_leaves_and_releases_follow();
    queues::replacers_wait_last();
    queues::replacers_wait_next();
    queues::reserved_names_stay();
    queues::leaving_gives_up_names();
    routers::eighth_has_32_places();
    routers::third_has_85_places();
    routers::one_router_has_256_places();
    routers::other_seats_have_none();
    routing::slot_is_given_again();
    routing::call_goes_to_other_router();
    routing::sender_rule_follows_owner();
    services::service_takes_its_name();
    services::service_fails();
    services::tickets_outlive_their_callers();
}

fn main(rt: HostRuntime) -> io::Result<()> {
    go_through();
    let alloc = rt.alloc();
    println!(rt; "profile one: {:?}", waiting::replacers(Profile::One))?;
    println!(rt; "profile two: {:?}", waiting::replacers(Profile::Two))?;
    println!(rt; "signals: {:?}", pushing::signals(alloc)?)?;
    println!(rt; "recipients rise: {}", pushing::recipients())?;
    println!(rt; "tickets: {:?}", pushing::tickets(alloc)?)
}
