//! What buses are opened with.

use bus_view::can_open;
use names::WellKnown;
use std::process::Abort;

/// Services, how many routers, and whether a bus can be opened with them.
const OPENINGS: [(&[&str], u8, bool); 5] = [
    (&[], 0, false),
    (&[], 9, false),
    (
        &["com.example", "com.example.Other", "com.example"],
        1,
        false,
    ),
    (&["com.example", "org.freedesktop.DBus"], 1, false),
    (&["com.example.Other", "com.example"], 8, true),
];

#[test]
fn what_a_bus_can_be_opened_with(rt: HostRuntime) {
    for (texts, routers, opens) in OPENINGS {
        let mut services = Vec::new(rt.alloc());
        for text in texts {
            let service = WellKnown::parse(text).ok().expect(&rt, "a well-known name");
            services.push(service).expect(&rt, "there is memory");
        }
        let can_be = can_open(&services, routers);
        assert!(rt; can_be == opens, "{routers} routers, {texts:?}");
    }
}
