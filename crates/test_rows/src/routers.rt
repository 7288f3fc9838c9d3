//! The places of the routers.

ghost use Rattle.test_rows.specs.RouterRows.{EighthHas32Places, OneRouterHas256Places, OtherSeatsHaveNone, ThirdHas85Places};

/// With eight routers, each has 32 places.
pub fn eighth_has_32_places()
    ensures { EighthHas32Places }
{}

/// With three routers, each has 85 places.
pub fn third_has_85_places()
    ensures { ThirdHas85Places }
{}

/// With one router, it has 256 places.
pub fn one_router_has_256_places()
    ensures { OneRouterHas256Places }
{}

/// The main thread's seat has no places, nor has a seat above the routers.
pub fn other_seats_have_none()
    ensures { OtherSeatsHaveNone }
{}
