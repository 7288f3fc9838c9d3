//! Who owns a name and who waits for it.

ghost use Rattle.test_rows.specs.NameRows.{LeavingGivesUpNames, ReservedNames};
ghost use Rattle.test_rows.specs.QueueRows.{OwnsItsUniqueName, ReplacedOwnerLeavesAndReleasesFollow, ReplacedOwnerWaitsNext, ReplacersWaitLast, ReplacersWaitNext};
ghost use Rattle.owner_queues.specs.declared.request.Profile.{Profile};

/// A connection says Hello and asks who owns its unique name.
pub fn owns_its_unique_name()
    ensures { OwnsItsUniqueName }
{}

/// An owner that allows it is replaced, and waits before the others.
pub fn replaced_owner_waits_next()
    ensures { (profile : Profile) → ReplacedOwnerWaitsNext profile }
{}

/// An owner that is replaced and did not want to wait leaves the queue; names are released.
pub fn replaced_owner_leaves_and_releases_follow()
    ensures { (profile : Profile) → ReplacedOwnerLeavesAndReleasesFollow profile }
{}

/// By the first profile, a request that would replace the owner and can't waits behind the others.
pub fn replacers_wait_last()
    ensures { ReplacersWaitLast }
{}

/// By the second profile, it waits before the others.
pub fn replacers_wait_next()
    ensures { ReplacersWaitNext }
{}

/// The names of the bus and of connections can't be requested or released, and have their owners.
pub fn reserved_names_stay()
    ensures { ReservedNames }
{}

/// A connection that leaves gives up its names to those who wait.
pub fn leaving_gives_up_names()
    ensures { LeavingGivesUpNames }
{}
