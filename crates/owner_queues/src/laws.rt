//! The laws of a queue. Each function does nothing: what it ensures is the law.

ghost use Rattle.owner_queues.specs.Laws.{ProfilesAgree, ReleasesTakeOut, RequestsAddOneEntry, RequestsAreToldTheOwner, RequestsKeepQueues};

/// A request leaves each connection in a queue once.
pub fn requests_keep_queues()
    ensures { RequestsKeepQueues }
{}

/// A name that was requested has an owner, and the reply says where the caller stands.
pub fn requests_are_told_the_owner()
    ensures { RequestsAreToldTheOwner }
{}

/// A request adds at most one entry, its own.
pub fn requests_add_one_entry()
    ensures { RequestsAddOneEntry }
{}

/// A release takes its connection out of the queue, and no other.
pub fn releases_take_out()
    ensures { ReleasesTakeOut }
{}

/// The profiles differ only in what a request does that would replace the owner.
pub fn profiles_agree()
    ensures { ProfilesAgree }
{}
