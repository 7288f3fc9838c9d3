//! Where messages go.

ghost use Rattle.test_rows.specs.RoutingRows.{CallGoesToOtherRouter, SenderRuleFollowsOwner, SlotIsGivenAgain};

/// The slot of a connection that left is given again, its number is not.
pub fn slot_is_given_again()
    ensures { SlotIsGivenAgain }
{}

/// A call to a name goes to its owner, which another router serves.
pub fn call_goes_to_other_router()
    ensures { CallGoesToOtherRouter }
{}

/// A rule that names a well-known name as sender fits what its owner of the moment sends.
pub fn sender_rule_follows_owner()
    ensures { SenderRuleFollowsOwner }
{}
