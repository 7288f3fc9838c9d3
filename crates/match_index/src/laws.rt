//! The laws of near rules. Each function does nothing: what it ensures is the law.

ghost use Rattle.match_index.specs.Laws.{ConnectionsAreFew, NearRulesAreFew, OtherArgumentsAreNotNear, OtherInterfacesAreNotNear, OtherKindsAreNotNear, OtherMembersAreNotNear, WhatFitsIsNear};

/// A rule that fits a message is near it.
pub fn what_fits_is_near()
    ensures { WhatFitsIsNear }
{}

/// A rule that asks for another member than a message has is not near it.
pub fn other_members_are_not_near()
    ensures { OtherMembersAreNotNear }
{}

/// A rule that asks for another interface than a message has is not near it.
pub fn other_interfaces_are_not_near()
    ensures { OtherInterfacesAreNotNear }
{}

/// A rule that asks for another type than a message has is not near it.
pub fn other_kinds_are_not_near()
    ensures { OtherKindsAreNotNear }
{}

/// A rule that asks for another first argument than a message has is not near it.
pub fn other_arguments_are_not_near()
    ensures { OtherArgumentsAreNotNear }
{}

/// No more rules are near a message than are near it by its header alone.
pub fn near_rules_are_few()
    ensures { NearRulesAreFew }
{}

/// Rules of some connections are of no more connections than these.
pub fn connections_are_few()
    ensures { ConnectionsAreFew }
{}
