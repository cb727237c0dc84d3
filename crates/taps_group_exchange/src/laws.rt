// What is proved of every exchange of a group.
ghost use Rattle.taps_group_exchange.specs.GroupLaws.{JudgesGroups};
ghost use Rattle.taps_group_exchange.specs.MemberLaws.{JudgesMembers};

/// What an exchange of a group says in other words: whose its items are, its failures, and its timed calls.
pub fn vouch_groups()
    ensures { JudgesGroups }
{}

/// What an exchange of a group says of its members, in other words: each one's own calls, also where
/// memory ran out; and which member gives the outcome its cause.
pub fn vouch_members()
    ensures { JudgesMembers }
{}
