ghost use Rattle.taps_message.specs.Orders.{PushFollows, NextGoes, PutBackReturns};

/// Says of every queue that messages go out in the order of `push`, each under its place among the accepted ones, and
/// that what a queue counts is what was accepted. It does nothing.
pub fn vouch_order()
    ensures push { PushFollows }
    ensures next { NextGoes }
    ensures put_back { PutBackReturns }
{}
