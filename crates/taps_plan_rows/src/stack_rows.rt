use taps_endpoint::Family;
use taps_property::StackProperty;
use taps_stack::{Stack, carries, is_stream, offers};

// Stacks and properties, and whether the stack offers the property.
static OFFERS: [(Stack, StackProperty, bool); 6] = [
    (Stack::Tcp, StackProperty::Reliability, true),
    (Stack::Unix, StackProperty::PreserveOrder, true),
    (Stack::Udp, StackProperty::PreserveOrder, false),
    (Stack::Udp, StackProperty::PreserveMsgBoundaries, true),
    (Stack::Tcp, StackProperty::PreserveMsgBoundaries, false),
    (Stack::Udp, StackProperty::CongestionControl, false),
];

// Stacks and families, and whether the stack carries addresses of the family.
static CARRIES: [(Stack, Family, bool); 6] = [
    (Stack::Tcp, Family::Inet4, true),
    (Stack::Tcp, Family::Unix, false),
    (Stack::Udp, Family::Inet6, true),
    (Stack::Udp, Family::Unix, false),
    (Stack::Unix, Family::Inet4, false),
    (Stack::Unix, Family::Unix, true),
];

#[test]
fn stacks_offer_and_carry(rt: HostRuntime) {
    for (stack, property, wanted) in &OFFERS {
        assert!(rt;
            offers(*stack, *property) == *wanted,
            "{stack:?} {property:?}"
        );
    }
    for (stack, family, wanted) in &CARRIES {
        assert!(rt; carries(*stack, *family) == *wanted, "{stack:?} {family:?}");
    }
    assert!(rt; is_stream(Stack::Tcp) && is_stream(Stack::Unix) && !is_stream(Stack::Udp));
}
