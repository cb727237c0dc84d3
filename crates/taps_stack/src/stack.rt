ghost use Rattle.std.specs.Prelude.{◌≡◌, true};
ghost use Rattle.taps_stack.specs.StackTable as table;

use taps_endpoint::Family;
use taps_property::StackProperty;

/// A protocol stack.
#[derive(Clone, Copy, Debug, PartialEq, Eq, Hash)]
pub enum Stack {
    Tcp,
    Unix,
    Udp,
}

/// Whether the stack offers the property (RFC 9622 section 6.2; the table is this project's own).
pub fn offers(stack: Stack, property: StackProperty) -> bool
    ensures { result ≡ table.offers stack property }
{
    match stack {
        Stack::Tcp | Stack::Unix => stream_offers(property),
        Stack::Udp => datagrams_offer(property),
    }
}

fn stream_offers(property: StackProperty) -> bool
    ensures { result ≡ table.stream_offers property }
{
    match property {
        StackProperty::Reliability
        | StackProperty::PreserveOrder
        | StackProperty::FullChecksumSend
        | StackProperty::FullChecksumRecv
        | StackProperty::CongestionControl
        | StackProperty::ActiveReadBeforeSend => true,
        StackProperty::PreserveMsgBoundaries
        | StackProperty::PerMsgReliability
        | StackProperty::ZeroRttMsg
        | StackProperty::Multistreaming
        | StackProperty::KeepAlive
        | StackProperty::SoftErrorNotify => false,
    }
}

fn datagrams_offer(property: StackProperty) -> bool
    ensures { result ≡ table.datagrams_offer property }
{
    match property {
        StackProperty::PreserveMsgBoundaries
        | StackProperty::FullChecksumSend
        | StackProperty::FullChecksumRecv => true,
        StackProperty::Reliability
        | StackProperty::PerMsgReliability
        | StackProperty::PreserveOrder
        | StackProperty::ZeroRttMsg
        | StackProperty::Multistreaming
        | StackProperty::CongestionControl
        | StackProperty::KeepAlive
        | StackProperty::SoftErrorNotify
        | StackProperty::ActiveReadBeforeSend => false,
    }
}

/// Whether the stack reaches addresses of this family.
pub fn carries(stack: Stack, family: Family) -> bool
    ensures { result ≡ table.carries stack family }
{
    match stack {
        Stack::Tcp | Stack::Udp => match family {
            Family::Inet4 | Family::Inet6 => true,
            Family::Unix => false,
        },
        Stack::Unix => match family {
            Family::Inet4 | Family::Inet6 => false,
            Family::Unix => true,
        },
    }
}

/// Whether the stack carries a stream of bytes; else it carries datagrams.
pub fn is_stream(stack: Stack) -> bool
    ensures { result ≡ table.is_stream stack }
{
    match stack {
        Stack::Tcp | Stack::Unix => true,
        Stack::Udp => false,
    }
}
