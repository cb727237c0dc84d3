use taps_base::Body;
use taps_property::MessageProps;

/// What is sent as one: a body, and the properties that it is sent with (RFC 9622 section 9.1).
#[derive(Debug, Drop)]
pub struct Message {
    pub body: Body,
    pub props: MessageProps,
}
