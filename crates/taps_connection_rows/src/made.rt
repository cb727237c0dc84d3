use std::alloc::{AllocError, Global};
use taps_base::Body;
use taps_message::Message;
use taps_property::{Capacity, MessageProps};

/// The properties of a message where nothing is said, with a lifetime in milliseconds, and final or not.
pub fn make_props(lifetime: Option<u64>, is_final: bool) -> MessageProps {
    let props = MessageProps::defaults(true, true, Capacity::Default, false);
    MessageProps {
        msg_lifetime: lifetime,
        is_final,
        ..props
    }
}

/// A body of so many bytes, which count from 0 to 250.
pub fn make_body(alloc: Global, length: usize) -> Result<Body, AllocError> {
    let mut bytes = vec![in alloc; 0; length]?;
    for (i, byte) in bytes.iter_mut().enumerate() {
        *byte = (i % 251) as u8;
    }
    Ok(Body::from_vec(bytes))
}

/// A message with such a body.
pub fn make_message(
    alloc: Global,
    length: usize,
    props: MessageProps,
) -> Result<Message, AllocError> {
    let body = make_body(alloc, length)?;
    Ok(Message { body, props })
}

/// A message of so many bytes 0.
pub fn make_zeros(
    alloc: Global,
    length: usize,
    props: MessageProps,
) -> Result<Message, AllocError> {
    let bytes = vec![in alloc; 0; length]?;
    Ok(Message {
        body: Body::from_vec(bytes),
        props,
    })
}
