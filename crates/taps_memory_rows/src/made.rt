use std::alloc::{AllocError, Global};
use taps_base::Body;
use taps_message::Message;
use taps_property::{Capacity, MessageProps};
use taps_socket::Item;

fn message_of(bytes: Vec<u8>, is_final: bool) -> Message {
    Message {
        body: Body::from_vec(bytes),
        props: MessageProps {
            is_final,
            ..MessageProps::defaults(true, true, Capacity::Default, false)
        },
    }
}

/// A message of so many bytes, which count from 0 to 250, final or not.
pub fn make_message(alloc: Global, length: usize, is_final: bool) -> Result<Message, AllocError> {
    let mut bytes = vec![in alloc; 0; length]?;
    for (i, byte) in bytes.iter_mut().enumerate() {
        *byte = (i % 251) as u8;
    }
    Ok(message_of(bytes, is_final))
}

/// A message of these bytes, which is not final.
pub fn plain_message(alloc: Global, bytes: &[u8]) -> Result<Message, AllocError> {
    Ok(message_of(Vec::from_slice(alloc, bytes)?, false))
}

/// How many sockets were closed.
pub fn count_closes(items: &[Item]) -> usize {
    items
        .iter()
        .filter(|item| matches!(item, Item::Closed { .. }))
        .count()
}
