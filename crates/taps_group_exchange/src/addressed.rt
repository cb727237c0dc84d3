use taps_message::Message;

/// A message, and the member of a group that is to send it, by place.
#[derive(Drop)]
pub struct Addressed {
    pub member: u32,
    pub message: Message,
}
