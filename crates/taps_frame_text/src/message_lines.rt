ghost use Rattle.std.specs.Prelude.{◌≡◌};
ghost use Rattle.taps_frame_text.specs.UnframeLines.{message_lines};

use taps_base::{Body, NoMemory};
use taps_chain::MessageSink;
use taps_text::put_message;

/// The lines of messages: each message is printed as soon as it is heard, and then dropped.
#[derive(Drop)]
pub(crate) struct MessageLines {
    pub text: Vec<u8>,
}

impl MessageSink for MessageLines {
    ghost Keeps = { λ lines messages. lines.text.items ≡ message_lines 0 messages };

    fn keep(&mut self, number: u64, body: Body) -> Result<(), NoMemory> {
        let before = self.text.len();
        if let Err(NoMemory) = put_message(&mut self.text, number, body.bytes()) {
            self.text.truncate(before);
            return Err(NoMemory);
        }
        Ok(())
    }
}
