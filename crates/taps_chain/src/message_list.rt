ghost use Rattle.std.specs.Prelude.{◌≡◌};

use crate::MessageSink;
use taps_base::{Body, List, NoMemory};

impl MessageSink for List<Body> {
    ghost Keeps = { λ list messages. list.items ≡ messages };

    fn keep(&mut self, _number: u64, body: Body) -> Result<(), NoMemory> {
        match self.push(body) {
            Ok(()) => Ok(()),
            Err((NoMemory, _)) => Err(NoMemory),
        }
    }
}
