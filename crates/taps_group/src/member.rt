// A member of a group.
ghost use Rattle.std.specs.Prelude.{◌≡◌, ◌<◌, ◌++◌, ◌∷◌, [], vec_len, vec_capacity};
ghost use Rattle.taps_chain.specs.Layers.{layers_of};
ghost use Rattle.taps_connection.specs.Sound.{IsSound};
ghost use Rattle.taps_stack.specs.StackTable.{is_stream};
ghost use Rattle.taps_group.specs.Accepting.{HasAccepted};

use taps_connection::{Connection, Established};
use taps_framer::Framer;
use taps_message::{Message, PushError};

/// A member of a group: its connection; its priority, of which the least is the most urgent; and, for
/// each message that it accepted, the place of that message among all that the group accepted.
pub struct Member<'a> {
    pub connection: Connection<'a, Established>,
    pub priority: u64,
    pub orders: Vec<usize>,
}

// A member with something to send: its place, its priority, and the place of that message among all
// that the group accepted.
#[derive(Clone, Copy, Drop)]
pub struct Waiting {
    pub place: u32,
    pub priority: u64,
    pub order: usize,
}

impl<'a> Member<'a> {
    // Accepts a message at a time, with its place among all that the group accepted.
    pub fn accept(
        &mut self,
        order: usize,
        message: Message,
        at: u64,
    ) -> Result<(), (PushError, Message)>
        requires sound { IsSound (is_stream self.old.connection.stack)
            (layers_of ⟦<dyn Framer as Framer>⟧ self.old.connection.chain) self.old.connection.sender }
        ensures accepted { HasAccepted order message at self.old result self.new }
        ensures sound { IsSound (is_stream self.old.connection.stack)
            (layers_of ⟦<dyn Framer as Framer>⟧ self.old.connection.chain) self.new.connection.sender }
    {
        if self.orders.reserve(1).is_err() {
            return Err((PushError::NoMemory, message));
        }
        match self.connection.send(message, at) {
            Ok(()) => {
                add(&mut self.orders, order);
                Ok(())
            }
            Err(refused) => Err(refused),
        }
    }
}

// A value more, for which there is room.
pub(crate) fn add<T: Drop>(values: &mut Vec<T>, value: T)
    requires { vec_len values.old < vec_capacity values.old }
    ensures { values.new.items ≡ values.old.items ++ value ∷ [] }
{
    match values.push(value) {
        Ok(()) => {}
        Err(_) => unreachable!(),
    }
}
