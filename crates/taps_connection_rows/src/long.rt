ghost use Rattle.std.specs.Prelude.{◌≡◌};

use taps_base::NoMemory;
use taps_socket::{
    AcceptAnswer, ListenAnswer, RecvAnswer, SendAnswer, Sockets, StartAnswer, Target, WaitAnswer,
};

/// Sockets over others, on which much comes at once: where the others give a byte, these give as many as are asked for.
///
/// What is read on them is not observable.
#[derive(Drop)]
pub struct LongSockets<N: Sockets> {
    net: N,
}

impl<N: Sockets> LongSockets<N> {
    /// Over these sockets.
    pub fn new(net: N) -> LongSockets<N>
        ensures { result.net ≡ net }
    {
        LongSockets { net }
    }
}

impl<N: Sockets> Sockets for LongSockets<N> {
    ghost use Rattle.taps_socket.specs.Shown.{shows_none, shows_on};
    ghost use Rattle.taps_connection_rows.specs.Long.{hidden, HiddenBecomes};

    ghost net = { λ s. hidden (N.net s.net) };

    ghost Becomes = { HiddenBecomes (λ s. N.net s.net) };

    ghost becomes_itself = { λ s. shows_none (hidden (N.net s.net)) };

    ghost becomes_on = { λ a b c g h first then.
        shows_on (hidden (N.net a.net)) (hidden (N.net b.net)) (hidden (N.net c.net)) g h first then };

    ghost shows = { λ a b calls h. h };

    fn reserve(&mut self, items: u64) -> Result<(), NoMemory> {
        self.net.reserve(items)
    }

    fn now(&mut self) -> u64 {
        self.net.now()
    }

    fn start(&mut self, leaf: u32, target: Target) -> StartAnswer {
        self.net.start(leaf, target)
    }

    fn wait(&mut self, until: u64) -> WaitAnswer {
        self.net.wait(until)
    }

    fn close(&mut self, socket: u32) {
        self.net.close(socket)
    }

    fn listen(&mut self, target: Target) -> ListenAnswer {
        self.net.listen(target)
    }

    fn accept(&mut self, listener: u32, until: u64) -> AcceptAnswer {
        self.net.accept(listener, until)
    }

    fn make_room(&mut self, socket: u32, bytes: usize) -> Result<(), NoMemory> {
        self.net.make_room(socket, bytes)
    }

    fn send(&mut self, socket: u32, bytes: &[u8], until: u64) -> SendAnswer {
        self.net.send(socket, bytes, until)
    }

    fn shut(&mut self, socket: u32) {
        self.net.shut(socket)
    }

    fn recv(&mut self, socket: u32, out: &mut [u8], until: u64) -> RecvAnswer {
        match self.net.recv(socket, out, until) {
            RecvAnswer::Got { count: _, at } => RecvAnswer::Got {
                count: out.len(),
                at,
            },
            RecvAnswer::End => RecvAnswer::End,
            RecvAnswer::Timed { at } => RecvAnswer::Timed { at },
            RecvAnswer::Failed(cause) => RecvAnswer::Failed(cause),
        }
    }
}
