ghost use Rattle.std.specs.Prelude.{◌≡◌, ◌≤◌, [], reverse};
ghost use Rattle.taps_socket.specs.Calls.{started_item, started_at, listened_item, listened_at};
ghost use Rattle.taps_socket.specs.Net.{with_spare};
ghost use Rattle.taps_socket.specs.Recorded.{IsLastReported, Records};
ghost use Rattle.taps_socket.specs.Shown.{spare_none, spare_on, shows_spare};

use crate::{
    AcceptAnswer, Item, ListenAnswer, RecvAnswer, SendAnswer, Sockets, StartAnswer, Target,
    WaitAnswer,
};
use std::alloc::Global;
use std::marker::Model;
use taps_base::{List, NoMemory};

/// Sockets that pass each call on to others, and keep the items in the order in which they came,
/// and the last reported time.
///
/// Contracts see the others, and how many items can be added without memory, both there and here.
/// The items that are kept are those of the others' trace.
#[derive(Drop)]
pub struct Recorder<N: Sockets> {
    net: N,
    items: List<Item>,
    spare: u64,
    told: u64,
}

impl<N: Sockets> Model for Recorder<N> {
    ghost use Rattle.std.specs.Prelude.{◌≡◌, ◌≤◌, reverse};
    ghost use Rattle.taps_socket.specs.Recorded.{Recorded, IsLastReported};

    ghost Value = { Recorded N };

    ghost view = { λ r. record { net = r.net; spare = r.spare } };

    ghost invariant = { λ r.
        (reverse r.items.items ≡ (N.net r.net).trace)
        × (r.spare ≤ (N.net r.net).spare)
        × (r.spare ≤ r.items.spare)
        × IsLastReported (N.net r.net).trace r.told (N.net r.net).told };
}

impl<N: Sockets> Recorder<N> {
    /// A recorder of sockets that have no item yet. It takes no memory.
    pub fn new(alloc: Global, net: N) -> Recorder<N>
        requires fresh { (N.net net).trace ≡ [] }
        ensures { result ≡ record { net = net; spare = 0 } }
    {
        Recorder {
            net,
            items: List::new(alloc),
            spare: 0,
            told: 0,
        }
    }

    /// The items so far, oldest first.
    pub fn items(&self) -> &[Item]
        ensures { reverse result.now ≡ (N.net self.now.net).trace }
    {
        self.items.as_slice()
    }

    /// The last reported time, in milliseconds, once there is an item.
    pub fn told(&self) -> u64
        ensures { IsLastReported (N.net self.now.net).trace result (N.net self.now.net).told }
    {
        self.told
    }

    /// The sockets, and the items that came of them.
    pub fn into_parts(self) -> (N, Vec<Item>)
        ensures net { result.0 ≡ self.net }
        ensures items { reverse result.1.items ≡ (N.net self.net).trace }
    {
        let Recorder {
            net,
            items,
            spare: _,
            told: _,
        } = self;
        (net, items.into_vec())
    }
}

impl<N: Sockets> Sockets for Recorder<N> {
    ghost net = { λ r. with_spare (N.net r.net) r.spare };

    ghost Becomes = { Records N.Becomes };

    ghost becomes_itself = { λ r. record { becomes = N.becomes_itself r.net; spare = spare_none r.spare } };

    ghost becomes_on = { λ a b c g h first then. record {
      becomes = N.becomes_on a.net b.net c.net g h first.becomes then.becomes;
      spare = spare_on g h a.spare b.spare c.spare first.spare then.spare;
    } };

    ghost shows = { λ a b calls h.
        shows_spare (N.net a.net) (N.net b.net) calls a.spare b.spare h.spare (N.shows a.net b.net calls h.becomes) };

    fn reserve(&mut self, items: u64) -> Result<(), NoMemory> {
        let spare = self.spare.max(items);
        self.items.reserve(spare as usize)?;
        self.net.reserve(spare)?;
        self.spare = spare;
        Ok(())
    }

    fn now(&mut self) -> u64 {
        let at = self.net.now();
        self.spare -= 1;
        self.told = at;
        self.items.add(Item::Began { at });
        at
    }

    fn start(&mut self, leaf: u32, target: Target) -> StartAnswer {
        let answer = self.net.start(leaf, copy_of(&target));
        let (item, at) = started(leaf, target, answer);
        self.spare -= 1;
        self.told = at;
        self.items.add(item);
        answer
    }

    fn wait(&mut self, until: u64) -> WaitAnswer {
        let answer = self.net.wait(until);
        let WaitAnswer { at, how } = answer;
        self.spare -= 1;
        self.told = at;
        self.items.add(Item::Waited { until, at, how });
        answer
    }

    fn close(&mut self, socket: u32) {
        self.net.close(socket);
        self.spare -= 1;
        self.items.add(Item::Closed { socket });
    }

    fn listen(&mut self, target: Target) -> ListenAnswer {
        let answer = self.net.listen(copy_of(&target));
        let (item, at) = listened(target, answer);
        self.spare -= 1;
        self.told = at;
        self.items.add(item);
        answer
    }

    fn accept(&mut self, listener: u32, until: u64) -> AcceptAnswer {
        let answer = self.net.accept(listener, until);
        match answer {
            AcceptAnswer::Accepted { socket, at } => {
                self.spare -= 1;
                self.told = at;
                self.items.add(Item::Accepted {
                    listener,
                    socket,
                    at,
                });
            }
            AcceptAnswer::Timed { at } => self.told = at,
            AcceptAnswer::Faulted { at } => {
                self.spare -= 1;
                self.told = at;
                self.items.add(Item::Faulted { at });
            }
        }
        answer
    }

    fn make_room(&mut self, socket: u32, bytes: usize) -> Result<(), NoMemory> {
        self.net.make_room(socket, bytes)
    }

    fn send(&mut self, socket: u32, bytes: &[u8], until: u64) -> SendAnswer {
        let answer = self.net.send(socket, bytes, until);
        match answer {
            SendAnswer::Sent { at, .. } => self.told = at,
            SendAnswer::Timed { at } => self.told = at,
            SendAnswer::Failed(cause) => {
                self.spare -= 1;
                self.items.add(Item::DataFailed {
                    socket,
                    sending: true,
                    cause,
                });
            }
        }
        answer
    }

    fn shut(&mut self, socket: u32) {
        self.net.shut(socket);
        self.spare -= 1;
        self.items.add(Item::Shut { socket });
    }

    fn recv(&mut self, socket: u32, out: &mut [u8], until: u64) -> RecvAnswer {
        let answer = self.net.recv(socket, out, until);
        match answer {
            RecvAnswer::Got { at, .. } => self.told = at,
            RecvAnswer::End => {
                self.spare -= 1;
                self.items.add(Item::Ended { socket });
            }
            RecvAnswer::Timed { at } => self.told = at,
            RecvAnswer::Failed(cause) => {
                self.spare -= 1;
                self.items.add(Item::DataFailed {
                    socket,
                    sending: false,
                    cause,
                });
            }
        }
        answer
    }
}

fn copy_of(target: &Target) -> Target
    ensures { result ≡ target.now }
{
    *target
}

// The item of a start, and its time.
fn started(leaf: u32, target: Target, answer: StartAnswer) -> (Item, u64)
    ensures item { result.0 ≡ started_item leaf target answer }
    ensures at { result.1 ≡ started_at answer }
{
    match answer {
        StartAnswer::Started { socket, at } => {
            let item = Item::Started {
                leaf,
                target,
                socket,
                at,
            };
            (item, at)
        }
        StartAnswer::Refused { cause, at } => {
            let item = Item::Refused {
                leaf,
                target,
                cause,
                at,
            };
            (item, at)
        }
    }
}

// The item of a listen, and its time.
fn listened(target: Target, answer: ListenAnswer) -> (Item, u64)
    ensures item { result.0 ≡ listened_item target answer }
    ensures at { result.1 ≡ listened_at answer }
{
    match answer {
        ListenAnswer::Listening { socket, at } => {
            let item = Item::Listening { target, socket, at };
            (item, at)
        }
        ListenAnswer::Refused { cause, at } => {
            let item = Item::NotListening { target, cause, at };
            (item, at)
        }
    }
}
