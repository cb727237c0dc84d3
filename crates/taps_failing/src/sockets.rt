// Failing sockets as all sockets.
ghost use Rattle.std.specs.Prelude.{◌≡◌, ◌≤◌, ◌-◌, ◌∷◌};
ghost use Rattle.taps_socket.specs.Calls.{started_item, started_at, listened_item, listened_at};
ghost use Rattle.taps_failing.specs.FailingCalls.{is_next, turned};
ghost use Rattle.taps_failing.specs.FailingNet.{with_failure, with_failed, Agrees};
ghost use Rattle.taps_failing.specs.SameSockets.{IsFailure};

use crate::failing::Failing;
use crate::failure::Failure;
use taps_base::NoMemory;
use taps_socket::{
    AcceptAnswer, Cause, How, Item, ListenAnswer, RecvAnswer, SendAnswer, Sockets, StartAnswer,
    Target, WaitAnswer,
};

impl<N: Sockets> Failing<N> {
    /// Nothing: what is kept agrees with the others.
    fn vouch(&self)
        ensures { Agrees self.now.own (N.net self.now.net) }
    {
        let _ = &self.items;
    }

    // Whether the next numbered call fails, which is one fewer ahead from then on.
    fn is_turn(&mut self) -> bool
        ensures answer { result ≡ is_next self.old.own.failure }
        ensures after { self.new ≡ with_failure self.old (turned self.old.own.failure) }
    {
        match self.failure {
            Failure::Ahead(0) => {
                self.failure = Failure::Past;
                true
            }
            Failure::Ahead(calls) => {
                self.failure = Failure::Ahead(calls - 1);
                false
            }
            Failure::Past => false,
            Failure::Faulted => false,
        }
    }

    // Adds the item of the failed call, which was refused, faulted or failed.
    fn fail(&mut self, item: Item, failure: Failure)
        requires room { 1 ≤ self.old.own.spare }
        requires item { IsFailure item self.old.own.trace }
        ensures { self.new ≡ with_failed self.old item failure }
    {
        self.spare -= 1;
        self.failure = failure;
        self.items.add(item);
    }
}

impl<N: Sockets> Sockets for Failing<N> {
    ghost use Rattle.taps_failing.specs.FailingNet.{failing_net, BecomesFailing};
    ghost use Rattle.taps_failing.specs.Goings.{goes_none, goes_on};

    ghost net = { λ f. failing_net (N.net f.net) f.own };

    ghost Becomes = { BecomesFailing N.net N.Becomes };

    ghost becomes_itself = { λ f. goes_none N.net N.Becomes f (N.becomes_itself f.net) };

    ghost becomes_on = { λ a b c first more. goes_on N.net N.Becomes a b c first more N.becomes_on };

    ghost shows = { λ a b calls h. h.shows };

    fn reserve(&mut self, items: u64) -> Result<(), NoMemory> {
        let spare = self.spare.max(items);
        self.items.reserve(spare as usize)?;
        self.net.reserve(spare)?;
        self.spare = spare;
        Ok(())
    }

    fn now(&mut self) -> u64 {
        let at = self.net.now();
        self.spare -= 1;
        self.told = at;
        self.items.add(Item::Began { at });
        at
    }

    fn start(&mut self, leaf: u32, target: Target) -> StartAnswer {
        let at = self.told;
        if self.is_turn() {
            let cause = Cause::Other;
            let item = Item::Refused {
                leaf,
                target,
                cause,
                at,
            };
            self.fail(item, Failure::Past);
            return StartAnswer::Refused { cause, at };
        }
        let answer = self.net.start(leaf, copy_of(&target));
        let (item, at) = started(leaf, target, answer);
        self.spare -= 1;
        self.told = at;
        self.items.add(item);
        answer
    }

    fn wait(&mut self, until: u64) -> WaitAnswer {
        let at = self.told;
        if self.is_turn() {
            let how = How::Faulted;
            self.fail(Item::Waited { until, at, how }, Failure::Faulted);
            return WaitAnswer { at, how };
        }
        let answer = self.net.wait(until);
        let WaitAnswer { at, how } = answer;
        self.spare -= 1;
        self.told = at;
        self.items.add(Item::Waited { until, at, how });
        answer
    }

    fn close(&mut self, socket: u32) {
        self.vouch();
        self.net.close(socket);
        self.spare -= 1;
        self.items.add(Item::Closed { socket });
    }

    fn listen(&mut self, target: Target) -> ListenAnswer {
        let at = self.told;
        if self.is_turn() {
            let cause = Cause::Other;
            self.fail(Item::NotListening { target, cause, at }, Failure::Past);
            return ListenAnswer::Refused { cause, at };
        }
        let answer = self.net.listen(copy_of(&target));
        let (item, at) = listened(target, answer);
        self.spare -= 1;
        self.told = at;
        self.items.add(item);
        answer
    }

    fn accept(&mut self, listener: u32, until: u64) -> AcceptAnswer {
        let at = self.told;
        if self.is_turn() {
            self.fail(Item::Faulted { at }, Failure::Faulted);
            return AcceptAnswer::Faulted { at };
        }
        self.vouch();
        let answer = self.net.accept(listener, until);
        match answer {
            AcceptAnswer::Accepted { socket, at } => {
                self.spare -= 1;
                self.told = at;
                self.items.add(Item::Accepted {
                    listener,
                    socket,
                    at,
                });
            }
            AcceptAnswer::Timed { at } => self.told = at,
            AcceptAnswer::Faulted { at } => {
                self.spare -= 1;
                self.told = at;
                self.items.add(Item::Faulted { at });
            }
        }
        answer
    }

    fn make_room(&mut self, socket: u32, bytes: usize) -> Result<(), NoMemory> {
        self.vouch();
        self.net.make_room(socket, bytes)
    }

    fn send(&mut self, socket: u32, bytes: &[u8], until: u64) -> SendAnswer {
        self.vouch();
        if self.is_turn() {
            let (sending, cause) = (true, Cause::Other);
            let item = Item::DataFailed {
                socket,
                sending,
                cause,
            };
            self.fail(item, Failure::Past);
            return SendAnswer::Failed(cause);
        }
        let answer = self.net.send(socket, bytes, until);
        match answer {
            SendAnswer::Sent { at, .. } => self.told = at,
            SendAnswer::Timed { at } => self.told = at,
            SendAnswer::Failed(cause) => {
                self.spare -= 1;
                self.items.add(Item::DataFailed {
                    socket,
                    sending: true,
                    cause,
                });
            }
        }
        answer
    }

    fn shut(&mut self, socket: u32) {
        self.vouch();
        self.net.shut(socket);
        self.spare -= 1;
        self.items.add(Item::Shut { socket });
    }

    fn recv(&mut self, socket: u32, out: &mut [u8], until: u64) -> RecvAnswer {
        self.vouch();
        if self.is_turn() {
            let (sending, cause) = (false, Cause::Other);
            let item = Item::DataFailed {
                socket,
                sending,
                cause,
            };
            self.fail(item, Failure::Past);
            return RecvAnswer::Failed(cause);
        }
        let answer = self.net.recv(socket, out, until);
        match answer {
            RecvAnswer::Got { at, .. } => self.told = at,
            RecvAnswer::End => {
                self.spare -= 1;
                self.items.add(Item::Ended { socket });
            }
            RecvAnswer::Timed { at } => self.told = at,
            RecvAnswer::Failed(cause) => {
                self.spare -= 1;
                self.items.add(Item::DataFailed {
                    socket,
                    sending: false,
                    cause,
                });
            }
        }
        answer
    }
}

fn copy_of(target: &Target) -> Target
    ensures { result ≡ target.now }
{
    *target
}

// The item of a start, and its time.
fn started(leaf: u32, target: Target, answer: StartAnswer) -> (Item, u64)
    ensures item { result.0 ≡ started_item leaf target answer }
    ensures at { result.1 ≡ started_at answer }
{
    match answer {
        StartAnswer::Started { socket, at } => {
            let item = Item::Started {
                leaf,
                target,
                socket,
                at,
            };
            (item, at)
        }
        StartAnswer::Refused { cause, at } => {
            let item = Item::Refused {
                leaf,
                target,
                cause,
                at,
            };
            (item, at)
        }
    }
}

// The item of a listen, and its time.
fn listened(target: Target, answer: ListenAnswer) -> (Item, u64)
    ensures item { result.0 ≡ listened_item target answer }
    ensures at { result.1 ≡ listened_at answer }
{
    match answer {
        ListenAnswer::Listening { socket, at } => {
            let item = Item::Listening { target, socket, at };
            (item, at)
        }
        ListenAnswer::Refused { cause, at } => {
            let item = Item::NotListening { target, cause, at };
            (item, at)
        }
    }
}
