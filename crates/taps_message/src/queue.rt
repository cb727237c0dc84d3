ghost use Rattle.std.specs.Prelude.{◌≡◌, ◌+◌, ◌<◌, ◌≤◌, ◌^◌, ℕ, None, Some, length, option_map, IfErr, OnOk};
ghost use Rattle.taps_message.specs.Queues.{empty_queue, push_refusal, with_front, number_of_first, IsNext, IsPushed};

use crate::accepted::{Accepted, Taken};
use crate::{Message, PushError, Queued};
use std::alloc::Global;
use std::collections::VecDeque;
use std::marker::Model;

const MOST_MESSAGES: u64 = 256;

const MOST_BYTES: u64 = 4194304;

/// Messages that were accepted and wait to be sent, oldest first.
///
/// Contracts see the queue, with what was accepted so far, and which message `next` gave out last, if the queue
/// was not changed since.
#[derive(Drop)]
pub struct SendQueue {
    waiting: VecDeque<Accepted>,
    accepted: u64,
    bytes: u64,
    ended: bool,
    taken: Option<Taken>,
}

impl Model for SendQueue {
    ghost use Rattle.taps_message.specs.Queues.{SendQueueState};
    ghost use Rattle.std.specs.Prelude.{◌≡◌, ◌≤◌, ◌<◌, Some};
    ghost use Rattle.std.specs.VecDeque.{deque_len, deque_capacity};
    ghost use Rattle.taps_message.specs.declared.accepted.Taken.{Taken};

    ghost Value = { SendQueueState };

    ghost view = { λ s. record {
      queue = record { queued = s.waiting.items; accepted = s.accepted; bytes = s.bytes; ended = s.ended };
      taken = s.taken;
    } };

    ghost invariant = { λ s. (s.accepted ≤ 256) × (s.bytes ≤ 4194304) ×
        ((t : Taken) → s.taken ≡ Some t → deque_len s.waiting < deque_capacity s.waiting) };
}

impl SendQueue {
    /// A queue that accepted nothing, which takes no memory.
    pub fn new(alloc: Global) -> SendQueue
        ensures { result ≡ record { queue = empty_queue; taken = None } }
    {
        SendQueue {
            waiting: VecDeque::new(alloc),
            accepted: 0,
            bytes: 0,
            ended: false,
            taken: None,
        }
    }

    /// Accepts a message at a moment in milliseconds. One that is refused is handed back, and the queue stays.
    pub fn push(&mut self, message: Message, at: u64) -> Result<(), (PushError, Message)>
        ensures { IsPushed self.old message at result self.new }
    {
        match self.refusal(&message) {
            Some(refusal) => Err((refusal, message)),
            None => self.accept(message, at),
        }
    }

    /// What is next at a moment in milliseconds, which is taken out. It takes no memory.
    pub fn next(&mut self, at: u64) -> Queued
        ensures next { IsNext self.old.queue at result self.new }
        ensures few { self.new.queue.accepted ≤ 256 }
    {
        self.taken = None;
        let Some(first) = self.waiting.pop_front() else {
            return Queued::Empty;
        };
        if first.has_expired(at) {
            return Queued::Expired(first.number);
        }
        self.taken = Some(Taken {
            number: first.number,
            at: first.at,
        });
        let Accepted {
            number,
            at: _,
            message,
        } = first;
        Queued::Message { number, message }
    }

    /// The number of the first queued message, if one is queued.
    pub fn first(&self) -> Option<u64>
        ensures { result ≡ number_of_first self.now.queue.queued }
    {
        let first = self.waiting.front()?;
        Some(first.number)
    }

    /// Puts the message that `next` gave back to the front, where the queue was not changed since. It takes no
    /// memory.
    pub fn put_back(&mut self, number: u64, message: Message)
        requires { option_map (λ taken. taken.number) self.old.taken ≡ Some number }
        ensures { (at : ℕ) → self.old.taken ≡ Some (record { number = number; at = at }) →
            self.new ≡ record {
              queue = with_front (record { number = number; at = at; message = message }) self.old.queue;
              taken = None;
            } }
    {
        let Some(taken) = self.taken else {
            unreachable!();
        };
        self.taken = None;
        self.waiting.push_front_reserved(Accepted {
            number,
            at: taken.at,
            message,
        });
    }

    // Why a message is refused, apart from memory.
    fn refusal(&self, message: &Message) -> Option<PushError>
        ensures { result ≡ push_refusal self.now.queue message.now }
    {
        if self.ended {
            return Some(PushError::AfterFinal);
        }
        if self.accepted >= MOST_MESSAGES {
            return Some(PushError::TooMany(MOST_MESSAGES));
        }
        let bytes = self.bytes + message.body.bytes().len() as u64;
        if bytes > MOST_BYTES {
            return Some(PushError::TooMuch(bytes));
        }
        None
    }

    // Accepts a message that is not refused.
    fn accept(&mut self, message: Message, at: u64) -> Result<(), (PushError, Message)>
        requires { push_refusal self.old.queue message ≡ None }
        ensures { IsPushed self.old message at result self.new }
    {
        let bytes = self.bytes + message.body.bytes().len() as u64;
        let ended = message.props.is_final;
        let number = self.accepted;
        match self.waiting.push_back(Accepted {
            number,
            at,
            message,
        }) {
            Ok(()) => {
                self.accepted = number + 1;
                self.bytes = bytes;
                self.ended = ended;
                self.taken = None;
                Ok(())
            }
            Err(failed) => {
                let Accepted {
                    number: _,
                    at: _,
                    message,
                } = failed.value;
                Err((PushError::NoMemory, message))
            }
        }
    }
}
