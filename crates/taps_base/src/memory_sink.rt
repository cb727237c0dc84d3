ghost use Rattle.std.specs.Prelude.{◌≡◌, ◌<◌, length, [], IfOk};
ghost use Rattle.taps_base.specs.Sinks.{Receives};
ghost use Rattle.taps_base.specs.MemorySink.{sink_state, answer_for, state_after};

use crate::{NoMemory, Sink, SinkAnswer};
use std::alloc::Global;
use std::marker::Model;

/// A sink in memory, of fixed capacity, whose bytes are observable.
#[derive(Drop)]
pub struct MemorySink {
    taken: Vec<u8>,
    capacity: usize,
    fail_at: Option<u64>,
    writes: u64,
    faults: u64,
}

impl Model for MemorySink {
    ghost use Rattle.std.specs.Prelude.{◌≤◌, vec_len, vec_capacity};
    ghost use Rattle.taps_base.specs.MemorySink.{MemorySinkState};

    ghost Value = { MemorySinkState };

    ghost view = { λ s. record {
      taken = s.taken.items;
      capacity = s.capacity;
      fail_at = s.fail_at;
      writes = s.writes;
      faults = s.faults;
    } };

    ghost invariant = { λ s. (vec_len s.taken ≤ s.capacity) × (s.capacity ≤ vec_capacity s.taken) };
}

impl MemorySink {
    /// An empty sink of this capacity in bytes. All its memory is taken here. The write of number
    /// `fail_at`, counted from 0, takes nothing and fails.
    pub fn new(alloc: Global, capacity: u64, fail_at: Option<u64>) -> Result<MemorySink, NoMemory>
        ensures { IfOk result (λ sink.
            sink ≡ record { taken = []; capacity = capacity; fail_at = fail_at; writes = 0; faults = 0 }) }
    {
        let capacity = capacity as usize;
        Ok(MemorySink {
            taken: Vec::with_capacity(alloc, capacity)?,
            capacity,
            fail_at,
            writes: 0,
            faults: 0,
        })
    }

    /// The bytes that were taken.
    pub fn bytes(&self) -> &[u8]
        ensures { result.now ≡ self.now.taken }
    {
        &self.taken
    }

    #[tactic(auto, unfolding(crate::specs::MemorySink::fitting, crate::specs::MemorySink::answer_for, crate::specs::MemorySink::state_after))]
    fn take(&mut self, bytes: &[u8]) -> SinkAnswer
        requires { 0 < length bytes.now }
        ensures exact { result ≡ answer_for self.old bytes.now }
        ensures after { self.new ≡ state_after self.old bytes.now }
    {
        let number = self.writes;
        self.writes = self.writes.saturating_add(1);
        if self.fail_at == Some(number) {
            self.faults = self.faults.saturating_add(1);
            return SinkAnswer::Failed;
        }
        let room = self.capacity - self.taken.len();
        if bytes.len() <= room {
            self.taken.extend_from_slice(bytes).unwrap();
            SinkAnswer::Taken
        } else {
            self.taken.extend_from_slice(&bytes[..room]).unwrap();
            self.faults = self.faults.saturating_add(1);
            SinkAnswer::Failed
        }
    }
}

impl Sink for MemorySink {
    ghost state = { sink_state };

    #[tactic(auto, using(crate::proofs::MemorySinks::receives))]
    fn write(&mut self, bytes: &[u8]) -> SinkAnswer
        requires { 0 < length bytes.now }
        ensures receives { Receives result (sink_state self.old) (sink_state self.new) bytes.now }
        ensures exact { result ≡ answer_for self.old bytes.now }
        ensures after { self.new ≡ state_after self.old bytes.now }
    {
        self.take(bytes)
    }
}
