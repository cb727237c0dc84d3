ghost use Rattle.std.specs.Prelude.{◌≡◌, ◌≤◌, length, reverse, IfOk};
ghost use Rattle.std.specs.List.{All};
ghost use Rattle.taps_memory.specs.Links.{unused_link};
ghost use Rattle.taps_memory.specs.Joined.{AreJoinedReliably};
ghost use Rattle.taps_memory.specs.Memory.{at_first, net_of};
ghost use Rattle.taps_memory.specs.Met.{JoinsWinner, MeetInMemory, WinsOverStream};

use crate::link::Link;
use crate::listening::Listening;
use std::alloc::Global;
use std::marker::Model;
use taps_base::NoMemory;
use taps_socket::{Item, TimedCall};

/// Sockets in memory: both ends of a few connections, joined by rings of bytes.
///
/// Contracts see what was set, the items, and of each connection its ends with all bytes that were
/// written and how many of them were read. Each answer is a function of what was set and of the calls
/// before it.
#[derive(Drop)]
pub struct MemoryNet {
    pub(crate) capacity: usize,
    pub(crate) most: usize,
    pub(crate) plan: Vec<u64>,
    pub(crate) items: Vec<Item>,
    pub(crate) spare: u64,
    pub(crate) told: u64,
    pub(crate) faults: u64,
    pub(crate) turns: u64,
    pub(crate) given: u32,
    pub(crate) listened: u32,
    pub(crate) listening: Vec<Listening>,
    pub(crate) pending: Vec<u32>,
    pub(crate) links: Vec<Link>,
    pub(crate) unused: Vec<Link>,
    pub(crate) timed: u64,
    pub(crate) last_timed: Option<TimedCall>,
}

impl Model for MemoryNet {
    ghost use Rattle.std.specs.Prelude.{reverse, vec_len, vec_capacity, length};
    ghost use Rattle.taps_memory.specs.Memory.{Memory};
    ghost use Rattle.taps_memory.specs.Kept.{IsKept, AreLinked, AreUnused, HasRoom};

    ghost Value = { Memory };

    ghost view = { λ s. record {
      setting = record { pairs = s.most; capacity = s.capacity; plan = s.plan.items };
      trace = reverse s.items.items;
      told = s.told;
      spare = s.spare;
      faults = s.faults;
      turns = s.turns;
      links = s.links.items;
      timed = s.timed;
      last_timed = s.last_timed;
    } };

    ghost invariant = { λ s.
        IsKept (reverse s.items.items) s.told s.given s.listened s.pending.items s.listening.items
        × AreLinked (reverse s.items.items) s.given s.links.items
        × AreUnused s.capacity s.most s.given s.listened s.links.items s.unused.items
        × HasRoom s.spare (vec_len s.items) (vec_capacity s.items)
        × HasRoom s.spare (vec_len s.listening) (vec_capacity s.listening)
        × HasRoom (vec_len s.unused) (vec_len s.pending) (vec_capacity s.pending)
        × HasRoom (vec_len s.unused) (vec_len s.links) (vec_capacity s.links) };
}

impl MemoryNet {
    /// Both ends of at most so many connections, over rings of so many bytes, which are all made here.
    /// The waits and accepts of these numbers fault: they are counted together from 0.
    pub fn new(
        alloc: Global,
        pairs: u32,
        capacity: u32,
        faults: &[u64],
    ) -> Result<MemoryNet, NoMemory>
        requires few { pairs ≤ 64 }
        requires some { 1 ≤ capacity }
        requires small { capacity ≤ 65536 }
        ensures { IfOk result (λ net.
            net ≡ at_first (record { pairs = pairs; capacity = capacity; plan = faults.now })) }
    {
        let most = pairs as usize;
        let capacity = capacity as usize;
        let mut plan = Vec::new(alloc);
        plan.extend_from_slice(faults)?;
        let mut pending = Vec::new(alloc);
        pending.reserve(most)?;
        let mut links = Vec::new(alloc);
        links.reserve(most)?;
        let unused = unused_links(alloc, most, capacity)?;
        Ok(MemoryNet {
            capacity,
            most,
            plan,
            items: Vec::new(alloc),
            spare: 0,
            told: 0,
            faults: 0,
            turns: 0,
            given: 0,
            listened: 0,
            listening: Vec::new(alloc),
            pending,
            links,
            unused,
            timed: 0,
            last_timed: None,
        })
    }

    /// The items so far, oldest first.
    pub fn items(&self) -> &[Item]
        ensures { reverse result.now ≡ self.now.trace }
    {
        &self.items
    }

    /// Nothing: its clause says that the two ends of each connection are joined reliably.
    pub fn joined(&self)
        ensures { AreJoinedReliably (net_of self.now) }
    {
        let _ = &self.links;
    }

    /// Nothing: its clauses say that where the first call was a listen, and a race behind it had a winner, the winner
    /// and the connection that is accepted behind the race are the two ends of one connection, joined reliably, which is a stream.
    pub fn joins_winner(&self)
        ensures ends { MeetInMemory }
        ensures joined { JoinsWinner self.now }
        ensures stream { WinsOverStream }
    {
        self.joined();
    }
}

fn unused_links(alloc: Global, most: usize, capacity: usize) -> Result<Vec<Link>, NoMemory>
    ensures each { IfOk result (λ links. All (λ l. l ≡ unused_link capacity) links.items) }
    ensures count { IfOk result (λ links. length links.items ≡ most) }
{
    let mut links = Vec::new(alloc);
    links.reserve(most)?;
    for _ in 0..most {
        links.push(Link::new(alloc, capacity)?)?;
    }
    Ok(links)
}
