ghost use Rattle.std.specs.Prelude.{◌≡◌, ◌≢◌, ◌==◌, List, ℕ, false, bytes_eq, Some, None, IfOk, OnOk, OnErr};
ghost use Rattle.std.specs.List.{list_any};
ghost use Rattle.taps_base.specs.Files.{Answers};
ghost use Rattle.taps_base.specs.MemoryFiles.{answer_to};

use crate::{Body, FileAnswer, Files, NoMemory};
use std::alloc::Global;
use std::collections::BTreeMap;

/// Files in memory, whose contents are observable.
#[derive(Drop)]
pub struct MemoryFiles {
    alloc: Global,
    contents: BTreeMap<String, Body>,
    failing: Vec<u64>,
    last_failed: Option<String>,
    faults: u64,
    reads: u64,
}

impl MemoryFiles {
    ghost use Rattle.taps_base.specs.MemoryFiles.{held_at, history};

    /// No files. The reads of these numbers, counted from 0, fail.
    pub fn new(alloc: Global, faults: &[u64]) -> Result<MemoryFiles, NoMemory>
        ensures none { IfOk result (λ files. (name : List ℕ) → held_at files name ≡ None) }
        ensures unread { IfOk result (λ files.
            history files ≡ record { failing = faults.now; faults = 0; last_failed = None; reads = 0 }) }
    {
        Ok(MemoryFiles {
            alloc,
            contents: BTreeMap::new(alloc),
            failing: Vec::from_slice(alloc, faults)?,
            last_failed: None,
            faults: 0,
            reads: 0,
        })
    }

    /// Adds a file, or replaces the bytes of one that is held.
    #[tactic(auto, using(std::proofs::lemmas::Map::Text::text_keys))]
    pub fn add(&mut self, name: &str, bytes: &[u8]) -> Result<(), NoMemory>
        ensures added { OnOk result (held_at self.new name.now ≡ Some bytes.now) }
        ensures others { OnOk result ((other : List ℕ) → bytes_eq other name.now ≡ false
            → held_at self.new other ≡ held_at self.old other) }
        ensures unchanged { OnErr result ((other : List ℕ) → held_at self.new other ≡ held_at self.old other) }
        ensures unread { history self.new ≡ history self.old }
    {
        let name = String::from_str(self.alloc, name)?;
        let body = Body::from_slice(self.alloc, bytes)?;
        self.contents.insert(name, body)?;
        Ok(())
    }
}

impl Files for MemoryFiles {
    ghost use Rattle.taps_base.specs.MemoryFiles.{files_state, history, answer_of, history_after};

    ghost state = { files_state };

    #[tactic(auto, unfolding(crate::specs::MemoryFiles::answer_of))]
    fn read(&mut self, name: &str, max: u64) -> FileAnswer
        ensures answers { Answers result (files_state self.old) (files_state self.new) name.now max }
        ensures exact { result ≢ FileAnswer.NoMemory → result ≡ answer_of self.old name.now max }
        ensures history { history self.new ≡ history_after result name.now (history self.old) }
    {
        let number = self.reads;
        self.reads = self.reads.saturating_add(1);
        let failed = match String::from_str(self.alloc, name) {
            Ok(failed) => failed,
            Err(_) => return FileAnswer::NoMemory,
        };
        if is_among(&self.failing, number) {
            self.faults = self.faults.saturating_add(1);
            self.last_failed = Some(failed);
            return FileAnswer::Failed;
        }
        match self.contents.get(name) {
            Some(body) => copy_of(self.alloc, body, max),
            None => {
                self.faults = self.faults.saturating_add(1);
                self.last_failed = Some(failed);
                FileAnswer::Failed
            }
        }
    }
}

fn is_among(numbers: &[u64], number: u64) -> bool
    ensures { result ≡ list_any (λ k. k == number) numbers.now }
{
    numbers.contains(&number)
}

fn copy_of(alloc: Global, body: &Body, max: u64) -> FileAnswer
    ensures { result ≢ FileAnswer.NoMemory → result ≡ answer_to (Some body.now) max }
{
    if body.bytes().len() as u64 > max {
        return FileAnswer::TooLong;
    }
    match Body::from_slice(alloc, body.bytes()) {
        Ok(copy) => FileAnswer::Bytes(copy),
        Err(_) => FileAnswer::NoMemory,
    }
}
