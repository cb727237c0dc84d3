ghost use Rattle.std.specs.Prelude.{◌≡◌, [], ◌++◌, ◌+◌, ◌<◌, ◌≤◌, ◌^◌, length, if◌then◌else◌, vec_len, vec_capacity};
ghost use Rattle.std.specs.Cmp.Lexicographic.{slice_cmp};
ghost use Rattle.std.specs.List.Sorted.{IsPermutation, IsSortedByKey};
ghost use Rattle.std.specs.Ordering.{nat_cmp};
ghost use Rattle.taps_candidate.specs.Candidates as levels;
ghost use Rattle.taps_endpoint.specs.Families.{family_of};
ghost use Rattle.taps_prune.specs.Survival.{is_reachable};
ghost use Rattle.taps_rank.specs.Turns.{round_in, turns_with};
ghost use Rattle.taps_stack.specs.StackTable.{stack_place as place_of};

use taps_endpoint::Address;
use taps_preconnection::Path;
use taps_prune::is_reachable;
use taps_rank::{Turn, Turns};
use taps_stack::Stack;

/// A triple that survives, with the seven numbers of its key, of which the earlier decide.
#[derive(Clone, Copy)]
pub struct Candidate {
    pub key: [u64; 7],
    pub path: u32,
    pub stack: Stack,
    pub address: Address,
}

/// A branch of the tree: what the candidates of one path and one stack have in common.
#[derive(Clone, Copy)]
pub struct Level {
    pub path_key: u64,
    pub path: u32,
    pub stack_key: u64,
    pub stack: Stack,
}

/// Puts the candidates of a branch into their order, where none is yet and there is room for one of each
/// address: the families take turns.
pub fn expand(candidates: &mut Vec<Candidate>, level: Level, path: &Path, addresses: &[Address])
    requires empty { candidates.old.items ≡ [] }
    requires room { length addresses.now ≤ vec_capacity candidates.old }
    ensures moved { IsPermutation (levels.of_level level path.now addresses.now) candidates.new.items }
    ensures sorted { IsSortedByKey (λ (c : Candidate). c.key) (slice_cmp nat_cmp) candidates.new.items }
    ensures room { length addresses.now ≤ vec_capacity candidates.new }
{
    add_level(candidates, level, path, addresses);
    sort(candidates);
}

// Their keys all differ.
fn sort(candidates: &mut Vec<Candidate>)
    ensures moved { IsPermutation candidates.old.items candidates.new.items }
    ensures sorted { IsSortedByKey (λ (c : Candidate). c.key) (slice_cmp nat_cmp) candidates.new.items }
    ensures room { vec_capacity candidates.new ≡ vec_capacity candidates.old }
{
    candidates.sort_unstable_by_key(key);
}

fn key(candidate: &Candidate) -> [u64; 7]
    ensures { result ≡ candidate.now.key }
{
    candidate.key
}

fn add_level(candidates: &mut Vec<Candidate>, level: Level, path: &Path, addresses: &[Address])
    requires { vec_len candidates.old + length addresses.now ≤ vec_capacity candidates.old }
    ensures items { candidates.new.items ≡ candidates.old.items ++ levels.of_level level path.now addresses.now }
    ensures room { vec_capacity candidates.old ≤ vec_capacity candidates.new }
{
    let mut turns = Turns::new();
    for (place, address) in addresses.iter().enumerate() {
        add_address(candidates, &mut turns, level, path, place, address);
    }
}

// Adds the one of an address, if it is reached. Else it takes no turn.
fn add_address(
    candidates: &mut Vec<Candidate>,
    turns: &mut Turns,
    level: Level,
    path: &Path,
    place: usize,
    address: &Address,
)
    requires rounds { round_in turns.old (family_of address.now) + 1 < 2 ^ 64 }
    requires room { vec_len candidates.old < vec_capacity candidates.old }
    ensures candidates { candidates.new.items ≡ candidates.old.items
        ++ levels.of_address level path.now turns.old (place, address.now) }
    ensures turns { turns.new ≡ (if is_reachable path.now level.stack address.now then
        turns_with (family_of address.now) turns.old else turns.old) }
    ensures one { vec_len candidates.new ≤ vec_len candidates.old + 1 }
    ensures room { vec_capacity candidates.old ≤ vec_capacity candidates.new }
{
    if is_reachable(path, level.stack, address) {
        let turn = turns.take(address.family());
        match candidates.push(make_candidate(level, turn, place, address)) {
            Ok(()) => {}
            Err(_) => unreachable!(),
        }
    }
}

fn make_candidate(level: Level, turn: Turn, place: usize, address: &Address) -> Candidate
    ensures { result ≡ levels.keyed_by level turn (place, address.now) }
{
    Candidate {
        key: [
            level.path_key,
            level.path as u64,
            level.stack_key,
            stack_place(level.stack),
            turn.round,
            turn.side,
            place as u64,
        ],
        path: level.path,
        stack: level.stack,
        address: *address,
    }
}

pub fn stack_place(stack: Stack) -> u64
    ensures { result ≡ place_of stack }
{
    match stack {
        Stack::Tcp => 0,
        Stack::Unix => 1,
        Stack::Udp => 2,
    }
}
