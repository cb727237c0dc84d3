use std::alloc::Global;
use std::process::Abort;
use std::test::Fail;
use taps_endpoint::Address;
use taps_preconnection::{Preconnection, read_preconnection};
use taps_property::Role;
use taps_prune::{leaf_survives, stack_survives};
use taps_rank::{path_key, stack_key};
use taps_stack::Stack;

// Two paths, of which the first is avoided and leads to IPv4 alone; of the stacks three things are preferred, and
// by default that they have several streams.
const FILE: &str =
    "remote = [{ address = \"[::1]:9000\" }]\npath = [{ interface = \"wlan\", families = [\"inet4\"] }, { interface = \"eth\" }]\n[selection]\ninterface = [{ name = \"wlan\", preference = \"avoid\" }]\nreliability = \"prefer\"\npreserveOrder = \"prefer\"\ncongestionControl = \"prefer\"\n";

const FOUR: Address = Address::V4 {
    octets: [127, 0, 0, 1],
    port: 9000,
};

const SIX: Address = Address::V6 {
    fields: [0, 0, 0, 0, 0, 0, 0, 1],
    port: 9000,
};

// A path, a stack and an address, and whether they may be tried together.
const LEAVES: [(usize, Stack, Address, bool); 5] = [
    (0, Stack::Tcp, FOUR, true),
    (0, Stack::Tcp, SIX, false),
    (1, Stack::Tcp, SIX, true),
    (1, Stack::Udp, SIX, true),
    (1, Stack::Unix, FOUR, false),
];

// Paths, each with the number of preferences that it softly misses: a role that initiates prefers temporary
// addresses by default.
static PATH_KEYS: [(usize, u64); 2] = [(0, 2), (1, 1)];

// Stacks, each with the number of preferences that it softly misses.
static STACK_KEYS: [(Stack, u64); 3] = [(Stack::Tcp, 1), (Stack::Unix, 1), (Stack::Udp, 4)];

// Roles and stacks, and whether the stack may be tried.
static STACKS: [(Role, Stack, bool); 4] = [
    (Role::Initiate, Stack::Udp, true),
    (Role::Listen, Stack::Udp, false),
    (Role::Rendezvous, Stack::Udp, false),
    (Role::Listen, Stack::Tcp, true),
];

fn leaves_hold<R: Abort>(rt: &R, pre: &Preconnection) {
    let leaves = LEAVES;
    for (path, stack, address, wanted) in &leaves {
        assert!(rt; *path < pre.paths.len());
        let survives = leaf_survives(pre, Role::Initiate, *path, *stack, address);
        assert!(rt; survives == *wanted, "at {path} {stack:?}");
    }
}

fn paths_hold<R: Abort>(rt: &R, pre: &Preconnection) {
    for (path, key) in &PATH_KEYS {
        assert!(rt; *path < pre.paths.len());
        assert!(rt; path_key(pre, Role::Initiate, *path) == *key, "at {path}");
    }
}

fn stacks_hold<R: Abort>(rt: &R, pre: &Preconnection) {
    for (stack, key) in &STACK_KEYS {
        assert!(rt;
            stack_key(pre, Role::Initiate, *stack) == *key,
            "at {stack:?}"
        );
    }
    for (role, stack, wanted) in &STACKS {
        assert!(rt;
            stack_survives(pre, *role, *stack) == *wanted,
            "at {stack:?}"
        );
    }
}

fn read(alloc: Global) -> Result<Preconnection, Fail> {
    Ok(read_preconnection(alloc, FILE.as_bytes())?)
}

#[test]
fn leaves_survive(rt: HostRuntime) -> Result<(), Fail> {
    let pre = read(rt.alloc())?;
    leaves_hold(&rt, &pre);
    Ok(())
}

#[test]
fn misses_are_counted(rt: HostRuntime) -> Result<(), Fail> {
    let pre = read(rt.alloc())?;
    paths_hold(&rt, &pre);
    stacks_hold(&rt, &pre);
    Ok(())
}
