use std::alloc::Global;
use std::process::Abort;
use std::test::Fail;
use taps_base::{List, Name};
use taps_endpoint::{DeriveError, Hosts, Ip, Remote, derive_addresses, parse_address};

// A remote of a list.
#[derive(Clone, Copy)]
enum Given {
    Literal(&'static str),
    Host(&'static str, u16),
}

// Names, each with how many addresses it is given: `1::`, `2::` and so on. The last one counts.
static NAMES: [(&str, u16); 3] = [("a", 7), ("b", 31), ("a", 2)];

// Names, each with how many addresses it has then.
static FOUND: [(&str, Option<usize>); 3] = [("a", Some(2)), ("b", Some(31)), ("c", None)];

// Remotes that are added one by one, each with the number of addresses that are derived then.
static REMOTES: [(Given, Result<u64, DeriveError>); 8] = [
    (Given::Host("none", 9), Ok(0)),
    (Given::Literal("[1:0:0:0:0:0:0:0]:9"), Ok(1)),
    (Given::Host("a", 9), Ok(2)),
    (Given::Host("b", 9), Ok(31)),
    (Given::Literal("unix:/s"), Ok(32)),
    (Given::Literal("unix:/s"), Ok(32)),
    (Given::Literal("1.2.3.4:9"), Err(DeriveError::TooMany(33))),
    (Given::Host("b", 8), Err(DeriveError::TooMany(64))),
];

fn name(alloc: Global, text: &str) -> Result<Name, Fail> {
    Ok(Name::read(alloc, text.as_bytes())?)
}

fn push_ip(ips: &mut List<Ip>, first: u16) -> Result<(), Fail> {
    match ips.push(Ip::V6([first, 0, 0, 0, 0, 0, 0, 0])) {
        Ok(()) => Ok(()),
        Err((none, _)) => Err(Fail::from(none)),
    }
}

fn ips(alloc: Global, count: u16) -> Result<List<Ip>, Fail> {
    let mut ips = List::new(alloc);
    for number in 0..count {
        push_ip(&mut ips, number + 1)?;
    }
    Ok(ips)
}

fn put(alloc: Global, hosts: &mut Hosts, text: &str, ips: List<Ip>) -> Result<(), Fail> {
    let name = name(alloc, text)?;
    Ok(hosts.put(name, ips)?)
}

fn put_all(alloc: Global, hosts: &mut Hosts) -> Result<(), Fail> {
    for (text, count) in &NAMES {
        let ips = ips(alloc, *count)?;
        put(alloc, hosts, text, ips)?;
    }
    Ok(())
}

fn host(alloc: Global, text: &str, port: u16) -> Result<Remote, Fail> {
    let name = name(alloc, text)?;
    Ok(Remote::Host { name, port })
}

fn literal(text: &str) -> Result<Remote, Fail> {
    Ok(Remote::Literal(parse_address(text.as_bytes())?))
}

fn remote(alloc: Global, given: Given) -> Result<Remote, Fail> {
    match given {
        Given::Literal(text) => literal(text),
        Given::Host(text, port) => host(alloc, text, port),
    }
}

fn push(alloc: Global, remotes: &mut List<Remote>, given: Given) -> Result<(), Fail> {
    let remote = remote(alloc, given)?;
    match remotes.push(remote) {
        Ok(()) => Ok(()),
        Err((none, _)) => Err(Fail::from(none)),
    }
}

// How many addresses these remotes have.
fn count_of(alloc: Global, remotes: &List<Remote>, hosts: &Hosts) -> Result<u64, DeriveError> {
    match derive_addresses(alloc, remotes, hosts) {
        Ok(addresses) => Ok(addresses.len() as u64),
        Err(refused) => Err(refused),
    }
}

fn count_each<R: Abort>(rt: &R, alloc: Global, hosts: &Hosts) -> Result<(), Fail> {
    let mut remotes = List::new(alloc);
    for (given, count) in &REMOTES {
        push(alloc, &mut remotes, *given)?;
        assert!(rt; count_of(alloc, &remotes, hosts) == *count);
    }
    Ok(())
}

// How many addresses a name has.
fn found(alloc: Global, hosts: &Hosts, text: &str) -> Result<Option<usize>, Fail> {
    let name = name(alloc, text)?;
    match hosts.find(&name) {
        Some(ips) => Ok(Some(ips.len())),
        None => Ok(None),
    }
}

fn find_each<R: Abort>(rt: &R, alloc: Global, hosts: &Hosts) -> Result<(), Fail> {
    for (text, count) in &FOUND {
        let found = found(alloc, hosts, text)?;
        assert!(rt; found == *count, "at {text}");
    }
    Ok(())
}

#[test]
fn finds_the_last_list(rt: HostRuntime) -> Result<(), Fail> {
    let mut hosts = Hosts::new(rt.alloc());
    put_all(rt.alloc(), &mut hosts)?;
    find_each(&rt, rt.alloc(), &hosts)
}

#[test]
fn derives_each_address_once(rt: HostRuntime) -> Result<(), Fail> {
    let mut hosts = Hosts::new(rt.alloc());
    put_all(rt.alloc(), &mut hosts)?;
    count_each(&rt, rt.alloc(), &hosts)
}
