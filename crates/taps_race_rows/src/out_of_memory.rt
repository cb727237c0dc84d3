ghost use Rattle.std.specs.Prelude.{◌≡◌, ◌≤◌, true, [], length, IfOk, IfSome};
ghost use Rattle.taps_socket.specs.RaceSockets.{pending_sockets};
ghost use Rattle.taps_race_rows.specs.Exchanges.{MayClose, MayReceive, MayExchange};

use std::alloc::Global;
use std::process::Abort;
use std::test::Fail;
use taps_base::{Gap, NoMemory};
use taps_endpoint::Address;
use taps_racer::{RaceAnswer, Racer, establish};
use taps_script::{ScriptError, ScriptSockets};
use taps_socket::{Item, RecvAnswer, SendAnswer, Sockets, Target};
use taps_stack::Stack;

const WORD: [u8; 5] = *b"hello";

const UNTIL: u64 = 60000;

const ADDRESS: Address = Address::V4 {
    octets: [127, 0, 0, 1],
    port: 7,
};

// What one exchange came to.
#[derive(Clone, Copy)]
enum Seen {
    Whole,
    NoMemory,
    NoMemoryBehindTheRace,
}

// A race of one leaf and an exchange on its socket, which may find no memory at any place, and
// leaves no socket open.
fn exchange_once<R: Abort>(
    rt: &R,
    alloc: Global,
    script: &[u8],
    stack: Stack,
) -> Result<Seen, NoMemory> {
    let address = ADDRESS;
    let mut net = sockets(rt, alloc, script)?;
    net.reserve(9)?;
    let Ok(won) = winner_of(alloc, Target { stack, address }, &mut net) else {
        assert!(rt; net.items().is_empty());
        return Ok(Seen::NoMemory);
    };
    let Some(socket) = won else {
        assert!(rt; won.is_some());
        return Ok(Seen::NoMemory);
    };
    let heard = exchange(alloc, socket, &mut net);
    net.close(socket);
    assert_eq!(rt; count_starts(net.items()), 1);
    assert_eq!(rt; count_closes(net.items()), 1);
    match heard {
        Ok(is_heard) => {
            assert!(rt; is_heard);
            Ok(Seen::Whole)
        }
        Err(NoMemory) => Ok(Seen::NoMemoryBehindTheRace),
    }
}

fn sockets<R: Abort>(rt: &R, alloc: Global, script: &[u8]) -> Result<ScriptSockets, NoMemory>
    ensures { IfOk result (λ net. net.trace ≡ []) }
{
    match ScriptSockets::read(alloc, script) {
        Ok(net) => Ok(net),
        Err(why) => {
            assert_eq!(rt; why, ScriptError::NoMemory);
            Err(NoMemory)
        }
    }
}

// The socket that won the race of one leaf, if it did.
fn winner_of<N: Sockets>(
    alloc: Global,
    target: Target,
    net: &mut N,
) -> Result<Option<u32>, NoMemory>
    requires idle { pending_sockets (N.net net.old).trace ≡ [] }
    requires room { 9 ≤ (N.net net.old).spare }
    ensures { IfOk result (λ won. IfSome won (λ s. MayExchange s 4 (N.net net.new))) }
{
    let racer = Racer::new(alloc, &[Gap::After(0)], 30000, None)?;
    let ended = match establish(racer, 0, &[target], net) {
        Ok(ended) => ended,
        Err((none, _)) => return Err(none),
    };
    match ended.answer() {
        RaceAnswer::Ready { socket, .. } => Ok(Some(socket)),
        _ => Ok(None),
    }
}

// Sends a word, and says whether the same was received.
fn exchange<N: Sockets>(alloc: Global, socket: u32, net: &mut N) -> Result<bool, NoMemory>
    requires { MayExchange socket 4 (N.net net.old) }
    ensures { MayClose socket 1 (N.net net.new) }
{
    let mut heard = vec![in alloc; 0; 65535]?;
    net.make_room(socket, 5)?;
    if send(socket, net) {
        Ok(receive(socket, &mut heard, net))
    } else {
        Ok(false)
    }
}

// Sends the word, and says whether bytes of it were taken.
fn send<N: Sockets>(socket: u32, net: &mut N) -> bool
    requires may { MayExchange socket 4 (N.net net.old) }
    requires room { 5 ≤ ((N.net net.old).traffic socket).room }
    ensures close { MayClose socket 2 (N.net net.new) }
    ensures receive { result ≡ true → MayReceive socket 2 (N.net net.new) }
{
    match net.send(socket, &WORD, UNTIL) {
        SendAnswer::Sent { .. } => true,
        _ => false,
    }
}

// Says whether the word came.
fn receive<N: Sockets>(socket: u32, heard: &mut [u8], net: &mut N) -> bool
    requires room { length heard.old ≡ 65535 }
    requires may { MayReceive socket 2 (N.net net.old) }
    ensures { MayClose socket 1 (N.net net.new) }
{
    match net.recv(socket, heard, UNTIL) {
        RecvAnswer::Got { count, .. } => &heard[..count] == WORD.as_slice(),
        _ => false,
    }
}

fn count_starts(items: &[Item]) -> usize {
    items
        .iter()
        .filter(|item| matches!(item, Item::Started { .. }))
        .count()
}

fn count_closes(items: &[Item]) -> usize {
    items
        .iter()
        .filter(|item| matches!(item, Item::Closed { .. }))
        .count()
}

fn shown(seen: Result<Seen, NoMemory>) -> &'static str {
    match seen {
        Ok(Seen::Whole) => "whole",
        Ok(Seen::NoMemoryBehindTheRace) => "no memory behind the race",
        Ok(Seen::NoMemory) | Err(NoMemory) => "no memory",
    }
}

// Each test prints what was seen, for the check that lets each allocation fail.
#[test]
fn a_stream_is_closed(rt: HostRuntime) -> Result<(), Fail> {
    let script = b"leaf 0 completes 5\npeer echo\n";
    let seen = shown(exchange_once(&rt, rt.alloc(), script, Stack::Tcp));
    println!(rt; "seen: {seen}")?;
    Ok(())
}

#[test]
fn datagrams_are_closed(rt: HostRuntime) -> Result<(), Fail> {
    let script = b"leaf 0 completes 5\npeer sends 9 68656c6c6f\n";
    let seen = shown(exchange_once(&rt, rt.alloc(), script, Stack::Udp));
    println!(rt; "seen: {seen}")?;
    Ok(())
}
