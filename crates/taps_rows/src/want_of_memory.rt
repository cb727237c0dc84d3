ghost use Rattle.std.specs.Prelude.{◌≡◌, ◌≤◌, [], length, IfOk};

use crate::plan_rows::PLAIN;
use crate::row::{Row, each_is_closed_once, nine, status_of};
use crate::sim_rows::{LATE_WINNER, TWO};
use std::alloc::Global;
use std::process::Abort;
use std::rt::Runtime;
use std::test::Fail;
use taps_app::Status;
use taps_base::{MemorySink, NoMemory};
use taps_framer::Framer;
use taps_script::{ScriptError, ScriptSockets};
use taps_socket::Sockets;

// What one run came to.
#[derive(Clone, Copy)]
enum Seen {
    Answer,
    NoMemory,
    NoMemoryBehindTheRace,
}

// A file whose session runs on sockets by a script, and its log.
#[derive(Clone, Copy)]
struct Case<'a> {
    file: &'a [u8],
    script: &'a [u8],
    log: &'a str,
}

const RACE: Case<'static> = Case {
    file: TWO,
    script: b"leaf 1 completes 60\n",
    log: LATE_WINNER,
};

// A message that comes back.
const ECHO: Case<'static> = Case {
    file: b"framers = [\"varint\"]\n[[remote]]\naddress = \"127.0.0.1:9000\"\n[[message]]\ntext = \"hi\"\n[exchange]\nexpect = 1\n",
    script: b"leaf 0 completes 5\npeer echo\n",
    log: "leaves 1\n0 any tcp 127.0.0.1:9000 +0\nbegin 0\nstart 0 socket 0 at 0\nwait 30000 completed 0 at 5\nready 0\nclose 0\nsent 0 1\nreceived 0 0 6869\ndone\n",
};

// A session on the sockets, which may find no memory at any place, and leaves no socket open.
fn run_once<R: Abort>(rt: &R, alloc: Global, case: &Case<'_>) -> Result<Seen, NoMemory> {
    let mut net = sockets(rt, alloc, case.script)?;
    let shelf = nine(alloc)?;
    let status = run_over(rt, alloc, case, &shelf, &mut net)?;
    assert!(rt; each_is_closed_once(net.items()));
    Ok(match status {
        Status::Done => Seen::Answer,
        _ if net.items().is_empty() => Seen::NoMemory,
        _ => Seen::NoMemoryBehindTheRace,
    })
}

// The status of the session, with the outputs that belong to it.
fn run_over<R: Abort, N: Sockets>(
    rt: &R,
    alloc: Global,
    case: &Case<'_>,
    shelf: &Vec<Box<dyn Framer>>,
    net: &mut N,
) -> Result<Status, NoMemory>
    requires shelf { length shelf.now.items ≤ 64 }
    requires fresh { (N.net net.old).trace ≡ [] }
{
    let mut out = MemorySink::new(alloc, 2000, None)?;
    let mut err = MemorySink::new(alloc, 200, None)?;
    let status = status_of(alloc, &row_of(case), &mut out, &mut err, net, shelf)?;
    if status == Status::Done {
        assert_eq!(rt; out.bytes(), case.log.as_bytes());
        assert!(rt; err.bytes().is_empty());
    } else {
        assert_eq!(rt; status, Status::NoMemory);
        assert!(rt; out.bytes().is_empty());
        assert!(rt; is_line_or_none(err.bytes()));
    }
    Ok(status)
}

fn row_of<'a>(case: &Case<'a>) -> Row<'a> {
    Row {
        words: &["run", "a.toml"],
        bytes: case.file,
        ..PLAIN
    }
}

fn sockets<R: Abort>(rt: &R, alloc: Global, script: &[u8]) -> Result<ScriptSockets, NoMemory>
    ensures { IfOk result (λ net. net.trace ≡ []) }
{
    match ScriptSockets::read(alloc, script) {
        Ok(net) => Ok(net),
        Err(why) => {
            assert_eq!(rt; why, ScriptError::NoMemory);
            Err(NoMemory)
        }
    }
}

fn is_line_or_none(bytes: &[u8]) -> bool {
    bytes.is_empty() || bytes == b"taps: no memory\n".as_slice()
}

// Prints what was seen, for the check that lets each allocation fail.
fn tell<R: Abort + Runtime>(rt: &R, seen: Result<Seen, NoMemory>) -> Result<(), Fail> {
    match seen {
        Ok(Seen::Answer) => println!(rt; "seen: answer")?,
        Ok(Seen::NoMemoryBehindTheRace) => println!(rt; "seen: no memory behind the race")?,
        Ok(Seen::NoMemory) | Err(NoMemory) => println!(rt; "seen: no memory")?,
    }
    Ok(())
}

#[test]
fn no_socket_is_left_open(rt: HostRuntime) -> Result<(), Fail> {
    tell(&rt, run_once(&rt, rt.alloc(), &RACE))
}

#[test]
fn no_socket_is_left_open_by_an_exchange(rt: HostRuntime) -> Result<(), Fail> {
    tell(&rt, run_once(&rt, rt.alloc(), &ECHO))
}
