// Sessions of `run` over sockets in memory.
use crate::plan_rows::PLAIN;
use crate::row::{Row, nine, prints};
use std::alloc::Global;
use std::process::Abort;
use std::test::Fail;
use taps_memory::MemoryNet;
use taps_socket::Item;

#[derive(Clone, Copy)]
struct MemoryRow<'a> {
    bytes: &'a [u8],
    /// The waits and accepts that are faulted, counted from 0.
    faults: &'a [u64],
    out: &'a str,
    code: u8,
}

const LISTENER: MemoryRow<'static> = MemoryRow {
    bytes: b"[[local]]\naddress = \"127.0.0.1:9000\"\n[exchange]\nrole = \"listen\"\n",
    faults: &[],
    out: "leaves 1\n0 any tcp 127.0.0.1:9000 +0\nbegin 0\nlisten 0 127.0.0.1:9000 at 0\nclose 0\ntimed\n",
    code: 5,
};

// Nobody comes to a listener that is alone.
static LISTENERS: [MemoryRow<'static>; 6] = [
    LISTENER,
    MemoryRow {
        bytes: b"[[local]]\naddress = \"127.0.0.1:9000\"\n[exchange]\nrole = \"listen\"\nconnections = 16\nexpect = 2\n",
        ..LISTENER
    },
    MemoryRow {
        faults: &[0],
        out: "leaves 1\n0 any tcp 127.0.0.1:9000 +0\nbegin 0\nlisten 0 127.0.0.1:9000 at 0\nfaulted at 0\nclose 0\nsocket-fault\n",
        code: 8,
        ..LISTENER
    },
    MemoryRow {
        bytes: b"[[local]]\naddress = \"127.0.0.1:9000\"\n[[local]]\naddress = \"[::1]:9000\"\n[[local]]\naddress = \"127.0.0.1:9000\"\n[exchange]\nrole = \"listen\"\n",
        out: "leaves 2\n0 any tcp 127.0.0.1:9000 +0\n1 any tcp [::1]:9000 +250\nbegin 0\nlisten 0 127.0.0.1:9000 at 0\nclose 0\ntimed\n",
        ..LISTENER
    },
    MemoryRow {
        bytes: b"[exchange]\nrole = \"listen\"\n",
        out: "leaves 0\nestablishment-error no-candidate\n",
        code: 4,
        ..LISTENER
    },
    MemoryRow {
        bytes: b"profile = \"reliable-message\"\n[[local]]\naddress = \"unix:/s\"\n[exchange]\nrole = \"listen\"\n",
        out: "leaves 0\nestablishment-error no-candidate\n",
        code: 4,
        ..LISTENER
    },
];

// Both ends in one program.
static BOTH_ENDS: [MemoryRow<'static>; 4] = [
    MemoryRow {
        bytes: b"framers = [\"len16\"]\n[[local]]\naddress = \"127.0.0.1:9000\"\n[[remote]]\naddress = \"127.0.0.1:9000\"\n[[message]]\ntext = \"a\"\n[[message]]\ntext = \"b\"\n[exchange]\nrole = \"loop\"\n",
        out: "leaves 1\n0 any tcp 127.0.0.1:9000 +0\nlisten 0 127.0.0.1:9000 at 0\nbegin 0\nstart 0 socket 1 at 0\nwait 30000 completed 1 at 0\nready 0\naccept 2 from 0 at 0\nclose 1\nclose 2\nclose 0\nsent 0 2\nsent 1 0\nreceived 1 0 61\nreceived 1 1 62\ndone\n",
        code: 0,
        ..LISTENER
    },
    // The accept is faulted.
    MemoryRow {
        bytes: b"[[local]]\naddress = \"127.0.0.1:9000\"\n[[remote]]\naddress = \"127.0.0.1:9000\"\n[exchange]\nrole = \"loop\"\n",
        faults: &[1],
        out: "leaves 1\n0 any tcp 127.0.0.1:9000 +0\nlisten 0 127.0.0.1:9000 at 0\nbegin 0\nstart 0 socket 1 at 0\nwait 30000 completed 1 at 0\nready 0\nfaulted at 0\nclose 1\nclose 0\nsent 0 0\nsocket-fault\n",
        code: 8,
    },
    // The race is faulted.
    MemoryRow {
        bytes: b"[[local]]\naddress = \"127.0.0.1:9000\"\n[[remote]]\naddress = \"127.0.0.1:9000\"\n[exchange]\nrole = \"loop\"\n",
        faults: &[0],
        out: "leaves 1\n0 any tcp 127.0.0.1:9000 +0\nlisten 0 127.0.0.1:9000 at 0\nbegin 0\nstart 0 socket 1 at 0\nwait 30000 faulted at 0\nclose 1\nclose 0\nsocket-fault\n",
        code: 8,
    },
    // There is no address to listen on.
    MemoryRow {
        bytes: b"[[remote]]\naddress = \"127.0.0.1:9000\"\n[exchange]\nrole = \"loop\"\n",
        out: "leaves 1\n0 any tcp 127.0.0.1:9000 +0\nestablishment-error no-candidate\n",
        code: 4,
        ..LISTENER
    },
];

fn runs<R: Abort>(rt: &R, alloc: Global, row: &MemoryRow<'_>) -> Result<(), Fail> {
    let shelf = nine(alloc)?;
    let mut net = MemoryNet::new(alloc, 1, 4, row.faults)?;
    prints(rt, alloc, &row_of(row), &shelf, &mut net)?;
    assert_eq!(rt; count_opened(net.items()), count_closed(net.items()));
    Ok(())
}

fn row_of<'a>(row: &MemoryRow<'a>) -> Row<'a> {
    Row {
        words: &["run", "a.toml"],
        bytes: row.bytes,
        out: row.out,
        code: row.code,
        ..PLAIN
    }
}

fn count_opened(items: &[Item]) -> usize {
    items
        .iter()
        .filter(|item| {
            matches!(
                item,
                Item::Started { .. } | Item::Listening { .. } | Item::Accepted { .. }
            )
        })
        .count()
}

fn count_closed(items: &[Item]) -> usize {
    items
        .iter()
        .filter(|item| matches!(item, Item::Closed { .. }))
        .count()
}

#[test]
fn listeners_to_whom_nobody_comes(rt: HostRuntime) -> Result<(), Fail> {
    for row in &LISTENERS {
        runs(&rt, rt.alloc(), row)?;
    }
    Ok(())
}

#[test]
fn both_ends_in_one_program(rt: HostRuntime) -> Result<(), Fail> {
    for row in &BOTH_ENDS {
        runs(&rt, rt.alloc(), row)?;
    }
    Ok(())
}
