use crate::plan_rows::PLAIN;
use crate::row::{Row, holds, holds_on};
use std::test::Fail;
use taps_framer::Framer;
use taps_frames::{Len32, Netstring};

// The counts are what these lines of Python print, which know the rule and neither files nor sockets:
//
//     import heapq
//     def counts(n):
//         x = [n]
//         for _ in range(800): x.append((x[-1] * 1664525 + 1013904223) % 2**32)
//         clock = refused = broke = waits = live = socket = 0
//         ends = []                              # of attempts: moment, socket, whether it completes
//         for leaf in range(512):
//             y = x[288 + leaf]
//             if leaf < 511 and y % 3 == 0: refused += 1
//             else:
//                 live += 1
//                 if leaf == 511: heapq.heappush(ends, (clock, socket, True))
//                 elif y % 3 == 1: heapq.heappush(ends, (clock + y // 3 % 100, socket, False))
//                 socket += 1
//             until = clock + 10                 # the next leaf's moment, if an attempt is pending
//             while live and (clock < until or leaf == 511):
//                 waits += 1
//                 if leaf == 511 or ends and ends[0][0] <= until:
//                     clock, _, completes = heapq.heappop(ends)
//                     if completes: return refused, broke, waits
//                     broke += 1; live -= 1
//                 else: clock = until
//     for n in (0, 1, 7, 4294967295): print(n, counts(n))
static SUMMARIES: [Row<'static>; 4] = [
    Row {
        words: &["gen", "0"],
        out: "gen 0\nleaves 512\nattempts 512\nrefused 166\nbroke 170\nwaits 666\nready 511\nreceived 256\ndone\n",
        ..PLAIN
    },
    Row {
        words: &["gen", "1"],
        out: "gen 1\nleaves 512\nattempts 512\nrefused 192\nbroke 151\nwaits 648\nready 511\nreceived 256\ndone\n",
        ..PLAIN
    },
    Row {
        words: &["gen", "7"],
        out: "gen 7\nleaves 512\nattempts 512\nrefused 169\nbroke 163\nwaits 657\nready 511\nreceived 256\ndone\n",
        ..PLAIN
    },
    Row {
        words: &["gen", "4294967295"],
        out: "gen 4294967295\nleaves 512\nattempts 512\nrefused 166\nbroke 187\nwaits 677\nready 511\nreceived 256\ndone\n",
        ..PLAIN
    },
];

const USAGE: Row<'static> = Row {
    err: "taps: usage\n",
    code: 2,
    ..PLAIN
};

// Arguments that are no command, and an output that takes too little.
static OTHERS: [Row<'static>; 11] = [
    Row {
        words: &["gen", "07"],
        ..USAGE
    },
    Row {
        words: &["gen"],
        ..USAGE
    },
    Row {
        words: &["gen", "7", "7"],
        ..USAGE
    },
    Row {
        words: &["gen", "4294967296"],
        ..USAGE
    },
    Row {
        words: &["gen", ""],
        ..USAGE
    },
    Row {
        words: &["gen", "-1"],
        ..USAGE
    },
    Row {
        words: &["gen", "+1"],
        ..USAGE
    },
    Row {
        words: &["gen", " 7"],
        ..USAGE
    },
    Row {
        words: &["gen", "a.toml"],
        ..USAGE
    },
    Row {
        words: &["generate", "7"],
        ..USAGE
    },
    Row {
        words: &["gen", "7"],
        capacity: 5,
        out: "gen 7",
        err: "taps: output fault\n",
        code: 7,
        ..PLAIN
    },
];

#[test]
fn numbers_give_summaries(rt: HostRuntime) -> Result<(), Fail> {
    let alloc = rt.alloc();
    for row in &SUMMARIES {
        holds(&rt, alloc, row)?;
    }
    Ok(())
}

#[test]
fn other_arguments_and_a_short_output(rt: HostRuntime) -> Result<(), Fail> {
    let alloc = rt.alloc();
    for row in &OTHERS {
        holds(&rt, alloc, row)?;
    }
    Ok(())
}

// A refusal is told under the command's name.
const REFUSED: Row<'static> = Row {
    words: &["gen", "7"],
    code: 3,
    ..PLAIN
};

#[test]
fn a_shelf_without_its_framers(rt: HostRuntime) -> Result<(), Fail> {
    let alloc = rt.alloc();
    let mut shelf: Vec<Box<dyn Framer>> = Vec::new(alloc);
    let first = Row {
        err: "taps: refused gen: unknown framer framers[0]\n",
        ..REFUSED
    };
    holds_on(&rt, alloc, &first, &shelf)?;
    shelf.push(Box::new(alloc, Len32)?)?;
    let second = Row {
        err: "taps: refused gen: unknown framer framers[1]\n",
        ..REFUSED
    };
    holds_on(&rt, alloc, &second, &shelf)?;
    shelf.push(Box::new(alloc, Netstring)?)?;
    holds_on(&rt, alloc, &SUMMARIES[2], &shelf)
}
