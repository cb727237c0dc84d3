// Both ends through each chain of one and of two of the nine framers, over rings of each size.
ghost use Rattle.std.specs.Prelude.{◌≤◌, length};

use crate::row::{Net, Printed, nine, prints};
use std::alloc::{AllocError, Global};
use std::process::Abort;
use std::test::Fail;
use taps_framer::Framer;

// The bytes of a ring.
static RINGS: [u32; 4] = [1, 7, 4096, 65536];

static NAMES: [&str; 9] = [
    "len16",
    "len32",
    "varint",
    "netstring",
    "counted",
    "line",
    "stuffed",
    "tag",
    "seq",
];

// What stands in each file behind its framers. Among the bytes of the second message are those that `stuffed` spells by
// two.
const REST: &[u8] =
    b"[[local]]\naddress = \"127.0.0.1:9000\"\n[[remote]]\naddress = \"127.0.0.1:9000\"\n[[message]]\ntext = \"hello\"\n[[message]]\nhex = \"c8c9cacbcccdcecfd0d1d2d3dbc0dbc0c0dddc00\"\n[exchange]\nrole = \"loop\"\n";

const DONE: Printed<'static> = Printed {
    out: "leaves 1\n0 any tcp 127.0.0.1:9000 +0\nlisten 0 127.0.0.1:9000 at 0\nbegin 0\nstart 0 socket 1 at 0\nwait 30000 completed 1 at 0\nready 0\naccept 2 from 0 at 0\nclose 1\nclose 2\nclose 0\nsent 0 2\nsent 1 0\nreceived 1 0 68656c6c6f\nreceived 1 1 c8c9cacbcccdcecfd0d1d2d3dbc0dbc0c0dddc00\ndone\n",
    code: 0,
};

// The frame of a `line` has a line's end, so none can be the layer below another.
const REFUSED: Printed<'static> = Printed {
    out: "leaves 1\n0 any tcp 127.0.0.1:9000 +0\nlisten 0 127.0.0.1:9000 at 0\nbegin 0\nstart 0 socket 1 at 0\nwait 30000 completed 1 at 0\nready 0\naccept 2 from 0 at 0\nclose 1\nclose 2\nclose 0\nsent 0 0\nsent 1 0\nnot-speakable 0 0 0\n",
    code: 5,
};

// A file with these framers.
fn file_of(alloc: Global, names: &[&str]) -> Result<Vec<u8>, AllocError> {
    let mut file: Vec<u8> = Vec::new(alloc);
    file.extend_from_slice(b"framers = [")?;
    for name in names {
        file.push(b'"')?;
        file.extend_from_slice(name.as_bytes())?;
        file.extend_from_slice(b"\", ")?;
    }
    file.extend_from_slice(b"]\n")?;
    file.extend_from_slice(REST)?;
    Ok(file)
}

fn take_row<R: Abort>(
    rt: &R,
    alloc: Global,
    shelf: &Vec<Box<dyn Framer>>,
    names: &[&str],
    printed: Printed<'_>,
) -> Result<(), Fail>
    requires { length shelf.now.items ≤ 64 }
{
    let file = file_of(alloc, names)?;
    for ring in &RINGS {
        let sockets = Net {
            pairs: 1,
            ring: *ring,
            faults: &[],
        };
        prints(rt, alloc, shelf, &file, sockets, printed)?;
    }
    Ok(())
}

#[test]
fn both_ends_through_each_framer(rt: HostRuntime) -> Result<(), Fail> {
    let shelf = nine(rt.alloc())?;
    for name in &NAMES {
        take_row(&rt, rt.alloc(), &shelf, &[*name], DONE)?;
    }
    Ok(())
}

#[test]
fn both_ends_through_each_two_framers(rt: HostRuntime) -> Result<(), Fail> {
    let shelf = nine(rt.alloc())?;
    for below in &NAMES {
        for above in &NAMES {
            let lines = *below == "line" && *above == "line";
            let printed = if lines { REFUSED } else { DONE };
            take_row(&rt, rt.alloc(), &shelf, &[*below, *above], printed)?;
        }
    }
    Ok(())
}
