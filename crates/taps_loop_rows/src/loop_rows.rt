// Sessions of both ends over sockets in memory, as a table tells.
use crate::row::{Net, Printed, nine, prints};
use std::test::Fail;

type Row = (&'static [u8], Net<'static>, Printed<'static>);

const ROWS: [Row; 19] = [
    // The second connection loses, and the winner's is the one that is accepted.
    (
        b"framers = [\"len16\"]\n[race]\nmode = \"simultaneous\"\n[[path]]\ninterface = \"wlan0\"\n[[path]]\ninterface = \"eth0\"\n[[local]]\naddress = \"127.0.0.1:9000\"\n[[remote]]\naddress = \"127.0.0.1:9000\"\n[[message]]\ntext = \"a\"\n[exchange]\nrole = \"loop\"\n",
        Net {
            pairs: 2,
            ring: 4,
            faults: &[],
        },
        Printed {
            out: "leaves 2\n0 wlan0 tcp 127.0.0.1:9000 +0\n1 eth0 tcp 127.0.0.1:9000 +0\nlisten 0 127.0.0.1:9000 at 0\nbegin 0\nstart 0 socket 1 at 0\nstart 1 socket 2 at 0\nwait 30000 completed 1 at 0\nclose 2\nready 0\naccept 3 from 0 at 0\nclose 1\nclose 3\nclose 0\nsent 0 1\nsent 1 0\nreceived 1 0 61\ndone\n",
            code: 0,
        },
    ),
    // There is one connection alone, so the second start is refused.
    (
        b"framers = [\"len16\"]\n[race]\nmode = \"simultaneous\"\n[[path]]\ninterface = \"wlan0\"\n[[path]]\ninterface = \"eth0\"\n[[local]]\naddress = \"127.0.0.1:9000\"\n[[remote]]\naddress = \"127.0.0.1:9000\"\n[[message]]\ntext = \"a\"\n[exchange]\nrole = \"loop\"\n",
        Net {
            pairs: 1,
            ring: 4,
            faults: &[],
        },
        Printed {
            out: "leaves 2\n0 wlan0 tcp 127.0.0.1:9000 +0\n1 eth0 tcp 127.0.0.1:9000 +0\nlisten 0 127.0.0.1:9000 at 0\nbegin 0\nstart 0 socket 1 at 0\nstart 1 refused memory at 0\nwait 30000 completed 1 at 0\nready 0\naccept 2 from 0 at 0\nclose 1\nclose 2\nclose 0\nsent 0 1\nsent 1 0\nreceived 1 0 61\ndone\n",
            code: 0,
        },
    ),
    // The race's wait is faulted.
    (
        b"framers = [\"len16\"]\n[race]\nmode = \"simultaneous\"\n[[path]]\ninterface = \"wlan0\"\n[[path]]\ninterface = \"eth0\"\n[[local]]\naddress = \"127.0.0.1:9000\"\n[[remote]]\naddress = \"127.0.0.1:9000\"\n[[message]]\ntext = \"a\"\n[exchange]\nrole = \"loop\"\n",
        Net {
            pairs: 2,
            ring: 4,
            faults: &[0],
        },
        Printed {
            out: "leaves 2\n0 wlan0 tcp 127.0.0.1:9000 +0\n1 eth0 tcp 127.0.0.1:9000 +0\nlisten 0 127.0.0.1:9000 at 0\nbegin 0\nstart 0 socket 1 at 0\nstart 1 socket 2 at 0\nwait 30000 faulted at 0\nclose 1\nclose 2\nclose 0\nsocket-fault\n",
            code: 8,
        },
    ),
    // The accept is faulted.
    (
        b"framers = [\"len16\"]\n[race]\nmode = \"simultaneous\"\n[[path]]\ninterface = \"wlan0\"\n[[path]]\ninterface = \"eth0\"\n[[local]]\naddress = \"127.0.0.1:9000\"\n[[remote]]\naddress = \"127.0.0.1:9000\"\n[[message]]\ntext = \"a\"\n[exchange]\nrole = \"loop\"\n",
        Net {
            pairs: 2,
            ring: 4,
            faults: &[1],
        },
        Printed {
            out: "leaves 2\n0 wlan0 tcp 127.0.0.1:9000 +0\n1 eth0 tcp 127.0.0.1:9000 +0\nlisten 0 127.0.0.1:9000 at 0\nbegin 0\nstart 0 socket 1 at 0\nstart 1 socket 2 at 0\nwait 30000 completed 1 at 0\nclose 2\nready 0\nfaulted at 0\nclose 1\nclose 0\nsent 0 0\nsocket-fault\n",
            code: 8,
        },
    ),
    // Both would be: the first one ends the session.
    (
        b"framers = [\"len16\"]\n[race]\nmode = \"simultaneous\"\n[[path]]\ninterface = \"wlan0\"\n[[path]]\ninterface = \"eth0\"\n[[local]]\naddress = \"127.0.0.1:9000\"\n[[remote]]\naddress = \"127.0.0.1:9000\"\n[[message]]\ntext = \"a\"\n[exchange]\nrole = \"loop\"\n",
        Net {
            pairs: 2,
            ring: 4,
            faults: &[0, 1],
        },
        Printed {
            out: "leaves 2\n0 wlan0 tcp 127.0.0.1:9000 +0\n1 eth0 tcp 127.0.0.1:9000 +0\nlisten 0 127.0.0.1:9000 at 0\nbegin 0\nstart 0 socket 1 at 0\nstart 1 socket 2 at 0\nwait 30000 faulted at 0\nclose 1\nclose 2\nclose 0\nsocket-fault\n",
            code: 8,
        },
    ),
    // There is no third wait or accept.
    (
        b"framers = [\"len16\"]\n[race]\nmode = \"simultaneous\"\n[[path]]\ninterface = \"wlan0\"\n[[path]]\ninterface = \"eth0\"\n[[local]]\naddress = \"127.0.0.1:9000\"\n[[remote]]\naddress = \"127.0.0.1:9000\"\n[[message]]\ntext = \"a\"\n[exchange]\nrole = \"loop\"\n",
        Net {
            pairs: 2,
            ring: 4,
            faults: &[2],
        },
        Printed {
            out: "leaves 2\n0 wlan0 tcp 127.0.0.1:9000 +0\n1 eth0 tcp 127.0.0.1:9000 +0\nlisten 0 127.0.0.1:9000 at 0\nbegin 0\nstart 0 socket 1 at 0\nstart 1 socket 2 at 0\nwait 30000 completed 1 at 0\nclose 2\nready 0\naccept 3 from 0 at 0\nclose 1\nclose 3\nclose 0\nsent 0 1\nsent 1 0\nreceived 1 0 61\ndone\n",
            code: 0,
        },
    ),
    // Nothing listens on the first remote.
    (
        b"framers = [\"len16\"]\n[[local]]\naddress = \"127.0.0.1:9000\"\n[[remote]]\naddress = \"127.0.0.1:9001\"\n[[remote]]\naddress = \"127.0.0.1:9000\"\n[[message]]\ntext = \"a\"\n[exchange]\nrole = \"loop\"\n",
        Net {
            pairs: 1,
            ring: 4,
            faults: &[],
        },
        Printed {
            out: "leaves 2\n0 any tcp 127.0.0.1:9001 +0\n1 any tcp 127.0.0.1:9000 +250\nlisten 0 127.0.0.1:9000 at 0\nbegin 0\nstart 0 refused refused at 0\nstart 1 socket 1 at 0\nwait 30000 completed 1 at 0\nready 1\naccept 2 from 0 at 0\nclose 1\nclose 2\nclose 0\nsent 0 1\nsent 1 0\nreceived 1 0 61\ndone\n",
            code: 0,
        },
    ),
    // Nor on any.
    (
        b"framers = [\"len16\"]\n[[local]]\naddress = \"127.0.0.1:9000\"\n[[remote]]\naddress = \"127.0.0.1:9001\"\n[[message]]\ntext = \"a\"\n[exchange]\nrole = \"loop\"\n",
        Net {
            pairs: 1,
            ring: 4,
            faults: &[],
        },
        Printed {
            out: "leaves 1\n0 any tcp 127.0.0.1:9001 +0\nlisten 0 127.0.0.1:9000 at 0\nbegin 0\nstart 0 refused refused at 0\nclose 0\nestablishment-error all-failed\n",
            code: 4,
        },
    ),
    // There is no connection.
    (
        b"framers = [\"len16\"]\n[[local]]\naddress = \"127.0.0.1:9000\"\n[[remote]]\naddress = \"127.0.0.1:9000\"\n[[message]]\ntext = \"a\"\n[exchange]\nrole = \"loop\"\n",
        Net {
            pairs: 0,
            ring: 4,
            faults: &[],
        },
        Printed {
            out: "leaves 1\n0 any tcp 127.0.0.1:9000 +0\nlisten 0 127.0.0.1:9000 at 0\nbegin 0\nstart 0 refused memory at 0\nclose 0\nestablishment-error all-failed\n",
            code: 4,
        },
    ),
    // Without a framer the stream is one message, behind which its side is ended.
    (
        b"[[local]]\naddress = \"127.0.0.1:9000\"\n[[remote]]\naddress = \"127.0.0.1:9000\"\n[[message]]\ntext = \"a\"\n[exchange]\nrole = \"loop\"\n",
        Net {
            pairs: 1,
            ring: 4,
            faults: &[],
        },
        Printed {
            out: "leaves 1\n0 any tcp 127.0.0.1:9000 +0\nlisten 0 127.0.0.1:9000 at 0\nbegin 0\nstart 0 socket 1 at 0\nwait 30000 completed 1 at 0\nready 0\naccept 2 from 0 at 0\nshut 1\nended 2\nclose 1\nclose 2\nclose 0\nsent 0 1\nsent 1 0\nreceived 1 0 61\ndone\n",
            code: 0,
        },
    ),
    // A second message cannot be sent then.
    (
        b"[[local]]\naddress = \"127.0.0.1:9000\"\n[[remote]]\naddress = \"127.0.0.1:9000\"\n[[message]]\ntext = \"a\"\n[[message]]\ntext = \"b\"\n[exchange]\nrole = \"loop\"\n",
        Net {
            pairs: 1,
            ring: 4,
            faults: &[],
        },
        Printed {
            out: "leaves 1\n0 any tcp 127.0.0.1:9000 +0\nlisten 0 127.0.0.1:9000 at 0\nbegin 0\nstart 0 socket 1 at 0\nwait 30000 completed 1 at 0\nready 0\naccept 2 from 0 at 0\nshut 1\nclose 1\nclose 2\nclose 0\nsent 0 1\nsent 1 0\nnot-speakable 0 1 0\n",
            code: 5,
        },
    ),
    // A final message ends the side.
    (
        b"framers = [\"len16\"]\n[[local]]\naddress = \"127.0.0.1:9000\"\n[[remote]]\naddress = \"127.0.0.1:9000\"\n[[message]]\ntext = \"a\"\nfinal = true\n[exchange]\nrole = \"loop\"\n",
        Net {
            pairs: 1,
            ring: 4,
            faults: &[],
        },
        Printed {
            out: "leaves 1\n0 any tcp 127.0.0.1:9000 +0\nlisten 0 127.0.0.1:9000 at 0\nbegin 0\nstart 0 socket 1 at 0\nwait 30000 completed 1 at 0\nready 0\naccept 2 from 0 at 0\nshut 1\nclose 1\nclose 2\nclose 0\nsent 0 1\nsent 1 0\nreceived 1 0 61\ndone\n",
            code: 0,
        },
    ),
    // There is no message.
    (
        b"framers = [\"len16\"]\n[[local]]\naddress = \"127.0.0.1:9000\"\n[[remote]]\naddress = \"127.0.0.1:9000\"\n[exchange]\nrole = \"loop\"\n",
        Net {
            pairs: 1,
            ring: 4,
            faults: &[],
        },
        Printed {
            out: "leaves 1\n0 any tcp 127.0.0.1:9000 +0\nlisten 0 127.0.0.1:9000 at 0\nbegin 0\nstart 0 socket 1 at 0\nwait 30000 completed 1 at 0\nready 0\naccept 2 from 0 at 0\nclose 1\nclose 2\nclose 0\nsent 0 0\nsent 1 0\ndone\n",
            code: 0,
        },
    ),
    // And no framer.
    (
        b"[[local]]\naddress = \"127.0.0.1:9000\"\n[[remote]]\naddress = \"127.0.0.1:9000\"\n[exchange]\nrole = \"loop\"\n",
        Net {
            pairs: 1,
            ring: 4,
            faults: &[],
        },
        Printed {
            out: "leaves 1\n0 any tcp 127.0.0.1:9000 +0\nlisten 0 127.0.0.1:9000 at 0\nbegin 0\nstart 0 socket 1 at 0\nwait 30000 completed 1 at 0\nready 0\naccept 2 from 0 at 0\nclose 1\nclose 2\nclose 0\nsent 0 0\nsent 1 0\ndone\n",
            code: 0,
        },
    ),
    // Bytes are asked for one by one and told one by one, and no time passes.
    (
        b"framers = [\"len16\"]\n[[local]]\naddress = \"127.0.0.1:9000\"\n[[remote]]\naddress = \"127.0.0.1:9000\"\n[[message]]\ntext = \"ab\"\n[exchange]\nrole = \"loop\"\npiece = 1\npart = 1\ndeadline_ms = 1\n",
        Net {
            pairs: 1,
            ring: 1,
            faults: &[],
        },
        Printed {
            out: "leaves 1\n0 any tcp 127.0.0.1:9000 +0\nlisten 0 127.0.0.1:9000 at 0\nbegin 0\nstart 0 socket 1 at 0\nwait 30000 completed 1 at 0\nready 0\naccept 2 from 0 at 0\nclose 1\nclose 2\nclose 0\nsent 0 1\nsent 1 0\npart 1 0 61\nreceived 1 0 62\ndone\n",
            code: 0,
        },
    ),
    // Over a Unix socket.
    (
        b"framers = [\"len16\"]\n[[local]]\naddress = \"unix:/s\"\n[[remote]]\naddress = \"unix:/s\"\n[[message]]\ntext = \"a\"\n[exchange]\nrole = \"loop\"\n",
        Net {
            pairs: 1,
            ring: 4,
            faults: &[],
        },
        Printed {
            out: "leaves 1\n0 any unix unix:/s +0\nlisten 0 unix:/s at 0\nbegin 0\nstart 0 socket 1 at 0\nwait 30000 completed 1 at 0\nready 0\naccept 2 from 0 at 0\nclose 1\nclose 2\nclose 0\nsent 0 1\nsent 1 0\nreceived 1 0 61\ndone\n",
            code: 0,
        },
    ),
    // Datagrams cannot be listened for.
    (
        b"profile = \"unreliable-datagram\"\n[[local]]\naddress = \"127.0.0.1:9000\"\n[[remote]]\naddress = \"127.0.0.1:9000\"\n[[message]]\ntext = \"a\"\n[exchange]\nrole = \"loop\"\n",
        Net {
            pairs: 1,
            ring: 4,
            faults: &[],
        },
        Printed {
            out: "leaves 1\n0 any udp 127.0.0.1:9000 +0\nestablishment-error no-candidate\n",
            code: 4,
        },
    ),
    // There is no address to listen on, and so no socket call.
    (
        b"framers = [\"len16\"]\n[[remote]]\naddress = \"127.0.0.1:9000\"\n[[message]]\ntext = \"a\"\n[exchange]\nrole = \"loop\"\n",
        Net {
            pairs: 1,
            ring: 4,
            faults: &[],
        },
        Printed {
            out: "leaves 1\n0 any tcp 127.0.0.1:9000 +0\nestablishment-error no-candidate\n",
            code: 4,
        },
    ),
    (
        b"framers = [\"len16\"]\n[[path]]\ninterface = \"eth0\"\n[[local]]\ninterface = \"eth0\"\n[[remote]]\naddress = \"127.0.0.1:9000\"\n[[message]]\ntext = \"a\"\n[exchange]\nrole = \"loop\"\n",
        Net {
            pairs: 1,
            ring: 4,
            faults: &[],
        },
        Printed {
            out: "leaves 1\n0 eth0 tcp 127.0.0.1:9000 +0\nestablishment-error no-candidate\n",
            code: 4,
        },
    ),
];

#[test]
fn both_ends_as_the_table_tells(rt: HostRuntime) -> Result<(), Fail> {
    let shelf = nine(rt.alloc())?;
    for (file, sockets, printed) in ROWS {
        prints(&rt, rt.alloc(), &shelf, file, sockets, printed)?;
    }
    Ok(())
}
