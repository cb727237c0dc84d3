use crate::plan_rows::PLAIN;
use crate::row::{Row, holds};
use std::test::Fail;

// Files with their plans.
static PLANS: [Row<'static>; 17] = [
    Row {
        bytes: b"[[remote]]\naddress = \"127.0.0.1:9000\"\n",
        out: "leaves 1\n0 any tcp 127.0.0.1:9000 +0\n",
        err: "",
        code: 0,
        ..PLAIN
    },
    Row {
        bytes: b"profile = \"reliable-message\"\n[[remote]]\naddress = \"127.0.0.1:9000\"\n",
        out: "leaves 0\n",
        err: "",
        code: 0,
        ..PLAIN
    },
    Row {
        bytes: b"[[remote]]\nhost = \"h\"\nport = 9000\n[hosts]\nh = [\"::1\", \"::2\", \"127.0.0.1\"]\n",
        out: "leaves 3\n0 any tcp [::1]:9000 +0\n1 any tcp 127.0.0.1:9000 +250\n2 any tcp [::2]:9000 +250\n",
        err: "",
        code: 0,
        ..PLAIN
    },
    Row {
        bytes: b"[[remote]]\naddress = \"unix:/s\"\n[[remote]]\naddress = \"127.0.0.1:9000\"\n[[remote]]\naddress = \"[::1]:9000\"\n[[remote]]\naddress = \"[::2]:9000\"\n[[remote]]\naddress = \"127.0.0.2:9000\"\n",
        out: "leaves 5\n0 any tcp 127.0.0.1:9000 +0\n1 any tcp [::1]:9000 +250\n2 any tcp 127.0.0.2:9000 +250\n3 any tcp [::2]:9000 +250\n4 any unix unix:/s +250\n",
        err: "",
        code: 0,
        ..PLAIN
    },
    Row {
        bytes: b"[[remote]]\naddress = \"[0:0:0:0:0:0:0:1]:9000\"\n[[remote]]\nhost = \"h\"\nport = 9000\n[hosts]\nh = [\"::1\"]\n",
        out: "leaves 1\n0 any tcp [::1]:9000 +0\n",
        err: "",
        code: 0,
        ..PLAIN
    },
    Row {
        bytes: b"[selection]\ninterface = [{ name = \"wlan\", preference = \"avoid\" }]\n[[path]]\ninterface = \"wlan\"\nfamilies = [\"inet4\"]\n[[path]]\ninterface = \"eth\"\n[[remote]]\naddress = \"[::1]:9000\"\n[[remote]]\naddress = \"127.0.0.1:9000\"\n",
        out: "leaves 3\n0 eth tcp [::1]:9000 +0\n1 eth tcp 127.0.0.1:9000 +250\n2 wlan tcp 127.0.0.1:9000 +250\n",
        err: "",
        code: 0,
        ..PLAIN
    },
    Row {
        bytes: b"profile = \"unreliable-datagram\"\n[[remote]]\naddress = \"127.0.0.1:9000\"\n",
        out: "leaves 1\n0 any udp 127.0.0.1:9000 +0\n",
        err: "",
        code: 0,
        ..PLAIN
    },
    Row {
        bytes: b"[[remote]]\naddress = \"[2001:DB8:0:0:1:0:0:1]:9\"\n",
        out: "leaves 1\n0 any tcp [2001:db8::1:0:0:1]:9 +0\n",
        err: "",
        code: 0,
        ..PLAIN
    },
    Row {
        bytes: b"[[remote]]\naddress = \"[::ffff:192.0.2.1]:9\"\n",
        out: "leaves 1\n0 any tcp [::ffff:c000:201]:9 +0\n",
        err: "",
        code: 0,
        ..PLAIN
    },
    Row {
        bytes: b"[[remote]]\nhost = \"h\"\nport = 9000\n[[remote]]\naddress = \"10.1.0.1:9000\"\n[hosts]\nh = [\"10.0.0.1\", \"10.0.0.2\", \"10.0.0.3\", \"10.0.0.4\", \"10.0.0.5\", \"10.0.0.6\", \"10.0.0.7\", \"10.0.0.8\", \"10.0.0.9\", \"10.0.0.10\", \"10.0.0.11\", \"10.0.0.12\", \"10.0.0.13\", \"10.0.0.14\", \"10.0.0.15\", \"10.0.0.16\", \"10.0.0.17\", \"10.0.0.18\", \"10.0.0.19\", \"10.0.0.20\", \"10.0.0.21\", \"10.0.0.22\", \"10.0.0.23\", \"10.0.0.24\", \"10.0.0.25\", \"10.0.0.26\", \"10.0.0.27\", \"10.0.0.28\", \"10.0.0.29\", \"10.0.0.30\", \"10.0.0.31\"]\n",
        out: "leaves 32\n0 any tcp 10.0.0.1:9000 +0\n1 any tcp 10.0.0.2:9000 +250\n2 any tcp 10.0.0.3:9000 +250\n3 any tcp 10.0.0.4:9000 +250\n4 any tcp 10.0.0.5:9000 +250\n5 any tcp 10.0.0.6:9000 +250\n6 any tcp 10.0.0.7:9000 +250\n7 any tcp 10.0.0.8:9000 +250\n8 any tcp 10.0.0.9:9000 +250\n9 any tcp 10.0.0.10:9000 +250\n10 any tcp 10.0.0.11:9000 +250\n11 any tcp 10.0.0.12:9000 +250\n12 any tcp 10.0.0.13:9000 +250\n13 any tcp 10.0.0.14:9000 +250\n14 any tcp 10.0.0.15:9000 +250\n15 any tcp 10.0.0.16:9000 +250\n16 any tcp 10.0.0.17:9000 +250\n17 any tcp 10.0.0.18:9000 +250\n18 any tcp 10.0.0.19:9000 +250\n19 any tcp 10.0.0.20:9000 +250\n20 any tcp 10.0.0.21:9000 +250\n21 any tcp 10.0.0.22:9000 +250\n22 any tcp 10.0.0.23:9000 +250\n23 any tcp 10.0.0.24:9000 +250\n24 any tcp 10.0.0.25:9000 +250\n25 any tcp 10.0.0.26:9000 +250\n26 any tcp 10.0.0.27:9000 +250\n27 any tcp 10.0.0.28:9000 +250\n28 any tcp 10.0.0.29:9000 +250\n29 any tcp 10.0.0.30:9000 +250\n30 any tcp 10.0.0.31:9000 +250\n31 any tcp 10.1.0.1:9000 +250\n",
        err: "",
        code: 0,
        ..PLAIN
    },
    Row {
        bytes: b"[[remote]]\naddress = \"127.0.0.1:9000\"\n[[remote]]\naddress = \"127.0.0.2:9000\"\n[race]\nmode = \"failover\"\n",
        out: "leaves 2\n0 any tcp 127.0.0.1:9000 +0\n1 any tcp 127.0.0.2:9000 +none\n",
        err: "",
        code: 0,
        ..PLAIN
    },
    Row {
        bytes: b"[[remote]]\naddress = \"127.0.0.1:9000\"\n[[remote]]\naddress = \"127.0.0.2:9000\"\n",
        out: "leaves 2\n0 any tcp 127.0.0.1:9000 +0\n1 any tcp 127.0.0.2:9000 +250\n",
        err: "",
        code: 0,
        ..PLAIN
    },
    Row {
        bytes: b"[selection]\nreliability = \"no-preference\"\npreserveOrder = \"no-preference\"\ncongestionControl = \"no-preference\"\n[[remote]]\naddress = \"127.0.0.1:9000\"\n",
        out: "leaves 2\n0 any tcp 127.0.0.1:9000 +0\n1 any udp 127.0.0.1:9000 +250\n",
        err: "",
        code: 0,
        ..PLAIN
    },
    Row {
        bytes: b"[selection]\nreliability = \"avoid\"\npreserveOrder = \"no-preference\"\ncongestionControl = \"no-preference\"\n[[remote]]\naddress = \"127.0.0.1:9000\"\n",
        out: "leaves 2\n0 any udp 127.0.0.1:9000 +0\n1 any tcp 127.0.0.1:9000 +250\n",
        err: "",
        code: 0,
        ..PLAIN
    },
    Row {
        bytes: b"[[remote]]\naddress = \"[::1]:1\"\n[[remote]]\naddress = \"127.0.0.1:9000\"\n",
        out: "leaves 2\n0 any tcp [::1]:1 +0\n1 any tcp 127.0.0.1:9000 +250\n",
        err: "",
        code: 0,
        ..PLAIN
    },
    Row {
        bytes: b"[exchange]\nrole = \"listen\"\n",
        out: "leaves 0\n",
        err: "",
        code: 0,
        ..PLAIN
    },
    Row {
        bytes: b"profile = \"reliable-inorder-stream\"\nframers = [\"len16\"]\n[selection]\ninterface = [{ name = \"eth0\", preference = \"prefer\" }]\n[[path]]\ninterface = \"wlan0\"\ntemporary = true\n[[path]]\ninterface = \"eth0\"\n[[remote]]\nhost = \"printer.local\"\nport = 9100\n[[remote]]\naddress = \"unix:/run/printer.sock\"\n[hosts]\n\"printer.local\" = [\"fe80::1\", \"192.0.2.7\"]\n[race]\ndelay_ms = 100\n",
        out: "leaves 6\n0 wlan0 tcp [fe80::1]:9100 +0\n1 wlan0 tcp 192.0.2.7:9100 +100\n2 wlan0 unix unix:/run/printer.sock +100\n3 eth0 tcp [fe80::1]:9100 +100\n4 eth0 tcp 192.0.2.7:9100 +100\n5 eth0 unix unix:/run/printer.sock +100\n",
        err: "",
        code: 0,
        ..PLAIN
    },
];

// Files with what is wrong with them.
static REFUSALS: [Row<'static>; 19] = [
    Row {
        bytes: b"[selection]\nreliabilty = \"require\"\n[[remote]]\naddress = \"127.0.0.1:9000\"\n",
        out: "",
        err: "taps: refused a.toml: unknown key selection.reliabilty\n",
        code: 3,
        ..PLAIN
    },
    Row {
        bytes: b"[[remote]]\naddress = \"127.0.0.1\"\n",
        out: "",
        err: "taps: refused a.toml: bad address remote[0].address 9\n",
        code: 3,
        ..PLAIN
    },
    Row {
        bytes: b"[[remote]]\naddress = \"256.0.0.1:1\"\n",
        out: "",
        err: "taps: refused a.toml: bad address remote[0].address 2\n",
        code: 3,
        ..PLAIN
    },
    Row {
        bytes: b"[[remote]]\naddress = \"01.0.0.0:1\"\n",
        out: "",
        err: "taps: refused a.toml: bad address remote[0].address 1\n",
        code: 3,
        ..PLAIN
    },
    Row {
        bytes: b"[[remote]]\naddress = \"[::1%1]:9\"\n",
        out: "",
        err: "taps: refused a.toml: bad address remote[0].address 4\n",
        code: 3,
        ..PLAIN
    },
    Row {
        bytes: b"[[remote]]\naddress = \"[1:2:3:4:5:6:7:8:9]:1\"\n",
        out: "",
        err: "taps: refused a.toml: bad address remote[0].address 16\n",
        code: 3,
        ..PLAIN
    },
    Row {
        bytes: b"[[remote]]\naddress = \"127.0.0.1:65536\"\n",
        out: "",
        err: "taps: refused a.toml: bad address remote[0].address 14\n",
        code: 3,
        ..PLAIN
    },
    Row {
        bytes: b"[[remote]]\nhost = \"h\"\nport = 9000\n[[remote]]\naddress = \"10.1.0.1:9000\"\n[hosts]\nh = [\"10.0.0.1\", \"10.0.0.2\", \"10.0.0.3\", \"10.0.0.4\", \"10.0.0.5\", \"10.0.0.6\", \"10.0.0.7\", \"10.0.0.8\", \"10.0.0.9\", \"10.0.0.10\", \"10.0.0.11\", \"10.0.0.12\", \"10.0.0.13\", \"10.0.0.14\", \"10.0.0.15\", \"10.0.0.16\", \"10.0.0.17\", \"10.0.0.18\", \"10.0.0.19\", \"10.0.0.20\", \"10.0.0.21\", \"10.0.0.22\", \"10.0.0.23\", \"10.0.0.24\", \"10.0.0.25\", \"10.0.0.26\", \"10.0.0.27\", \"10.0.0.28\", \"10.0.0.29\", \"10.0.0.30\", \"10.0.0.31\", \"10.0.0.32\"]\n",
        out: "",
        err: "taps: refused a.toml: too many remote 33\n",
        code: 3,
        ..PLAIN
    },
    Row {
        bytes: b"zeta = 1\n[[remote]]\naddress = \"127.0.0.1:9000\"\n[race]\ndelay_ms = 9\n",
        out: "",
        err: "taps: refused a.toml: unknown key zeta\n",
        code: 3,
        ..PLAIN
    },
    Row {
        bytes: b"[[remote]]\naddress = \"127.0.0.1:9000\"\n[race]\ndelay_ms = 9\n",
        out: "",
        err: "taps: refused a.toml: out of range race.delay_ms\n",
        code: 3,
        ..PLAIN
    },
    Row {
        bytes: b"[[remote]]\naddress = \"127.0.0.1:9000\"\n[[message]]\ntext = \"a\"\nfinal = true\n[[message]]\ntext = \"b\"\n",
        out: "",
        err: "taps: refused a.toml: out of range message[1]\n",
        code: 3,
        ..PLAIN
    },
    Row {
        bytes: b"[[remote]]\naddress = \"127.0.0.1:9000\"\n[[message]]\nhex = \"6g\"\n",
        out: "",
        err: "taps: refused a.toml: bad hex message[0].hex\n",
        code: 3,
        ..PLAIN
    },
    Row {
        bytes: b"framers = [\"nope\"]\n[[remote]]\naddress = \"127.0.0.1:9000\"\n",
        out: "",
        err: "taps: refused a.toml: unknown framer framers[0]\n",
        code: 3,
        ..PLAIN
    },
    Row {
        bytes: b"format = 2\nremote = [\"127.0.0.1:9000\"]\n",
        out: "",
        err: "taps: refused a.toml: out of range format\n",
        code: 3,
        ..PLAIN
    },
    Row {
        bytes: b"[[remote]]\nhost = \"h\"\nport = 9000\n[hosts]\nh = [\"10.0.0.1\", \"10.0.0.2\", \"10.0.0.3\", \"10.0.0.4\", \"10.0.0.5\", \"10.0.0.6\", \"10.0.0.7\", \"10.0.0.8\", \"10.0.0.9\", \"10.0.0.10\", \"10.0.0.11\", \"10.0.0.12\", \"10.0.0.13\", \"10.0.0.14\", \"10.0.0.15\", \"10.0.0.16\", \"10.0.0.17\", \"10.0.0.18\", \"10.0.0.19\", \"10.0.0.20\", \"10.0.0.21\", \"10.0.0.22\", \"10.0.0.23\", \"10.0.0.24\", \"10.0.0.25\", \"10.0.0.26\", \"10.0.0.27\", \"10.0.0.28\", \"10.0.0.29\", \"10.0.0.30\", \"10.0.0.31\", \"10.0.0.32\", \"10.0.0.33\"]\n",
        out: "",
        err: "taps: refused a.toml: too many hosts.h 33\n",
        code: 3,
        ..PLAIN
    },
    Row {
        bytes: b"[[remote]]\naddress = \"127.0.0.1:9000\"\n[race]\nlate = true\n",
        out: "",
        err: "taps: refused a.toml: unknown key race.late\n",
        code: 3,
        ..PLAIN
    },
    Row {
        bytes: b"[[local]]\naddress = \"127.0.0.1:9000\"\n[[remote]]\naddress = \"127.0.0.1:9000\"\n[exchange]\nrole = \"rendezvous\"\n",
        out: "",
        err: "taps: refused a.toml: out of range exchange.role\n",
        code: 3,
        ..PLAIN
    },
    Row {
        bytes: b"[[remote]]\naddress = \"127.0.0.1:9000\"\n[path]\n",
        out: "",
        err: "taps: refused a.toml: wrong kind path\n",
        code: 3,
        ..PLAIN
    },
    Row {
        bytes: b"\"a b\" = 1\n",
        out: "",
        err: "taps: refused a.toml: unknown key a?b\n",
        code: 3,
        ..PLAIN
    },
];

#[test]
fn plans_are_printed(rt: HostRuntime) -> Result<(), Fail> {
    let alloc = rt.alloc();
    for row in &PLANS {
        holds(&rt, alloc, row)?;
    }
    Ok(())
}

#[test]
fn files_are_refused(rt: HostRuntime) -> Result<(), Fail> {
    let alloc = rt.alloc();
    for row in &REFUSALS {
        holds(&rt, alloc, row)?;
    }
    Ok(())
}
