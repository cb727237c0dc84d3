use std::alloc::Global;
use std::process::Abort;
use std::test::Fail;
use taps_base::Body;
use taps_endpoint::{Address, Ip, parse_address, parse_ip, write_address};

const PATH_OF_107_BYTES: &str =
    "unix:///////////////////////////////////////////////////////////////////////////////////////////////////////////";

const PATH_OF_108_BYTES: &str =
    "unix:////////////////////////////////////////////////////////////////////////////////////////////////////////////";

// Texts that are refused, each with its place.
static REFUSED: [(&str, u64); 35] = [
    ("", 0),
    ("x", 0),
    ("127.0.0.1", 9),
    ("256.0.0.1:1", 2),
    ("01.0.0.0:1", 1),
    ("1.2.3:4", 5),
    ("1.2.3.4.5:6", 7),
    ("0x7f.0.0.1:1", 1),
    ("127.0.0.1:0", 10),
    ("127.0.0.1:080", 10),
    ("127.0.0.1:65536", 14),
    ("127.0.0.1:9 ", 11),
    ("::1", 0),
    ("[]:1", 1),
    ("[:1]:1", 2),
    ("[::1%1]:9", 4),
    ("[::1%eth0]:1", 4),
    ("[::1]", 5),
    ("[::1]:0", 6),
    ("[12345::]:1", 5),
    ("[1:2:3:4:5:6:7:8:9]:1", 16),
    ("[1:2:3:4:5:6:7]:1", 14),
    ("[1:2:3:4:5:6:7:8::]:1", 16),
    ("[1:2:3:4:5:6:7::8]:1", 16),
    ("[1::2::3]:1", 6),
    ("[1:2:3:4:5:1.2.3.4]:1", 12),
    ("[1:2:3:4:5:6:7:1.2.3.4]:1", 16),
    ("[::1.2.3.256]:1", 11),
    ("[::ffff:01.2.3.4]:1", 10),
    ("unix:", 5),
    ("unit:/s", 3),
    ("unix:/run s", 9),
    ("unix:/run\u{7f}s", 9),
    ("Unix:/s", 0),
    (PATH_OF_108_BYTES, 112),
];

// Texts that are read, each with its canonical text (RFC 5952 section 4).
static READ: [(&str, &str); 23] = [
    ("0.0.0.0:1", "0.0.0.0:1"),
    ("255.255.255.255:65535", "255.255.255.255:65535"),
    ("[::]:9", "[::]:9"),
    ("[::1]:9", "[::1]:9"),
    ("[0:0:0:0:0:0:0:1]:9", "[::1]:9"),
    ("[2001:0db8::0001]:9", "[2001:db8::1]:9"),
    ("[2001:db8:0:0:0:0:2:1]:9", "[2001:db8::2:1]:9"),
    ("[2001:db8::0:1]:9", "[2001:db8::1]:9"),
    ("[2001:db8:0:1:1:1:1:1]:9", "[2001:db8:0:1:1:1:1:1]:9"),
    ("[2001:db8::1:1:1:1:1]:9", "[2001:db8:0:1:1:1:1:1]:9"),
    ("[2001:0:0:1:0:0:0:1]:9", "[2001:0:0:1::1]:9"),
    ("[2001:db8:0:0:1:0:0:1]:9", "[2001:db8::1:0:0:1]:9"),
    ("[2001:DB8:0:0:1::1]:9", "[2001:db8::1:0:0:1]:9"),
    ("[2001:db8::AAAA:0:0:1]:9", "[2001:db8::aaaa:0:0:1]:9"),
    ("[1:2:3:4:5:6:7::]:9", "[1:2:3:4:5:6:7:0]:9"),
    ("[::2:3:4:5:6:7:8]:9", "[0:2:3:4:5:6:7:8]:9"),
    ("[1:0:2:0:3:0:4:0]:9", "[1:0:2:0:3:0:4:0]:9"),
    ("[::ffff:192.0.2.1]:9", "[::ffff:c000:201]:9"),
    ("[1:2:3:4:5:6:7.8.9.10]:9", "[1:2:3:4:5:6:708:90a]:9"),
    ("[1::5:1.2.3.4]:9", "[1::5:102:304]:9"),
    ("unix:/run/printer.sock", "unix:/run/printer.sock"),
    ("unix:!~", "unix:!~"),
    (PATH_OF_107_BYTES, PATH_OF_107_BYTES),
];

// Texts of addresses without a port that are refused, each with its place.
static REFUSED_IPS: [(&str, u64); 6] = [
    ("::1%1", 3),
    ("1:2:3:4:5:6:7:8:9", 15),
    ("1.2.3.256", 8),
    ("01.2.3.4", 2),
    ("12345", 4),
    ("", 0),
];

// Texts of addresses without a port that are read.
static IPS: [(&str, Ip); 2] = [
    ("255.0.10.1", Ip::V4([255, 0, 10, 1])),
    ("1::FFFF", Ip::V6([1, 0, 0, 0, 0, 0, 0, 0xffff])),
];

// Texts in which a space is refused at each place.
static CUT: [&str; 3] = [
    "255.0.10.1:65535",
    "[2001:db8::1:1.2.3.4]:80",
    "unix:/run/s",
];

// An address that no text stands for: a port is at least 1.
const NO_PORT: Address = Address::V4 {
    octets: [127, 0, 0, 1],
    port: 0,
};

fn place_of(text: &[u8]) -> Option<u64> {
    match parse_address(text) {
        Ok(_) => None,
        Err(refused) => Some(refused.place),
    }
}

fn ip_place_of(text: &[u8]) -> Option<u64> {
    match parse_ip(text) {
        Ok(_) => None,
        Err(refused) => Some(refused.place),
    }
}

fn written(alloc: Global, address: &Address) -> Result<Body, Fail> {
    Ok(write_address(alloc, address)?)
}

// A front of the text goes on, or it is a whole text.
fn goes_on(front: &[u8]) -> bool {
    match place_of(front) {
        None => true,
        Some(place) => place == front.len() as u64,
    }
}

fn refuses_a_space<R: Abort>(rt: &R, alloc: Global, text: &[u8], place: usize) -> Result<(), Fail> {
    let mut changed = text.to_vec(alloc)?;
    if place < changed.len() {
        changed[place] = b' ';
    }
    assert!(rt;
        place_of(&changed) == Some(place as u64),
        "a space at {place}"
    );
    Ok(())
}

fn is_read_up_to_each_place<R: Abort>(rt: &R, alloc: Global, text: &[u8]) -> Result<(), Fail> {
    for place in 0..text.len() {
        assert!(rt; goes_on(&text[..place]), "at {place}");
        refuses_a_space(rt, alloc, text, place)?;
    }
    Ok(())
}

fn prints<R: Abort>(rt: &R, alloc: Global, address: &Address, text: &str) -> Result<(), Fail> {
    let body = written(alloc, address)?;
    assert!(rt; body.bytes() == text.as_bytes(), "{text}");
    Ok(())
}

fn is_printed_as<R: Abort>(rt: &R, alloc: Global, text: &str, canonical: &str) -> Result<(), Fail> {
    let read = parse_address(text.as_bytes());
    assert!(rt;
        parse_address(canonical.as_bytes()) == read,
        "at {canonical}"
    );
    match read {
        Ok(address) => prints(rt, alloc, &address, canonical),
        Err(_) => Err(Fail::from("no address")),
    }
}

#[test]
fn refuses_at_the_place(rt: HostRuntime) {
    for (text, place) in &REFUSED {
        assert!(rt; place_of(text.as_bytes()) == Some(*place), "at {text}");
    }
}

#[test]
fn refuses_a_space_at_each_place(rt: HostRuntime) -> Result<(), Fail> {
    for text in &CUT {
        is_read_up_to_each_place(&rt, rt.alloc(), text.as_bytes())?;
    }
    Ok(())
}

#[test]
fn prints_the_canonical_text(rt: HostRuntime) -> Result<(), Fail> {
    for (text, canonical) in &READ {
        is_printed_as(&rt, rt.alloc(), text, canonical)?;
    }
    Ok(())
}

#[test]
fn prints_port_zero(rt: HostRuntime) -> Result<(), Fail> {
    prints(&rt, rt.alloc(), &NO_PORT, "127.0.0.1:0")
}

#[test]
fn reads_ips(rt: HostRuntime) {
    for (text, ip) in &IPS {
        assert!(rt; parse_ip(text.as_bytes()) == Ok(*ip), "at {text}");
    }
}

#[test]
fn refuses_ips_at_the_place(rt: HostRuntime) {
    for (text, place) in &REFUSED_IPS {
        assert!(rt; ip_place_of(text.as_bytes()) == Some(*place), "at {text}");
    }
}
