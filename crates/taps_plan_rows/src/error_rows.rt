use std::alloc::Global;
use std::test::Fail;
use taps_base::Body;
use taps_preconnection::PreError;
use taps_text::{Refusal, fault_line, no_memory_line, output_fault_line, refused_line, usage_line};

// The refusals that name a key.
#[derive(Clone, Copy)]
enum AtKey {
    UnknownKey,
    WrongKind,
    OutOfRange,
    BadAddress(u64),
    BadHex,
    TooMany(u64),
}

// Refusals of the key `hosts.a`, a byte 255 and `b`, each with its words.
static AT_KEY: [(AtKey, &str); 6] = [
    (AtKey::UnknownKey, "unknown key hosts.a?b"),
    (AtKey::WrongKind, "wrong kind hosts.a?b"),
    (AtKey::OutOfRange, "out of range hosts.a?b"),
    (AtKey::BadAddress(9), "bad address hosts.a?b 9"),
    (AtKey::BadHex, "bad hex hosts.a?b"),
    (AtKey::TooMany(65), "too many hosts.a?b 65"),
];

// The other refusals.
#[derive(Clone, Copy)]
enum Plain {
    TooLong,
    NotToml,
    NoRemote,
    UnknownFramer(u64),
    TooManyRemotes(u64),
    Script(u64),
}

// The other refusals, each with its words.
static WITHOUT_KEY: [(Plain, &str); 6] = [
    (Plain::TooLong, "too long"),
    (Plain::NotToml, "not toml"),
    (Plain::NoRemote, "no remote"),
    (Plain::UnknownFramer(7), "unknown framer framers[7]"),
    (Plain::TooManyRemotes(33), "too many remote 33"),
    (Plain::Script(4097), "script line 4097"),
];

fn refusal_of(plain: Plain) -> Refusal {
    match plain {
        Plain::TooLong => Refusal::TooLong,
        Plain::NotToml => Refusal::File(PreError::NotToml),
        Plain::NoRemote => Refusal::File(PreError::NoRemote),
        Plain::UnknownFramer(place) => Refusal::UnknownFramer(place),
        Plain::TooManyRemotes(count) => Refusal::TooManyRemotes(count),
        Plain::Script(line) => Refusal::Script(line),
    }
}

fn refusal_at(what: AtKey, key: Body) -> Refusal {
    Refusal::File(match what {
        AtKey::UnknownKey => PreError::UnknownKey(key),
        AtKey::WrongKind => PreError::WrongKind(key),
        AtKey::OutOfRange => PreError::OutOfRange(key),
        AtKey::BadAddress(place) => PreError::BadAddress(key, place),
        AtKey::BadHex => PreError::BadHex(key),
        AtKey::TooMany(count) => PreError::TooMany(key, count),
    })
}

// The line is that of these words, for the file `a b`, a byte 127 and `.toml`.
fn says(line: &[u8], words: &str) -> bool {
    match line.strip_prefix(b"taps: refused a?b?.toml: ".as_slice()) {
        Some(rest) => rest.strip_suffix(b"\n".as_slice()) == Some(words.as_bytes()),
        None => false,
    }
}

fn is_refused(alloc: Global, why: &Refusal, words: &str) -> Result<bool, Fail> {
    let line = refused_line(alloc, b"a b\x7f.toml", why)?;
    Ok(says(&line, words))
}

fn is_refused_plainly(alloc: Global, plain: Plain, words: &str) -> Result<bool, Fail> {
    let why = refusal_of(plain);
    is_refused(alloc, &why, words)
}

fn is_refused_at_key(alloc: Global, what: AtKey, words: &str) -> Result<bool, Fail> {
    let why = refusal_at(what, Body::from_slice(alloc, b"hosts.a\xffb")?);
    is_refused(alloc, &why, words)
}

#[test]
fn refusals_without_a_key(rt: HostRuntime) -> Result<(), Fail> {
    for (plain, words) in &WITHOUT_KEY {
        assert!(rt; is_refused_plainly(rt.alloc(), *plain, words)?, "{words}");
    }
    Ok(())
}

#[test]
fn refusals_with_a_key(rt: HostRuntime) -> Result<(), Fail> {
    for (what, words) in &AT_KEY {
        assert!(rt; is_refused_at_key(rt.alloc(), *what, words)?, "{words}");
    }
    Ok(())
}

#[test]
fn faults_name_the_file(rt: HostRuntime) -> Result<(), Fail> {
    let line = fault_line(rt.alloc(), b"\x1b!~ b")?;
    assert!(rt; line.as_slice() == b"taps: file fault ?!~?b\n".as_slice());
    Ok(())
}

#[test]
fn lines_without_a_name(rt: HostRuntime) {
    assert!(rt; usage_line() == b"taps: usage\n".as_slice());
    assert!(rt; output_fault_line() == b"taps: output fault\n".as_slice());
    assert!(rt; no_memory_line() == b"taps: no memory\n".as_slice());
}
