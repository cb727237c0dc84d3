use std::alloc::Global;
use std::process::Abort;
use std::test::Fail;
use std::{env, fs, process};
use taps_base::{
    Body, FileAnswer, Files, List, MemoryFiles, MemorySink, Name, RealFiles, Sink, SinkAnswer,
};

// Texts, and whether each is a name.
static NAMES: [(&str, bool); 8] = [
    ("a", true),
    ("Zz09-_.", true),
    ("", false),
    ("a b", false),
    ("a/b", false),
    ("[", false),
    ("\u{e9}", false),
    ("a\n", false),
];

fn is_read_as(rt: &impl Abort, alloc: Global, text: &str, named: bool) {
    match Name::read(alloc, text.as_bytes()) {
        Ok(name) => {
            assert!(rt; named && name.as_str() == text, "{text}");
        }
        Err(_) => assert!(rt; !named, "{text}"),
    }
}

#[test]
fn names_are_read(rt: HostRuntime) -> Result<(), Fail> {
    for (text, named) in &NAMES {
        is_read_as(&rt, rt.alloc(), text, *named);
    }
    Ok(())
}

#[test]
fn a_name_has_at_most_253_bytes(rt: HostRuntime) -> Result<(), Fail> {
    let text = [b'a'; 254];
    assert!(rt; Name::read(rt.alloc(), &text[..253]).is_ok());
    assert!(rt; Name::read(rt.alloc(), &text).is_err());
    Ok(())
}

// How a read is answered.
#[derive(Clone, Copy)]
enum Expected {
    Bytes(&'static str),
    TooLong,
    Failed,
}

// Reads one after the other: the name, the most bytes, and the answer. The read of number 2 fails.
static READS: [(&str, u64, Expected); 6] = [
    ("three", 3, Expected::Bytes("abc")),
    ("three", 2, Expected::TooLong),
    ("three", 3, Expected::Failed),
    ("three", 9, Expected::Bytes("abc")),
    ("empty", 0, Expected::Bytes("")),
    ("missing", 3, Expected::Failed),
];

fn is_as(answer: &FileAnswer, expected: Expected) -> bool {
    match answer {
        FileAnswer::Bytes(body) => match expected {
            Expected::Bytes(text) => body.bytes() == text.as_bytes(),
            Expected::TooLong | Expected::Failed => false,
        },
        FileAnswer::TooLong => matches!(expected, Expected::TooLong),
        FileAnswer::Failed => matches!(expected, Expected::Failed),
        FileAnswer::NoMemory => false,
    }
}

#[test]
fn files_in_memory_are_read(rt: HostRuntime) -> Result<(), Fail> {
    let mut files = MemoryFiles::new(rt.alloc(), &[2])?;
    files.add("three", b"other")?;
    files.add("three", b"abc")?;
    files.add("empty", b"")?;
    for (name, max, expected) in &READS {
        let answer = files.read(name, *max);
        assert!(rt; is_as(&answer, *expected), "{name} {max}");
    }
    Ok(())
}

// Reads of files of the system.
static SYSTEM_READS: [(&str, u64, Expected); 5] = [
    ("three", 3, Expected::Bytes("abc")),
    ("empty", 0, Expected::Bytes("")),
    ("three", 2, Expected::TooLong),
    ("missing", 3, Expected::Failed),
    (".", 3, Expected::Failed),
];

fn path_in(alloc: Global, folder: &str, name: &str) -> Result<String, Fail> {
    Ok(format!(in alloc; "{folder}/{name}")?)
}

fn is_answered<F: Files>(rt: &impl Abort, files: &mut F, path: &str, max: u64, expected: Expected) {
    let answer = files.read(path, max);
    assert!(rt; is_as(&answer, expected), "{path} {max}");
}

#[test]
fn files_of_the_system_are_read(rt: HostRuntime) -> Result<(), Fail> {
    let number = process::id(rt.process());
    let folder = format!(in rt.alloc(); "/tmp/taps_base_{number}")?;
    fs::create_dir(&rt, folder.as_str())?;
    fs::write(
        &rt,
        path_in(rt.alloc(), folder.as_str(), "three")?.as_str(),
        "abc",
    )?;
    fs::write(
        &rt,
        path_in(rt.alloc(), folder.as_str(), "empty")?.as_str(),
        "",
    )?;
    let mut files = RealFiles::new(rt.alloc(), rt.clone()?)?;
    for (name, max, expected) in &SYSTEM_READS {
        let path = path_in(rt.alloc(), folder.as_str(), name)?;
        is_answered(&rt, &mut files, path.as_str(), *max, *expected);
    }
    fs::remove_dir_all(&rt, folder.as_str())?;
    Ok(())
}

// Writes one after the other into a sink of 5 bytes whose write of number 1 fails, each with its
// answer and all bytes that are taken then.
static WRITES: [(&str, SinkAnswer, &str); 4] = [
    ("le", SinkAnswer::Taken, "le"),
    ("av", SinkAnswer::Failed, "le"),
    ("ave", SinkAnswer::Taken, "leave"),
    ("s", SinkAnswer::Failed, "leave"),
];

#[test]
fn a_sink_in_memory_takes_what_fits(rt: HostRuntime) -> Result<(), Fail> {
    let mut sink = MemorySink::new(rt.alloc(), 5, Some(1))?;
    for (bytes, answer, taken) in &WRITES {
        assert!(rt; !bytes.is_empty());
        assert!(rt; sink.write(bytes.as_bytes()) == *answer, "{bytes}");
        assert!(rt; sink.bytes() == taken.as_bytes(), "{bytes}");
    }
    Ok(())
}

#[test]
fn a_list_uses_its_room(rt: HostRuntime) -> Result<(), Fail> {
    let list = reserved(rt.alloc())?;
    assert!(rt; list.as_slice() == b"xy".as_slice());
    assert!(rt; matches!(list.get(1), Some(b'y')));
    Ok(())
}

fn reserved(alloc: Global) -> Result<List<u8>, Fail> {
    let mut list = List::new(alloc);
    list.reserve(2)?;
    list.add(b'x');
    match list.push(b'y') {
        Ok(()) => Ok(list),
        Err((none, _)) => Err(Fail::from(none)),
    }
}

#[test]
fn bodies_are_their_bytes(rt: HostRuntime) -> Result<(), Fail> {
    let body = Body::from_slice(rt.alloc(), b"xy")?;
    let text = Body::from_text(String::from_str(rt.alloc(), "xy")?);
    assert!(rt; body.bytes() == b"xy".as_slice() && text.bytes() == b"xy".as_slice());
    Ok(())
}
