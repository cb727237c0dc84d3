use std::alloc::Global;
use std::test::Fail;
use taps_script::{ScriptError, ScriptSockets};

static GOOD: [&[u8]; 9] = [
    b"",
    b"\n",
    b"# \xff\n\nlate 0",
    b"begin 9223372036854775807\nlate 4294967295\nfault 4294967295\nfault 0\n",
    b"leaf 4095 breaks 4294967295 other\nleaf 0 refuses memory\nleaf 10 completes 0\nleaf 2 silent\n",
    b"take 1\ngive 65536\npeer holds 4294967295\npeer echo\n",
    b"peer sends 0 00\npeer sends 0 fF\npeer holds 7\npeer ends 0",
    b"peer sends 5 0102\npeer fails 5 reset\ngive 1\nleaf 1 silent\n",
    b"peer fails 4294967295 unreachable\npeer holds 0\n",
];

// Scripts with a bad line, and its number.
static BAD: [(&[u8], u64); 58] = [
    (b"begin 0\nlate 0\nbegin 0\n", 3),
    (b"late 1\nlate 1", 2),
    (b"fault 3\nfault 4\nfault 3", 3),
    (b"leaf 0 silent\n\n#\nleaf 0 completes 1", 4),
    (
        b"leaf 0 refuses refused\nleaf 1 refuses unreachable\nleaf 1 silent\n",
        3,
    ),
    (b"leaf 4096 silent", 1),
    (b"leaf 00 silent", 1),
    (b"late  1", 1),
    (b"late 1 ", 1),
    (b" late 1", 1),
    (b"late 1\r\n", 1),
    (b"leaf 0 silent now", 1),
    (b"begin 1 1", 1),
    (b"begin 9223372036854775808", 1),
    (b"late 4294967296", 1),
    (b"late 18446744073709551616", 1),
    (b"fault -1", 1),
    (b"fault +1", 1),
    (b"fault", 1),
    (b"fault ", 1),
    (b"leaf 0 refuses nobody", 1),
    (b"leaf 0 breaks 1", 1),
    (b"leaf 0 breaks 1  reset", 1),
    (b"Late 1", 1),
    (b"#\xff\n\xff\n", 2),
    (b"\n\n \n", 3),
    (b"take 0", 1),
    (b"take 65537", 1),
    (b"take 01", 1),
    (b"take", 1),
    (b"take 1\ntake 1", 2),
    (b"give 0", 1),
    (b"give 65537", 1),
    (b"give 2\n\ngive 3", 3),
    (b"peer", 1),
    (b"peer ", 1),
    (b"peer echoes", 1),
    (b"peer echo ", 1),
    (b"peer echo\npeer echo", 2),
    (b"peer holds", 1),
    (b"peer holds 4294967296", 1),
    (b"peer holds 1\npeer echo\npeer holds 1", 3),
    (b"peer sends 0", 1),
    (b"peer sends 0 ", 1),
    (b"peer sends 0 0", 1),
    (b"peer sends 0 0g", 1),
    (b"peer sends 0 00 00", 1),
    (b"peer sends 00 00", 1),
    (b"peer ends", 1),
    (b"peer ends 1 reset", 1),
    (b"peer fails 1", 1),
    (b"peer fails 1 timeout", 1),
    (b"peer sends 5 00\npeer sends 4 00", 2),
    (b"peer sends 5 00\npeer ends 4", 2),
    (b"peer sends 5 00\npeer fails 4 reset", 2),
    (b"peer ends 5\npeer sends 6 00", 2),
    (b"peer fails 5 reset\npeer ends 6", 2),
    (b"peer ends 5\npeer ends 5", 2),
];

// The lines of the other end that may not stand beside an echo, and that may not follow one.
static NO_ECHO: [(&[u8], u64); 6] = [
    (b"peer echo\npeer sends 0 00", 2),
    (b"peer echo\npeer ends 0", 2),
    (b"peer echo\npeer fails 0 other", 2),
    (b"peer sends 0 00\npeer echo", 2),
    (b"peer ends 0\npeer echo", 2),
    (b"peer fails 0 other\npeer echo", 2),
];

fn refusal(alloc: Global, script: &[u8]) -> Option<ScriptError> {
    match ScriptSockets::read(alloc, script) {
        Ok(_) => None,
        Err(error) => Some(error),
    }
}

#[test]
fn bad_scripts_are_refused(rt: HostRuntime) -> Result<(), Fail> {
    for script in &GOOD {
        assert_eq!(rt; refusal(rt.alloc(), script), None);
    }
    for (script, line) in &BAD {
        assert_eq!(rt; refusal(rt.alloc(), script), Some(ScriptError::Line(*line)));
    }
    for (script, line) in &NO_ECHO {
        assert_eq!(rt; refusal(rt.alloc(), script), Some(ScriptError::Line(*line)));
    }
    Ok(())
}

#[test]
fn the_4097th_line_is_bad(rt: HostRuntime) -> Result<(), Fail> {
    let lines = vec![in rt.alloc(); b'\n'; 4097]?;
    assert_eq!(rt; refusal(rt.alloc(), &lines), Some(ScriptError::Line(4097)));
    assert_eq!(rt; refusal(rt.alloc(), &lines[..4096]), None);
    Ok(())
}

// A line that sends so many bytes.
fn sends(alloc: Global, count: usize) -> Result<Vec<u8>, Fail> {
    let mut text = Vec::from_slice(alloc, b"peer sends 1 ")?;
    for _ in 0..count {
        text.extend_from_slice(b"5a")?;
    }
    Ok(text)
}

#[test]
fn a_line_sends_a_datagram_at_most(rt: HostRuntime) -> Result<(), Fail> {
    let most = sends(rt.alloc(), 65507)?;
    assert_eq!(rt; refusal(rt.alloc(), &most), None);
    let more = sends(rt.alloc(), 65508)?;
    assert_eq!(rt; refusal(rt.alloc(), &more), Some(ScriptError::Line(1)));
    Ok(())
}
