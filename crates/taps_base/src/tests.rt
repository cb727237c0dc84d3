use crate::real_files::take_all;
use crate::std_sink::hand_over;
use crate::{FileAnswer, Sink, SinkAnswer, StdSink};
use std::io;
use std::test::Fail;

// Is interrupted at every second call, and else moves one byte.
#[derive(Drop)]
struct Stutter {
    turn: u64,
    left: u64,
    flushes: u64,
}

impl io::Read for Stutter {
    fn read(&mut self, buf: &mut [u8]) -> io::Result<usize> {
        self.turn = self.turn.saturating_add(1);
        if self.turn % 2 == 1 {
            return Err(io::Error::from(io::ErrorKind::Interrupted));
        }
        if self.left == 0 || buf.is_empty() {
            return Ok(0);
        }
        self.left = self.left.saturating_sub(1);
        buf[0] = b'x';
        Ok(1)
    }
}

impl io::Write for Stutter {
    fn write(&mut self, buf: &[u8]) -> io::Result<usize> {
        self.turn = self.turn.saturating_add(1);
        if self.turn % 2 == 1 {
            return Err(io::Error::from(io::ErrorKind::Interrupted));
        }
        if self.left == 0 || buf.is_empty() {
            return Ok(0);
        }
        self.left = self.left.saturating_sub(1);
        Ok(1)
    }

    fn flush(&mut self) -> io::Result<()> {
        self.flushes = self.flushes.saturating_add(1);
        if self.flushes == 1 {
            return Err(io::Error::from(io::ErrorKind::Interrupted));
        }
        Ok(())
    }
}

fn make_stutter(left: u64) -> Stutter {
    Stutter {
        turn: 0,
        left,
        flushes: 0,
    }
}

fn length_of(answer: &FileAnswer) -> Option<usize> {
    match answer {
        FileAnswer::Bytes(body) => Some(body.bytes().len()),
        _ => None,
    }
}

#[test]
fn reads_and_writes_go_on(rt: HostRuntime) -> Result<(), Fail> {
    let alloc = rt.alloc();
    let mut buffer = [0u8; 3];
    assert_eq!(rt;
        length_of(&take_all(alloc, &mut make_stutter(5), &mut buffer, 5)),
        Some(5)
    );
    assert_eq!(rt;
        length_of(&take_all(alloc, &mut make_stutter(0), &mut buffer, 5)),
        Some(0)
    );
    assert!(rt;
        matches!(
            take_all(alloc, &mut make_stutter(6), &mut buffer, 5),
            FileAnswer::TooLong
        )
    );
    let mut writer = make_stutter(6);
    assert_eq!(rt; hand_over(&mut writer, b"leaves"), SinkAnswer::Taken);
    assert!(rt; writer.flushes > 1);
    let mut sink = StdSink::new(make_stutter(6));
    assert_eq!(rt; sink.write(b"leaves"), SinkAnswer::Taken);
    assert_eq!(rt; sink.write(b"leaves"), SinkAnswer::Failed);
    Ok(())
}
