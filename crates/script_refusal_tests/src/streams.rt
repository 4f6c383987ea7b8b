//! Readers and writers that fail at one of their calls.

use script_core::{Counted, RunFault, run};
use std::io::{self, ErrorKind, Read, Write};
use std::test::Fail;

// A join of two tables, and its answers.
const SCRIPT: &[u8] = b"table,a,c,int\ntable,b,c,int\n\
    load,a\nrow,2024-01-01,2024-01-10,1\nrow,2024-01-05,2024-01-08,2\nend\n\
    load,b\nrow,2024-01-03,2024-01-06,1\nrow,2024-01-06,2024-01-20,1\nrow,2024-01-07,2024-01-08,2\nend\n\
    join,a,b,on,c,c\n";

const ANSWERS: &[u8] = b"ok,1\nok,2\nok,3\nok,4\nrow,2024-01-03,2024-01-06,1,1,1,1\n\
    row,2024-01-06,2024-01-10,1,2,1,1\nrow,2024-01-07,2024-01-08,2,3,2,2\nend,3\n";

// Returns a byte of its text at each read, and fails at the read with this number, counted from 0.
#[derive(Drop)]
struct Failing<'a> {
    text: &'a [u8],
    reads: usize,
    fails_at: usize,
}

impl Read for Failing<'_> {
    fn read(&mut self, buf: &mut [u8]) -> io::Result<usize> {
        let number = self.reads;
        self.reads = number.saturating_add(1);
        if number == self.fails_at {
            return Err(io::Error::from(ErrorKind::BrokenPipe));
        }
        match (self.text.get(number), buf.first_mut()) {
            (Some(byte), Some(place)) => {
                *place = *byte;
                Ok(1)
            }
            _ => Ok(0),
        }
    }
}

// The read after the last byte finds the end, and is the last read.
#[test]
fn a_failed_read_writes_nothing(rt: HostRuntime) -> Result<(), Fail> {
    for fails_at in 0..SCRIPT.len() + 2 {
        let mut reader = Counted::new(Failing {
            text: SCRIPT,
            reads: 0,
            fails_at,
        });
        let mut writer = Counted::new(Vec::new(rt.alloc()));
        let outcome = run(&rt, rt.alloc(), &mut reader, &mut writer, 1);
        let (want, written) = if fails_at <= SCRIPT.len() {
            (Some(RunFault::ReadFault), &b""[..])
        } else {
            (None, ANSWERS)
        };
        assert_eq!(rt; outcome.err(), want, "read {fails_at} fails");
        assert_eq!(rt; reader.failures(), want.is_some() as u64);
        assert_eq!(rt; writer.into_inner().as_slice(), written);
    }
    Ok(())
}

// Accepts `room` bytes in all, and then fails: with an error, or by accepting none.
#[derive(Drop)]
struct Full {
    taken: Vec<u8>,
    room: usize,
    has_error: bool,
}

impl Write for Full {
    fn write(&mut self, buf: &[u8]) -> io::Result<usize> {
        let size = buf.len().min(self.room);
        if size == 0 && self.has_error {
            return Err(io::Error::from(ErrorKind::BrokenPipe));
        }
        self.taken.extend_from_slice(&buf[..size])?;
        self.room -= size;
        Ok(size)
    }

    fn flush(&mut self) -> io::Result<()> {
        Ok(())
    }
}

#[test]
fn a_failed_write_leaves_a_front_of_the_answers(rt: HostRuntime) -> Result<(), Fail> {
    for room in 0..ANSWERS.len() {
        for has_error in [true, false] {
            let mut reader = Counted::new(SCRIPT);
            let mut writer = Counted::new(Full {
                taken: Vec::new(rt.alloc()),
                room,
                has_error,
            });
            let outcome = run(&rt, rt.alloc(), &mut reader, &mut writer, 1);
            assert_eq!(rt;
                outcome.err(),
                Some(RunFault::WriteFault),
                "{room} are taken"
            );
            assert_eq!(rt; writer.failures(), 1);
            let taken = writer.into_inner().taken;
            assert_eq!(rt; Some(taken.as_slice()), ANSWERS.get(..room));
        }
    }
    Ok(())
}

// Returns its text after some interruptions.
#[derive(Drop)]
struct Interrupted<'a> {
    text: &'a [u8],
    left: u32,
}

impl Read for Interrupted<'_> {
    fn read(&mut self, buf: &mut [u8]) -> io::Result<usize> {
        if self.left > 0 {
            self.left -= 1;
            return Err(io::Error::from(ErrorKind::Interrupted));
        }
        self.text.read(buf)
    }
}

#[test]
fn a_thousand_interruptions_change_nothing(rt: HostRuntime) -> Result<(), Fail> {
    for (left, want, written) in [
        (1000, None, &b"ok,1\ndip,0,0,-\n"[..]),
        (1001, Some(RunFault::ReadFault), b""),
    ] {
        let mut reader = Counted::new(Interrupted {
            text: b"table,t\ndip,t\n",
            left,
        });
        let mut writer = Counted::new(Vec::new(rt.alloc()));
        let outcome = run(&rt, rt.alloc(), &mut reader, &mut writer, 1);
        assert_eq!(rt; outcome.err(), want, "{left} interruptions");
        assert_eq!(rt; reader.failures(), left as u64);
        assert_eq!(rt; writer.into_inner().as_slice(), written);
    }
    Ok(())
}
