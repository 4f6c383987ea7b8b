//! Readers and writers that fail, that are interrupted, or that stop early.

use script_core::{Counted, RunFault, run};
use std::io::{self, ErrorKind, Read, Write};
use std::test::Fail;

const SCRIPT: &[u8] = b"table,t\nload,t\nrow,2024-01-01,2024-01-05\nend\ndip,t\nend\n";

const ANSWERS: &[u8] = b"ok,1\nok,2\ndip,1,1,2024-01-01\npart,0,1\nerror,6,BadCommand\n";

// Returns its text byte by byte, after some interruptions, and fails at one of its reads.
#[derive(Drop)]
struct Slow<'a> {
    text: &'a [u8],
    at: usize,
    interruptions: usize,
    fails_at: Option<usize>,
}

impl Read for Slow<'_> {
    fn read(&mut self, buf: &mut [u8]) -> io::Result<usize> {
        if self.interruptions > 0 {
            self.interruptions -= 1;
            return Err(io::Error::from(ErrorKind::Interrupted));
        }
        if self.fails_at == Some(self.at) {
            return Err(io::Error::from(ErrorKind::BrokenPipe));
        }
        match (self.text.get(self.at), buf.first_mut()) {
            (Some(byte), Some(place)) => {
                *place = *byte;
                self.at = self.at.saturating_add(1);
                Ok(1)
            }
            _ => Ok(0),
        }
    }
}

// Returns `left` bytes in all.
#[derive(Drop)]
struct Flood {
    left: usize,
}

impl Read for Flood {
    fn read(&mut self, buf: &mut [u8]) -> io::Result<usize> {
        let size = buf.len().min(self.left);
        self.left -= size;
        Ok(size)
    }
}

// Accepts `room` bytes, two at a time, and then no more.
#[derive(Drop)]
struct Narrow {
    taken: Vec<u8>,
    room: usize,
}

impl Write for Narrow {
    fn write(&mut self, buf: &[u8]) -> io::Result<usize> {
        let size = buf.len().min(self.room).min(2);
        self.taken.extend_from_slice(&buf[..size])?;
        self.room -= size;
        Ok(size)
    }

    fn flush(&mut self) -> io::Result<()> {
        Ok(())
    }
}

// Accepts all bytes, after some interruptions.
#[derive(Drop)]
struct Busy {
    taken: Vec<u8>,
    interruptions: usize,
}

impl Write for Busy {
    fn write(&mut self, buf: &[u8]) -> io::Result<usize> {
        if self.interruptions > 0 {
            self.interruptions -= 1;
            return Err(io::Error::from(ErrorKind::Interrupted));
        }
        self.taken.extend_from_slice(buf)?;
        Ok(buf.len())
    }

    fn flush(&mut self) -> io::Result<()> {
        Ok(())
    }
}

fn slowly(text: &[u8]) -> Slow<'_> {
    Slow {
        text,
        at: 0,
        interruptions: 0,
        fails_at: None,
    }
}

#[test]
fn takes_a_thousand_interruptions(rt: HostRuntime) -> Result<(), Fail> {
    for (interruptions, want) in [(1000, Ok(())), (1001, Err(RunFault::ReadFault))] {
        let mut reader = Counted::new(Slow {
            interruptions,
            ..slowly(SCRIPT)
        });
        let mut writer = Counted::new(Vec::new(rt.alloc()));
        let outcome = run(&rt, rt.alloc(), &mut reader, &mut writer, 1);
        assert_eq!(rt; outcome.map(|_| ()), want);
        assert_eq!(rt; reader.failures(), interruptions as u64);
        let written = writer.into_inner();
        assert_eq!(rt;
            written.as_slice(),
            if want.is_ok() { ANSWERS } else { b"" }
        );
    }
    Ok(())
}

#[test]
fn reads_and_writes_share_the_thousand(rt: HostRuntime) -> Result<(), Fail> {
    for (interruptions, want) in [(400, Ok(())), (401, Err(RunFault::WriteFault))] {
        let mut reader = Counted::new(Slow {
            interruptions: 600,
            ..slowly(SCRIPT)
        });
        let mut writer = Counted::new(Busy {
            taken: Vec::new(rt.alloc()),
            interruptions,
        });
        let outcome = run(&rt, rt.alloc(), &mut reader, &mut writer, 1);
        assert_eq!(rt; outcome.map(|_| ()), want);
        assert_eq!(rt; reader.failures(), 600);
        assert_eq!(rt; writer.failures(), interruptions as u64);
        let written = writer.into_inner().taken;
        assert_eq!(rt;
            written.as_slice(),
            if want.is_ok() { ANSWERS } else { b"" }
        );
    }
    Ok(())
}

#[test]
fn faults_have_texts(rt: HostRuntime) -> Result<(), Fail> {
    for (fault, text) in [
        (RunFault::ReadFault, "read fault"),
        (RunFault::TooLong, "script too long"),
        (RunFault::NoMemory, "out of memory"),
        (RunFault::WriteFault, "write fault"),
    ] {
        assert_eq!(rt; fault.to_string(rt.alloc())?.as_str(), text);
    }
    Ok(())
}

#[test]
fn a_failed_read_writes_nothing(rt: HostRuntime) -> Result<(), Fail> {
    for at in 0..=SCRIPT.len() {
        let mut reader = Counted::new(Slow {
            fails_at: Some(at),
            ..slowly(SCRIPT)
        });
        let mut writer = Counted::new(Vec::new(rt.alloc()));
        let outcome = run(&rt, rt.alloc(), &mut reader, &mut writer, 1);
        assert_eq!(rt; outcome.err(), Some(RunFault::ReadFault));
        assert!(rt; writer.into_inner().is_empty());
        assert_eq!(rt; reader.failures(), 1);
    }
    Ok(())
}

#[test]
fn a_full_writer_has_a_front_of_the_answers(rt: HostRuntime) -> Result<(), Fail> {
    for room in 0..ANSWERS.len() {
        let mut reader = Counted::new(SCRIPT);
        let mut writer = Counted::new(Narrow {
            taken: Vec::new(rt.alloc()),
            room,
        });
        let outcome = run(&rt, rt.alloc(), &mut reader, &mut writer, 1);
        assert_eq!(rt; outcome.err(), Some(RunFault::WriteFault));
        assert_eq!(rt; writer.failures(), 1);
        let narrow = writer.into_inner();
        assert_eq!(rt; Some(narrow.taken.as_slice()), ANSWERS.get(..room));
    }
    Ok(())
}

#[test]
fn a_script_has_a_limit(rt: HostRuntime) -> Result<(), Fail> {
    let mut reader = Counted::new(Flood { left: 67_108_865 });
    let mut writer = Counted::new(Vec::new(rt.alloc()));
    let outcome = run(&rt, rt.alloc(), &mut reader, &mut writer, 1);
    assert_eq!(rt; outcome.err(), Some(RunFault::TooLong));
    assert!(rt; writer.into_inner().is_empty());
    Ok(())
}

#[test]
fn a_script_may_reach_its_limit(rt: HostRuntime) -> Result<(), Fail> {
    let mut reader = Counted::new(Flood { left: 67_108_864 });
    let mut writer = Counted::new(Vec::new(rt.alloc()));
    let outcome = run(&rt, rt.alloc(), &mut reader, &mut writer, 1)?;
    assert_eq!(rt; outcome.errors, 1);
    assert_eq!(rt;
        writer.into_inner().as_slice(),
        b"error,1,BadCommand\n".as_slice()
    );
    Ok(())
}
