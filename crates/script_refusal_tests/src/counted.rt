//! Tests that a counted reader or writer passes each call on exactly once, and returns its result.

ghost use Rattle.std.specs.Prelude.{◌≤◌, IfOk};

use script_core::Counted;
use std::io::{self, ErrorKind, Read, Write};
use std::process::Abort;

// The results of the calls of the reader or writer, in order: numbers of bytes, or kinds of errors.
const ANSWERS: [Result<usize, ErrorKind>; 6] = [
    Ok(2),
    Err(ErrorKind::Interrupted),
    Ok(0),
    Err(ErrorKind::BrokenPipe),
    Err(ErrorKind::Interrupted),
    Ok(1),
];

// Returns these results, and counts its calls.
#[derive(Drop)]
struct Answering {
    calls: usize,
}

impl Answering {
    fn answer(&mut self, most: usize) -> io::Result<usize>
        ensures { IfOk result (λ size. size ≤ most) }
    {
        let answer = ANSWERS.get(self.calls).copied();
        self.calls = self.calls.saturating_add(1);
        match answer {
            Some(Ok(size)) => Ok(size.min(most)),
            Some(Err(kind)) => Err(io::Error::from(kind)),
            None => Err(io::Error::from(ErrorKind::UnexpectedEof)),
        }
    }
}

impl Read for Answering {
    fn read(&mut self, buf: &mut [u8]) -> io::Result<usize> {
        self.answer(buf.len())
    }
}

impl Write for Answering {
    fn write(&mut self, buf: &[u8]) -> io::Result<usize> {
        self.answer(buf.len())
    }

    fn flush(&mut self) -> io::Result<()> {
        Ok(())
    }
}

// Checks that the call had the result with this number.
fn check_answer(rt: &impl Abort, answer: io::Result<usize>, number: usize) {
    let given = answer.map_err(|error| error.kind());
    assert_eq!(rt; Some(given), ANSWERS.get(number).copied(), "call {number}");
}

// A read that returns no bytes hasn't failed: it is at the end.
#[test]
fn a_counted_read_is_one_read(rt: HostRuntime) {
    let mut reader = Counted::new(Answering { calls: 0 });
    for (number, failures) in [0u64, 1, 1, 2, 3, 3].iter().enumerate() {
        check_answer(&rt, reader.read(&mut [0; 4]), number);
        assert_eq!(rt; reader.failures(), *failures);
    }
    assert_eq!(rt; reader.into_inner().calls, 6);
}

// A write that accepts none of some bytes has failed. A write of no bytes hasn't.
#[test]
fn a_counted_write_is_one_write(rt: HostRuntime) {
    let mut writer = Counted::new(Answering { calls: 0 });
    for (number, failures) in [0u64, 1, 2, 3, 4, 4].iter().enumerate() {
        check_answer(&rt, writer.write(b"ok,1"), number);
        assert_eq!(rt; writer.failures(), *failures);
    }
    assert_eq!(rt; writer.into_inner().calls, 6);
    let mut idle = Counted::new(Answering { calls: 0 });
    assert!(rt; idle.write(b"").is_ok() && idle.failures() == 0);
}
