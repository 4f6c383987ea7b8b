//! Input from a terminal.
use std::io::{self, Eprint, Read};

/// Printed before each line that a person types.
const PROMPT: &str = "> ";

/// A reader that prints a prompt on standard error before each read, if its input is a terminal.
#[derive(Drop)]
pub struct Prompted<'a, P, R> {
    pub rt: &'a P,
    pub is_terminal: bool,
    pub input: R,
}

impl<P: Eprint, R: Read> Read for Prompted<'_, P, R> {
    fn read(&mut self, buf: &mut [u8]) -> io::Result<usize> {
        if self.is_terminal {
            let _ = eprint!(self.rt; "{PROMPT}");
        }
        self.input.read(buf)
    }
}
