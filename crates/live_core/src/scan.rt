//! Finds where statements end among the bytes of a script that arrives in portions.
ghost use Rattle.std.specs.Prelude.{◌≡◌, ◌≤◌, [], false, length, true, IfOk};
ghost use Rattle.live_core.specs.Scanning.{IsCutAt, Knows, Reading, ends_statement, first_of, is_first, is_outside, line_at_hand, next_block};
ghost use Rattle.live_core.specs.Scanning.{nothing_read, read_byte, read_bytes};

use crate::blocks::Block;
use crate::steps::{Move, Spot, step};
use period_core::NoMemory;
use std::alloc::Global;

/// The state after some bytes of a script: enough to tell where the next statement ends.
#[derive(Drop)]
pub(crate) struct Scan {
    spot: Spot,
    /// The part already read of the current record's first field.
    first: Vec<u8>,
    /// Whether the current record's first field isn't finished yet.
    is_first: bool,
    /// The position of the current record in its statement.
    block: Block,
}

impl Scan {
    /// Returns the state before any byte.
    pub(crate) fn new(alloc: Global) -> Scan
        ensures { Knows result nothing_read }
    {
        Scan {
            spot: Spot::Between,
            first: Vec::new(alloc),
            is_first: true,
            block: Block::Outside,
        }
    }

    /// Returns the position of the next record, if the current record ends here.
    fn next_block(&self) -> Block
        ensures { (r : Reading) → self.now.first.items ≡ first_of r.fields r.field
            → self.now.is_first ≡ is_first r.fields
            → result ≡ next_block self.now.block (line_at_hand r) }
    {
        let first = self.first.as_slice();
        let is_end = self.is_first && first == b"end".as_slice();
        let opens_rows = first == b"load".as_slice() || first == b"check".as_slice();
        match self.block {
            Block::Outside if first == b"together".as_slice() => Block::Together,
            Block::Outside if opens_rows => Block::Rows,
            Block::Outside => Block::Outside,
            Block::Rows if is_end => Block::Outside,
            Block::Rows => Block::Rows,
            Block::Together if is_end => Block::Outside,
            Block::Together if opens_rows => Block::RowsInside,
            Block::Together => Block::Together,
            Block::RowsInside if is_end => Block::Together,
            Block::RowsInside => Block::RowsInside,
        }
    }

    /// Ends the current record. Returns whether its statement ends with it.
    fn end_record(&mut self) -> bool
        ensures spot { self.new.spot ≡ self.old.spot }
        ensures first { (self.new.first.items ≡ []) × (self.new.is_first ≡ true) }
        ensures block { (r : Reading) → self.old.first.items ≡ first_of r.fields r.field
            → self.old.is_first ≡ is_first r.fields
            → self.new.block ≡ next_block self.old.block (line_at_hand r) }
        ensures ends { result ≡ is_outside self.new.block }
    {
        self.block = self.next_block();
        self.first.clear();
        self.is_first = true;
        self.block == Block::Outside
    }

    /// Returns whether the byte changes nothing: it belongs to a later field of a record, and ends neither.
    fn is_passed(&self, byte: u8) -> bool
        ensures { result ≡ true → (r : Reading) → Knows self.now r
            → Knows self.now (read_byte r byte) × (false ≡ ends_statement r byte) }
    {
        self.spot == Spot::InField && !self.is_first && !matches!(byte, b',' | b'\r' | b'\n')
    }

    /// Reads one byte. Returns whether a statement ends with it.
    fn read(&mut self, byte: u8) -> Result<bool, NoMemory>
        ensures { IfOk result (λ ends. (r : Reading) → Knows self.old r
            → Knows self.new (read_byte r byte) × (ends ≡ ends_statement r byte)) }
    {
        if self.is_passed(byte) {
            return Ok(false);
        }
        let (spot, moves) = step(self.spot, byte);
        self.spot = spot;
        match moves {
            Move::Skip => {}
            Move::Copy => if self.is_first {
                self.first.push(byte)?;
            }
            Move::EndField => self.is_first = false,
            Move::EndRecord => return Ok(self.end_record()),
        }
        Ok(false)
    }

    /// Reads some bytes. Returns the index after the last byte that ends a statement, or 0 if none does.
    pub(crate) fn read_all(&mut self, bytes: &[u8]) -> Result<usize, NoMemory>
        ensures within { IfOk result (λ cut. cut ≤ length bytes.now) }
        ensures reads { IfOk result (λ cut. (r : Reading) → Knows self.old r
            → Knows self.new (read_bytes r bytes.now)
            × IsCutAt r (read_bytes r bytes.now) cut) }
    {
        let mut cut = 0;
        for place in 0..bytes.len() {
            if self.read(bytes[place])? {
                cut = place + 1;
            }
        }
        Ok(cut)
    }
}
