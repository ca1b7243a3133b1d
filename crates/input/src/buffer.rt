// Reads the lines of an input.
ghost use Rattle.std.specs.Prelude.{◌≡◌, ◌≤◌, [], ◌++◌, length, take, IfOk, IfSome, vec_len, vec_capacity};
ghost use Rattle.input.specs.Pieces.{line_in, most, passed};
ghost use Rattle.input.specs.Steps.{next_after};

use crate::next::{Next, after_all, line_end};
use reader::LONGEST;
use std::alloc::{AllocError, Global};
use std::io;
use std::io::BufRead;

// One byte more than the longest line shows that a line is too long.
const MOST: usize = LONGEST + 1;

// What is held of a line. There is room for all that is ever held.
#[derive(Drop)]
pub struct LineBuffer {
    pub bytes: Vec<u8>,
    ghost room: { most ≤ vec_capacity bytes },
    ghost few: { vec_len bytes ≤ most },
}

// How many bytes of a chunk are done with, and what comes after it.
#[derive(Clone, Copy, PartialEq, Eq, Debug)]
struct Piece {
    used: usize,
    next: Next,
}

impl LineBuffer {
    ghost use Rattle.std.specs.Borrow.{sem};
    ghost use Rattle.input.specs.Lent.{KeepsFew};

    pub fn new(heap: Global) -> Result<LineBuffer, AllocError>
        ensures { IfOk result (λ l. l.bytes.items ≡ []) }
    {
        let bytes = Vec::with_capacity(heap, MOST)?;
        Ok(LineBuffer { bytes })
    }

    // Puts bytes behind what is there, as far as there is room.
    fn keep(&mut self, part: &[u8])
        ensures { self.new.bytes.items ≡ take most (self.old.bytes.items ++ part.now) }
    {
        let room = MOST - self.bytes.len();
        let n = part.len().min(room);
        // There is room, so it cannot fail.
        let _ = self.bytes.extend_from_slice(&part[..n]);
    }

    // Takes what a chunk has of the line.
    fn add(&mut self, chunk: &[u8]) -> Piece
        ensures bytes { self.new.bytes.items ≡ take most (self.old.bytes.items ++ line_in chunk.now) }
        ensures used { result.used ≡ passed chunk.now }
        ensures next { result.next ≡ next_after self.old.bytes.items chunk.now }
    {
        let held = self.bytes.len();
        match line_end(chunk) {
            Some(n) => {
                self.keep(&chunk[..n]);
                Piece {
                    used: n + 1,
                    next: Next::Line,
                }
            }
            None => {
                self.keep(chunk);
                Piece {
                    used: chunk.len(),
                    next: after_all(held, chunk.len()),
                }
            }
        }
    }

    // Reads the next line, without its end; None where the input has no more.
    pub fn next<R: BufRead>(&mut self, input: &mut R) -> io::Result<Option<&[u8]>>
        ensures line { IfOk result (λ found. IfSome found (λ line. length line.now ≤ most)) }
        ensures* few { sem 𝓛 (KeepsFew self.entry) }
    {
        self.bytes.clear();
        // An input may never end, and each loop has to.
        for _ in 0..u64::MAX {
            let piece = self.add(input.fill_buf()?);
            input.consume(piece.used);
            match piece.next {
                Next::More => {}
                Next::Line => return Ok(Some(self.bytes.as_slice())),
                Next::End => return Ok(None),
            }
        }
        Ok(None)
    }
}
