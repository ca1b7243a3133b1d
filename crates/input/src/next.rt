// A chunk of the input: where a line ends in it, and what comes after it.
ghost use Rattle.std.specs.Prelude.{◌≡◌};
ghost use Rattle.std.specs.List.{prefix_len};
ghost use Rattle.memchr.specs.Find.{IsFirstByte, is_byte};
ghost use Rattle.input.specs.Pieces.{inside};
ghost use Rattle.input.specs.Steps.{after_all_lem};

use memchr::memchr;
use std::simd::prelude::*;

// More of the line; or the line is whole; or there is none.
#[derive(Clone, Copy, PartialEq, Eq, Debug)]
pub enum Next {
    More,
    Line,
    End,
}

// How many of these bytes stand before the end of a line.
fn before_end(bytes: u8x16) -> usize
    ensures { result ≡ prefix_len inside bytes }
{
    let ends = bytes.simd_eq(u8x16::splat(b'\n')).to_bitmask();
    if ends == 0 {
        16
    } else {
        ends.trailing_zeros() as usize
    }
}

// Where a line ends in a chunk. Most lines are short, and a search costs more to begin than to look at the bytes of one vector, so these
// come first.
pub(crate) fn line_end(chunk: &[u8]) -> Option<usize>
    ensures { IsFirstByte (is_byte 10) chunk.now result }
{
    if let Some(front) = chunk.first_chunk::<16>() {
        let n = before_end(u8x16::from_array(*front));
        if n < 16 {
            return Some(n);
        }
    }
    memchr(b'\n', chunk)
}

// What comes after a chunk of n bytes that has no end of a line, where so many bytes of the line were held before. The input is at its
// end where a chunk is empty, and the last line needs no end.
pub(crate) fn after_all(held: usize, n: usize) -> Next
    ensures { result ≡ after_all_lem held n }
{
    match (n, held) {
        (0, 0) => Next::End,
        (0, _) => Next::Line,
        _ => Next::More,
    }
}
