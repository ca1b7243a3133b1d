// How a line is read.
#![tactic(auto)]

ghost use Rattle.std.specs.Prelude.{◌≡◌, Bool, Some, Ok, IsUtf8, Decides};
ghost use Rattle.words.specs.Words.{first_of, words};
ghost use Rattle.lines.specs.Lines.{heard, Said};
ghost use Rattle.lines.specs.Texts.{written};
ghost use Rattle.reader.specs.Proper.{Proper, ProperSaid};
ghost use Rattle.reader.specs.Reads.{heard_by, reading};

use crate::stops::named_line;
use commands::trouble::Trouble;
use lines::line::Line;
use std::str::from_utf8;
use words::cursor::{Words, is_remark};

mod args;
mod calls;
mod stops;

// What the words of a line of text say.
fn spoken<'a>(line: &'a str) -> Result<Option<Line<'a>>, Trouble>
    ensures { heard result ≡ heard_by (first_of (words line.now)) (words line.now) }
{
    let mut args = Words::of(line);
    let Some(name) = args.next() else {
        return Ok(None);
    };
    Ok(Some(named_line(name, args)?))
}

// The bits of a stop are the longest part of any line: there are never so many sectors that wait.
pub const LONGEST: usize = 2097152;

// Reads a line, which comes without its end. Whatever it is, it is skipped, understood, or told what is wrong with it; and a line that
// was written out from its value is read as that value.
#[tactic(auto, using(crate::proofs::Reread::written_said, crate::proofs::Reread::written_text, crate::proofs::Heeded::text_heard))]
pub fn read<'a>(line: &'a [u8]) -> Result<Option<Line<'a>>, Trouble>
    ensures reads { (t : Bool) → Decides t (IsUtf8 line.now) → heard result ≡ reading t line.now }
    ensures again { (l : Said) → Proper l → line.now ≡ written l → heard result ≡ Ok (Some l) }
    ensures values { (l : Said) → heard result ≡ Ok (Some l) → ProperSaid l }
{
    if is_remark(line) {
        return Ok(None);
    }
    if line.len() > LONGEST {
        return Err(Trouble::TooLong);
    }
    let Ok(line) = from_utf8(line) else {
        return Err(Trouble::NotText);
    };
    spoken(line)
}
