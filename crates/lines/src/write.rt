// A line written out.
ghost use Rattle.std.specs.Prelude.{Some};
ghost use Rattle.words.specs.Words.{spaced};
ghost use Rattle.lines.specs.Lines.{asked, said};
ghost use Rattle.lines.specs.Texts.{words_of, written};

use crate::line::{Call, Line};
use commands::command::Command;
use std::fmt;

impl fmt::Display for Call<'_> {
    ghost output = { λ c. Some (spaced (words_of (asked c))) };

    fn fmt<W: fmt::Write>(&self, f: &mut fmt::Formatter<W>) -> fmt::Result {
        match self {
            Call::Format { blocks, number } => write!(f, "{} {blocks} {number}", Command::Format),
            Call::Write {
                disk,
                slot,
                hex: None,
            } => write!(f, "{} {disk} {slot}", Command::Write),
            Call::Write {
                disk,
                slot,
                hex: Some(hex),
            } => write!(f, "{} {disk} {slot} {hex}", Command::Write),
            Call::Clear { disk, slot } => write!(f, "{} {disk} {slot}", Command::Clear),
            Call::Hold { disk } => write!(f, "{} {disk}", Command::Hold),
            Call::Release { hold } => write!(f, "{} {hold}", Command::Release),
            Call::Would { hold } => write!(f, "{} {hold}", Command::Would),
            Call::Copy { hold } => write!(f, "{} {hold}", Command::Copy),
            Call::New => write!(f, "{}", Command::New),
            Call::Drop { disk } => write!(f, "{} {disk}", Command::Drop),
            Call::Read { disk, slot } => write!(f, "{} {disk} {slot}", Command::Read),
            Call::ReadHold { hold, slot } => write!(f, "{} {hold} {slot}", Command::ReadHold),
            Call::Free => write!(f, "{}", Command::Free),
            Call::Sync => write!(f, "{}", Command::Sync),
            Call::Stream { older, newer, file } => write!(
                f,
                "{} {older} {newer} {file}",
                Command::Stream
            ),
            Call::Take { disk, file } => write!(f, "{} {disk} {file}", Command::Take),
            Call::Show => write!(f, "{}", Command::Show),
            Call::Listing => write!(f, "{}", Command::Listing),
        }
    }
}

impl fmt::Display for Line<'_> {
    ghost output = { λ l. Some (written (said l)) };

    fn fmt<W: fmt::Write>(&self, f: &mut fmt::Formatter<W>) -> fmt::Result {
        match self {
            Line::Plain(call) => write!(f, "{call}"),
            Line::Power { bits } => write!(f, "{} {bits}", Command::Power),
            Line::Cut { bits, after, call } => write!(
                f,
                "{} {bits} {after} {call}",
                Command::Power
            ),
        }
    }
}
