// What is answered to a line, and the text of it.
#![tactic(auto)]

ghost use Rattle.std.specs.Prelude.{◌≡◌, Some};
ghost use Rattle.answers.specs.Answers.{about_text, answer_text, failure_text};
ghost use Rattle.answers.specs.declared.Failure.TheVariants.{Misread};

use commands::trouble::Trouble;
use digits::show::Shown;
use rules::refusal::Refusal;
use std::error::Error;
use std::fmt;

// What a line that was done gives.
#[derive(Clone, Copy, PartialEq, Eq, Debug)]
pub enum Answer<'a> {
    Done,
    Value(u64),
    Bytes(Shown<'a>),
}

// What a refusal is about, as it stands behind its words.
#[derive(Clone, Copy, PartialEq, Eq, Debug)]
pub enum About {
    Blocks(u64),
}

// Why a line was not done.
#[derive(Clone, Copy, PartialEq, Eq, Debug)]
pub enum Failure {
    Refused {
        refusal: Refusal,
        about: Option<About>,
    },
    Misread(Trouble),
    // A line that is understood, and that this program can't play yet.
    NotYet,
}

impl From<Trouble> for Failure {
    ghost from_gives = { λ trouble failure. failure ≡ Misread trouble };

    fn from(trouble: Trouble) -> Failure {
        Failure::Misread(trouble)
    }
}

impl fmt::Display for Answer<'_> {
    ghost output = { λ a. Some (answer_text a) };

    fn fmt<W: fmt::Write>(&self, f: &mut fmt::Formatter<W>) -> fmt::Result {
        match self {
            Answer::Done => f.write_str("ok"),
            Answer::Value(n) => write!(f, "ok {n}"),
            Answer::Bytes(bytes) if bytes.is_empty() => f.write_str("ok"),
            Answer::Bytes(bytes) => write!(f, "ok {bytes}"),
        }
    }
}

impl fmt::Display for About {
    ghost output = { λ a. Some (about_text a) };

    fn fmt<W: fmt::Write>(&self, f: &mut fmt::Formatter<W>) -> fmt::Result {
        match self {
            About::Blocks(n) => write!(f, ": {n} blocks"),
        }
    }
}

impl fmt::Display for Failure {
    ghost output = { λ e. Some (failure_text e) };

    fn fmt<W: fmt::Write>(&self, f: &mut fmt::Formatter<W>) -> fmt::Result {
        match self {
            Failure::Refused {
                refusal,
                about: None,
            } => write!(f, "error {}: {refusal}", refusal.number()),
            Failure::Refused {
                refusal,
                about: Some(about),
            } => write!(f, "error {}: {refusal}{about}", refusal.number()),
            Failure::Misread(trouble) => write!(f, "error: {trouble}"),
            Failure::NotYet => f.write_str("error: not yet"),
        }
    }
}

impl Error for Failure {}
