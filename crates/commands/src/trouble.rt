// What can be wrong with a line, and the words for it.
ghost use Rattle.std.specs.Prelude.{◌≡◌, Some};
ghost use Rattle.commands.specs.Troubles.{trouble_text, why_text};
ghost use Rattle.commands.specs.declared.trouble.Why.TheVariants.{Bits, Hex, Number};

use crate::command::Command;
use digits::bits::NotBits;
use digits::hex::NotHex;
use std::error::Error;
use std::fmt;
use words::number::NotNumber;

// What is wrong with the words behind a command.
#[derive(Clone, Copy, PartialEq, Eq, Debug)]
pub enum Why {
    TooFew,
    TooMany,
    // A word that should be a decimal number.
    Number(NotNumber),
    // A word that should be bytes in hexadecimal.
    Hex(NotHex),
    // A word that should be a text of 0 and 1.
    Bits(NotBits),
    // A stop that should cut short a stop.
    Nested,
}

// Why a line is not understood.
#[derive(Clone, Copy, PartialEq, Eq, Debug)]
pub enum Trouble {
    TooLong,
    NotText,
    NoCommand,
    Form { command: Command, why: Why },
}

impl From<NotNumber> for Why {
    ghost from_gives = { λ e why. why ≡ Number e };

    fn from(e: NotNumber) -> Why {
        Why::Number(e)
    }
}

impl From<NotHex> for Why {
    ghost from_gives = { λ e why. why ≡ Hex e };

    fn from(e: NotHex) -> Why {
        Why::Hex(e)
    }
}

impl From<NotBits> for Why {
    ghost from_gives = { λ e why. why ≡ Bits e };

    fn from(e: NotBits) -> Why {
        Why::Bits(e)
    }
}

impl fmt::Display for Why {
    ghost output = { λ why. Some (why_text why) };

    fn fmt<W: fmt::Write>(&self, f: &mut fmt::Formatter<W>) -> fmt::Result {
        match self {
            Why::TooFew => f.write_str("too few words"),
            Why::TooMany => f.write_str("too many words"),
            Why::Number(e) => write!(f, "{e}"),
            Why::Hex(e) => write!(f, "{e}"),
            Why::Bits(e) => write!(f, "{e}"),
            Why::Nested => f.write_str("a stop within a stop"),
        }
    }
}

// What is wrong, and the form that was meant.
impl fmt::Display for Trouble {
    ghost output = { λ t. Some (trouble_text t) };

    fn fmt<W: fmt::Write>(&self, f: &mut fmt::Formatter<W>) -> fmt::Result {
        match self {
            Trouble::TooLong => f.write_str("the line is too long"),
            Trouble::NotText => f.write_str("not UTF-8 text"),
            Trouble::NoCommand => f.write_str("no such command"),
            Trouble::Form { command, why } => write!(f, "{why}: {}", command.usage()),
        }
    }
}

impl Error for Why {}

impl Error for Trouble {}
