// A decimal number in a word.
ghost use Rattle.std.specs.Prelude.{◌≡◌, Some};
ghost use Rattle.words.specs.Numbers.{not_number_text, number_of};

use crate::byte::Kind;
use std::error::Error;
use std::fmt;

// Why a word is not a number of 64 bits.
#[derive(Clone, Copy, PartialEq, Eq, Debug)]
pub enum NotNumber {
    // No digit at all, or something that is none.
    NoDigits,
    // A number that is too large for that.
    TooLarge,
}

// The number that a word is in decimal digits, if it fits 64 bits. `parse` alone would take a plus in front.
#[tactic(auto, using(std::proofs::lemmas::Bool::Decides::nat_tests, crate::proofs::Decimals::number_is))]
pub fn number(word: &str) -> Result<u64, NotNumber>
    ensures { result ≡ number_of word.now }
{
    if word.is_empty() || !Kind::Decimal.all(word.as_bytes()) {
        return Err(NotNumber::NoDigits);
    }
    word.parse().map_err(|_| NotNumber::TooLarge)
}

impl fmt::Display for NotNumber {
    ghost output = { λ e. Some (not_number_text e) };

    fn fmt<W: fmt::Write>(&self, f: &mut fmt::Formatter<W>) -> fmt::Result {
        f.write_str(match self {
            NotNumber::NoDigits => "not a number",
            NotNumber::TooLarge => "a number of more than 64 bits",
        })
    }
}

impl Error for NotNumber {}
