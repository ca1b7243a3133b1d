// Bytes in hexadecimal, for a block or a part of one.
ghost use Rattle.std.specs.Prelude.{◌≡◌, ℕ, ◌<◌, ◌≤◌, true, List, ◌++◌, length, drop, Some, None, MatchResult};
ghost use Rattle.std.specs.Result.{result_err};
ghost use Rattle.digits.specs.HexText.{are_bytes, bytes_of, hex_fault, hex_of, hex_value, not_hex_text};

use std::error::Error;
use std::fmt;
use words::byte::Kind;

// Why a text is not the bytes of a block in hexadecimal.
#[derive(Clone, Copy, PartialEq, Eq, Debug)]
pub enum NotHex {
    // More than two digits for each of a block's 4,096 bytes.
    TooMany,
    // Something that is no digit.
    NoDigit,
    // A digit that has no second beside it.
    Odd,
}

// Two digits for each byte, the higher first, in upper or lower case.
#[derive(Clone, Copy, PartialEq, Eq, Debug)]
pub struct Hex<'a> {
    digits: &'a str,
    // So there are no more bytes than a block has.
    ghost fine: { hex_fault digits.now ≡ None },
}

// The value of a digit. `to_digit` would give an Option, which is None nowhere here, and a number to be cast back.
fn value(digit: u8) -> u8
    ensures is { result ≡ hex_value digit }
    ensures bound { result < 16 }
{
    match digit {
        b'0'..=b'9' => digit - b'0',
        b'a'..=b'f' => digit - b'a' + 10,
        b'A'..=b'F' => digit - b'A' + 10,
        _ => 0,
    }
}

// Refuses what is not the bytes of a block, or of a part of one, in hexadecimal.
fn judge(digits: &[u8]) -> Result<(), NotHex>
    ensures { result_err result ≡ hex_fault digits.now }
{
    if digits.len() > 8192 {
        return Err(NotHex::TooMany);
    }
    if !Kind::Hexadecimal.all(digits) {
        return Err(NotHex::NoDigit);
    }
    if digits.len() % 2 != 0 {
        return Err(NotHex::Odd);
    }
    Ok(())
}

impl<'a> TryFrom<&'a str> for Hex<'a> {
    ghost use Rattle.digits.specs.Hex.{hex_digits, IsHexRead};

    type Error = NotHex;

    ghost try_from_gives = { λ text r. IsHexRead text.now r };

    // The text as bytes, or what is wrong with it. What is written of any bytes says these bytes, and is read so if they fit a block.
    #[tactic(auto, using(crate::proofs::Again::bytes_again, crate::proofs::Again::hex_fine))]
    fn try_from(text: &'a str) -> Result<Hex<'a>, NotHex>
        ensures reads { IsHexRead text.now result }
        ensures again { (bs : List ℕ) → are_bytes bs ≡ true → length bs ≤ 4096 → text.now ≡ hex_of bs → MatchResult result (λ h. bytes_of (hex_digits h) ≡ bs) (λ _. ⊥) }
        ensures law { (bs : List ℕ) → are_bytes bs ≡ true → bytes_of (hex_of bs) ≡ bs }
    {
        judge(text.as_bytes())?;
        Ok(Hex { digits: text })
    }
}

impl Hex<'_> {
    ghost use Rattle.digits.specs.Hex.{hex_digits};

    // Puts the bytes over the front of a block.
    #[tactic(auto, using(std::proofs::lemmas::Grind::common_steps, std::proofs::lemmas::List::nil_from_length, crate::proofs::Pairs::fine_fits))]
    pub fn put(&self, block: &mut [u8; 4096])
        ensures { block.new ≡ bytes_of (hex_digits self.now) ++ drop (length (bytes_of (hex_digits self.now))) block.old }
    {
        let mut digits = self.digits.as_bytes();
        for byte in block.iter_mut() {
            let [high, low, rest @ ..] = digits else {
                break;
            };
            *byte = 16 * value(*high) + value(*low);
            digits = rest;
        }
    }
}

impl fmt::Display for Hex<'_> {
    ghost use Rattle.digits.specs.Hex.{hex_digits};

    ghost output = { λ h. Some (hex_digits h) };

    fn fmt<W: fmt::Write>(&self, f: &mut fmt::Formatter<W>) -> fmt::Result {
        f.write_str(self.digits)
    }
}

impl fmt::Display for NotHex {
    ghost output = { λ e. Some (not_hex_text e) };

    fn fmt<W: fmt::Write>(&self, f: &mut fmt::Formatter<W>) -> fmt::Result {
        f.write_str(match self {
            NotHex::TooMany => "more than 8,192 digits",
            NotHex::NoDigit => "not a hexadecimal digit",
            NotHex::Odd => "an odd count of digits",
        })
    }
}

impl Error for NotHex {}
