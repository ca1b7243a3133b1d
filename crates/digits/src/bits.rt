// A text of 0 and 1, for what a stop keeps.
ghost use Rattle.std.specs.Prelude.{◌≡◌, true, Some};
ghost use Rattle.std.specs.List.{list_all};
ghost use Rattle.std.specs.Option.{option_map};
ghost use Rattle.std.specs.Result.{result_ok};
ghost use Rattle.words.specs.Bytes.{is_kind};
ghost use Rattle.words.specs.declared.byte.Kind.TheVariants.{Bit};

use std::error::Error;
use std::fmt;
use words::byte::Kind;

// A text that has something else than 0 and 1.
#[derive(Clone, Copy, PartialEq, Eq, Debug)]
pub struct NotBits;

// One character for each, first to last.
#[derive(Clone, Copy, PartialEq, Eq, Debug)]
pub struct Bits<'a> {
    digits: &'a str,
    ghost bits: { list_all (is_kind Bit) digits.now ≡ true },
}

impl<'a> TryFrom<&'a str> for Bits<'a> {
    ghost use Rattle.digits.specs.Bits.{bit_digits, bits_in};

    type Error = NotBits;

    ghost try_from_gives = { λ text r. option_map bit_digits (result_ok r) ≡ bits_in text.now };

    // The text as bits, if it is one; `-` stands for none.
    fn try_from(text: &'a str) -> Result<Bits<'a>, NotBits> {
        let digits = if text == "-" { "" } else { text };
        if Kind::Bit.all(digits.as_bytes()) {
            Ok(Bits { digits })
        } else {
            Err(NotBits)
        }
    }
}

impl fmt::Display for Bits<'_> {
    ghost use Rattle.digits.specs.Bits.{bit_digits, bits_text};

    ghost output = { λ b. Some (bits_text (bit_digits b)) };

    fn fmt<W: fmt::Write>(&self, f: &mut fmt::Formatter<W>) -> fmt::Result {
        if self.digits.is_empty() {
            f.write_str("-")
        } else {
            f.write_str(self.digits)
        }
    }
}

impl fmt::Display for NotBits {
    ghost use Rattle.digits.specs.Bits.{not_bits_text};

    ghost output = { λ _. Some not_bits_text };

    fn fmt<W: fmt::Write>(&self, f: &mut fmt::Formatter<W>) -> fmt::Result {
        f.write_str("not a text of 0 and 1")
    }
}

impl Error for NotBits {}
