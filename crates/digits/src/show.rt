// Bytes, written in hexadecimal.
ghost use Rattle.std.specs.Prelude.{◌≡◌, ◌<◌, [], ◌∷◌, length, Some, ◌==◌};
ghost use Rattle.std.specs.Fmt.{WritesOnOk};
ghost use Rattle.digits.specs.HexText.{hex_char, hex_of, trimmed};
ghost use Rattle.digits.specs.Shown.{shown_bytes};

use std::fmt;

// Bytes that are written with two digits each, in lower case.
#[derive(Clone, Copy, PartialEq, Eq, Debug)]
pub struct Shown<'a> {
    bytes: &'a [u8],
}

impl<'a> Shown<'a> {
    // Up to the last that is not zero; so it is no `From`, which would keep all.
    #[tactic(auto, using(std::proofs::lemmas::List::nil_from_length, crate::proofs::Zeros::trimmed_last))]
    pub fn of(bytes: &'a [u8]) -> Shown<'a>
        ensures { shown_bytes result ≡ trimmed bytes.now }
    {
        let mut front = bytes;
        while let [before @ .., 0] = front {
            front = before;
        }
        Shown { bytes: front }
    }

    pub fn is_empty(&self) -> bool
        ensures { result ≡ (length (shown_bytes self.now) == 0) }
    {
        self.bytes.is_empty()
    }
}

impl fmt::Display for Shown<'_> {
    ghost output = { λ x. Some (hex_of (shown_bytes x)) };

    #[tactic(auto, using(crate::proofs::Written::byte_more))]
    fn fmt<W: fmt::Write>(&self, f: &mut fmt::Formatter<W>) -> fmt::Result {
        for b in self.bytes {
            write_byte(f, *b)?;
        }
        Ok(())
    }
}

// Two characters. `{b:02x}` says the same, but its proof does not close in the loop, and here it takes several times as long (bench/show).
fn write_byte<W: fmt::Write>(f: &mut fmt::Formatter<W>, b: u8) -> fmt::Result
    ensures { WritesOnOk W.write_str_gives f.old result (hex_of (b ∷ [])) f.new }
{
    f.write_char(digit(b / 16))?;
    f.write_char(digit(b % 16))
}

// The digit of a number below 16.
fn digit(n: u8) -> char
    requires { n < 16 }
    ensures { result ≡ hex_char n }
{
    char::from_digit(u32::from(n), 16).unwrap()
}
