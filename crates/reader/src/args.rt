// What the words behind a command give, one after the other.
ghost use Rattle.std.specs.Prelude.{◌≡◌, drop};
ghost use Rattle.std.specs.Option.{option_map};
ghost use Rattle.words.specs.Left.{left};
ghost use Rattle.words.specs.Numbers.{number_of};
ghost use Rattle.digits.specs.Bits.{bit_digits};
ghost use Rattle.digits.specs.Hex.{hex_digits};
ghost use Rattle.lines.specs.Lines.{mapped_ok};
ghost use Rattle.reader.specs.Args.{bits_at, capped, end_in, hex_at, word_in};

use commands::trouble::Why;
use digits::bits::Bits;
use digits::hex::Hex;
use words::cursor::Words;
use words::number::{NotNumber, number};

// The next word.
pub(crate) fn word<'a>(args: &mut Words<'a>) -> Result<&'a str, Why>
    ensures value { mapped_ok (λ x. x.now) result ≡ word_in (left args.old) }
    ensures rest { left args.new ≡ drop 1 (left args.old) }
{
    args.next().ok_or(Why::TooFew)
}

// A word as a number that names something, or counts.
pub(crate) fn capped(word: &str) -> Result<u64, Why>
    ensures { result ≡ capped (number_of word.now) }
{
    match number(word) {
        Err(NotNumber::TooLarge) => Ok(u64::MAX),
        read => Ok(read?),
    }
}

// A word as bytes in hexadecimal, if there is one.
pub(crate) fn hex<'a>(word: Option<&'a str>) -> Result<Option<Hex<'a>>, Why>
    ensures { mapped_ok (option_map hex_digits) result ≡ hex_at (option_map (λ x. x.now) word.entry) }
{
    Ok(word.map(Hex::try_from).transpose()?)
}

// A word as bits; none where there is no word.
pub(crate) fn bits<'a>(word: Option<&'a str>) -> Result<Bits<'a>, Why>
    ensures { mapped_ok bit_digits result ≡ bits_at (option_map (λ x. x.now) word.entry) }
{
    Ok(Bits::try_from(word.unwrap_or(""))?)
}

// Nothing is left.
pub(crate) fn end(mut args: Words<'_>) -> Result<(), Why>
    ensures { result ≡ end_in (left args.entry) }
{
    if args.next().is_some() {
        return Err(Why::TooMany);
    }
    Ok(())
}
