// Why a call is refused.
ghost use Rattle.std.specs.Prelude.{◌≡◌, Some};
ghost use Rattle.rules.specs.Refusals.{number_of, words_of};

use std::error::Error;
use std::fmt;

// Each has its number. Of those that apply the lowest is given, and a call that is refused changes nothing.
#[derive(Clone, Copy, PartialEq, Eq, Debug)]
pub enum Refusal {
    // There is no such disk, hold or slot, or a volume can't have so many blocks.
    Missing = 1,
    // No block is left that may be used.
    Full = 2,
    // A ninth disk, a seventeenth hold, or more bytes than an area has.
    TooMuch = 3,
    // A disk is a copy of the hold.
    Copied = 4,
    // The disk has holds.
    Held = 5,
    // The two holds aren't of one disk, the older first.
    Unordered = 6,
    // A stream that is cut short, not rising, of another older mark, or onto a disk that was written since.
    Unfit = 7,
    // The device has no whole root, or not as many blocks as its root says.
    NoVolume = 8,
    // A moment or a name would pass its bytes.
    Spent = 9,
}

impl Refusal {
    // A name of its own, and no `From`: at the place of a call it says what the number is.
    pub fn number(self) -> u8
        ensures { result ≡ number_of self }
    {
        self as u8
    }
}

impl fmt::Display for Refusal {
    ghost output = { λ x. Some (words_of x) };

    fn fmt<W: fmt::Write>(&self, f: &mut fmt::Formatter<W>) -> fmt::Result {
        f.write_str(match self {
            Refusal::Missing => "no such disk, hold, slot or number of blocks",
            Refusal::Full => "no block is left that may be used",
            Refusal::TooMuch => "no room for another disk, hold or slot",
            Refusal::Copied => "a disk is a copy of it",
            Refusal::Held => "it has holds",
            Refusal::Unordered => "not holds of one disk, the older first",
            Refusal::Unfit => "no stream that the disk can take",
            Refusal::NoVolume => "no volume on the device",
            Refusal::Spent => "no moment or name is left",
        })
    }
}

impl Error for Refusal {}
