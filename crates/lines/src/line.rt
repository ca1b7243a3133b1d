// What a line asks for. All of it refers to the line's text.
use digits::bits::Bits;
use digits::hex::Hex;

// A call. Numbers are as they were written: which disks, holds and slots there are, is the volume's to say. A number that names one of
// these and passes 64 bits stands as the largest of 64 bits, which names none either.
#[derive(Clone, Copy, PartialEq, Eq, Debug)]
pub enum Call<'a> {
    Format {
        blocks: u64,
        number: u64,
    },
    // Without bytes a block of zeros is written.
    Write {
        disk: u64,
        slot: u64,
        hex: Option<Hex<'a>>,
    },
    Clear {
        disk: u64,
        slot: u64,
    },
    Hold {
        disk: u64,
    },
    Release {
        hold: u64,
    },
    Would {
        hold: u64,
    },
    Copy {
        hold: u64,
    },
    New,
    Drop {
        disk: u64,
    },
    Read {
        disk: u64,
        slot: u64,
    },
    ReadHold {
        hold: u64,
        slot: u64,
    },
    Free,
    Sync,
    Stream {
        older: u64,
        newer: u64,
        file: &'a str,
    },
    Take {
        disk: u64,
        file: &'a str,
    },
    Show,
    Listing,
}

// A line: a call that is answered; a stop of the machine, which keeps these of the waiting sectors; or a call that such a stop cuts short
// after so many of its requests to the device.
#[derive(Clone, Copy, PartialEq, Eq, Debug)]
pub enum Line<'a> {
    Plain(Call<'a>),
    Power {
        bits: Bits<'a>,
    },
    Cut {
        bits: Bits<'a>,
        after: u64,
        call: Call<'a>,
    },
}
