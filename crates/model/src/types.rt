// The smallest parts of a volume, as the code has them too.

// Where a block's bytes are, and its birth: the moment at which it was written (its birth time).
#[derive(Clone, Copy, PartialEq, Eq, Debug)]
pub struct Ptr {
    pub block: u32,
    pub birth: u64,
}

// What a slot shows: nothing, or a block. An enum of its own, and not an Option: the project's rules want a slot's two states named.
#[derive(Clone, Copy, PartialEq, Eq, Debug)]
pub enum Slot {
    Empty,
    At(Ptr),
}

// A slot that isn't empty, in a map.
#[derive(Clone, Copy, PartialEq, Eq, Debug)]
pub struct Entry {
    pub slot: u16,
    pub at: Ptr,
}

// What a block of the device is for.
#[derive(Clone, Copy, PartialEq, Eq, Debug)]
pub enum Use {
    // A root or a part of an area: no slot shows it.
    Reserved,
    // Nothing: it may be used.
    Free,
    // Some disk or hold shows it.
    Used,
    // Nothing any more, since the last sync: it may be used after the next one.
    Freed,
}

// A hold (a snapshot) by its name and the moment (the transaction number) at which it was made.
#[derive(Clone, Copy, PartialEq, Eq, Debug)]
pub struct HoldHead {
    pub name: u32,
    pub moment: u64,
}

// The mark of a hold, by which another volume knows it: the number of its volume, and its moment.
#[derive(Clone, Copy, PartialEq, Eq, Debug)]
pub struct Mark {
    pub number: u64,
    pub moment: u64,
}
