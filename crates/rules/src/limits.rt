// The limits of a volume.
ghost use Rattle.std.specs.Prelude.{◌≡◌};
ghost use Rattle.rules.specs.Limits.{first_block, volume_of};

// The first block that holds what a slot shows: two roots and two areas of 256 blocks each come before.
pub const FIRST_BLOCK: u32 = 514;

// A volume of fewer blocks would have hardly any for slots; one of more would not have a table of 64 KiB.
const LEAST_BLOCKS: u64 = 1024;

const MOST_BLOCKS: u64 = 65536;

// How many blocks a volume has, if it may have so many. Not a `TryFrom`, which would ask for a type that nothing else needs.
pub fn blocks_of(n: u64) -> Option<u32>
    ensures { result ≡ volume_of n }
{
    if n < LEAST_BLOCKS || n > MOST_BLOCKS {
        None
    } else {
        Some(n as u32)
    }
}
