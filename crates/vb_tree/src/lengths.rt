// How long a file may be, and how many pages it takes.
ghost use Rattle.std.specs.Prelude.{◌≡◌};
ghost use Rattle.vb_tree.specs.Trees.{map_pages_of, pages_of_length};

/// The most bytes that a file may have.
pub const LONGEST_FILE: u64 = 44_433_408;

/// How many map pages a file of this length takes: one for each 113 of its pages of 4,096 bytes.
pub fn map_pages_of(length: u64) -> u64
    ensures { result ≡ map_pages_of length }
{
    length.div_ceil(4096).div_ceil(113)
}

/// How many pages a file of this length takes, its map pages among them.
pub fn pages_of(length: u64) -> u64
    ensures { result ≡ pages_of_length length }
{
    length.div_ceil(4096) + map_pages_of(length)
}
