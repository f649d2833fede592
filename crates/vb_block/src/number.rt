// Numbers in a page, the lowest byte first.
ghost use Rattle.std.specs.Prelude.{◌≡◌, ◌+◌, ◌≤◌, drop};
ghost use Rattle.byteorder.specs.Endian.{little_bytes, little_number};
ghost use Rattle.vb_block.specs.Pages.{overwritten, IsPage};

use crate::Page;
use byteorder::{ByteOrder, LittleEndian};

/// Writes a number of 4 bytes from a place on.
pub fn put_u32(page: &mut Page, at: usize, value: u32)
    requires { at + 4 ≤ 4096 }
    ensures { page.new ≡ overwritten page.old at (little_bytes 4 value) }
{
    page.set(at, &value.to_le_bytes());
}

/// Writes a number of 8 bytes from a place on.
pub fn put_u64(page: &mut Page, at: usize, value: u64)
    requires { at + 8 ≤ 4096 }
    ensures { page.new ≡ overwritten page.old at (little_bytes 8 value) }
{
    page.set(at, &value.to_le_bytes());
}

/// Reads a number of 4 bytes from a place on.
pub fn get_u32(page: &Page, at: usize) -> u32
    requires { at + 4 ≤ 4096 }
    ensures { result ≡ little_number 4 (drop at page.now) }
{
    LittleEndian::read_u32(&page.bytes()[at..])
}

/// Reads a number of 8 bytes from a place on.
pub fn get_u64(page: &Page, at: usize) -> u64
    requires { at + 8 ≤ 4096 }
    ensures { result ≡ little_number 8 (drop at page.now) }
{
    LittleEndian::read_u64(&page.bytes()[at..])
}
