// Rows of sixteen bytes in hexadecimal.
use std::io;
use vb_block::Page;

/// How many bytes stand in a row.
const ROW: usize = 16;

/// Prints the rows of a page that aren't all zeros, each after the place of its first byte in the page.
pub fn print_page<R: Print + Alloc>(rt: &R, name: &str, page: &Page) -> io::Result<()> {
    println!(rt; "{name}")?;
    for (i, row) in page.bytes().chunks(ROW).enumerate() {
        if row.iter().any(|&byte| byte != 0) {
            let text = hex::encode(rt.alloc(), row)?;
            println!(rt; "{:04x}  {text}", i * ROW)?;
        }
    }
    Ok(())
}
