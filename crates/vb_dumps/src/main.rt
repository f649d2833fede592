// Prints blocks of a store row by row in hexadecimal, as the page of formats shows them.
#![tactic(auto)]

mod blocks;
mod rows;

use blocks::{file_node, folder_node, map_page, opened_head};
use rows::print_page;
use std::io;
use vb_inode::encode_node;

fn main(rt: HostRuntime) -> io::Result<()> {
    let alloc = rt.alloc();
    let map = map_page(alloc)?;
    let file = encode_node(alloc, &file_node(alloc, &map)?)?;
    let folder = encode_node(alloc, &folder_node(alloc)?)?;
    print_page(&rt, "head, at places 0 and 1", &opened_head(alloc)?)?;
    print_page(&rt, "journal image of slot 1, at place 18", &file)?;
    print_page(&rt, "journal image of slot 2, at place 19", &folder)?;
    print_page(&rt, "map page, at place 36", &map)
}
