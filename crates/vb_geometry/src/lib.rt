// The geometry of a store: how many blocks and nodes it may have, and which place is for what.
#![tactic(auto)]

mod geometry;

pub use geometry::{
    Geometry, HEADS, LEAST_NODES, LEAST_PAGES, MOST_BLOCKS, MOST_NODES, is_store_size,
};

#[cfg(test)]
mod tests;
