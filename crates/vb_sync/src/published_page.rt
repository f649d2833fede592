// Where a page of the published view stands, and what files of equal contents have in common.

/// Where a page stands in a published view: the entry at a place in path order, and the number of its page.
#[derive(Clone, Copy, Debug, PartialEq, Eq)]
pub struct PublishedPage {
    pub entry: u32,
    pub page: u32,
}

/// What two files of equal contents have in common: the first file that has these digests, and the length.
#[doc(hidden)]
#[derive(Clone, Copy, Debug, PartialEq, Eq, Hash)]
pub struct FileKey {
    pub first: u32,
    pub length: u64,
}
