//! One entry of a journal.

/// One entry of a journal. A write to the partition kept every sector.
#[derive(Drop)]
pub enum Entry {
    Part {
        at: u64,
        bytes: Vec<u8>,
    },
    Create {
        name: String,
    },
    Write {
        name: String,
        at: u64,
        bytes: Vec<u8>,
    },
    Sync {
        name: String,
    },
}
