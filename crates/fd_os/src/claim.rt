//! What a command will do in a directory, from which other programs are kept meanwhile.

/// What a command does with the partition.
#[derive(Clone, Copy)]
pub enum Access {
    /// Reads it alone, as others may.
    Read,
    /// Writes it, at least where its dump can be saved or its image can be dumped.
    Write,
}

/// What a command does in the directory of a site: with the partition, which it may leave alone, and whether it makes files
/// of names that it found missing.
#[derive(Clone, Copy)]
pub struct Claim {
    pub partition: Option<Access>,
    pub makes_files: bool,
}
