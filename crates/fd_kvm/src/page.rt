//! The pages of a dump, and who is given them.
ghost use Rattle.std.specs.Prelude.{◌≡◌, Bool};

/// A dumped page of 4096 bytes, as the walk of a vmcore gives it.
#[derive(Clone, Copy, PartialEq, Eq, Debug)]
pub struct Page {
    /// Its physical address.
    pub pa: u64,
    /// The address in the kernel window that is mapped to it. None where it is given because it is dumped alone.
    pub kva: Option<u64>,
    /// The address of its first byte in the direct map, if it lies there.
    pub dva: Option<u64>,
    /// The accesses that are allowed: 1 for reading, 2 for writing, 4 for executing, added up.
    pub prot: u8,
    /// Where it stands in the file.
    pub offset: u64,
    /// How many bytes it has: 4096.
    pub len: u64,
}

/// Someone who is given pages, one after another.
pub trait Visit {
    ghost use Rattle.fd_kvm.specs.declared.page.Page.{Page};

    /// What a call may do: the visitor before it, the page, the answer, the visitor after it.
    ghost took: { Self → Page → Bool → Self → Type 0 };

    /// Takes a page, and answers whether more are wanted.
    fn visit(&mut self, page: &Page) -> bool
        ensures { took self.old page.now result self.new };
}
