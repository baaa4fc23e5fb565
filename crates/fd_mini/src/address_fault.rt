//! Why there is no byte at a kernel address.
ghost use Rattle.std.specs.Prelude.{◌≡◌, Some};
ghost use Rattle.fd_mini.specs.AddressFault.{address_number, address_text};

use std::fmt;

/// Why a read of kernel memory ended, as kvm_read of kvm(3) may: the first address of the range that has no byte, or
/// a range that no address space has.
#[derive(Clone, Copy, PartialEq, Eq, Debug)]
pub enum AddressFault {
    /// The kernel's page tables map nothing there.
    NotMapped(u64),
    /// The page table that maps the address isn't in the dump.
    TableMissing(u64),
    /// The page that the address is mapped to isn't in the dump.
    NotDumped(u64),
    /// The address lies neither in the kernel window nor in the direct map.
    Outside(u64),
    /// The range ends past 2^64.
    PastTop,
}

impl AddressFault {
    /// The number of its refusal.
    pub fn number(&self) -> u8
        ensures { result ≡ address_number self.now }
    {
        match self {
            AddressFault::NotMapped(_) => 21,
            AddressFault::TableMissing(_) => 22,
            AddressFault::NotDumped(_) => 23,
            AddressFault::Outside(_) => 24,
            AddressFault::PastTop => 25,
        }
    }
}

impl fmt::Display for AddressFault {
    ghost output = { λ fault. Some (address_text fault) };

    #[tactic(auto, using(fd_bytes::proofs::Hex::padded_hex))]
    fn fmt<W: fmt::Write>(&self, f: &mut fmt::Formatter<W>) -> fmt::Result {
        match self {
            AddressFault::NotMapped(va) => write!(f, "not mapped at 0x{va:016x}"),
            AddressFault::TableMissing(va) => write!(f, "table missing at 0x{va:016x}"),
            AddressFault::NotDumped(va) => write!(f, "not dumped at 0x{va:016x}"),
            AddressFault::Outside(va) => write!(f, "outside at 0x{va:016x}"),
            AddressFault::PastTop => write!(f, "past the top"),
        }
    }
}
