//! The architectures whose kernel dumps are read and written.

ghost use Rattle.std.specs.Prelude.{◌≡◌};
ghost use Rattle.fd_bytes.specs.Arch.{arch_of_header, header_version_of, name_of};

/// An architecture of FreeBSD.
#[derive(Clone, Copy, Debug, PartialEq, Eq)]
pub enum Arch {
    Amd64,
    Arm64,
    Riscv,
}

impl Arch {
    /// Each architecture once.
    pub const ALL: [Arch; 3] = [Arch::Amd64, Arch::Arm64, Arch::Riscv];

    /// The name in a dump header, which is `MACHINE_ARCH` of the kernel that wrote it.
    pub fn name(self) -> &'static [u8]
        ensures { result.now ≡ name_of self }
    {
        match self {
            Arch::Amd64 => b"amd64",
            Arch::Arm64 => b"aarch64",
            Arch::Riscv => b"riscv64",
        }
    }

    /// The `architectureversion` of a dump header: `KERNELDUMP_AMD64_VERSION` and its kin of
    /// `sys/kerneldump.h`.
    pub fn header_version(self) -> u32
        ensures { result ≡ header_version_of self }
    {
        match self {
            Arch::Amd64 => 2,
            Arch::Arm64 | Arch::Riscv => 1,
        }
    }

    /// The architecture whose dump headers carry this name and this version, or None where no
    /// architecture has both.
    pub fn of_header(name: &[u8], version: u32) -> Option<Arch>
        ensures { result ≡ arch_of_header name.now version }
    {
        for arch in Arch::ALL {
            if arch.name() == name && arch.header_version() == version {
                return Some(arch);
            }
        }
        None
    }
}
