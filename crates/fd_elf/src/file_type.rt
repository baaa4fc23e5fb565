//! The types of ELF files.

ghost use Rattle.std.specs.Prelude.{◌≡◌};
ghost use Rattle.fd_elf.specs.Header.{type_number};

/// What an ELF file is, by the field `e_type` of its header.
#[derive(Clone, Copy, Debug, PartialEq, Eq)]
pub enum FileType {
    /// `ET_EXEC`: linked to lie at fixed addresses, as kernels are.
    Executable,
    /// `ET_DYN`: may lie anywhere, as position-independent kernels do.
    SharedObject,
    /// `ET_CORE`: memory that was saved.
    Core,
}

impl FileType {
    /// The value of `e_type`.
    pub fn number(self) -> u16
        ensures { result ≡ type_number self }
    {
        match self {
            FileType::Executable => 2,
            FileType::SharedObject => 3,
            FileType::Core => 4,
        }
    }
}
