//! The machines of ELF files.

ghost use Rattle.std.specs.Prelude.{◌≡◌, Some};
ghost use Rattle.fd_bytes.specs.Profile.{profile_of};
ghost use Rattle.fd_bytes.specs.declared.arch.Arch.{Arch};
ghost use Rattle.fd_elf.specs.Machine.{arch_of_machine};

use fd_bytes::Arch;

/// The architecture whose ELF files carry this `e_machine`, or None where it is none of those that are known here. That
/// of an architecture is `elf_machine` of its [`Arch::profile`].
pub fn arch_of_machine(machine: u16) -> Option<Arch>
    ensures { result ≡ arch_of_machine machine }
{
    Arch::ALL
        .into_iter()
        .find(|arch| arch.profile().elf_machine == machine)
}

/// A law: the machine of an architecture is read as that architecture.
pub fn each_machine_is_read_back()
    ensures { (arch : Arch) → arch_of_machine (profile_of arch).elf_machine ≡ Some arch }
{}
