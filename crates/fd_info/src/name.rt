//! The names of the files that a saved dump is kept in.

ghost use Rattle.std.specs.Prelude.{◌≡◌, IsTrue};
ghost use Rattle.fd_site.specs.Name.{is_good_name};
ghost use Rattle.fd_info.specs.Name.{info_name, vmcore_name};

use arrayvec::ArrayString;
use itoa::Buffer;

/// The name of the file with the number of the next dump.
pub const BOUNDS_NAME: &str = "bounds";

/// The name of the file with a dump's bytes: `vmcore.N`.
#[tactic(auto, using(crate::proofs::Names::good_vmcore_name))]
pub fn vmcore_name(number: u32) -> ArrayString<17>
    ensures name { result.bytes ≡ vmcore_name number }
    ensures good { IsTrue (is_good_name result.bytes) }
{
    let mut name = ArrayString::new();
    name.push_str("vmcore.");
    name.push_str(Buffer::new().format(number));
    name
}

/// The name of the file with what is known of a dump: `info.N`.
#[tactic(auto, using(crate::proofs::Names::good_info_name))]
pub fn info_name(number: u32) -> ArrayString<17>
    ensures name { result.bytes ≡ info_name number }
    ensures good { IsTrue (is_good_name result.bytes) }
{
    let mut name = ArrayString::new();
    name.push_str("info.");
    name.push_str(Buffer::new().format(number));
    name
}
