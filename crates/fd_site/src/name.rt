ghost use Rattle.std.specs.Prelude.{◌≡◌};
ghost use Rattle.std.specs.List.{list_all};
ghost use Rattle.fd_site.specs.Name.{begins_well, is_good_name, is_name_byte};

// What a name is made of.
fn is_name_byte(byte: u8) -> bool
    ensures { result ≡ is_name_byte byte }
{
    matches!(byte, b'0'..=b'9' | b'A'..=b'Z' | b'a'..=b'z' | b'.' | b'-' | b'_')
}

fn has_name_bytes(bytes: &[u8]) -> bool
    ensures { result ≡ list_all is_name_byte bytes.now }
{
    bytes.iter().all(|byte| is_name_byte(*byte))
}

fn begins_well(bytes: &[u8]) -> bool
    ensures { result ≡ begins_well bytes.now }
{
    match bytes {
        [] => false,
        [first, ..] => !(*first == b'.' || *first == b'-'),
    }
}

/// Whether a file of a site can have this name: 1 to 64 bytes out of ASCII letters, digits, `.`, `-` and `_` that
/// don't begin with `.` or `-` and aren't `dumpdev`, which is the partition's.
pub fn good_name(name: &str) -> bool
    ensures { result ≡ is_good_name name.now }
{
    let bytes = name.as_bytes();
    begins_well(bytes) && bytes.len() <= 64 && has_name_bytes(bytes) && name != "dumpdev"
}
