//! What holds of headers, whoever writes or reads them.

ghost use Rattle.std.specs.Prelude.{◌≡◌, Ok};
ghost use Rattle.fd_kdh.specs.Header.{IsWithinFields, decoded, dump_header};
ghost use Rattle.fd_kdh.specs.declared.header.Header.{Header};

/// A header whose parts lie within their fields is read back from its bytes.
pub fn each_header_is_read_back()
    ensures { (h : Header) → IsWithinFields h → decoded (dump_header h) ≡ Ok h }
{}
