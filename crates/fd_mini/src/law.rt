//! Reading undoes writing.
ghost use Rattle.std.specs.Prelude.{◌≡◌, Ok};
ghost use Rattle.fd_mini.specs.Page.{page_of};
ghost use Rattle.fd_mini.specs.Read.{header_in};
ghost use Rattle.fd_mini.specs.Readable.{IsReadable};
ghost use Rattle.fd_mini.specs.declared.header.MiniHeader.{MiniHeader};

/// A law: the page of a header that a reader takes is read as that header.
pub fn each_header_is_read_back()
    ensures { (h : MiniHeader) → IsReadable h → header_in (page_of h) ≡ Ok h }
{}
