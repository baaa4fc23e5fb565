//! `image ARCH NUMBER FILE`.

ghost use Rattle.std.specs.Prelude.{◌≡◌, ◌≤◌, IsErrOf, IsTrue};
ghost use Rattle.fd_site.specs.Fault.{Rose};
ghost use Rattle.fd_site.specs.Name.{is_good_name};
ghost use Rattle.fd_site.specs.Seen.{Frame};
ghost use Rattle.fd_cli.specs.Reply.{WorksOnSite};
ghost use Rattle.fd_cli.specs.Rows.Image.{image_row};

use crate::reply::{Reply, Trouble};
use crate::text::image_line;
use fd_bytes::Arch;
use fd_gen::make;
use fd_imgfile::write_image;
use fd_site::{Site, SiteFault};
use fd_words::Word;
use std::alloc::Global;

/// `image ARCH NUMBER FILE`: writes the image that is made of a number. All memory is taken before the first write.
pub(crate) fn make_image<S: Site>(
    alloc: Global,
    site: &mut S,
    arch: Arch,
    number: u64,
    file: &Word,
) -> Result<Reply, Trouble>
    requires { IsTrue (is_good_name file.now) }
    ensures works { WorksOnSite (image_row arch number file.now) (S.seen site.old) (S.seen site.new) result }
    ensures frame { Frame (S.seen site.old) (S.seen site.new) }
    ensures cause { IsErrOf result Trouble.Fault → Rose (S.seen site.old).faults (S.seen site.new).faults }
{
    let image = make(alloc, arch, number)?;
    match write_image(site, file.as_str(), &image) {
        Ok(length) => Ok(Reply::done(image_line(file, length))),
        Err(SiteFault) => Err(Trouble::Fault),
    }
}
