//! The first sectors of an image's dump.

ghost use Rattle.std.specs.Prelude.{◌≡◌, IsErrOf, IsTrue};
ghost use Rattle.fd_site.specs.Fault.{Rose};
ghost use Rattle.fd_site.specs.Seen.{Frame};
ghost use Rattle.fd_part.specs.Partition.{is_good};
ghost use Rattle.fd_way.specs.Steps.{WritesFirst};
ghost use Rattle.fd_way.specs.declared.way_fault.WayFault.TheVariants.{SinkFault, SiteFault};

use crate::way_fault::WayFault;
use fd_dump::Plan;
use fd_image::Image;
use fd_part::{PartFault, write_dump};
use fd_site::Site;
use std::alloc::Global;

/// Writes the first `stop` sectors of the image's dump, or all where it has no more.
pub(crate) fn write_first<S: Site>(
    alloc: Global,
    site: &mut S,
    image: &Image,
    stop: u64,
) -> Result<(), WayFault>
    requires { IsTrue (is_good (S.seen site.old).size (S.seen site.old).block) }
    ensures writes { WritesFirst image.now stop (S.seen site.old) (S.seen site.new) result }
    ensures frame { Frame (S.seen site.old) (S.seen site.new) }
    ensures cause { IsErrOf result SiteFault → Rose (S.seen site.old).faults (S.seen site.new).faults }
{
    let plan = Plan::prepare(alloc, image)?;
    let header = plan.header(image, site.block());
    let mut pieces = plan.pieces(image);
    match write_dump(site, &mut pieces, &header, Some(stop)) {
        Ok(_) => Ok(()),
        Err(PartFault::NoRoom(room)) => Err(WayFault::NoRoom(room)),
        Err(PartFault::SiteFault) => Err(WayFault::SiteFault),
    }
}
