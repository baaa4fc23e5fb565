//! The whole way of a dump in one call.

ghost use Rattle.std.specs.Prelude.{◌≡◌, ◌≤◌, ℕ, Err, IsErrOf, IsTrue};
ghost use Rattle.fd_site.specs.Contents.{Told, part_of};
ghost use Rattle.fd_site.specs.Fault.{Rose};
ghost use Rattle.fd_site.specs.Seen.{Frame};
ghost use Rattle.fd_part.specs.Partition.{IsClear, is_good};
ghost use Rattle.fd_vmcore.specs.declared.open.OpenFault.{OpenFault};
ghost use Rattle.fd_way.specs.Drill.{Drills};
ghost use Rattle.fd_way.specs.declared.way_fault.WayFault.TheVariants.{SinkFault, SiteFault, Unread};

use crate::first_sectors::write_first;
use crate::laws::each_read_of_a_minidump_is_the_images;
use crate::savecore::save_and_clear;
use crate::saved_file::{read_saved, refuse};
use crate::way_fault::{Drilled, WayFault};
use fd_image::Image;
use fd_save::SaveFault;
use fd_save::laws::each_save_is_saved;
use fd_site::{Sink, Site};
use std::alloc::Global;

/// The whole way of an image's dump, on one site: its first `stop` sectors are written, in the order of `write_dump`;
/// what then stands on the partition is saved and cleared, as `savecore` without options does; the line
/// `saved vmcore.N LENGTH` is printed; and the saved file is opened, and the bytes at `length` kernel addresses from `va`
/// on are read from it and printed. Where what stands on the partition is refused, the refusal's line is printed and
/// nothing is saved. All this text is printed here, but for the line of an error.
///
/// `NoRoom` is answered exactly where the partition has fewer bytes than the dump needs, `NoNumber` where a dump stands
/// there and every number is taken, `Unread` where the saved file isn't one that a reader opens, which never is so where
/// the partition was clear at the beginning.
pub fn drill<S: Site, O: Sink>(
    alloc: Global,
    site: &mut S,
    image: &Image,
    stop: u64,
    va: u64,
    length: u32,
    out: &mut O,
) -> Result<Drilled, WayFault>
    requires { IsTrue (is_good (S.seen site.old).size (S.seen site.old).block) }
    ensures drills { Drills (record { image = image.now; stop = stop; va = va; count = length }) (S.seen site.old) (S.seen site.new) (O.seen out.old) (O.seen out.new) result }
    ensures unread { (fault : OpenFault) → result ≡ Err (Unread fault) → Told (S.seen site.old).told (λ c. IsClear (part_of c) (S.seen site.old).block → ⊥) }
    ensures frame { Frame (S.seen site.old) (S.seen site.new) }
    ensures count { (O.seen out.old).faults ≤ (O.seen out.new).faults }
    ensures cause { IsErrOf result SiteFault → Rose (S.seen site.old).faults (S.seen site.new).faults }
    ensures sink_cause { IsErrOf result SinkFault → Rose (O.seen out.old).faults (O.seen out.new).faults }
{
    each_read_of_a_minidump_is_the_images();
    each_save_is_saved();
    write_first(alloc, site, image, stop)?;
    match save_and_clear(site) {
        Ok(saved) => {
            let fault = read_saved(alloc, site, &saved, va, length, out)?;
            Ok(Drilled::Saved {
                number: saved.number,
                length: saved.header.dumplength,
                fault,
            })
        }
        Err(SaveFault::Refused(why)) => {
            refuse(alloc, why, out)?;
            Ok(Drilled::Refused(why))
        }
        Err(SaveFault::NoNumber) => Err(WayFault::NoNumber),
        Err(SaveFault::SiteFault) => Err(WayFault::SiteFault),
    }
}
