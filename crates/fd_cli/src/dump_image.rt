//! `dump [-i] IMAGE`.

ghost use Rattle.std.specs.Prelude.{◌≡◌, ◌%◌, ◌<◌, ◌≤◌, ◌^◌, ◌⊎◌, ℕ, Err, length, IfOk, IsErrOf, IsTrue, OnOk};
ghost use Rattle.fd_site.specs.Contents.{Adds};
ghost use Rattle.fd_site.specs.Fault.{Rose};
ghost use Rattle.fd_site.specs.Seen.{Frame, Untouched};
ghost use Rattle.fd_dump.specs.Plan.{IsPlanOf};
ghost use Rattle.fd_imgfile.specs.declared.fault.ImageFault.TheVariants.{SiteFault};
ghost use Rattle.fd_kdh.specs.Header.{FitsFields};
ghost use Rattle.fd_part.specs.Outcome.{OnLacking};
ghost use Rattle.fd_part.specs.Partition.{is_good, need_of};
ghost use Rattle.fd_cli.specs.Reply.{IsReplyOf, WorksOnSite};
ghost use Rattle.fd_cli.specs.Rows.Dump.{dump_row, image_dump_row, IsBegunOver, IsDumpOver, IsGiven, RefusesImage};
ghost use Rattle.fd_words.specs.Source.{HasGoodName};
ghost use Rattle.fd_cli.specs.declared.answer.Answer.TheVariants.{Refused};

use crate::answer::Answer;
use crate::refusal::Refusal;
use crate::reply::{Reply, Trouble};
use fd_dump::Plan;
use fd_gen::make;
use fd_image::Image;
use fd_imgfile::{ImageFault, read_image};
use fd_kdh::Header;
use fd_part::{BadPartition, PartFault, good_partition, write_dump, write_marked};
use fd_site::{Pieces, Site};
use fd_words::Source;
use std::alloc::{AllocError, Global};

/// The reply to something that is refused.
pub(crate) fn refuse(alloc: Global, refusal: Refusal) -> Result<Reply, AllocError>
    ensures { IfOk result (IsReplyOf (Refused refusal)) }
{
    Reply::new(alloc, &Answer::Refused(refusal))
}

/// The reply to an image that wasn't given.
pub(crate) fn refuse_image(alloc: Global, fault: ImageFault) -> Result<Reply, Trouble>
    ensures answer { RefusesImage fault result }
    ensures cause { IsErrOf result Trouble.Fault → fault ≡ SiteFault }
{
    let refusal = match fault {
        ImageFault::NoFile => Refusal::NoFile,
        ImageFault::NotImage(place) => Refusal::NotImage(place),
        ImageFault::BadImage(bad) => Refusal::BadImage(bad),
        ImageFault::SiteFault => return Err(Trouble::Fault),
        ImageFault::NoMemory => return Err(Trouble::NoMemory),
    };
    let reply = refuse(alloc, refusal)?;
    Ok(reply)
}

// Writes a dump of these bytes, with `mark` over a header that is marked as cleared first.
fn write_over<S: Site, P: Pieces>(
    site: &mut S,
    pieces: &mut P,
    header: &Header,
    mark: bool,
) -> Result<(), PartFault>
    requires partition { IsTrue (is_good (S.seen site.old).size (S.seen site.old).block) }
    requires dumplength { header.now.dumplength ≡ length (P.to_come pieces.old) }
    requires dumpextent { header.now.dumpextent ≡ length (P.to_come pieces.old) }
    requires pages { length (P.to_come pieces.old) % 4096 ≡ 0 }
    requires small { length (P.to_come pieces.old) ≤ 2 ^ 62 }
    requires labels { FitsFields header.now }
    requires blocksize { header.now.blocksize ≡ (S.seen site.old).block }
    ensures room { (S.seen site.old).size < need_of (S.seen site.old).block (length (P.to_come pieces.old)) →
        IsErrOf result (PartFault.NoRoom
        (record { need = need_of (S.seen site.old).block (length (P.to_come pieces.old)); have = (S.seen site.old).size })) }
    ensures no_room { OnLacking result ((S.seen site.old).size < need_of (S.seen site.old).block (length (P.to_come pieces.old))) }
    ensures untouched { OnLacking result (site.new ≡ site.old) }
    ensures whole { OnOk result
        (Adds (IsDumpOver mark (S.seen site.old).told (S.seen site.old).size (S.seen site.old).block
        (P.to_come pieces.old) header.now) (S.seen site.old).told (S.seen site.new).told) }
    ensures fault { IsErrOf result PartFault.SiteFault →
        Adds (IsBegunOver mark (S.seen site.old).told (S.seen site.old).size (S.seen site.old).block
        (P.to_come pieces.old) header.now) (S.seen site.old).told (S.seen site.new).told }
    ensures frame { Frame (S.seen site.old) (S.seen site.new) }
    ensures cause { IsErrOf result PartFault.SiteFault → Rose (S.seen site.old).faults (S.seen site.new).faults }
{
    if mark {
        return write_marked(site, pieces, header);
    }
    match write_dump(site, pieces, header, None) {
        Ok(_) => Ok(()),
        Err(fault) => Err(fault),
    }
}

// Writes the dump. The reply is made first, so that no memory is wanted behind a write.
fn write_plan<S: Site>(
    alloc: Global,
    site: &mut S,
    image: &Image,
    plan: &Plan,
    mark: bool,
) -> Result<Reply, Trouble>
    requires partition { IsTrue (is_good (S.seen site.old).size (S.seen site.old).block) }
    requires plan { IsPlanOf plan.now image.now }
    ensures works { WorksOnSite (image_dump_row mark image.now) (S.seen site.old) (S.seen site.new) result }
    ensures frame { Frame (S.seen site.old) (S.seen site.new) }
    ensures cause { IsErrOf result Trouble.Fault → Rose (S.seen site.old).faults (S.seen site.new).faults }
{
    let reply = Reply::new(
        alloc,
        &Answer::Dumped {
            length: plan.length(),
        },
    )?;
    let header = plan.header(image, site.block());
    let mut pieces = plan.pieces(image);
    match write_over(site, &mut pieces, &header, mark) {
        Ok(_) => Ok(reply),
        Err(PartFault::NoRoom(room)) => {
            let reply = refuse(alloc, Refusal::NoRoom(room))?;
            Ok(reply)
        }
        Err(PartFault::SiteFault) => Err(Trouble::Fault),
    }
}

/// The image that a source gives.
pub(crate) fn take_image<S: Site>(
    alloc: Global,
    site: &mut S,
    source: &Source,
) -> Result<Image, ImageFault>
    requires { HasGoodName source.now }
    ensures given { IsGiven source.now (S.seen site.old) result }
    ensures untouched { Untouched (S.seen site.old) (S.seen site.new) }
    ensures cause { IsErrOf result SiteFault → Rose (S.seen site.old).faults (S.seen site.new).faults }
{
    match source {
        Source::File(name) => read_image(alloc, site, name.as_str()),
        Source::Made { arch, number } => {
            let image = make(alloc, *arch, *number)?;
            Ok(image)
        }
    }
}

/// `dump IMAGE`: writes the dump of the image that comes from this source. With `mark`, as `dump -i`, the header of the dump
/// that stands there is marked as cleared first.
pub(crate) fn dump_image<S: Site>(
    alloc: Global,
    site: &mut S,
    source: &Source,
    mark: bool,
) -> Result<Reply, Trouble>
    requires { HasGoodName source.now }
    ensures works { WorksOnSite (dump_row mark source.now) (S.seen site.old) (S.seen site.new) result }
    ensures frame { Frame (S.seen site.old) (S.seen site.new) }
    ensures cause { IsErrOf result Trouble.Fault → Rose (S.seen site.old).faults (S.seen site.new).faults }
{
    let size = site.size();
    let block = site.block();
    if !good_partition(size, block) {
        let reply = refuse(alloc, Refusal::Partition(BadPartition { size, block }))?;
        return Ok(reply);
    }
    let image = match take_image(alloc, site, source) {
        Ok(image) => image,
        Err(fault) => return refuse_image(alloc, fault),
    };
    let plan = Plan::prepare(alloc, &image)?;
    write_plan(alloc, site, &image, &plan, mark)
}
