//! The program's work as one call.

ghost use Rattle.std.specs.Prelude.{◌≡◌, ◌≤◌, ℕ, Bool, true, false, IsErrOf, List, Some, None};
ghost use Rattle.fd_site.specs.Cut.{EachCutOf};
ghost use Rattle.fd_site.specs.Fault.{Rose};
ghost use Rattle.fd_site.specs.Seen.{Frame};
ghost use Rattle.fd_words.specs.Command.{command_of};
ghost use Rattle.fd_cli.specs.Crash.{IsCutOfDump, IsCutOfMarkedDump, IsCutOfSavecore, IsFound, LeavesSavedFiles};
ghost use Rattle.fd_cli.specs.Delivered.{IsDeliveredTo};
ghost use Rattle.fd_cli.specs.Ending.{Call, Ends};
ghost use Rattle.fd_cli.specs.Reply.{Worked, WorksOnSite};
ghost use Rattle.fd_cli.specs.Row.{outside, Reach};
ghost use Rattle.fd_cli.specs.Rows.{no_command_row, row_of};
ghost use Rattle.fd_cli.specs.Rows.ImageRead.{image_read_row, OfImage};
ghost use Rattle.fd_cli.specs.Rows.Judge.{judge_row};
ghost use Rattle.fd_words.specs.declared.command.Command.TheVariants as command;
ghost use Rattle.fd_words.specs.declared.source.Source.{Source};
ghost use Rattle.fd_save.specs.declared.saved.Options.{Options};

use crate::answer::Answer;
use crate::drill_image::drill_image;
use crate::dump_image::dump_image;
use crate::judge_partition::judge_partition;
use crate::laws::{each_netdump_is_delivered, each_savecore_is_safe, each_saved_file_is_left};
use crate::list_pages::list_pages;
use crate::make_image::make_image;
use crate::netdump::send_image;
use crate::netdumpd::serve_dumps;
use crate::print_memory::print_memory;
use crate::print_reply::print_reply;
use crate::refusal::Refusal;
use crate::reply::{Reply, Trouble};
use crate::save_dump::{clear_dump, save_dump};
use crate::status;
use fd_site::{Link, Ports, Sink, Site, SiteFault};
use fd_way::laws::each_read_of_a_minidump_is_the_images;
use fd_words::{Command, Word, read_command};
use std::alloc::{AllocError, Global};

// The reply to `savecore -C`.
fn judge_reply<S: Site>(alloc: Global, site: &mut S, force: bool) -> Result<Reply, Trouble>
    ensures works { WorksOnSite (judge_row force) (S.seen site.old) (S.seen site.new) result }
    ensures frame { Frame (S.seen site.old) (S.seen site.new) }
    ensures cause { IsErrOf result Trouble.Fault → Rose (S.seen site.old).faults (S.seen site.new).faults }
{
    match judge_partition(site, force) {
        Ok(answer) => {
            let reply = Reply::new(alloc, &answer)?;
            Ok(reply)
        }
        Err(SiteFault) => Err(Trouble::Fault),
    }
}

// The reply to words that are no command.
fn refuse_words(alloc: Global) -> Result<Reply, Trouble>
    ensures { (found : Reach) → Worked no_command_row found found result }
{
    let reply = Reply::new(alloc, &Answer::Refused(Refusal::NotCommand))?;
    Ok(reply)
}

// Does what the words ask for, and prints what it came to.
fn carry_out<S: Site, L: Link, P: Ports, O: Sink>(
    alloc: Global,
    words: &[Word],
    site: &mut S,
    link: &mut L,
    ports: &mut P,
    out: &mut O,
) -> u8
    ensures { Call (row_of (command_of words.now))
        (outside (S.seen site.old) (L.seen link.old) (P.seen ports.old) (O.seen out.old))
        (outside (S.seen site.new) (L.seen link.new) (P.seen ports.new) (O.seen out.new)) result }
{
    let command = match read_command(alloc, words) {
        Ok(command) => command,
        Err(AllocError) => return status::MEMORY,
    };
    match command {
        None => print_reply(refuse_words(alloc), out),
        Some(Command::Image { arch, number, file }) => {
            print_reply(make_image(alloc, site, arch, number, &file), out)
        }
        Some(Command::Judge { force }) => print_reply(judge_reply(alloc, site, force), out),
        Some(Command::Clear { force }) => print_reply(clear_dump(alloc, site, force), out),
        Some(Command::Save { options, keep }) => {
            print_reply(save_dump(alloc, site, options, keep), out)
        }
        Some(Command::Dump { mark, image }) => {
            print_reply(dump_image(alloc, site, &image, mark), out)
        }
        Some(Command::Netdump { image, server }) => {
            print_reply(send_image(alloc, site, link, &image, server), out)
        }
        Some(Command::Netdumpd { dumps }) => {
            print_reply(serve_dumps(alloc, site, ports, dumps), out)
        }
        Some(
            Command::Read {
                file,
                address,
                count,
            },
        ) => print_memory(alloc, site, &file, address, count, out),
        Some(Command::Pages { file }) => list_pages(alloc, site, &file, out),
        Some(
            Command::Drill {
                image,
                stop,
                address,
                count,
            },
        ) => drill_image(alloc, site, &image, stop, address, count, out),
    }
}

/// Does what the words ask for, prints its text and answers its status.
///
/// `image ARCH NUMBER FILE` writes the image that is made of a number and prints `image FILE BYTES`.
/// `dump IMAGE` writes the dump of a machine image, of that file or made, and prints `dumped LENGTH`; with `-i` it first marks
/// the dump that stands there as cleared, so that no cut of it mixes the two.
/// `savecore -C` judges the partition and prints `dump LENGTH`, or the refusal with status 1; `savecore -c` marks its dump as
/// saved and prints `cleared`; `savecore` saves the dump to files, marks it unless `-k` is given, and prints
/// `saved vmcore.N LENGTH`, or is refused with 69 where no number is free.
/// `netdump IMAGE ADDRESS` sends the dump of a machine image to the server of an IPv4 address and prints
/// `sent LENGTH LASTSEQNO`; a message that isn't acknowledged is refused with 1. `netdumpd DUMPS` receives so many dumps, saves
/// them, and prints `received vmcore.N LENGTH` for each; where its turns are spent before, that is refused with 69.
/// `read FILE ADDRESS LENGTH` prints the bytes of a saved minidump at kernel addresses, 16 a line; an address that has no byte
/// is refused with 1. `pages FILE` prints a line for each dumped page of a saved minidump, and `COUNT pages`.
/// `drill IMAGE STOP ADDRESS LENGTH` writes the first STOP sectors of an image's dump, saves what then stands on the partition,
/// clears it, and prints the line of `savecore` and then those of `read` of the saved file.
///
/// A partition that can't hold a dump, a file that is no image or no minidump, and a partition without room are refused with
/// 65, words that are no command with 64. Status 74 says that the site, the link, the ports or the sink failed, and a part of
/// the text may then have been printed; a fault of the site doesn't end `netdumpd`. Status 71 says that no memory was found.
/// But for `netdump`, `netdumpd` and `drill`, something was written only with 0 and 74.
pub fn crashway<S: Site, L: Link, P: Ports, O: Sink>(
    alloc: Global,
    words: &[Word],
    site: &mut S,
    link: &mut L,
    ports: &mut P,
    out: &mut O,
) -> u8
    ensures call { Call (row_of (command_of words.now))
        (outside (S.seen site.old) (L.seen link.old) (P.seen ports.old) (O.seen out.old))
        (outside (S.seen site.new) (L.seen link.new) (P.seen ports.new) (O.seen out.new)) result }
    ensures crash { (source : Source) → command_of words.now ≡ Some (command.Dump false source) →
        EachCutOf (S.seen site.old).told (S.seen site.new).told (IsCutOfDump source (S.seen site.old).block) }
    ensures marked { (source : Source) → command_of words.now ≡ Some (command.Dump true source) →
        EachCutOf (S.seen site.old).told (S.seen site.new).told (IsCutOfMarkedDump source (S.seen site.old).block) }
    ensures found { (mark : Bool) (source : Source) → command_of words.now ≡ Some (command.Dump mark source) → result ≡ 0 →
        IsFound (S.seen site.old).told (S.seen site.new).told source (S.seen site.old).block }
    ensures stopped { (options : Options) (keep : Bool) → command_of words.now ≡ Some (command.Save options keep) →
        EachCutOf (S.seen site.old).told (S.seen site.new).told (IsCutOfSavecore options (S.seen site.old).block) }
    ensures others { (options : Options) (keep : Bool) → command_of words.now ≡ Some (command.Save options keep) →
        options.max ≡ None → LeavesSavedFiles (S.seen site.old).told (S.seen site.new).told }
    ensures delivered { (source : Source) (server : ℕ) → command_of words.now ≡ Some (command.Netdump source server) →
        result ≡ 0 → IsDeliveredTo source server (S.seen site.old) (L.seen link.old).told (L.seen link.new).told }
    ensures reads { (name : List ℕ) (va count : ℕ) → command_of words.now ≡ Some (command.Read name va count) →
        OfImage (S.seen site.old) name
        (λ m. Ends (image_read_row m va count) (outside (S.seen site.old) (L.seen link.old) (P.seen ports.old) (O.seen out.old))
        (outside (S.seen site.new) (L.seen link.new) (P.seen ports.new) (O.seen out.new)) result) }
{
    each_read_of_a_minidump_is_the_images();
    each_netdump_is_delivered();
    each_savecore_is_safe();
    each_saved_file_is_left();
    carry_out(alloc, words, site, link, ports, out)
}
