//! What follows from the rows of the commands alone.

ghost use Rattle.std.specs.Prelude.{ℕ, Option};
ghost use Rattle.fd_cli.specs.Laws.{AddsEntriesAlone, ClearedIsRefused, EachCutDumpIsSavedWhole, EachCutMarkedDumpIsSavedWhole};
ghost use Rattle.fd_cli.specs.Laws.{EachDumpIsSafe, EachMarkedDumpIsSafe, EachNetdumpIsDelivered, EachNetdumpIsReceived};
ghost use Rattle.fd_cli.specs.Laws.{EachSavecoreIsSafe, EachSavedFileIsLeft, HasTurnsAlways, IsHeadline, IsLocal, IsMarkedHeadline};
ghost use Rattle.fd_cli.specs.Laws.{IsRunAlways, IsSound, JudgeFindsDump, ListsWhatWasDumped, OnlyDoneOrFailedAdds, ReadsWhatWasDumped};
ghost use Rattle.fd_cli.specs.Rows.{row_of};
ghost use Rattle.fd_words.specs.declared.command.Command.{Command};
ghost use Rattle.fd_words.specs.declared.source.Source.{Source};

use fd_networld::laws::a_done_client_was_served;
use fd_save::laws::{each_cut_of_a_save_is_safe, each_save_is_saved, no_saved_file_is_touched};
use fd_way::laws::{each_read_of_a_minidump_is_the_images, the_walk_of_a_minidump_is_the_images};

/// However a command ends that uses no network, what it added is what its row leaves.
pub fn each_row_is_sound()
    ensures { (command : Option Command) → IsLocal (row_of command) → IsSound (row_of command) }
{}

/// A call that uses no network, and ended with another status than 0 or 74, added nothing.
pub fn only_done_or_failed_calls_add()
    ensures { OnlyDoneOrFailedAdds }
{}

/// A judge finds the dump that `dump` wrote before it.
pub fn each_dump_is_found()
    ensures { JudgeFindsDump }
{}

/// Whatever `dump` left: each cut of it over a clear partition is refused, or is the image's dump.
pub fn each_dump_is_safe()
    ensures { EachDumpIsSafe }
{}

/// Whatever `dump -i` left: each cut of it, over any partition, is as it was, or refused, or is the image's dump.
pub fn each_marked_dump_is_safe()
    ensures { EachMarkedDumpIsSafe }
{}

/// The headline's first sentence: wherever a machine stops in a `dump` over a clear partition, a `savecore` that meets no
/// fault refuses it, or saves exactly the image's minidump.
pub fn each_cut_dump_is_saved_whole()
    ensures { EachCutDumpIsSavedWhole }
{
    each_save_is_saved();
}

/// The same of `dump -i` over any partition: it stands as it was, or a `savecore` that meets no fault refuses it, or saves
/// exactly the image's minidump.
pub fn each_cut_marked_dump_is_saved_whole()
    ensures { EachCutMarkedDumpIsSavedWhole }
{
    each_save_is_saved();
}

/// A `read` of what `dump` wrote and `savecore` saved gives what the image gives.
pub fn each_saved_dump_reads_as_its_image()
    ensures { ReadsWhatWasDumped }
{
    each_save_is_saved();
    each_read_of_a_minidump_is_the_images();
}

/// `pages` of what `dump` wrote and `savecore` saved lists the image's pages.
pub fn each_saved_dump_lists_as_its_image()
    ensures { ListsWhatWasDumped }
{
    each_save_is_saved();
    the_walk_of_a_minidump_is_the_images();
}

/// Wherever a machine stops in a `savecore`, the dump that judging found stands: on the partition as it was, or in its
/// files, and then the partition differs in the cleared magic alone.
pub fn each_savecore_is_safe()
    ensures { EachSavecoreIsSafe }
{
    each_cut_of_a_save_is_safe();
}

/// Without `-m`, a `savecore` touches no file of another saved dump, however it ends.
pub fn each_saved_file_is_left()
    ensures { EachSavedFileIsLeft }
{
    no_saved_file_is_touched();
}

/// A dump that was saved and not kept is refused by a `savecore` without `-f`: it is cleared.
pub fn each_cleared_dump_is_refused()
    ensures { ClearedIsRefused }
{}

/// A command that uses no network adds nothing to the link's trace, nothing to the ports', and no fault of the site is spared.
pub fn others_add_entries_alone()
    ensures { AddsEntriesAlone }
{}

/// However a `netdump` ends, it added nothing, or it opened the link to the server and had a client run of the image's dump.
pub fn each_netdump_is_a_run()
    ensures { (source : Source) (server : ℕ) → IsRunAlways source server }
{}

/// The headline's second sentence: whatever the network loses, repeats or reorders, a `netdump` ends with 0 only where a server
/// keeps the image's minidump, in files that are stable from then on.
pub fn each_netdump_is_delivered()
    ensures { EachNetdumpIsDelivered }
{
    a_done_client_was_served();
}

/// However a `netdumpd` ends, it added nothing, or its ports listened and had turns of a server, whose entries the site has.
pub fn each_netdumpd_has_turns()
    ensures { (dumps : ℕ) → HasTurnsAlways dumps }
{}

/// The same of the two commands: where calls of `netdumpd` over one site had the turns, they keep the image's minidump.
pub fn each_netdump_is_received()
    ensures { EachNetdumpIsReceived }
{
    a_done_client_was_served();
}

/// The headline: a dump that a machine cut is refused or saved as exactly the image's minidump; a `netdump` ends with 0 only
/// where a server keeps that minidump; and every kernel read of it gives the image's bytes, or the fault that the image
/// defines.
pub fn the_headline_holds()
    ensures { IsHeadline }
{
    each_cut_dump_is_saved_whole();
    each_netdump_is_delivered();
    each_read_of_a_minidump_is_the_images();
}

/// The second headline: the same of `dump -i` over any good partition, which a cut may also leave as it was.
pub fn the_marked_headline_holds()
    ensures { IsMarkedHeadline }
{
    each_cut_marked_dump_is_saved_whole();
    each_netdump_is_delivered();
    each_read_of_a_minidump_is_the_images();
}
