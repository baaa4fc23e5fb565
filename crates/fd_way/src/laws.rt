//! What follows from the definitions of images, minidumps, partitions and readers alone.

ghost use Rattle.std.specs.Prelude.{◌≡◌, ℕ, ◌≤◌, IsTrue, List, Ok, Some, length};
ghost use Rattle.fd_site.specs.Contents.{Contents, part_of};
ghost use Rattle.fd_site.specs.Journal.{Entry, part_after};
ghost use Rattle.fd_site.specs.Seen.{Seen};
ghost use Rattle.fd_image.specs.Image.{MachineImage, IsValid};
ghost use Rattle.fd_dump.specs.KernelRead.{kernel_read};
ghost use Rattle.fd_dump.specs.Minidump.{minidump_of};
ghost use Rattle.fd_dump.specs.Header.{header_of};
ghost use Rattle.fd_part.specs.Outcome.{IsStoppedDump};
ghost use Rattle.fd_part.specs.Partition.{IsClear, is_good, need_of};
ghost use Rattle.fd_kvm.specs.Answer.{answer_of};
ghost use Rattle.fd_way.specs.Drill.{Does, Drill, Outcome};
ghost use Rattle.fd_way.specs.Laws.{EndsOverClear, IsDecided};
ghost use Rattle.fd_kvm.specs.Walk.{walk_in};
ghost use Rattle.fd_way.specs.ImageWalk.{image_walk};

use fd_mini::each_header_is_read_back;
use fd_save::laws::each_save_is_saved;

/// What a read of kernel addresses gives of a valid image's minidump is what it gives of the image: the same bytes, and
/// the same fault at the first address that has none. It rests on the law that a header page is read back.
pub fn each_read_of_a_minidump_is_the_images()
    ensures { (m : MachineImage) (va count : ℕ) → IsValid m → answer_of (minidump_of m) va count ≡ Ok (kernel_read m va count) }
{
    each_header_is_read_back();
}

/// Of a valid image's dump the first sectors were written over a clear partition with room, as many as were asked for.
/// Where these are the body, the leading block and one sector of the trailing block, or more, judging finds exactly the
/// image's dump; with fewer it refuses.
pub fn each_number_of_sectors_decides()
    ensures { (part : List ℕ) (m : MachineImage) (block stop : ℕ) (journal : List Entry) → IsValid m → IsTrue (is_good (length part) block)
        → need_of block (length (minidump_of m)) ≤ length part → IsClear part block
        → IsStoppedDump (minidump_of m) (header_of m block) (length part) block stop journal → IsDecided m block stop (part_after part journal) }
{}

/// A drill of a valid image over a clear partition is refused exactly where too few sectors were written. Else, where it
/// went its way, it saved the image's minidump, and what it read are the image's bytes, or the fault of its first address
/// that has none.
pub fn each_drill_over_a_clear_partition_is_the_images()
    ensures { (d : Drill) (found : Seen) (was : Contents) (outcome : Outcome) (added : List Entry) → found.told ≡ Some was
        → length (part_of was) ≡ found.size → IsTrue (is_good found.size found.block) → IsValid d.image → IsClear (part_of was) found.block
        → Does d found outcome added → EndsOverClear d found.block was outcome added }
{
    each_read_of_a_minidump_is_the_images();
    each_save_is_saved();
}

/// The walk of a valid image's minidump gives the image's dumped pages: those that its page tables map in the kernel window,
/// by rising address, and then the others, by rising bit. It rests on the law that a header page is read back.
pub fn the_walk_of_a_minidump_is_the_images()
    ensures { (m : MachineImage) → IsValid m → walk_in (minidump_of m) ≡ Ok (image_walk m) }
{
    each_header_is_read_back();
}
