//! Which partitions can have a dump.

use crate::good_partition;

#[test]
fn a_good_partition_is_of_whole_blocks(rt: HostRuntime) {
    for (size, block, want) in [
        (99_328, 512, true),
        (99_328, 1024, true),
        (100_352, 2048, true),
        (106_496, 4096, true),
        (4096, 4096, true),
        (0xffff_ffff_ffff_f000, 4096, true),
        (0, 512, false),
        (99_329, 512, false),
        (99_328, 4096, false),
        (99_328, 0, false),
        (99_328, 256, false),
        (98_304, 1536, false),
        (106_496, 8192, false),
    ] {
        assert_eq!(rt;
            good_partition(size, block),
            want,
            "{size} in blocks of {block}"
        );
    }
}
