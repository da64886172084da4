// Laws of the definitions.
ghost use Rattle.run_filter.specs.Partition.{PartsShareTests};

/// Each test that all else lets run stands in exactly one part of a partition, and no other test in any.
pub fn parts_share_tests()
    ensures { PartsShareTests }
{}
