// Theorems on stores that were recorded.
ghost use Rattle.run_store_cli.specs.Recorded.{RecordsPlayAsReplays};

/// `play` of the bytes that `record` wrote of an input ends as a replay of that input does, but for want of memory.
pub fn records_play_as_replays()
    ensures { RecordsPlayAsReplays }
{}
