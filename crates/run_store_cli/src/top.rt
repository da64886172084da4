// The top call: all that the program does.
ghost use Rattle.std.specs.Prelude.{◌≡◌, map, string_bytes};
ghost use Rattle.run_output.specs.declared.fault.Fault.TheVariants.{Words};
ghost use Rattle.run_cli.specs.Call.{reading_of, writing_of};
ghost use Rattle.run_store_cli.specs.Causes.{GetsPlayed, GetsRecorded};
ghost use Rattle.run_store_cli.specs.Ends.{EndsSo};
ghost use Rattle.run_store_cli.specs.Plays.{PlaysSo};
ghost use Rattle.run_store_cli.specs.Records.{RecordsSo};
ghost use Rattle.run_store_cli.specs.Words.{IsPlayWord, IsRecordWord};

use crate::ends::end_at;
use crate::played::play;
use crate::recorded::record;
use run_capture::{Sink, Source};
use run_cli::{Ran, is_word};
use run_output::Fault;
use std::alloc::Global;

/// Does all that the program does: `record` reads the input of a replay and writes its store; `play` reads a store and
/// writes what a replay of its plan line and turns writes. Other words have status 2, and then nothing is read.
pub fn run<S: Source, K: Sink>(alloc: Global, words: &[String], source: &mut S, sink: K) -> Ran<K>
    ensures record { IsRecordWord (map (λ w. string_bytes w) words.now)
        → RecordsSo (reading_of S.Source source.old source.new)
        (writing_of K.Sink sink result.sink) result.status }
    ensures play { IsPlayWord (map (λ w. string_bytes w) words.now)
        → PlaysSo (reading_of S.Source source.old source.new)
        (writing_of K.Sink sink result.sink) result.status }
    ensures record_causes { IsRecordWord (map (λ w. string_bytes w) words.now)
        → GetsRecorded (reading_of S.Source source.old source.new)
        (writing_of K.Sink sink result.sink) result.status }
    ensures play_causes { IsPlayWord (map (λ w. string_bytes w) words.now)
        → GetsPlayed (reading_of S.Source source.old source.new)
        (writing_of K.Sink sink result.sink) result.status }
    ensures words { let said = map (λ w. string_bytes w) words.now in
        ¬ IsRecordWord said → ¬ IsPlayWord said
        → EndsSo (writing_of K.Sink sink result.sink) Words result.status × (source.new ≡ source.old) }
{
    if is_word(words, "record") {
        return record(alloc, source, sink);
    }
    if is_word(words, "play") {
        return play(alloc, source, sink);
    }
    end_at(alloc, sink, Fault::Words)
}
