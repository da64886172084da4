// The top call: all that the program does.
ghost use Rattle.std.specs.Prelude.{ℕ, ◌≡◌, ◌<◌, List, length, map, option_map, string_bytes};
ghost use Rattle.run_output.specs.declared.fault.Fault.TheVariants.{Words};
ghost use Rattle.run_output.specs.Faults.{fault_text};
ghost use Rattle.run_output.specs.Fields.{line_bytes};
ghost use Rattle.run_cli.specs.Call.{writing_of};
ghost use Rattle.run_rerun_cli.specs.LineEnds.{EndsWith};
ghost use Rattle.run_rerun_cli.specs.PlanWords.{IsPlanOf, IsShardsOf, SaysNames};
ghost use Rattle.run_rerun_cli.specs.RerunCauses.{GetsRerun};
ghost use Rattle.run_rerun_cli.specs.ShardEnds.{AnswersShards, GetsShards};
ghost use Rattle.run_rerun_cli.specs.Shelves.{doing_of, shelf_of};
ghost use Rattle.run_rerun_cli.specs.Verdicts.{AnswersRerun};

use crate::ends::{end_early, end_with};
use crate::shards::shards_end;
use crate::stores::Stores;
use crate::verdicts::verdict_of;
use run_capture::Sink;
use run_cli::Ran;
use run_output::{Fault, fault_line};
use std::alloc::Global;

// The names of stores, where the words are this command and one name at least.
fn names_in<'a>(words: &'a [String], command: &str) -> Option<&'a [String]>
    ensures { SaysNames command.now (map (λ w. string_bytes w) words.now)
        (option_map (λ names. map (λ w. string_bytes w) names.now) result) }
{
    let (word, names) = words.split_first()?;
    if word.as_str() == command && !names.is_empty() {
        Some(names)
    } else {
        None
    }
}

// Writes what the chain of the stores with these names comes to.
fn plan<T: Stores, K: Sink>(alloc: Global, names: &[String], stores: &mut T, sink: K) -> Ran<K>
    requires { 0 < length names.now }
    ensures says { AnswersRerun (map (λ w. string_bytes w) names.now) (shelf_of T.Stores stores.old stores.new)
        (doing_of T.Stores stores.old stores.new) (writing_of K.Sink sink result.sink) result.status }
    ensures same { (n : List ℕ) → T.bytes stores.new n ≡ T.bytes stores.old n }
{
    match verdict_of(alloc, stores, names) {
        Ok(verdict) => {
            let written = verdict.status();
            let failed = verdict.unwritten_status();
            let line = verdict.into_line(alloc);
            end_with(alloc, sink, line, written, failed)
        }
        Err(_) => end_early(sink),
    }
}

// Writes what the shards of the stores with these names come to.
fn shards<T: Stores, K: Sink>(alloc: Global, names: &[String], stores: &mut T, sink: K) -> Ran<K>
    requires { 0 < length names.now }
    ensures says { AnswersShards (map (λ w. string_bytes w) names.now) (shelf_of T.Stores stores.old stores.new)
        (doing_of T.Stores stores.old stores.new) (writing_of K.Sink sink result.sink) result.status }
    ensures same { (n : List ℕ) → T.bytes stores.new n ≡ T.bytes stores.old n }
{
    match shards_end(alloc, stores, names) {
        Ok(end) => {
            let written = end.status();
            let failed = end.unwritten_status();
            let line = end.into_line(alloc);
            end_with(alloc, sink, line, written, failed)
        }
        Err(_) => end_early(sink),
    }
}

// Ends, for the words say nothing.
fn other<K: Sink>(alloc: Global, sink: K) -> Ran<K>
    ensures { EndsWith (writing_of K.Sink sink result.sink) (line_bytes (fault_text Words)) 2 2 result.status }
{
    let line = fault_line(alloc, Fault::Words);
    end_with(alloc, sink, line, 2, 2)
}

/// Does all that the program does: `plan` and the names of stores, oldest first, read them one by one, and write the
/// plan line of the run that comes next; `shards` and the names of stores read them so, and write whether the runs in
/// them are together the whole of one plan.
///
/// Of `plan`, where some tests are outstanding, that line is written: status 0. Where none is, `{"outstanding":0}`:
/// status 4. Of `shards` the line says what they come to: of the whole status 0 where all its tests passed, 100 where
/// some didn't, and 4 where it has none; else 1. The first store that has a fault decides: its line says which one it
/// is, from 0, and no later one is opened. Status 10: it could not be read; 12: it is too long; 14: it has no plan; 15:
/// a record is bad; 5: its plan can't be run; 6 and 7: a turn may not come. That a store is torn after its plan, or its
/// run isn't over, is no fault. Other words have status 2, and then nothing is opened. 9: there was no fault, but the
/// sink failed. 11: memory was wanting.
pub fn run<T: Stores, K: Sink>(alloc: Global, words: &[String], stores: &mut T, sink: K) -> Ran<K>
    ensures plan { (names : List (List ℕ)) → IsPlanOf (map (λ w. string_bytes w) words.now) names
        → AnswersRerun names (shelf_of T.Stores stores.old stores.new) (doing_of T.Stores stores.old stores.new)
        (writing_of K.Sink sink result.sink) result.status }
    ensures causes { (names : List (List ℕ)) → IsPlanOf (map (λ w. string_bytes w) words.now) names
        → GetsRerun names (shelf_of T.Stores stores.old stores.new) (writing_of K.Sink sink result.sink)
        result.status }
    ensures shards { (names : List (List ℕ)) → IsShardsOf (map (λ w. string_bytes w) words.now) names
        → AnswersShards names (shelf_of T.Stores stores.old stores.new) (doing_of T.Stores stores.old stores.new)
        (writing_of K.Sink sink result.sink) result.status }
    ensures shards_causes { (names : List (List ℕ)) → IsShardsOf (map (λ w. string_bytes w) words.now) names
        → GetsShards names (shelf_of T.Stores stores.old stores.new) (writing_of K.Sink sink result.sink)
        result.status }
    ensures words { ((names : List (List ℕ)) → ¬ IsPlanOf (map (λ w. string_bytes w) words.now) names)
        → ((names : List (List ℕ)) → ¬ IsShardsOf (map (λ w. string_bytes w) words.now) names)
        → EndsWith (writing_of K.Sink sink result.sink) (line_bytes (fault_text Words)) 2 2 result.status
        × (stores.new ≡ stores.old) }
    ensures same { (n : List ℕ) → T.bytes stores.new n ≡ T.bytes stores.old n }
{
    match names_in(words, "plan") {
        Some(names) => plan(alloc, names, stores, sink),
        None => match names_in(words, "shards") {
            Some(names) => shards(alloc, names, stores, sink),
            None => other(alloc, sink),
        },
    }
}
