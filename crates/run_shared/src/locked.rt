// What stands under the lock.
ghost use Rattle.std.specs.Prelude.{◌≡◌, ◌<◌, ◌+◌, ◌∷◌, ◌++◌, [], length, IfOk, IfErr, OnOk, OnErr, IsErrOf, IfSome};
ghost use Rattle.std.specs.Prelude.{IsSome, IsNone, ℕ, List, Option, option_map, slice_get, true, false, if◌then◌else◌};
ghost use Rattle.std.specs.List.{sum_by};
ghost use Rattle.run_events.specs.declared.ask.Ask.{Ask as AskMade};
ghost use Rattle.run_model.specs.declared.entry.Entry.{Entry as EntryKept};
ghost use Rattle.run_model.specs.Words.{is_over};
ghost use Rattle.run_laws.specs.Course.{turns_of};
ghost use Rattle.run_engine.specs.World.{Breaks, history_of};
ghost use Rattle.run_engine.specs.Standing.{sound, IsRunnable};
ghost use Rattle.run_engine.specs.Starts.{starts_of};
ghost use Rattle.run_engine.specs.Refused.{IsRefused, IfNotMemory};
ghost use Rattle.run_engine.specs.Settling.{first_settled, IsUnsettled};
ghost use Rattle.run_engine.specs.Heard.{IsHeard};
ghost use Rattle.run_shared.specs.Adds.{AddsTurn, AddsSettled};

use run_engine::{Run, StepError};
use run_events::{Ask, AskList, Reporter, StartAsk, Turn};
use run_model::Phase;
use std::alloc::Global;
use std::marker::Model;
use std::sync::ledger::{Book, Ledger, Share};

/// A run with its asks and its reporter, and the book that counts the turns that it has taken.
#[derive(Drop)]
pub struct Locked<L: Ledger, R: Reporter> {
    run: Run,
    asks: AskList,
    report: R,
    book: Book<L>,
    /// A share of no part, with which the others are gathered.
    rest: Share<L>,
}

impl<L: Ledger, R: Reporter> Model for Locked<L, R> {
    ghost use Rattle.std.specs.Prelude.{◌≡◌, length};
    ghost use Rattle.run_laws.specs.Course.{turns_of};
    ghost use Rattle.run_engine.specs.World.{World};
    ghost use Rattle.run_engine.specs.Heard.{IsHeard};

    ghost Value = { World };

    ghost view = { λ s. s.run };

    ghost invariant = { λ s. (s.book.total ≡ length s.run.journal) × (s.rest.parts ≡ 0)
        × IsHeard R.told (λ list xs. list ≡ xs) s.report s.asks s.run × R.taken s.report (turns_of s.run.journal) };
}

impl<L: Ledger, R: Reporter> Locked<L, R> {
    /// A run that has taken no turn.
    pub(crate) fn new(run: Run, report: R, book: Book<L>, rest: Share<L>) -> Self
        requires fresh { run ≡ sound run.settings [] }
        requires book { book.total ≡ 0 }
        requires rest { rest.parts ≡ 0 }
        requires told { R.told report [] }
        requires untaken { R.taken report [] }
        ensures { result ≡ run }
    {
        Locked {
            run,
            asks: AskList::new(),
            report,
            book,
            rest,
        }
    }

    /// Takes a turn, which the share counts, and answers its place in the journal.
    pub fn step(
        &mut self,
        alloc: Global,
        share: &mut Share<L>,
        turn: Turn,
    ) -> Result<u64, StepError>
        requires { 0 < share.old.parts }
        ensures place { IfOk result (λ place. place ≡ length self.old.journal) }
        ensures adds { OnOk result (AddsTurn self.old turn self.new) }
        ensures refused { IfErr result (IsRefused self.old turn) }
        ensures unchanged { IfErr result (λ e. IfNotMemory e (self.new ≡ self.old)) }
        ensures broken { IsErrOf result StepError.OutOfMemory → Breaks self.old self.new }
        ensures stays_broken { self.old.broken ≡ true → IsErrOf result StepError.OutOfMemory }
        ensures counted { OnOk result (share.new.amount ≡ share.old.amount + 1) }
        ensures kept { OnErr result (share.new.amount ≡ share.old.amount) }
        ensures parts { share.new.parts ≡ share.old.parts }
    {
        let Locked {
            run,
            asks,
            report,
            book,
            ..
        } = self;
        let place = run.step(alloc, turn, asks, report)?;
        tell_newest(alloc, run, report);
        book.add(share, 1);
        Ok(place)
    }

    /// Takes the first enabled turn of those that a run takes by itself, which the share counts, and answers its place
    /// and the turn; none where there is none.
    pub fn settle(
        &mut self,
        alloc: Global,
        share: &mut Share<L>,
        word: u32,
    ) -> Result<Option<(u64, Turn)>, StepError>
        requires { 0 < share.old.parts }
        ensures first { IfOk result (λ o. option_map (λ p. p.1) o ≡ first_settled self.old word) }
        ensures adds { IfOk result (AddsSettled self.old self.new share.old.amount share.new.amount) }
        ensures refused { IfErr result (IsUnsettled self.old word) }
        ensures unchanged { IfErr result (λ e. IfNotMemory e (self.new ≡ self.old)) }
        ensures broken { IsErrOf result StepError.OutOfMemory → Breaks self.old self.new }
        ensures stays_broken { self.old.broken ≡ true → IsErrOf result StepError.OutOfMemory }
        ensures kept { OnErr result (share.new.amount ≡ share.old.amount) }
        ensures parts { share.new.parts ≡ share.old.parts }
    {
        let Locked {
            run,
            asks,
            report,
            book,
            ..
        } = self;
        let place = run.journal().len() as u64;
        let Some(turn) = run.settle(alloc, word, asks, report)? else {
            return Ok(None);
        };
        tell_newest(alloc, run, report);
        book.add(share, 1);
        Ok(Some((place, turn)))
    }

    /// Claims the earliest start that was asked and that nobody has claimed, if there is one.
    pub fn claim(&mut self) -> Option<StartAsk>
        ensures start { result ≡ slice_get (starts_of self.old.settings self.old.journal) self.old.claimed }
        ensures claimed { IsSome result → self.new ≡ record self.old { claimed = self.old.claimed + 1 } }
        ensures none { IsNone result → self.new ≡ self.old }
    {
        self.run.claim()
    }

    /// Gives the run up, unless it is over.
    pub fn give_up(&mut self)
        ensures { self.new
            ≡ (if is_over (history_of self.old) then self.old else record self.old { broken = true }) }
    {
        self.run.give_up();
    }

    /// Whether who wants a start waits: the run goes on, and each start that was asked is claimed.
    pub fn must_wait(&self) -> bool {
        !self.run.is_done() && !self.run.has_start()
    }

    /// What was asked, each with its turn, in order.
    pub(crate) fn asks(&self) -> &[(u64, Ask)] {
        self.asks.asks()
    }

    /// The phase of a unit of the current sub-run, if it was admitted; none of a broken run.
    pub(crate) fn phase(&self, unit: u32) -> Option<Phase> {
        self.run.phase(unit)
    }

    /// Whether the run takes no turn any more.
    pub fn is_done(&self) -> bool {
        self.run.is_done()
    }

    /// The run, its asks and its reporter. Where the shares given have all parts, their amounts add up to its turns.
    pub(crate) fn into_parts(self, shares: Vec<Share<L>>) -> (Run, AskList, R)
        ensures run { result.0 ≡ self }
        ensures heard { IsHeard R.told (λ list xs. list ≡ xs) result.2 result.1 self }
        ensures turns { R.taken result.2 (turns_of self.journal) }
        ensures counted { sum_by (λ (s : Share L). s.parts) shares.items ≡ L.parts
            → sum_by (λ (s : Share L). s.amount) shares.items ≡ length self.journal }
    {
        let Locked {
            run,
            asks,
            report,
            mut book,
            rest,
        } = self;
        let mut all = rest;
        book.audit(&mut all);
        gather(&mut all, shares);
        book.audit(&mut all);
        (run, asks, report)
    }
}

// Tells a reporter of the newest turn of a run.
fn tell_newest<R: Reporter>(alloc: Global, run: &Run, report: &mut R)
    ensures heard { (asks : List (ℕ × AskMade)) → IsHeard R.told (λ list xs. list ≡ xs) report.old asks run.now
        → IsHeard R.told (λ list xs. list ≡ xs) report.new asks run.now }
    ensures turns { (before : List EntryKept) (newest : EntryKept) → run.now.journal ≡ before ++ newest ∷ []
        → R.taken report.old (turns_of before) → R.taken report.new (turns_of run.now.journal) }
{
    let Some(entry) = run.journal().last() else {
        return;
    };
    report.took(alloc, &entry.turn);
}

// Merges all shares into one.
fn gather<L: Ledger>(all: &mut Share<L>, shares: Vec<Share<L>>)
    ensures parts { all.new.parts ≡ all.old.parts + sum_by (λ (s : Share L). s.parts) shares.items }
    ensures amount { all.new.amount ≡ all.old.amount + sum_by (λ (s : Share L). s.amount) shares.items }
{
    for share in shares {
        all.merge(share);
    }
}
