// A run that threads share.
ghost use Rattle.std.specs.Prelude.{◌≡◌, ◌<◌, ◌+◌, [], Ok, Err, IfOk, IfErr, OnOk, OnErr, IfSome, IsNone, length};
ghost use Rattle.std.specs.Prelude.{vec_len, true};
ghost use Rattle.run_shared.specs.Settled.{is_settled_turn};
ghost use Rattle.run_shared.specs.Offered.{offered_turn, taken_count};
ghost use Rattle.std.specs.List.{All, sum_by};
ghost use Rattle.run_engine.specs.Heard.{IsHeard};
ghost use Rattle.run_shared.specs.Receipts.{concatenated, Closes};
ghost use Rattle.run_shared.specs.Closed.{HasSettings, IsLeft, IsLeftUnclosed, IsOther, Refuses};
ghost use Rattle.run_model.specs.Journal.{past_of, outcome};
ghost use Rattle.run_laws.specs.Course.{turns_of};

use crate::beginning::{Begun, begin};
use crate::closing::{CloseError, CloseKind};
use crate::locked::Locked;
use crate::offered::{Offered, offered_at, receipt_in};
use crate::receipts::check;
use crate::same::Same;
use run_capture::{Duplicate, List, Mem, OutOfMemory, Whole};
use run_engine::{Run, StepError, TestRunner};
use run_events::{AskList, Reporter, RunOutcome, Settings, StartAsk, Turn};
use run_model::Entry;
use std::alloc::Global;
use std::marker::Model;
use std::sync::ledger::{Blank, Ledger, Share};
use std::sync::{Condvar, Mutex, Wait};

/// That a turn was taken: its place in the journal. Only a shared run makes one.
#[derive(Drop)]
pub struct Receipt {
    number: u64,
    turn: Turn,
}

impl Receipt {
    /// The turn's place in the journal, counted from 0.
    pub fn number(&self) -> u64
        ensures { result ≡ self.now.number }
    {
        self.number
    }

    /// The turn.
    pub fn turn(&self) -> &Turn
        ensures { result.now ≡ self.now.turn }
    {
        &self.turn
    }
}

/// A run that was closed: its journal, the receipts as they were given, what it asked, its outcome if it is over, and
/// its reporter.
#[derive(Drop)]
pub struct Closed<R: Reporter> {
    pub journal: List<Entry>,
    pub receipts: List<List<Receipt>>,
    pub asks: AskList,
    pub outcome: Option<RunOutcome>,
    pub report: R,
}

/// A run that wasn't closed: why, with its journal, the receipts as they were given, what it asked, and its reporter.
#[derive(Drop)]
pub struct Unclosed<R: Reporter> {
    pub error: CloseError,
    pub journal: List<Entry>,
    pub receipts: List<List<Receipt>>,
    pub asks: AskList,
    pub report: R,
}

/// A run that threads share. Contracts see it as the settings that it was given.
#[derive(Drop)]
pub struct SharedRun<L: Ledger, R: Reporter> {
    pub(crate) lock: Mutex<Locked<L, R>>,
    /// Told of each change of the run.
    moved: Condvar,
    pub(crate) settings: Whole<Settings>,
}

impl<L: Ledger, R: Reporter> Model for SharedRun<L, R> {
    ghost use Rattle.run_events.specs.declared.settings.Settings.{Settings};

    ghost Value = { Settings };

    ghost view = { λ s. s.settings };
}

// The receipt of a turn that was taken, at this place.
pub(crate) fn receipt_of(number: u64, turn: Turn) -> Receipt
    ensures number { result.number ≡ number }
    ensures turn { result.turn ≡ turn }
{
    Receipt { number, turn }
}

// That a run has other settings than those given, with copies of both.
fn other_settings(alloc: Global, given: &Settings, kept: &Settings) -> CloseKind
    ensures { IsOther given.now kept.now result }
{
    let Ok(given) = given.copy(alloc) else {
        return CloseKind::OutOfMemory;
    };
    let Ok(kept) = kept.copy(alloc) else {
        drop(given);
        return CloseKind::OutOfMemory;
    };
    CloseKind::OtherSettings { given, kept }
}

// Whether a run is closed with these receipts: it has the settings that were given, and they are those of its journal.
#[tactic(auto, using(crate::proofs::LeftLemmas::other_refused, crate::proofs::LeftLemmas::other_settings_kept, crate::proofs::LeftLemmas::same_settings_kept))]
fn judge(
    alloc: Global,
    given: &Whole<Settings>,
    run: &Run,
    receipts: &List<List<Receipt>>,
) -> Result<(), CloseKind>
    ensures same { OnOk result (given.now ≡ run.now.settings) }
    ensures closes { OnOk result (Closes run.now.journal (concatenated receipts.now)) }
    ensures refused { IfErr result (Refuses given.now run.now.journal (concatenated receipts.now)) }
    ensures settings { IfErr result (HasSettings given.now run.now.settings) }
{
    let given = given.get();
    let journal = run.journal();
    let kept = run.settings();
    if !given.same(kept) {
        return Err(other_settings(alloc, given, kept));
    }
    if let Err(kind) = check(alloc, journal, receipts) {
        return Err(kind);
    }
    Ok(())
}

// What a run leaves that was closed.
fn closed_of<R: Reporter>(
    run: Run,
    asks: AskList,
    report: R,
    receipts: List<List<Receipt>>,
) -> Closed<R>
    ensures left { IsHeard R.told (λ list xs. list ≡ xs) report asks run
        → IsLeft R.told result.report result.asks run.settings result.journal result.outcome }
    ensures journal { result.journal ≡ run.journal }
    ensures report { result.report ≡ report }
    ensures back { result.receipts ≡ receipts }
{
    let outcome = run.outcome();
    let journal = run.into_journal();
    Closed {
        journal,
        receipts,
        asks,
        outcome,
        report,
    }
}

// What a run leaves that wasn't closed, for this reason.
fn unclosed_of<R: Reporter>(
    kind: CloseKind,
    run: Run,
    asks: AskList,
    report: R,
    receipts: List<List<Receipt>>,
) -> Unclosed<R>
    ensures left { IsHeard R.told (λ list xs. list ≡ xs) report asks run
        → IsLeft R.told result.report result.asks run.settings result.journal
        (outcome run.settings (past_of run.settings result.journal)) }
    ensures kind { result.error.kind ≡ kind }
    ensures journal { result.journal ≡ run.journal }
    ensures report { result.report ≡ report }
    ensures back { result.receipts ≡ receipts }
{
    let journal = run.into_journal();
    Unclosed {
        error: CloseError::new(kind),
        journal,
        receipts,
        asks,
        report,
    }
}

// What a run leaves that was given these settings: it is closed, or isn't.
fn leave<R: Reporter>(
    alloc: Global,
    given: &Whole<Settings>,
    run: Run,
    asks: AskList,
    report: R,
    receipts: List<List<Receipt>>,
) -> Result<Closed<R>, Unclosed<R>>
    requires heard { IsHeard R.told (λ list xs. list ≡ xs) report asks run }
    requires turns { R.taken report (turns_of run.journal) }
    ensures left { IfOk result (λ c. IsLeft R.told c.report c.asks given.now c.journal c.outcome) }
    ensures turns { IfOk result (λ c. R.taken c.report (turns_of c.journal)) }
    ensures receipts { IfOk result (λ c. Closes c.journal (concatenated receipts)) }
    ensures journal { IfOk result (λ c. c.journal ≡ run.journal) }
    ensures back { IfOk result (λ c. c.receipts ≡ receipts) }
    ensures refused { IfErr result (λ u. Refuses given.now u.journal (concatenated receipts) u.error.kind) }
    ensures left_too { IfErr result (λ u. IsLeftUnclosed R.told u.report u.asks given.now u.journal u.error.kind) }
    ensures turns_too { IfErr result (λ u. R.taken u.report (turns_of u.journal)) }
    ensures journal_too { IfErr result (λ u. u.journal ≡ run.journal) }
    ensures back_too { IfErr result (λ u. u.receipts ≡ receipts) }
{
    match judge(alloc, given, &run, &receipts) {
        Ok(()) => Ok(closed_of(run, asks, report, receipts)),
        Err(kind) => Err(unclosed_of(kind, run, asks, report, receipts)),
    }
}

impl<L: Ledger, R: Reporter> SharedRun<L, R> {
    /// A run that has taken no turn, and a share of one part for each worker. Where memory is wanting the reporter
    /// comes back.
    pub fn new(
        alloc: Global,
        runner: TestRunner,
        report: R,
        workers: u64,
        blank: Blank,
    ) -> Result<(Self, Vec<Share<L>>), (OutOfMemory, R)>
        requires name { blank.name ≡ L.name }
        requires parts { blank.parts ≡ L.parts }
        requires workers { blank.parts ≡ workers }
        requires report { R.told report [] }
        requires untaken { R.taken report [] }
        ensures settings { IfOk result (λ r. r.0 ≡ runner) }
        ensures count { IfOk result (λ r. vec_len r.1 ≡ workers) }
        ensures each { IfOk result (λ r. All (λ (s : Share L). (s.parts ≡ 1) × (s.amount ≡ 0)) r.1.items) }
        ensures err { IfErr result (λ e. e.1 ≡ report) }
    {
        let Ok(begun) = begin::<L>(alloc, runner, workers, blank) else {
            return Err((OutOfMemory, report));
        };
        let Begun {
            settings,
            run,
            book,
            rest,
            shares,
        } = begun;
        let shared = SharedRun {
            lock: Mutex::new(Locked::new(run, report, book, rest)),
            moved: Condvar::new(),
            settings,
        };
        Ok((shared, shares))
    }

    /// Offers a turn: the run takes it, which the share counts, or refuses it. Where memory is wanting the run is
    /// broken.
    pub fn offer(
        &self,
        rt: &impl Wait,
        alloc: Global,
        share: &mut Share<L>,
        turn: Turn,
    ) -> Mem<Offered>
        requires { 0 < share.old.parts }
        ensures turn { IfOk result (λ o. offered_turn o ≡ turn) }
        ensures counted { IfOk result (λ o. share.new.amount ≡ share.old.amount + taken_count o) }
        ensures kept { OnErr result (share.new.amount ≡ share.old.amount) }
        ensures parts { share.new.parts ≡ share.old.parts }
    {
        let Ok(copy) = self.copy_of(rt, alloc, &turn) else {
            drop(turn);
            return Err(OutOfMemory);
        };
        let place = self.lock.lock(rt).step(alloc, share, turn);
        self.moved.notify_all();
        offered_at(place, copy)
    }

    // A copy of a turn; where memory is wanting the run is given up.
    fn copy_of(&self, rt: &impl Wait, alloc: Global, turn: &Turn) -> Mem<Turn>
        ensures { IfOk result (λ copy. copy ≡ turn.now) }
    {
        let Ok(copy) = turn.copy(alloc) else {
            self.give_up(rt);
            return Err(OutOfMemory);
        };
        Ok(copy)
    }

    /// Takes a turn, which the share counts, and answers its receipt.
    pub fn step(
        &self,
        rt: &impl Wait,
        alloc: Global,
        share: &mut Share<L>,
        turn: Turn,
    ) -> Result<Receipt, StepError>
        requires { 0 < share.old.parts }
        ensures turn { IfOk result (λ r. r.turn ≡ turn) }
        ensures counted { OnOk result (share.new.amount ≡ share.old.amount + 1) }
        ensures kept { OnErr result (share.new.amount ≡ share.old.amount) }
        ensures parts { share.new.parts ≡ share.old.parts }
    {
        match self.offer(rt, alloc, share, turn) {
            Ok(offered) => receipt_in(offered),
            Err(OutOfMemory) => Err(StepError::OutOfMemory),
        }
    }

    /// Takes the first enabled turn of those that a run takes by itself, which the share counts, and answers its
    /// receipt; none where there is none.
    pub fn settle(
        &self,
        rt: &impl Wait,
        alloc: Global,
        share: &mut Share<L>,
        word: u32,
    ) -> Result<Option<Receipt>, StepError>
        requires { 0 < share.old.parts }
        ensures counted { IfOk result (λ o. IfSome o (λ r. share.new.amount ≡ share.old.amount + 1)) }
        ensures none { IfOk result (λ o. IsNone o → share.new.amount ≡ share.old.amount) }
        ensures kind { IfOk result (λ o. IfSome o (λ r. is_settled_turn r.turn ≡ true)) }
        ensures kept { OnErr result (share.new.amount ≡ share.old.amount) }
        ensures parts { share.new.parts ≡ share.old.parts }
    {
        let settled = self.lock.lock(rt).settle(alloc, share, word);
        self.moved.notify_all();
        match settled {
            Ok(Some((number, turn))) => Ok(Some(Receipt { number, turn })),
            Ok(None) => Ok(None),
            Err(error) => Err(error),
        }
    }

    /// Waits until a start was asked that nobody has claimed, and claims the earliest; none where the run is over,
    /// given up, broken or full.
    pub fn next_start(&self, rt: &impl Wait) -> Option<StartAsk> {
        let mut run = self
            .moved
            .wait_while(rt, self.lock.lock(rt), |run| run.must_wait());
        if run.is_done() {
            return None;
        }
        run.claim()
    }

    /// Gives the run up, unless it is over, and wakes all that wait.
    pub fn give_up(&self, rt: &impl Wait) {
        self.lock.lock(rt).give_up();
        self.moved.notify_all();
    }

    /// Takes the run out of its lock, and looks whether the receipts are those of its journal: each stands in it, and
    /// no number comes twice.
    pub fn close(
        self,
        alloc: Global,
        shares: Vec<Share<L>>,
        receipts: List<List<Receipt>>,
    ) -> Result<Closed<R>, Unclosed<R>>
        ensures left { IfOk result (λ c. IsLeft R.told c.report c.asks self c.journal c.outcome) }
        ensures turns { IfOk result (λ c. R.taken c.report (turns_of c.journal)) }
        ensures receipts { IfOk result (λ c. Closes c.journal (concatenated receipts)) }
        ensures counted { IfOk result (λ c. sum_by (λ (s : Share L). s.parts) shares.items ≡ L.parts
            → sum_by (λ (s : Share L). s.amount) shares.items ≡ length c.journal) }
        ensures back { IfOk result (λ c. c.receipts ≡ receipts) }
        ensures refused { IfErr result (λ u. Refuses self u.journal (concatenated receipts) u.error.kind) }
        ensures left_too { IfErr result (λ u. IsLeftUnclosed R.told u.report u.asks self u.journal u.error.kind) }
        ensures turns_too { IfErr result (λ u. R.taken u.report (turns_of u.journal)) }
        ensures counted_too { IfErr result (λ u. sum_by (λ (s : Share L). s.parts) shares.items ≡ L.parts
            → sum_by (λ (s : Share L). s.amount) shares.items ≡ length u.journal) }
        ensures back_too { IfErr result (λ u. u.receipts ≡ receipts) }
    {
        let SharedRun { lock, settings, .. } = self;
        let (run, asks, report) = lock.into_inner().into_parts(shares);
        leave(alloc, &settings, run, asks, report, receipts)
    }
}
