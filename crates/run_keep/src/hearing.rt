// What who hears the outside does.
ghost use Rattle.std.specs.Prelude.{◌≡◌, ◌<◌, ◌+◌, ◌∷◌, ◌++◌, [], length, IfOk, OnOk, Some, None, true};
ghost use Rattle.run_events.specs.declared.plan.Hearing.{Hearing as Handlers};
ghost use Rattle.run_keep.specs.Halted.{Halts};
ghost use Rattle.run_keep.specs.Listened.{TakesIn, Sorts, HearsOn, hears_came};

use crate::halting::{Stops, halt_next, halt_rest};
use crate::listened::{Dropped, Listened};
use crate::turns::Turns;
use crate::{Came, Halter, Outside};
use run_capture::{Mem, OutOfMemory};
use run_events::{Hearing, Signal, hears_key, hears_signal};
use run_shared::{Refusal, RefusalKind};
use std::alloc::Global;
use std::sync::Wait;
use std::sync::ledger::{Ledger, Share};

/// What a listener has in hand.
#[derive(Clone, Copy, Drop)]
pub(crate) struct Hand {
    /// What came and wasn't taken yet.
    pub held: Option<Came>,
    /// It isn't offered before the clock was moved so often.
    pub ticks: u64,
}

/// How often the clock moves between a continue and its turn: the first move may count time of the stop.
const MOVES: u64 = 2;

// Whether a run with these handlers hears what came.
fn hears_came(hearing: &Hearing, came: Came) -> bool
    ensures { result ≡ hears_came hearing.now came }
{
    match came {
        Came::Signal { signal } => {
            hears_signal(hearing.signals, hearing.quit_is_info, signal).is_some()
        }
        Came::Key { key } => hears_key(hearing.input, key).is_some(),
        Came::Tick => true,
    }
}

// What is held then: what was, or what comes next, if something does.
#[tactic(auto, using(crate::proofs::ListenLemmas::takes_next, crate::proofs::ListenLemmas::takes_none))]
fn take_in<O: Outside>(alloc: Global, outside: &mut O, held: Option<Came>) -> Mem<Option<Came>>
    ensures { IfOk result (TakesIn O.has_come outside.old outside.new held) }
{
    match held {
        Some(came) => {
            outside.pause();
            Ok(Some(came))
        }
        None => {
            let next = outside.next(alloc)?;
            Ok(next)
        }
    }
}

// Whether what came and was refused may be taken later. Nothing waits for a display.
fn may_wait(came: Came, refusal: &Refusal) -> bool {
    !matches!(came, Came::Tick) && matches!(refusal.kind(), RefusalKind::NotEnabled)
}

// Drops what was refused for good; no run goes on after a third signal.
fn drop_refused<L: Ledger, T: Turns<L>>(run: &T, refusal: Refusal, work: &mut Listened) -> Mem<()>
    ensures dropped { OnOk result (work.new.dropped ≡ work.old.dropped ++ Dropped.Refused refusal ∷ []) }
    ensures receipts { work.new.receipts ≡ work.old.receipts }
{
    let third = matches!(refusal.kind(), RefusalKind::ThirdSignal);
    work.dropped
        .push(run.alloc(), Dropped::Refused { refusal })?;
    if third {
        run.give_up();
    }
    Ok(())
}

// Offers what came. Answers what is still held: it, where it may be taken later.
#[tactic(auto, using(crate::proofs::ListenLemmas::sorts_taken, crate::proofs::ListenLemmas::sorts_kept, crate::proofs::ListenLemmas::sorts_refused))]
fn offer_heard<L: Ledger, T: Turns<L>>(
    run: &T,
    share: &mut Share<L>,
    came: Came,
    is_last: bool,
    work: &mut Listened,
) -> Mem<Option<Came>>
    requires { 0 < share.old.parts }
    ensures sorts { IfOk result (λ held. (h : Handlers) → Sorts h (Some came) held work.old work.new) }
    ensures last { IfOk result (λ held. is_last ≡ true → held ≡ None) }
    ensures counted { OnOk result
        (share.new.amount + length work.old.receipts ≡ share.old.amount + length work.new.receipts) }
    ensures parts { share.new.parts ≡ share.old.parts }
{
    let Some(refusal) = run.enter(share, came.turn(), &mut work.receipts)? else {
        return Ok(None);
    };
    if !is_last && may_wait(came, &refusal) {
        drop(refusal);
        return Ok(Some(came));
    }
    drop_refused(run, refusal, work)?;
    Ok(None)
}

// Decides on what is held: what the run doesn't hear is dropped, and the rest is offered. Answers what is still held.
#[tactic(auto, using(crate::proofs::ListenLemmas::sorts_none, crate::proofs::ListenLemmas::sorts_unheard))]
fn decide<L: Ledger, T: Turns<L>>(
    run: &T,
    hearing: &Hearing,
    share: &mut Share<L>,
    held: Option<Came>,
    is_last: bool,
    work: &mut Listened,
) -> Mem<Option<Came>>
    requires { 0 < share.old.parts }
    ensures sorts { IfOk result (λ next. Sorts hearing.now held next work.old work.new) }
    ensures last { IfOk result (λ next. is_last ≡ true → next ≡ None) }
    ensures counted { OnOk result
        (share.new.amount + length work.old.receipts ≡ share.old.amount + length work.new.receipts) }
    ensures parts { share.new.parts ≡ share.old.parts }
{
    let Some(came) = held else {
        return Ok(None);
    };
    if !hears_came(hearing, came) {
        work.dropped.push(run.alloc(), Dropped::Unheard { came })?;
        return Ok(None);
    }
    let next = offer_heard(run, share, came, is_last, work)?;
    Ok(next)
}

// Before which move of the clock what is held then isn't offered: a continue is held back when it comes.
fn held_until(hand: Hand, next: Option<Came>, ticks: u64) -> u64 {
    match (hand.held, next) {
        (
            None,
            Some(
                Came::Signal {
                    signal: Signal::Cont,
                },
            ),
        ) => ticks.saturating_add(MOVES),
        _ => hand.ticks,
    }
}

// Takes in what comes, and decides on what is held, unless that is held back.
#[tactic(auto, using(crate::proofs::ListenLemmas::listens_took, crate::proofs::ListenLemmas::listens_sorted))]
fn hear_next<O: Outside, L: Ledger, T: Turns<L>>(
    run: &T,
    hearing: &Hearing,
    outside: &mut O,
    share: &mut Share<L>,
    hand: Hand,
    work: &mut Listened,
) -> Mem<Hand>
    requires { 0 < share.old.parts }
    ensures listens { IfOk result (λ next. HearsOn O.has_come outside.old outside.new hearing.now hand.held next.held
        work.old work.new) }
    ensures counted { OnOk result
        (share.new.amount + length work.old.receipts ≡ share.old.amount + length work.new.receipts) }
    ensures parts { share.new.parts ≡ share.old.parts }
{
    let next = take_in(run.alloc(), outside, hand.held)?;
    let moved = run.ticks();
    let ticks = held_until(hand, next, moved);
    if moved < ticks {
        return Ok(Hand { held: next, ticks });
    }
    let held = decide(run, hearing, share, next, false, work)?;
    Ok(Hand { held, ticks })
}

// The same, and stops the program where that is asked.
fn beat<O: Outside, H: Halter, L: Ledger, T: Turns<L>>(
    run: &T,
    hearing: &Hearing,
    outside: &mut O,
    halter: &mut H,
    share: &mut Share<L>,
    hand: &mut Hand,
    stops: &mut Stops,
    work: &mut Listened,
) -> Mem<()>
    requires { 0 < share.old.parts }
    ensures listens { OnOk result (HearsOn O.has_come outside.old outside.new hearing.now hand.old.held hand.new.held
        work.old work.new) }
    ensures halts { OnOk result (Halts H.has_halted halter.old halter.new stops.old.halts stops.new.halts) }
    ensures counted { OnOk result
        (share.new.amount + length work.old.receipts ≡ share.old.amount + length work.new.receipts) }
    ensures parts { share.new.parts ≡ share.old.parts }
{
    *hand = hear_next(run, hearing, outside, share, *hand, work)?;
    halt_next(run, halter, stops)?;
    Ok(())
}

// The same until the run takes no turn any more.
#[tactic(auto, using(crate::proofs::ListenLemmas::listens_none, crate::proofs::ListenLemmas::listens_more, crate::proofs::HaltLemmas::halts_none, crate::proofs::HaltLemmas::halts_more))]
fn hear_on<O: Outside, H: Halter, X: Wait, L: Ledger, T: Turns<L>>(
    rt: &X,
    run: &T,
    hearing: &Hearing,
    outside: &mut O,
    halter: &mut H,
    share: &mut Share<L>,
    hand: &mut Hand,
    stops: &mut Stops,
    work: &mut Listened,
) -> Mem<()>
    requires { 0 < share.old.parts }
    ensures listens { OnOk result (HearsOn O.has_come outside.old outside.new hearing.now hand.old.held hand.new.held
        work.old work.new) }
    ensures halts { OnOk result (Halts H.has_halted halter.old halter.new stops.old.halts stops.new.halts) }
    ensures counted { OnOk result
        (share.new.amount + length work.old.receipts ≡ share.old.amount + length work.new.receipts) }
    ensures parts { share.new.parts ≡ share.old.parts }
{
    for _ in rt.forever() {
        if run.is_done() {
            return Ok(());
        }
        match beat(run, hearing, outside, halter, share, hand, stops, work) {
            Ok(()) => {}
            Err(OutOfMemory) => return Err(OutOfMemory),
        }
    }
    unreachable!()
}

// Drops what is still held once the run is done, and stops the program as often as that is still to be.
#[tactic(auto, using(crate::proofs::ListenLemmas::sorts_last))]
fn hear_rest<H: Halter, X: Wait, L: Ledger, T: Turns<L>>(
    rt: &X,
    run: &T,
    hearing: &Hearing,
    halter: &mut H,
    share: &mut Share<L>,
    held: Option<Came>,
    stops: &mut Stops,
    work: &mut Listened,
) -> Mem<()>
    requires { 0 < share.old.parts }
    ensures sorts { OnOk result (Sorts hearing.now held None work.old work.new) }
    ensures halts { OnOk result (Halts H.has_halted halter.old halter.new stops.old.halts stops.new.halts) }
    ensures counted { OnOk result
        (share.new.amount + length work.old.receipts ≡ share.old.amount + length work.new.receipts) }
    ensures parts { share.new.parts ≡ share.old.parts }
{
    decide(run, hearing, share, held, true, work)?;
    halt_rest(rt, run, halter, stops)?;
    Ok(())
}

// Hears the outside until the run takes no turn any more, and then drops what is still held; stops the program as often
// as the run asks that.
#[tactic(auto, using(crate::proofs::ListenLemmas::listens_last, crate::proofs::HaltLemmas::halts_more))]
pub(crate) fn hear_all<O: Outside, H: Halter, X: Wait, L: Ledger, T: Turns<L>>(
    rt: &X,
    run: &T,
    hearing: &Hearing,
    outside: &mut O,
    halter: &mut H,
    share: &mut Share<L>,
    stops: &mut Stops,
    work: &mut Listened,
) -> Mem<()>
    requires { 0 < share.old.parts }
    ensures listens { OnOk result (HearsOn O.has_come outside.old outside.new hearing.now None None
        work.old work.new) }
    ensures halts { OnOk result (Halts H.has_halted halter.old halter.new stops.old.halts stops.new.halts) }
    ensures counted { OnOk result
        (share.new.amount + length work.old.receipts ≡ share.old.amount + length work.new.receipts) }
    ensures parts { share.new.parts ≡ share.old.parts }
{
    let mut hand = Hand {
        held: None,
        ticks: 0,
    };
    hear_on(
        rt, run, hearing, outside, halter, share, &mut hand, stops, work,
    )?;
    hear_rest(rt, run, hearing, halter, share, hand.held, stops, work)?;
    Ok(())
}
