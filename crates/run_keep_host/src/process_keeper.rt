// The keeper of real children.
ghost use Rattle.std.specs.Prelude.{◌≡◌, IfOk, IfSome, Some};
ghost use Rattle.run_keep_host.specs.Offered.{offered};

use crate::kept_child::KeptChild;
use crate::pace::Pace;
use crate::sender::Sender;
use crate::starting::{start_child, starter, unready};
use crate::target::{Target, name_of};
use crate::waiting::pause;
use crate::words::{Words, is_end};
use run_capture::{Duplicate, Mem, Shared, Text};
use run_commands::EnvInput;
use run_drive::{Begun, Said};
use run_events::{ChildSignal, SignalAsk, StartAsk, TermSignal};
use run_host::{env_input, is_refused, no_command, not_started};
use run_keep::{Keeper, Sent};
use std::alloc::Global;
use std::fs::Files;
use std::process::Processes;
use std::sync::Wait;
use std::time::Clock;

/// Starts processes, one at a time: in the program's own folder, with the asked variables beside the program's own, an
/// empty standard input and, where that is asked, a session and group of their own, by `setsid`. Each captured stream
/// is read as it comes; standard output that isn't captured goes nowhere, and standard error is then that of the
/// program. A script's environment file is made empty before its start.
///
/// A signal is sent by a shell of the keeper's own (where that is gone by one that is started for it), and only while
/// the child wasn't waited for. Where it ended while its group was stopped, the group is sent a continue: nobody else
/// would. At the end of the program, whatever it is, that shell kills the child that runs, with its group.
///
/// Before a start and before an end is told, it asks its host's ticker, if it has one, to tell the time.
#[derive(Drop)]
pub struct ProcessKeeper<P: Processes + Files + Eprint + Drop, X: Wait + Clock + Drop> {
    outside: P,
    rt: X,
    sender: Sender<P::Started>,
    kept: Option<KeptChild<P::Started>>,
    words: Words,
    env_path: Option<Text>,
    pace: Option<Shared<Pace>>,
    faults: u64,
}

// How many milliseconds a look waits at most.
const BEAT: u16 = 10;

// Whether a child could not be read or waited for.
fn is_fault(said: &Said) -> bool {
    matches!(said, Said::ReadError { .. } | Said::WaitFailed { .. })
}

// Whether a signal kills.
fn is_kill(signal: ChildSignal) -> bool {
    matches!(signal, ChildSignal::End(TermSignal::Kill))
}

// Says on standard error what went wrong.
fn say(outside: &impl Eprint, error: &Text) {
    let _ = eprintln!(outside; "nextest_run: {}", error.as_str());
}

impl<P: Processes + Files + Eprint + Drop, X: Wait + Clock + Drop> ProcessKeeper<P, X> {
    /// A keeper that has started nothing, and asks no ticker.
    pub fn new(outside: P, rt: X) -> Self
        ensures { result.faults ≡ 0 }
    {
        ProcessKeeper::paced(outside, rt, None)
    }

    /// A keeper that has started nothing, and asks the ticker with which it shares this.
    pub(crate) fn paced(outside: P, rt: X, pace: Option<Shared<Pace>>) -> Self
        ensures { result.faults ≡ 0 }
    {
        ProcessKeeper {
            outside,
            rt,
            sender: Sender::new(),
            kept: None,
            words: Words::new(),
            env_path: None,
            pace,
            faults: 0,
        }
    }

    // Waits until the run was told the time.
    fn refresh(&self) {
        if let Some(pace) = &self.pace {
            pace.get().refresh(&self.rt);
        }
    }

    /// How often a start was refused, a child could not be read or waited for, or a signal could not be sent.
    pub fn faults(&self) -> u64
        ensures { result ≡ self.now.faults }
    {
        self.faults
    }

    // Counts a failure.
    fn count(&mut self) {
        self.faults = self.faults.saturating_add(1);
    }

    // Forgets the child before, which is killed where it still runs.
    fn forget(&mut self) {
        if self.is_running() {
            self.end_child();
        }
        self.kept = None;
        self.words = Words::new();
        self.env_path = None;
    }

    // Notes the path of a script's environment file.
    fn note_path(&mut self, alloc: Global, path: &Option<Text>) -> Mem<()> {
        self.env_path = path.copy(alloc)?;
        Ok(())
    }

    // Whether a child runs, or has ended and wasn't waited for.
    fn is_running(&self) -> bool {
        match &self.kept {
            Some(kept) => !kept.is_over(),
            None => false,
        }
    }

    // Keeps a child that was started, and tells the shell of it.
    fn keep(&mut self, alloc: Global, kept: KeptChild<P::Started>, group: bool) -> Begun {
        let target = kept.target(group);
        self.kept = Some(kept);
        self.sender.watch(alloc, target);
        Begun::Started { pid: target.pid }
    }

    // Starts a child, and keeps it.
    fn begin(
        &mut self,
        alloc: Global,
        program: &str,
        words: &[Text],
        ask: &StartAsk,
    ) -> Mem<Begun> {
        match start_child(&self.outside, alloc, program, words, ask) {
            Ok(kept) => Ok(self.keep(alloc, kept, ask.group)),
            Err(error) => not_started(alloc, starter(program, ask.group), &error),
        }
    }

    // Starts a child, and before it the keeper's shell, where it has none.
    fn begin_guarded(
        &mut self,
        alloc: Global,
        program: &str,
        words: &[Text],
        ask: &StartAsk,
    ) -> Mem<Begun> {
        self.sender.start(&self.outside, alloc)?;
        self.begin(alloc, program, words, ask)
    }

    // Starts a child where it can be, with the script's environment file made empty.
    fn begin_ready(
        &mut self,
        alloc: Global,
        program: &str,
        words: &[Text],
        ask: &StartAsk,
    ) -> Mem<Begun> {
        match unready(&self.outside, alloc, program, &ask.env_path)? {
            Some(begun) => Ok(begun),
            None => self.begin_guarded(alloc, program, words, ask),
        }
    }

    // Starts a child, whose first word is its program.
    fn launch(&mut self, alloc: Global, ask: &StartAsk) -> Mem<Begun> {
        match ask.command.as_slice().split_first() {
            Some((program, words)) => self.begin_ready(alloc, program.as_str(), words, ask),
            None => no_command(alloc),
        }
    }

    // A child was waited for: the shell lets it go, and continues its group where that is stopped.
    fn let_go(&mut self, alloc: Global) {
        let stopped = match &self.kept {
            Some(kept) => kept.stopped(),
            None => None,
        };
        if let Some(target) = stopped {
            let _ = self
                .sender
                .send(&self.outside, alloc, name_of(ChildSignal::Cont), target);
        }
        self.sender.let_go();
    }

    // What the child does next, if it does something. Once it was waited for, it is let go.
    fn look(&mut self, alloc: Global, reads: bool) -> Mem<Option<Said>> {
        let was_running = self.is_running();
        let said = match &mut self.kept {
            Some(kept) => kept.look(alloc, reads),
            None => {
                pause(BEAT);
                Ok(None)
            }
        };
        if was_running && !self.is_running() {
            self.let_go(alloc);
        }
        said
    }

    // Notes what a child said.
    fn note(&mut self, said: &Said) {
        if is_fault(said) {
            self.count();
        }
    }

    // Offers a new word.
    fn offer_new(&mut self, alloc: Global, said: Said) -> Mem<Option<Said>>
        ensures { IfOk result (λ o. offered self.new.words ≡ o) }
    {
        self.note(&said);
        self.words.add(alloc, said)
    }

    // Looks for a new word, and offers it.
    fn offer_next(&mut self, alloc: Global, reads: bool) -> Mem<Option<Said>>
        ensures { IfOk result (λ o. IfSome o (λ said. offered self.new.words ≡ Some said)) }
    {
        match self.look(alloc, reads)? {
            Some(said) => {
                if is_end(&said) {
                    self.refresh();
                }
                self.offer_new(alloc, said)
            }
            None => Ok(None),
        }
    }

    // Whom a signal is for, if a child runs.
    fn target(&mut self, group: bool) -> Option<Target> {
        match &mut self.kept {
            Some(kept) if !kept.is_over() => {
                kept.rouse();
                Some(kept.target(group))
            }
            _ => None,
        }
    }

    // Kills the child alone. Answers whether it was sent.
    fn kill(&mut self) -> bool {
        match &mut self.kept {
            Some(kept) => kept.kill(),
            None => false,
        }
    }

    // Sends a signal. Answers whether it was sent; a kill that isn't is sent to the child alone.
    fn is_sent(&mut self, alloc: Global, signal: ChildSignal, target: Target) -> Mem<bool> {
        let sent = self
            .sender
            .send(&self.outside, alloc, name_of(signal), target)?;
        Ok(sent || (is_kill(signal) && self.kill()))
    }

    // Notes that the child was sent a signal.
    fn note_sent(&mut self, signal: ChildSignal, target: Target) {
        if let Some(kept) = &mut self.kept {
            kept.note_sent(signal, target);
        }
    }

    // A signal could not be sent.
    fn fail(&mut self, alloc: Global, signal: ChildSignal, target: Target) -> Mem<Sent> {
        self.count();
        let error = target.failure(alloc, name_of(signal))?;
        say(&self.outside, &error);
        Ok(Sent::Failed { error })
    }

    // Sends a signal, and says where that fails.
    fn send_to(&mut self, alloc: Global, signal: ChildSignal, target: Target) -> Mem<Sent> {
        if self.is_sent(alloc, signal, target)? {
            self.note_sent(signal, target);
            Ok(Sent::Sent)
        } else {
            self.fail(alloc, signal, target)
        }
    }

    // Kills the child that runs: itself, and by the end of the shell its group.
    fn end_child(&mut self) {
        let _ = self.kill();
        self.sender.end();
        self.kept = None;
    }
}

impl<P: Processes + Files + Eprint + Drop, X: Wait + Clock + Drop> Keeper for ProcessKeeper<P, X> {
    ghost has_heard = { λ _ _. Unit {0} };

    ghost offers = { λ s said. offered s.words ≡ Some said };

    fn start(&mut self, alloc: Global, ask: &StartAsk) -> Mem<Begun> {
        self.forget();
        self.note_path(alloc, &ask.env_path)?;
        self.refresh();
        let begun = self.launch(alloc, ask);
        if is_refused(&begun) {
            self.count();
        }
        begun
    }

    fn offer(&mut self, alloc: Global, reads: bool) -> Mem<Option<Said>> {
        match self.words.again(alloc, reads)? {
            Some(said) => Ok(Some(said)),
            None => self.offer_next(alloc, reads),
        }
    }

    fn accept(&mut self, _alloc: Global) -> Mem<()> {
        self.words.accept();
        Ok(())
    }

    fn read_env(&mut self, alloc: Global) -> Mem<EnvInput> {
        env_input(&self.outside, alloc, &self.env_path)
    }

    fn send(&mut self, alloc: Global, ask: &SignalAsk) -> Mem<Sent> {
        match self.target(ask.group) {
            Some(target) => self.send_to(alloc, ask.signal, target),
            None => Ok(Sent::Gone),
        }
    }

    fn miss(&mut self, _alloc: Global, _ask: &SignalAsk) -> Mem<()> {
        Ok(())
    }

    fn end(&mut self) {
        if self.is_running() {
            self.end_child();
        }
    }
}
