// The spawner of real children.
ghost use Rattle.std.specs.Prelude.{◌≡◌};

use crate::running::{Running, Step, nothing_more};
use crate::starting::{
    add_arguments, add_variables, clear_env_file, is_refused, no_command, not_started, refused,
};
use run_capture::{Duplicate, Mem, Stream, Text};
use run_drive::{Begun, Said, Spawner};
use run_events::StartAsk;
use std::alloc::{AllocError, Global};
use std::fs::Files;
use std::io;
use std::process::{Child, Command, Processes, Stdio};

/// Starts processes, one at a time: in the program's own folder, with the asked variables beside the program's own, an
/// empty standard input, and no process group. Its standard output is read where it is captured, as the combined stream
/// too, and else goes nowhere; its standard error is that of the program, and counts as ended at once. A script's
/// environment file is made empty before its start, and read after an exit with code 0.
#[derive(Drop)]
pub struct ProcessSpawner<P: Processes + Files + Drop> {
    outside: P,
    running: Option<Running<P::Started>>,
    env_path: Option<Text>,
    faults: u64,
}

impl<P: Processes + Files + Drop> ProcessSpawner<P> {
    /// A spawner that has started nothing.
    pub fn new(outside: P) -> Self
        ensures { result.faults ≡ 0 }
    {
        ProcessSpawner {
            outside,
            running: None,
            env_path: None,
            faults: 0,
        }
    }

    /// How often a start was refused, or a child could not be read or waited for.
    pub fn faults(&self) -> u64
        ensures { result ≡ self.now.faults }
    {
        self.faults
    }
}

// Which captured stream the standard output of a child is, if it is captured.
fn output_of(streams: &[Stream]) -> Option<Stream> {
    for stream in streams {
        if !matches!(stream, Stream::Stderr) {
            return Some(*stream);
        }
    }
    None
}

// What is said first of a child of which these streams are captured.
fn first_step(streams: &[Stream]) -> Step {
    let output = output_of(streams);
    for stream in streams {
        if matches!(stream, Stream::Stderr) {
            return Step::Stderr(output);
        }
    }
    match output {
        Some(stream) => Step::Output(stream),
        None => Step::Exit,
    }
}

// Where a child's standard output goes.
fn stdout_of(streams: &[Stream]) -> Stdio {
    match output_of(streams) {
        Some(_) => Stdio::piped(),
        None => Stdio::null(),
    }
}

// Gives a command its streams.
fn add_streams(command: &mut Command, streams: &[Stream]) {
    command.stdin(Stdio::null());
    command.stdout(stdout_of(streams));
    command.stderr(Stdio::inherit());
}

// Gives a command what was asked. The first word is its program.
fn prepare(
    alloc: Global,
    command: &mut Command,
    words: &[Text],
    ask: &StartAsk,
) -> Result<(), AllocError> {
    add_arguments(command, words)?;
    add_variables(alloc, command, &ask.env)?;
    add_streams(command, ask.streams.as_slice());
    Ok(())
}

// Whether a child could not be read or waited for.
fn is_fault(said: &Mem<Said>) -> bool {
    matches!(said, Ok(Said::ReadError { .. } | Said::WaitFailed { .. }))
}

// A command is needed no more. A call of its own, which keeps the proofs small.
fn put_away(_command: Command) {}

impl<P: Processes + Files + Drop> ProcessSpawner<P> {
    // Prepares a command, and starts it.
    fn run(
        &self,
        alloc: Global,
        command: &mut Command,
        words: &[Text],
        ask: &StartAsk,
    ) -> io::Result<Child<P::Started>> {
        prepare(alloc, command, words, ask)?;
        command.spawn(&self.outside)
    }

    // The same of a command that is needed no more.
    fn run_once(
        &self,
        alloc: Global,
        mut command: Command,
        words: &[Text],
        ask: &StartAsk,
    ) -> io::Result<Child<P::Started>> {
        let child = self.run(alloc, &mut command, words, ask);
        put_away(command);
        child
    }

    // Starts a child.
    fn spawn(
        &self,
        alloc: Global,
        program: &Text,
        words: &[Text],
        ask: &StartAsk,
    ) -> io::Result<Child<P::Started>> {
        match Command::new(alloc, program.as_str()) {
            Ok(command) => self.run_once(alloc, command, words, ask),
            Err(error) => Err(io::Error::from(error)),
        }
    }

    // Forgets the child before.
    fn forget(&mut self) {
        self.running = None;
        self.env_path = None;
    }

    // Notes the path of a script's environment file.
    fn note_path(&mut self, alloc: Global, path: &Option<Text>) -> Mem<()> {
        self.env_path = path.copy(alloc)?;
        Ok(())
    }

    // Keeps a child that runs.
    fn keep(&mut self, child: Child<P::Started>, step: Step) -> Begun {
        let pid = child.id();
        self.running = Some(Running::new(child, step));
        Begun::Started { pid }
    }

    // Starts a child with the script's environment file made empty, and keeps it.
    fn launch(&mut self, alloc: Global, ask: &StartAsk) -> Mem<Begun> {
        let Some((program, words)) = ask.command.as_slice().split_first() else {
            return no_command(alloc);
        };
        if let Err(error) = clear_env_file(&self.outside, &ask.env_path) {
            return refused(alloc, "environment file: ", &error);
        }
        match self.spawn(alloc, program, words, ask) {
            Ok(child) => Ok(self.keep(child, first_step(ask.streams.as_slice()))),
            Err(error) => not_started(alloc, program.as_str(), &error),
        }
    }

    // What the child that runs says next.
    fn speak(&mut self, alloc: Global) -> Mem<Said> {
        match &mut self.running {
            Some(running) => running.next(&self.outside, alloc, &self.env_path),
            None => nothing_more(alloc),
        }
    }

    // Counts a failure.
    fn count(&mut self) {
        self.faults = self.faults.saturating_add(1);
    }
}

impl<P: Processes + Files + Drop> Spawner for ProcessSpawner<P> {
    ghost has_said = { λ _ _. Unit {0} };

    fn start(&mut self, alloc: Global, ask: &StartAsk) -> Mem<Begun> {
        self.forget();
        self.note_path(alloc, &ask.env_path)?;
        let begun = self.launch(alloc, ask);
        if is_refused(&begun) {
            self.count();
        }
        begun
    }

    fn next(&mut self, alloc: Global) -> Mem<Said> {
        let said = self.speak(alloc);
        if is_fault(&said) {
            self.count();
        }
        said
    }
}
