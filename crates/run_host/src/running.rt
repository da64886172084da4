// A child that runs, and what it says next.
use crate::telling::{env_input, exit_of, piece, unread, unwaited};
use run_capture::{Boxed, Mem, Stream, Text};
use run_drive::Said;
use std::alloc::Global;
use std::fs::Files;
use std::io;
use std::io::Read;
use std::process::{Child, OpenProcess};

/// What is to be said of a child.
#[derive(Clone, Copy)]
pub enum Step {
    /// That its standard error has ended, which isn't read; then what comes of its standard output, where that is
    /// captured.
    Stderr(Option<Stream>),
    /// The next piece of its standard output, as this stream.
    Output(Stream),
    /// How it ended.
    Exit,
    /// What it wrote to its environment file, after an exit with code 0.
    Env,
    /// Nothing more.
    Done,
}

/// A child that runs.
#[derive(Drop)]
pub struct Running<C: OpenProcess + Drop> {
    child: Child<C>,
    step: Step,
}

// How many bytes one read moves at most.
const PIECE: usize = 8192;

/// There is nothing more to say.
pub fn nothing_more(alloc: Global) -> Mem<Said> {
    let error = Text::from_str(alloc, "end")?;
    Ok(Said::WaitFailed {
        error: Boxed::new(alloc, error)?,
    })
}

impl<C: OpenProcess + Drop> Running<C> {
    /// A child of which this is said first.
    pub fn new(child: Child<C>, step: Step) -> Self {
        Running { child, step }
    }

    // Reads the output into a buffer.
    fn read(&mut self, buffer: &mut [u8]) -> io::Result<usize> {
        match &mut self.child.stdout {
            Some(output) => output.read(buffer),
            None => Ok(0),
        }
    }

    // The next piece of the output, or how that ended.
    fn read_output(&mut self, alloc: Global, stream: Stream) -> Mem<Said> {
        let mut buffer = [0u8; PIECE];
        match self.read(&mut buffer) {
            Ok(count) if count > 0 && count <= PIECE => piece(alloc, stream, &buffer[..count]),
            Ok(_) => {
                self.close_output();
                Ok(Said::End { stream })
            }
            Err(error) => {
                self.close_output();
                unread(alloc, stream, &error)
            }
        }
    }

    // Nothing more is read of the output, so that a child that writes on doesn't wait for a reader.
    fn close_output(&mut self) {
        self.child.stdout = None;
        self.step = Step::Exit;
    }

    // Waits for the child's end. A script's environment file comes after an exit with code 0.
    fn wait(&mut self, alloc: Global, is_script: bool) -> Mem<Said> {
        self.step = Step::Done;
        match self.child.wait() {
            Ok(status) => {
                if status.success() && is_script {
                    self.step = Step::Env;
                }
                let exit = exit_of(&status);
                Ok(Said::Exit { exit })
            }
            Err(error) => unwaited(alloc, &error),
        }
    }

    // Standard error, which isn't read, ended.
    fn end_stderr(&mut self, output: Option<Stream>) -> Mem<Said> {
        self.step = match output {
            Some(stream) => Step::Output(stream),
            None => Step::Exit,
        };
        Ok(Said::End {
            stream: Stream::Stderr,
        })
    }

    /// What the child says next; a script has a path of its environment file. Reading its output and waiting for its
    /// end take as long as the child does.
    pub fn next(
        &mut self,
        files: &impl Files,
        alloc: Global,
        env_path: &Option<Text>,
    ) -> Mem<Said> {
        match self.step {
            Step::Stderr(output) => self.end_stderr(output),
            Step::Output(stream) => self.read_output(alloc, stream),
            Step::Exit => self.wait(alloc, env_path.is_some()),
            Step::Env => {
                self.step = Step::Done;
                env_said(files, alloc, env_path)
            }
            Step::Done => nothing_more(alloc),
        }
    }
}

// The word of a script's environment file.
fn env_said(files: &impl Files, alloc: Global, path: &Option<Text>) -> Mem<Said> {
    let input = env_input(files, alloc, path)?;
    Ok(Said::Env { input })
}
