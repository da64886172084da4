// Commands that are made up word by word.
use std::alloc::{AllocError, Global};
use std::io;
use std::process::{Child, Command, Processes, Stdio};

/// A command with an empty standard input.
pub(crate) struct Call {
    command: Command,
}

// A call of its own, which keeps the proofs of all that hold one small.
impl Drop for Call {
    fn drop(self) {
        let Call { command: _ } = self;
    }
}

impl Call {
    /// The command of a program alone.
    pub fn new(alloc: Global, program: &str) -> Result<Call, AllocError> {
        let mut command = Command::new(alloc, program)?;
        command.stdin(Stdio::null());
        Ok(Call { command })
    }

    /// The command, which is changed in place.
    pub fn command(&mut self) -> &mut Command {
        &mut self.command
    }

    /// Gives it more words.
    pub fn add(&mut self, words: &[&str]) -> Result<(), AllocError> {
        for word in words {
            self.command.arg(*word)?;
        }
        Ok(())
    }

    /// What it writes goes nowhere.
    pub fn mute(&mut self) {
        self.command.stdout(Stdio::null());
        self.command.stderr(Stdio::null());
    }

    /// Starts it, where it is needed no more: this program's ends of what it writes are closed.
    pub fn spawn<P: Processes>(self, outside: &P) -> io::Result<Child<P::Started>> {
        let mut call = self;
        call.command.spawn(outside)
    }

    /// Runs it to its end. Answers whether its status was 0.
    pub fn is_well(self, outside: &impl Processes) -> io::Result<bool> {
        let mut call = self;
        let status = call.command.status(outside)?;
        Ok(status.success())
    }
}
