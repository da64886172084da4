// A shell that sends signals, and that ends the child that runs where this program ends.
use crate::call::Call;
use crate::target::Target;
use crate::waiting::readable;
use std::alloc::{AllocError, Global};
use std::fs::Files;
use std::io;
use std::io::{PipeReader, PipeWriter, Read, Write};
use std::os::fd::AsRawFd;
use std::process::{Child, OpenProcess, Processes, Stdio};

/// A shell in a session of its own. It answers each line that it reads by one line, the status of what it did, and at
/// the end of its input kills the child that it was told of, with its group.
pub(crate) struct Guard<C: OpenProcess + Drop> {
    shell: Child<C>,
    answers: PipeReader,
    /// Whether an answer is yet to be read.
    owes: bool,
}

// A call of its own, which keeps the proofs of all that hold one small.
impl<C: OpenProcess + Drop> Drop for Guard<C> {
    fn drop(self) {
        let Guard {
            shell: _,
            answers: _,
            owes: _,
        } = self;
    }
}

// `on TARGET` tells of a child that runs, `off` that it was waited for; else a line is a signal and a target. A child
// that isn't in its group yet is sent the signal itself.
const SCRIPT: &str = "trap '' INT HUP QUIT TERM TSTP PIPE
send() { kill -s \"$1\" -- \"$2\" 2>/dev/null || kill -s \"$1\" -- \"${2#-}\" 2>/dev/null; }
on=
while read -r word target; do
  case $word in
    on) on=$target; echo 0 ;;
    off) on=; echo 0 ;;
    *) send \"$word\" \"$target\"; echo $? ;;
  esac
done
[ -z \"$on\" ] || send KILL \"$on\"";

// The words of the shell's command.
const WORDS: [&str; 3] = ["sh", "-c", SCRIPT];

// How many milliseconds one look for an answer takes at most, and how many looks there are.
const LOOK: u16 = 100;

const LOOKS: u32 = 50;

// Gives the shell its words, and a pipe for its answers.
fn prepare(call: &mut Call, answers: PipeWriter) -> Result<(), AllocError> {
    call.mute();
    let command = call.command();
    command.stdin(Stdio::piped());
    command.stdout(answers);
    call.add(&WORDS)
}

// Starts the shell.
fn start<P: Processes>(
    outside: &P,
    alloc: Global,
    answers: PipeWriter,
) -> io::Result<Child<P::Started>> {
    let mut call = Call::new(alloc, "setsid")?;
    prepare(&mut call, answers)?;
    call.spawn(outside)
}

impl<C: OpenProcess + Drop> Guard<C> {
    /// Starts a shell that was told of no child.
    pub fn start<P: Processes<Started = C> + Files>(
        outside: &P,
        alloc: Global,
    ) -> io::Result<Guard<C>> {
        let (answers, writer) = io::pipe(outside)?;
        let shell = start(outside, alloc, writer)?;
        Ok(Guard {
            shell,
            answers,
            owes: false,
        })
    }

    /// Tells it of a child that runs.
    pub fn watch(&mut self, alloc: Global, target: Target) -> io::Result<()> {
        let line = target.line(alloc, "on")?;
        self.tell(line.as_str())
    }

    /// Tells it that the child was waited for.
    pub fn let_go(&mut self) -> io::Result<()> {
        self.tell("off\n")
    }

    /// Sends a signal. Answers whether it was sent.
    pub fn send(&mut self, alloc: Global, signal: &str, target: Target) -> io::Result<bool> {
        let line = target.line(alloc, signal)?;
        self.tell(line.as_str())?;
        self.answer()
    }

    /// Ends it, so that it kills nothing. It may not answer any more.
    pub fn give_up(&mut self) {
        let _ = self.shell.kill();
    }

    // Writes a line, once the one before is answered: so what isn't read of its input never fills it.
    fn tell(&mut self, line: &str) -> io::Result<()> {
        self.answer()?;
        if let Some(input) = &mut self.shell.stdin {
            input.write_all(line.as_bytes())?;
        }
        self.owes = true;
        Ok(())
    }

    // Reads the answer of the line before: whether the status was 0.
    fn answer(&mut self) -> io::Result<bool> {
        if !self.owes {
            return Ok(true);
        }
        self.owes = false;
        for _ in 0..LOOKS {
            let (is_there, _) = readable(self.answers.as_raw_fd(), -1, LOOK);
            if is_there {
                return self.read_answer();
            }
        }
        Err(io::Error::from(io::ErrorKind::TimedOut))
    }

    // Reads an answer that is there.
    fn read_answer(&mut self) -> io::Result<bool> {
        let mut answer = [0u8; 2];
        if self.answers.read(&mut answer)? < answer.len() {
            return Err(io::Error::from(io::ErrorKind::UnexpectedEof));
        }
        Ok(answer[0] == b'0')
    }
}
