// Signals sent by a shell that is started for each.
use crate::call::Call;
use crate::target::Target;
use std::alloc::{AllocError, Global};
use std::io;
use std::process::Processes;

// The words of the shell, before the signal and the target. A child that isn't in its group yet is sent it itself.
const WORDS: [&str; 3] = [
    "-c",
    "kill -s \"$1\" -- \"$2\" || kill -s \"$1\" -- \"${2#-}\"",
    "sh",
];

// Gives the shell its words.
fn prepare(alloc: Global, call: &mut Call, signal: &str, target: Target) -> Result<(), AllocError> {
    call.mute();
    call.add(&WORDS)?;
    let target = target.word(alloc)?;
    call.add(&[signal, target.as_str()])
}

/// Sends a signal, and waits for the shell that does it. Answers whether it was sent.
pub(crate) fn send_by_shell(
    outside: &impl Processes,
    alloc: Global,
    signal: &str,
    target: Target,
) -> io::Result<bool> {
    let mut call = Call::new(alloc, "sh")?;
    prepare(alloc, &mut call, signal, target)?;
    call.is_well(outside)
}
