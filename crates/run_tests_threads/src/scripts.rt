// A script's child.
use crate::given::{ask, is_refused, run};
use crate::plans::{MEMORY, text};
use run_commands::EnvInput;
use run_drive::{Said, Spawner};
use run_events::StartAsk;
use run_host::ProcessSpawner;
use std::alloc::Global;
use std::fs;
use std::process::Abort;

// A start of a script with its environment file.
fn script(rt: &impl Abort, alloc: Global, command: &str, path: &str) -> StartAsk {
    let mut ask = ask(rt, alloc, command);
    ask.env_path = Some(text(rt, alloc, path));
    ask
}

fn is_env(said: &Said, variables: &[u8]) -> bool {
    match said {
        Said::Env {
            input: EnvInput::Bytes(bytes),
        } => bytes.as_slice() == variables,
        _ => false,
    }
}

// Whether a script writes nothing to its standard output, and hands this on.
fn hands_on(
    rt: &impl Abort,
    alloc: Global,
    spawner: &mut impl Spawner,
    ask: &StartAsk,
    variables: &[u8],
) -> bool {
    let given = run(rt, alloc, spawner, ask);
    let said = spawner.next(alloc).expect(rt, MEMORY);
    given.output.is_empty() && is_env(&said, variables)
}

// The file is emptied before the script starts.
#[test]
fn a_script_hands_on_its_variables(rt: HostRuntime) {
    let alloc = rt.alloc();
    assert!(rt; fs::write(&rt, "env.tmp", "B=2\n").is_ok());
    let command = "sh|-c|cat env.tmp; printf 'A=1\\n' >> env.tmp";
    let ask = script(&rt, alloc, command, "env.tmp");
    let mut spawner = ProcessSpawner::new(rt);
    let handed = hands_on(&rt, alloc, &mut spawner, &ask, b"A=1\n");
    assert!(rt; handed && spawner.faults() == 0);
    assert!(rt; fs::remove_file(&rt, "env.tmp").is_ok());
}

#[test]
fn a_script_without_a_file_hands_on_nothing(rt: HostRuntime) {
    let alloc = rt.alloc();
    let ask = script(&rt, alloc, "true", "");
    let mut spawner = ProcessSpawner::new(rt);
    assert!(rt; hands_on(&rt, alloc, &mut spawner, &ask, b""));
}

#[test]
fn a_file_that_cannot_be_made_is_named(rt: HostRuntime) {
    let alloc = rt.alloc();
    let ask = script(&rt, alloc, "true", "no-such-folder/env.tmp");
    let mut spawner = ProcessSpawner::new(rt);
    let refused = is_refused(&rt, alloc, &mut spawner, &ask, "environment file: ");
    assert!(rt; refused && spawner.faults() == 1);
}
