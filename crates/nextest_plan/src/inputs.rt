// What a call is given: its words, the files that they name, an id for the run, and how many processors there are.
use crate::failures::{Failure, Named};
use run_capture::{List, Mem, Text};
use run_plan::{Call, Files, Texts};
use std::alloc::Global;
use std::fs;
use std::io::{self, ErrorKind};
use std::thread::{Threads, available_parallelism};
use uuid::Uuid;

/// The system's source of random ids.
const IDS: &str = "/proc/sys/kernel/random/uuid";

/// What the files of a call have.
#[derive(Drop)]
pub struct Given {
    list: Vec<u8>,
    cfg: Option<String>,
    config: Option<String>,
}

fn as_str(text: &Option<String>) -> Option<&str> {
    match text {
        Some(text) => Some(text.as_str()),
        None => None,
    }
}

impl Given {
    pub fn texts(&self) -> Texts<'_> {
        Texts {
            list: self.list.as_slice(),
            cfg: as_str(&self.cfg),
            config: as_str(&self.config),
        }
    }
}

// What became of a file that can't be read.
fn unread(alloc: Global, named: Named, name: &str, error: io::Error) -> Failure {
    if error.kind() == ErrorKind::OutOfMemory {
        return Failure::OutOfMemory;
    }
    match Text::from_str(alloc, name) {
        Ok(name) => Failure::File { named, name, error },
        Err(_) => Failure::OutOfMemory,
    }
}

fn list_of<R: fs::Files + AllocGlobal>(rt: &R, name: &Option<Text>) -> Result<Vec<u8>, Failure> {
    let Some(name) = name else {
        return Err(Failure::NoList);
    };
    match fs::read(rt, name.as_str()) {
        Ok(bytes) => Ok(bytes),
        Err(error) => Err(unread(rt.alloc(), Named::List, name.as_str(), error)),
    }
}

// The text of a file, where words name one.
fn text_of<R: fs::Files + AllocGlobal>(
    rt: &R,
    named: Named,
    name: &Option<Text>,
) -> Result<Option<String>, Failure> {
    let Some(name) = name else {
        return Ok(None);
    };
    match fs::read_to_string(rt, name.as_str()) {
        Ok(text) => Ok(Some(text)),
        Err(error) => Err(unread(rt.alloc(), named, name.as_str(), error)),
    }
}

/// Reads the files that words name: the list, which some word must name, then what the compiler says of the platform,
/// and the profile file.
pub fn given_by<R: fs::Files + AllocGlobal>(rt: &R, files: &Files) -> Result<Given, Failure> {
    let list = list_of(rt, &files.list)?;
    let cfg = text_of(rt, Named::Cfg, &files.cfg)?;
    let config = text_of(rt, Named::Config, &files.config)?;
    Ok(Given { list, cfg, config })
}

fn add(alloc: Global, args: &mut List<Text>, word: &str) -> Mem<()> {
    let word = Text::from_str(alloc, word)?;
    args.push(alloc, word)
}

/// The words of a call, with the program's name before them.
pub fn args_of(alloc: Global, program: &str, words: &[String]) -> Mem<List<Text>> {
    let mut args = List::new();
    add(alloc, &mut args, program)?;
    for word in words {
        add(alloc, &mut args, word.as_str())?;
    }
    Ok(args)
}

// A random id, as the system makes one at each reading.
fn random_id<R: fs::Files + AllocGlobal>(rt: &R) -> Result<Uuid, Failure> {
    let text = match fs::read_to_string(rt, IDS) {
        Ok(text) => text,
        Err(error) if error.kind() == ErrorKind::OutOfMemory => return Err(Failure::OutOfMemory),
        Err(_) => return Err(Failure::NoId),
    };
    match Uuid::parse_str(text.as_str().trim()) {
        Ok(id) => Ok(id),
        Err(_) => Err(Failure::NoId),
    }
}

/// How many processors there are: one where the system doesn't say it.
pub fn processors(rt: &impl Threads) -> u32 {
    match available_parallelism(rt) {
        Ok(count) => u32::try_from(count.get()).unwrap_or(u32::MAX),
        Err(_) => 1,
    }
}

/// A call of these words: a run with an id of its own, on so many processors.
pub fn call_of<R: fs::Files + AllocGlobal>(
    rt: &R,
    processors: u32,
    args: List<Text>,
) -> Result<Call, Failure> {
    let run_id = random_id(rt)?;
    Ok(Call {
        run_id,
        processors,
        args,
    })
}
