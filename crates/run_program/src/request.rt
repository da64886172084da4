// What the words of a program ask for.
use std::alloc::{Alloc, Global};
use std::env::Env;
use std::{env, io};

/// What a program is asked for.
pub enum Request {
    Help,
    Version,
    /// What its top call does with these words.
    Run(Vec<String>),
    /// A word is not UTF-8.
    NoText,
    /// The words could not be copied for want of memory.
    NoMemory,
}

// The words after the program's name.
fn words_given<R: Env + Alloc<A = Global>>(rt: &R) -> io::Result<Vec<String>> {
    let mut words = Vec::new(rt.alloc());
    for word in env::args(rt)?.skip(1) {
        words.push(word)?;
    }
    Ok(words)
}

// Whether a word is one of these.
fn is_one_of(word: &str, names: &[&str]) -> bool {
    for name in names {
        if word == *name {
            return true;
        }
    }
    false
}

// Whether a word asks for help.
fn is_help(word: &str) -> bool {
    is_one_of(word, &["--help", "-h"])
}

// Whether the words ask for help: alone, or after one of these commands.
fn ask_help(commands: &[&str], words: &[String]) -> bool {
    match words {
        [word] => is_help(word.as_str()) || word.as_str() == "help",
        [command, word] => is_one_of(command.as_str(), commands) && is_help(word.as_str()),
        _ => false,
    }
}

// Whether the words ask for the version.
fn ask_version(words: &[String]) -> bool {
    match words {
        [word] => is_one_of(word.as_str(), &["--version", "-V"]),
        _ => false,
    }
}

/// What a program with these commands is asked for: its help by `--help` or `-h`, also after a command, and by `help`;
/// its version by `--version` or `-V`.
pub fn request_of<R: Env + Alloc<A = Global>>(rt: &R, commands: &[&str]) -> Request {
    match words_given(rt) {
        Ok(words) => {
            if ask_help(commands, words.as_slice()) {
                Request::Help
            } else if ask_version(words.as_slice()) {
                Request::Version
            } else {
                Request::Run(words)
            }
        }
        Err(error) if error.kind() == io::ErrorKind::OutOfMemory => Request::NoMemory,
        Err(_) => Request::NoText,
    }
}
