// What is said of a call on standard error.
use crate::failures::{Failure, Named};
use run_capture::Text;
use run_filter::FilterFault;
use run_input::{Misfit, Refusal, Wrong};
use run_plan::{PlanFault, WordFault};
use std::alloc::{AllocError, Global};
use std::io;

const NO_MEMORY: &str = "memory was wanting";

type Said = Result<String, AllocError>;

// What is wrong with a word: the one at a place, or the last, whose value is missing.
fn word_said(alloc: Global, words: &[String], place: usize, fault: WordFault) -> Said {
    let word = match words.get(place).or(words.last()) {
        Some(word) => word.as_str(),
        None => "",
    };
    let wrong = match fault {
        WordFault::Unknown => "is no word of this program",
        WordFault::NoValue => "wants a value",
        WordFault::HasValue => "takes no value",
        WordFault::BadValue => "is no such value, or has none",
        WordFault::Twice => "says what was said before",
    };
    format!(in alloc; "the words are wrong: {word:?} {wrong}: see nextest_plan --help")
}

fn name_of(named: Named) -> &'static str {
    match named {
        Named::List => "the list of tests",
        Named::Cfg => "what the compiler says of the platform",
        Named::Config => "the profile file",
    }
}

// What is wrong with JSON as a whole.
fn json_said(wrong: Wrong) -> &'static str {
    match wrong {
        Wrong::Empty => "it is empty",
        Wrong::ByteOrderMark => "it begins with a byte order mark",
        Wrong::TooDeep => "nested deeper than 127",
        Wrong::Unfinished => "it ends before its JSON does",
        _ => "it is wrong",
    }
}

fn byte_said(alloc: Global, what: &str, byte: usize) -> Said {
    format!(in alloc; "{what} at byte {byte}")
}

// What is wrong with JSON, at a place of it.
fn wrong_said(alloc: Global, wrong: Wrong, place: &str) -> Said {
    match wrong {
        Wrong::NotUtf8 { byte } => byte_said(alloc, "not UTF-8", byte),
        Wrong::NotJson { byte } => byte_said(alloc, "not JSON", byte),
        Wrong::ControlCharacter { byte } => byte_said(alloc, "a control character", byte),
        Wrong::MissingKey => format!(in alloc; "missing key {place:?}"),
        Wrong::Not(wanted) => format!(in alloc; "{place:?} is not {wanted}"),
        _ => String::from_str(alloc, json_said(wrong)),
    }
}

fn misfit_said(alloc: Global, misfit: &Misfit) -> Said {
    let place = match &misfit.place {
        Some(place) => place.as_str(),
        None => "",
    };
    let wrong = wrong_said(alloc, misfit.wrong, place)?;
    let wrong = wrong.as_str();
    format!(in alloc; "the list of tests is none: {wrong}")
}

fn list_said(alloc: Global, refusal: Refusal) -> Said {
    match refusal.into_misfit() {
        Ok(Some(misfit)) => misfit_said(alloc, &misfit),
        Ok(None) | Err(_) => String::from_str(alloc, NO_MEMORY),
    }
}

fn filter_said(alloc: Global, number: usize, place: usize, fault: FilterFault) -> Said {
    let number = number.saturating_add(1);
    format!(in alloc; "filter {number} of the words: at byte {place}: {fault}")
}

// What is wrong in the profile file, with no path.
fn profile_said(fault: &PlanFault) -> &'static str {
    match fault {
        PlanFault::AsksItself => "the default filter asks `default()`",
        PlanFault::NeedsNewer => "it asks for a version above 0.9.129",
        _ => "two setup scripts stand in one line of it, which says no order of them",
    }
}

// Why no plan is made of what was read.
fn reason_said(fault: &PlanFault) -> &'static str {
    match fault {
        PlanFault::NoTests => "no test is to be run",
        PlanFault::TooMany => "there are 4,294,967,296 tests, binaries or groups, or more",
        PlanFault::TooLong => "the plan has more than 16,777,216 bytes",
        _ => NO_MEMORY,
    }
}

fn fault_said(alloc: Global, fault: &PlanFault) -> Said {
    match fault {
        PlanFault::NotToml(error) => format!(in alloc; "the profile file: {error}"),
        PlanFault::Profile { path, fault } => {
            let path = path.as_str();
            format!(in alloc; "the profile file: {path}: {fault}")
        }
        PlanFault::ProfileFilter { path, place, fault } => {
            let path = path.as_str();
            format!(in alloc; "the profile file: {path}: at byte {place}: {fault}")
        }
        PlanFault::Filter {
            number,
            place,
            fault,
        } => filter_said(alloc, *number, *place, *fault),
        PlanFault::AsksItself | PlanFault::NeedsNewer | PlanFault::ScriptOrder => {
            let text = profile_said(fault);
            format!(in alloc; "the profile file: {text}")
        }
        _ => String::from_str(alloc, reason_said(fault)),
    }
}

fn plan_said(alloc: Global, fault: PlanFault) -> Said {
    match fault {
        PlanFault::List(refusal) => list_said(alloc, refusal),
        fault => fault_said(alloc, &fault),
    }
}

fn file_said(alloc: Global, named: Named, name: &Text, error: &io::Error) -> Said {
    let (named, name) = (name_of(named), name.as_str());
    format!(in alloc; "{named}, {name:?}, can't be read: {error}")
}

fn failure_said(alloc: Global, words: &[String], failure: Failure) -> Said {
    match failure {
        Failure::Word { place, fault } => word_said(alloc, words, place, fault),
        Failure::NoList => {
            String::from_str(
                alloc,
                "the words are wrong: no --list FILE: see nextest_plan --help",
            )
        }
        Failure::File { named, name, error } => file_said(alloc, named, &name, &error),
        Failure::NoId => String::from_str(alloc, "the system hands out no id for the run"),
        Failure::Plan(fault) => plan_said(alloc, fault),
        Failure::OutOfMemory => String::from_str(alloc, NO_MEMORY),
    }
}

/// Says why there is no plan line.
pub fn say_failure<R: Eprint + AllocGlobal>(
    rt: &R,
    program: &str,
    words: &[String],
    failure: Failure,
) {
    let _ = match failure_said(rt.alloc(), words, failure) {
        Ok(text) => {
            let text = text.as_str().trim();
            eprintln!(rt; "{program}: error: {text}")
        }
        Err(_) => eprintln!(rt; "{program}: error: {NO_MEMORY}"),
    };
}

/// Says which keys of a profile file change no plan.
pub fn say_notes<R: Eprint>(rt: &R, program: &str, notes: &[Text]) {
    for note in notes {
        let note = note.as_str();
        let _ = eprintln!(rt; "{program}: note: {note} changes no plan");
    }
}
