// What is said of the words that the program was given.
use crate::message::{Message, message_of, plain};
use std::alloc::{AllocError, Global};

const USAGE: &str =
    "usage: nextest_run run < PLAN, or nextest_run replay < INPUT; nextest_run --help says more";

const WIDTH_HINT: &str =
    "usage: nextest_run progress WIDTH < INPUT, with a width from 1 to 1000, in digits alone";

const TESTS_HINT: &str =
    "usage: nextest_run generate TESTS, with a number from 1 to 20000, in digits alone";

// Whether a word is one after which none comes.
fn stands_alone(word: &str) -> bool {
    matches!(
        word,
        "run" | "live" | "replay" | "help" | "--help" | "-h" | "--version" | "-V"
    )
}

// Whether the first word is the command that takes a width.
fn is_progress(words: &[String]) -> bool {
    match words {
        [word, ..] => word.as_str() == "progress",
        [] => false,
    }
}

// Whether the first word is the command that takes a number of tests.
fn is_generate(words: &[String]) -> bool {
    match words {
        [word, ..] => word.as_str() == "generate",
        [] => false,
    }
}

// What helps with words that are no command.
fn words_hint(words: &[String]) -> &'static str {
    if is_progress(words) {
        WIDTH_HINT
    } else if is_generate(words) {
        TESTS_HINT
    } else {
        USAGE
    }
}

// What is wrong with words that are no command. A word may have any character, so it is escaped.
fn words_fault(alloc: Global, words: &[String]) -> Result<String, AllocError> {
    match words {
        [] => String::from_str(alloc, "no command is given"),
        [_] if is_progress(words) => String::from_str(alloc, "no width is given to \"progress\""),
        [_, width] if is_progress(words) => format!(in alloc; "{width:?} is no width"),
        [_, _, word, ..] if is_progress(words) => {
            format!(in alloc; "unexpected word {word:?} after the width")
        }
        [_] if is_generate(words) => {
            String::from_str(alloc, "no number of tests is given to \"generate\"")
        }
        [_, tests] if is_generate(words) => format!(in alloc; "{tests:?} is no number of tests"),
        [_, _, word, ..] if is_generate(words) => {
            format!(in alloc; "unexpected word {word:?} after the number of tests")
        }
        [command, word, ..] if stands_alone(command.as_str()) => {
            format!(in alloc; "unexpected word {word:?} after {command:?}")
        }
        [word, ..] => format!(in alloc; "unknown command {word:?}"),
    }
}

/// Of words that are no command; none where one of them is not UTF-8.
pub(crate) fn of_words(alloc: Global, words: Option<&[String]>) -> Result<Message, AllocError> {
    match words {
        Some(words) => message_of(alloc, words_fault(alloc, words), words_hint(words)),
        None => plain(alloc, "a word is not UTF-8", USAGE),
    }
}

/// Whether the words are the command that takes a plan line alone.
pub(crate) fn is_live(words: Option<&[String]>) -> bool {
    match words {
        Some([word]) => word.as_str() == "live",
        _ => false,
    }
}

/// Whether the words are a command that starts what a plan says.
pub(crate) fn starts_children(words: Option<&[String]>) -> bool {
    match words {
        Some([word]) => matches!(word.as_str(), "run" | "live"),
        _ => false,
    }
}
