// The words of a command, as a POSIX shell splits it, with no expansion: a machine over its characters.
mod char_kind;
mod command_words;
mod machine;
mod splitting;
mod word_list;
mod words_error;

pub use command_words::CommandWords;
pub use words_error::WordsError;
