// What a program says of itself.

const MEMORY_LINE: &str = "{\"fault\":\"memory\",\"status\":11}";

/// Prints a text, and answers the status of that.
pub fn print(rt: &impl Print, text: &str) -> u8 {
    match println!(rt; "{text}") {
        Ok(()) => 0,
        Err(_) => 9,
    }
}

/// Prints the line of want of memory, where it came before the words were known, and answers the status of that.
pub fn print_memory(rt: &impl Print) -> u8 {
    let _ = println!(rt; "{MEMORY_LINE}");
    11
}

/// Says on standard error why a program ended, if that is an error.
pub fn say_error(rt: &impl Eprint, program: &str, error: Option<&str>) {
    if let Some(text) = error {
        let _ = eprintln!(rt; "{program}: error: {text}");
    }
}
