// The table of rows.

/// How the streams of a row behave.
#[derive(Clone, Copy)]
pub struct Streams {
    /// The number of the read that fails, counted from 1; 0 for none.
    pub failing_read: u64,
    /// The same of the writes.
    pub failing_write: u64,
    /// So many bytes are moved at a time, at most.
    pub most: usize,
    /// The input is filled until it has so many bytes: its first line with spaces, or a store with zeros at its end.
    pub filled: usize,
}

impl Streams {
    /// Streams that don't fail.
    pub fn sound() -> Streams {
        Streams {
            failing_read: 0,
            failing_write: 0,
            most: 65536,
            filled: 0,
        }
    }

    // The same with a setting, as `write=2`; none where there is no such setting.
    fn with(self, setting: &str) -> Option<Streams> {
        let (key, value) = setting.split_once('=')?;
        let number = value.parse::<u64>().ok()?;
        match key {
            "read" => Some(Streams {
                failing_read: number,
                ..self
            }),
            "write" => Some(Streams {
                failing_write: number,
                ..self
            }),
            "most" => Some(Streams {
                most: number as usize,
                ..self
            }),
            "fill" => Some(Streams {
                filled: number as usize,
                ..self
            }),
            _ => None,
        }
    }
}

/// What the children of a row do, where it runs live.
#[derive(Clone, Copy)]
pub enum Child {
    None,
    /// It is refused with `x`.
    Refused,
    /// It ends its standard output, writes `a` to it, ends its standard error and exits with 0.
    Mixed,
    /// It starts, and nothing is said of it.
    Silent,
    /// It writes `hello`, a line feed and, to its standard error, `!`, ends both streams and exits with 0.
    Prints,
    /// It exits with 1, and what is tried again prints.
    Retried,
    /// A setup script hands on the variable `A`, and then the test's child prints.
    Script,
}

// The child that a setting says, as `child=silent`; none where it says none.
fn child_of(setting: &str) -> Option<Child> {
    match setting {
        "child=refused" => Some(Child::Refused),
        "child=mixed" => Some(Child::Mixed),
        "child=silent" => Some(Child::Silent),
        "child=prints" => Some(Child::Prints),
        "child=retried" => Some(Child::Retried),
        "child=script" => Some(Child::Script),
        _ => None,
    }
}

/// What the top call is given, and the status that it is to answer.
#[derive(Drop)]
pub struct Row<'a> {
    pub name: &'a str,
    /// The name of the input, or `-` for an empty one.
    pub input: &'a str,
    /// The words with commas between them, `-` for none, or `?` for words of which one is not UTF-8.
    pub words: &'a str,
    pub status: u8,
    pub streams: Streams,
    pub child: Child,
    /// Whether what standard error is to say is compared.
    pub says: bool,
}

/// The row that a line of the table says, if it says one.
pub fn row_of(line: &str) -> Option<Row<'_>> {
    let mut fields = line.split_whitespace();
    let name = fields.next()?;
    let input = fields.next()?;
    let words = fields.next()?;
    let status = fields.next()?.parse::<u8>().ok()?;
    let mut streams = Streams::sound();
    let mut child = Child::None;
    let mut says = false;
    for setting in fields {
        match child_of(setting) {
            Some(does) => child = does,
            None if setting == "says" => says = true,
            None => streams = streams.with(setting)?,
        }
    }
    Some(Row {
        name,
        input,
        words,
        status,
        streams,
        child,
        says,
    })
}
