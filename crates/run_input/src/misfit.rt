// What is wrong with a line, and where.

/// What is wrong with a line, or at a place of its value.
#[derive(Clone, Copy, Drop)]
pub enum Wrong {
    /// The line has no byte.
    Empty,
    /// The line begins with a byte order mark.
    ByteOrderMark,
    /// The line is UTF-8 up to this byte, counted from 1.
    NotUtf8 { byte: usize },
    /// A control character stands at this byte, counted from 1.
    ControlCharacter { byte: usize },
    /// The line nests lists and objects deeper than 127 levels.
    TooDeep,
    /// The line is the front part of a JSON value.
    Unfinished,
    /// The line is no JSON at this byte, counted from 1.
    NotJson { byte: usize },
    /// A number is no whole number of 64 bits.
    Float,
    /// The object has no such key.
    UnknownKey,
    /// The object must have this key.
    MissingKey,
    /// There is no turn of this name, which stands as the place.
    UnknownTurn,
    /// The value is not so: what it is to be, as it stands after "is not".
    Not(&'static str),
    /// One of two keys must be there, and not both: this one and the other.
    NotOne(&'static str),
    /// It is a key of retries whose delays grow.
    NotExponential,
    /// It is a key of plan lines of version 2.
    NotSecondVersion,
}

/// What is wrong with a line, and where.
#[derive(Drop)]
pub struct Misfit {
    /// The keys and the numbers of items that lead there, as `tests[2].weight`: empty for the line itself, and none
    /// where memory was wanting for it.
    pub place: Option<String>,
    pub wrong: Wrong,
}

impl Misfit {
    // The same of a value that stands at a place, as `slow` or `tests[2]`.
    pub(crate) fn put_under(&mut self, outer: Option<String>) {
        let place = self.place.take();
        self.place = joined(outer, place);
    }

    // Says something else of a key that is unknown.
    pub(crate) fn know(&mut self, key: &str, wrong: Wrong) {
        let is_it = match &self.place {
            Some(place) => place.as_str() == key,
            None => false,
        };
        if is_it && matches!(self.wrong, Wrong::UnknownKey) {
            self.wrong = wrong;
        }
    }
}

// A place in what stands at another one.
fn joined(outer: Option<String>, place: Option<String>) -> Option<String> {
    let mut whole = outer?;
    let place = place?;
    if !place.is_empty() {
        whole.push('.').ok()?;
        whole.push_str(place.as_str()).ok()?;
    }
    Some(whole)
}
