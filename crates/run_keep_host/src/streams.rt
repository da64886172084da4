// The streams that a child writes and this program reads.
use crate::waiting::readable;
use run_capture::{Mem, Stream};
use run_drive::Said;
use run_host::{piece, unread};
use std::alloc::Global;
use std::fs::Files;
use std::io;
use std::io::{ErrorKind, PipeReader, PipeWriter, Read};
use std::os::fd::AsRawFd;
use std::process::{Command, Stdio};

// A pipe that is read, and as which stream.
struct Captured {
    stream: Stream,
    reader: PipeReader,
}

// A call of its own, which keeps the proofs of all that hold one small.
impl Drop for Captured {
    fn drop(self) {
        let Captured {
            stream: _,
            reader: _,
        } = self;
    }
}

/// The captured streams of one child that haven't ended.
pub(crate) struct Streams {
    /// Its standard output, or both as one.
    output: Option<Captured>,
    /// Its standard error, apart.
    errors: Option<Captured>,
    /// Whether standard error is to be read first.
    errors_first: bool,
}

// The same for the streams.
impl Drop for Streams {
    fn drop(self) {
        let Streams {
            output: _,
            errors: _,
            errors_first: _,
        } = self;
    }
}

// How many bytes one read moves at most.
const PIECE: usize = 8192;

// As which stream the standard output of a child is captured, if it is.
fn output_of(streams: &[Stream]) -> Option<Stream> {
    for stream in streams {
        if !matches!(stream, Stream::Stderr) {
            return Some(*stream);
        }
    }
    None
}

// Whether the standard error of a child is captured apart.
fn captures_errors(streams: &[Stream]) -> bool {
    for stream in streams {
        if matches!(stream, Stream::Stderr) {
            return true;
        }
    }
    false
}

// A pipe of which one end is kept as this stream.
fn open(files: &impl Files, stream: Stream) -> io::Result<(Captured, PipeWriter)> {
    let (reader, writer) = io::pipe(files)?;
    Ok((Captured { stream, reader }, writer))
}

// Gives a command its standard output, and its standard error where both are captured as one.
fn add_output(files: &impl Files, command: &mut Command, stream: Stream) -> io::Result<Captured> {
    let (captured, writer) = open(files, stream)?;
    if matches!(stream, Stream::Combined) {
        command.stderr(writer.try_clone()?);
    }
    command.stdout(writer);
    Ok(captured)
}

// Gives a command its standard error.
fn add_errors(files: &impl Files, command: &mut Command) -> io::Result<Captured> {
    let (captured, writer) = open(files, Stream::Stderr)?;
    command.stderr(writer);
    Ok(captured)
}

// The same where that is captured.
fn open_output(
    files: &impl Files,
    command: &mut Command,
    stream: Option<Stream>,
) -> io::Result<Option<Captured>> {
    match stream {
        Some(stream) => Ok(Some(add_output(files, command, stream)?)),
        None => Ok(None),
    }
}

// The same of standard error.
fn open_errors(
    files: &impl Files,
    command: &mut Command,
    is_captured: bool,
) -> io::Result<Option<Captured>> {
    if is_captured {
        Ok(Some(add_errors(files, command)?))
    } else {
        Ok(None)
    }
}

// The descriptor of a stream, negative where there is none.
fn fd_of(captured: &Option<Captured>) -> i32 {
    match captured {
        Some(captured) => captured.reader.as_raw_fd(),
        None => -1,
    }
}

// What one read of a stream gives.
fn read_said(alloc: Global, from: &mut Captured) -> Mem<Option<Said>> {
    let stream = from.stream;
    let mut buffer = [0u8; PIECE];
    match from.reader.read(&mut buffer) {
        Ok(count) if count > 0 && count <= PIECE => Ok(Some(piece(
            alloc,
            stream,
            &buffer[..count],
        )?)),
        Ok(_) => Ok(Some(Said::End { stream })),
        Err(error) if error.kind() == ErrorKind::Interrupted => Ok(None),
        Err(error) => Ok(Some(unread(alloc, stream, &error)?)),
    }
}

// Whether nothing comes of a stream after a word of it.
fn closes(said: &Option<Said>) -> bool {
    matches!(said, Some(Said::End { .. } | Said::ReadError { .. }))
}

// Reads a stream that can be read, and closes it where nothing more comes of it.
fn read(alloc: Global, from: &mut Option<Captured>) -> Mem<Option<Said>> {
    let said = match from {
        Some(captured) => read_said(alloc, captured)?,
        None => None,
    };
    if closes(&said) {
        *from = None;
    }
    Ok(said)
}

impl Streams {
    /// Gives a command its streams, and keeps the ends that are read of those that are captured. Standard output that
    /// isn't captured goes nowhere, and standard error then is that of the program.
    pub fn open(
        files: &impl Files,
        command: &mut Command,
        streams: &[Stream],
    ) -> io::Result<Streams> {
        command.stdout(Stdio::null());
        let output = open_output(files, command, output_of(streams))?;
        let errors = open_errors(files, command, captures_errors(streams))?;
        Ok(Streams {
            output,
            errors,
            errors_first: false,
        })
    }

    /// Whether each of them has ended.
    pub fn is_over(&self) -> bool {
        self.output.is_none() && self.errors.is_none()
    }

    /// What comes of one of them within so many milliseconds; by turns where both have something.
    pub fn next(&mut self, alloc: Global, most: u16) -> Mem<Option<Said>> {
        let (output, errors) = readable(fd_of(&self.output), fd_of(&self.errors), most);
        if errors && (self.errors_first || !output) {
            self.errors_first = false;
            return read(alloc, &mut self.errors);
        }
        self.errors_first = true;
        if output {
            read(alloc, &mut self.output)
        } else {
            Ok(None)
        }
    }
}
