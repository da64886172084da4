// What a unit's child wrote to its streams, by the turns of an attempt, the newest first.
ghost use Rattle.std.specs.Prelude.{◌≡◌, ◌++◌, IfOk, OnOk};
ghost use Rattle.run_capture.specs.Heard.{is_stream};
ghost use Rattle.run_capture.specs.declared.test_output.ChildOutput.TheVariants.{Split};
ghost use Rattle.run_model.specs.Attempts.{are_streams_done, bytes_in, bytes_heard, bytes_where, ends_stream};
ghost use Rattle.run_model.specs.Attempts.{is_stream_done, output_of};
ghost use Rattle.run_model.specs.declared.unit_view.CapturedStreams.TheVariants as captured;

use crate::OwnTurn;
use run_capture::{Blob, ChildOutput, ChildSplitOutput, Mem, Stream};
use run_model::{CapturedStreams, UnitTurn};
use std::alloc::Global;

// Whether two streams are one.
fn is_stream(stream: Stream, other: Stream) -> bool
    ensures { result ≡ is_stream stream other }
{
    match stream {
        Stream::Stdout => matches!(other, Stream::Stdout),
        Stream::Stderr => matches!(other, Stream::Stderr),
        Stream::Combined => matches!(other, Stream::Combined),
    }
}

// Adds what a turn wrote to a stream.
fn add_bytes(alloc: Global, bytes: &mut Blob, stream: Stream, turn: &UnitTurn) -> Mem<()>
    ensures { OnOk result (bytes.new ≡ bytes.old ++ bytes_in stream turn.now) }
{
    match turn {
        UnitTurn::Piece {
            stream: other,
            bytes: more,
        } if is_stream(stream, *other) => bytes.extend_from_slice(alloc, more.as_slice()),
        _ => Ok(()),
    }
}

// What was written to a stream, in order.
fn bytes_of(alloc: Global, stream: Stream, piece: &[OwnTurn]) -> Mem<Blob>
    ensures { IfOk result (λ b. b ≡ bytes_heard stream piece.now) }
{
    let [turn, before @ ..] = piece else {
        return Ok(Blob::new(alloc));
    };
    let mut bytes = bytes_of(alloc, stream, before)?;
    add_bytes(alloc, &mut bytes, stream, &turn.turn)?;
    Ok(bytes)
}

// The same where that is captured.
fn bytes_where(
    alloc: Global,
    is_captured: bool,
    stream: Stream,
    piece: &[OwnTurn],
) -> Mem<Option<Blob>>
    ensures { IfOk result (λ b. b ≡ bytes_where is_captured stream piece.now) }
{
    if is_captured {
        Ok(Some(bytes_of(alloc, stream, piece)?))
    } else {
        Ok(None)
    }
}

// What was written to both streams, each by itself, where it is captured.
fn split_of(alloc: Global, stdout: bool, stderr: bool, piece: &[OwnTurn]) -> Mem<ChildSplitOutput>
    ensures { IfOk result (λ split. Split split ≡ output_of (captured.Apart stdout stderr) piece.now) }
{
    let stdout = bytes_where(alloc, stdout, Stream::Stdout, piece)?;
    let stderr = bytes_where(alloc, stderr, Stream::Stderr, piece)?;
    Ok(ChildSplitOutput { stdout, stderr })
}

/// The output of an attempt, of each captured stream.
pub(crate) fn output_of(
    alloc: Global,
    streams: CapturedStreams,
    piece: &[OwnTurn],
) -> Mem<ChildOutput>
    ensures { IfOk result (λ output. output ≡ output_of streams piece.now) }
{
    match streams {
        CapturedStreams::Apart { stdout, stderr } => {
            Ok(ChildOutput::Split(split_of(alloc, stdout, stderr, piece)?))
        }
        CapturedStreams::Combined => Ok(ChildOutput::Combined {
            output: bytes_of(alloc, Stream::Combined, piece)?,
        }),
    }
}

// Whether a turn ends a stream.
fn ends_stream(stream: Stream, turn: &UnitTurn) -> bool
    ensures { result ≡ ends_stream stream turn.now }
{
    match turn {
        UnitTurn::StreamEnd { stream: other } => is_stream(stream, *other),
        UnitTurn::ReadError { stream: other, .. } => is_stream(stream, *other),
        _ => false,
    }
}

// Whether a stream is done.
fn is_stream_done(stream: Stream, piece: &[OwnTurn]) -> bool
    ensures { result ≡ is_stream_done stream piece.now }
{
    let [turn, before @ ..] = piece else {
        return false;
    };
    ends_stream(stream, &turn.turn) || is_stream_done(stream, before)
}

/// Whether each captured stream is done.
pub(crate) fn are_streams_done(streams: CapturedStreams, piece: &[OwnTurn]) -> bool
    ensures { result ≡ are_streams_done streams piece.now }
{
    match streams {
        CapturedStreams::Apart { stdout, stderr } => {
            (!stdout || is_stream_done(Stream::Stdout, piece))
                && (!stderr || is_stream_done(Stream::Stderr, piece))
        }
        CapturedStreams::Combined => is_stream_done(Stream::Combined, piece),
    }
}
