// What came of the child of an attempt, by its own turns.
ghost use Rattle.std.specs.Prelude.{◌≡◌, IfOk, is_some};
ghost use Rattle.run_capture.specs.Captured.{read_error};
ghost use Rattle.run_model.specs.Attempts.{error_in, errors_heard, exit_of, output_by, output_of, result_by};
ghost use Rattle.run_model.specs.Attempts.{start_error_of};
ghost use Rattle.run_laws_plain.specs.Any.{has_any};

use crate::OwnTurn;
use crate::results::execution_result;
use crate::standing::has_timed_out;
use crate::streams::output_of;
use crate::timing::has_leaked;
use run_capture::{ChildFdError, Duplicate, List, Mem, Stream, Text};
use run_events::{ChildExecutionOutput, ChildExit, ExecutionResult};
use run_model::{AttemptTerms, CapturedStreams, UnitTurn};
use std::alloc::Global;

/// Whether the start of its child was refused.
pub(crate) fn is_refused(piece: &[OwnTurn]) -> bool
    ensures { result ≡ is_some (start_error_of piece.now) }
{
    let [turn, before @ ..] = piece else {
        return false;
    };
    is_refused(before) || matches!(turn.turn, UnitTurn::StartFailed { .. })
}

// The error that refused the start of its child, if one did.
fn refusal_of(alloc: Global, piece: &[OwnTurn]) -> Mem<Option<Text>>
    ensures { IfOk result (λ o. o ≡ start_error_of piece.now) }
{
    let [turn, before @ ..] = piece else {
        return Ok(None);
    };
    match (refusal_of(alloc, before)?, &turn.turn) {
        (None, UnitTurn::StartFailed { error }) => Ok(Some(error.copy(alloc)?)),
        (earlier, _) => Ok(earlier),
    }
}

// How its child ended, if it did.
fn exit_of(piece: &[OwnTurn]) -> Option<ChildExit>
    ensures { result ≡ exit_of piece.now }
{
    let [turn, before @ ..] = piece else {
        return None;
    };
    match (exit_of(before), &turn.turn) {
        (None, UnitTurn::Exit { exit }) => Some(*exit),
        (earlier, _) => earlier,
    }
}

// The error of reading a stream.
fn read_error(stream: Stream, text: Text) -> ChildFdError
    ensures { result ≡ read_error stream text }
{
    match stream {
        Stream::Stdout => ChildFdError::ReadStdout(text),
        Stream::Stderr => ChildFdError::ReadStderr(text),
        Stream::Combined => ChildFdError::ReadCombined(text),
    }
}

// The error that a turn is, of reading a stream or of the wait for its child.
fn error_in(alloc: Global, turn: &UnitTurn) -> Mem<Option<ChildFdError>>
    ensures { IfOk result (λ o. o ≡ error_in turn.now) }
{
    match turn {
        UnitTurn::ReadError { stream, error } => Ok(Some(read_error(*stream, error.copy(alloc)?))),
        UnitTurn::WaitFailed { error } => Ok(Some(ChildFdError::Wait(error.copy(alloc)?))),
        _ => Ok(None),
    }
}

// Its errors but that of its start, in order.
fn errors_of(alloc: Global, piece: &[OwnTurn]) -> Mem<List<ChildFdError>>
    ensures { IfOk result (λ l. l ≡ errors_heard piece.now) }
{
    let [turn, before @ ..] = piece else {
        return Ok(List::new());
    };
    let mut errors = errors_of(alloc, before)?;
    if let Some(error) = error_in(alloc, &turn.turn)? {
        errors.push(alloc, error)?;
    }
    Ok(errors)
}

// Whether a turn is an error of reading a stream or of the wait for its child.
fn is_error(turn: &UnitTurn) -> bool
    ensures { result ≡ is_some (error_in turn.now) }
{
    matches!(
        turn,
        UnitTurn::ReadError { .. } | UnitTurn::WaitFailed { .. }
    )
}

// Whether it has an error but that of its start.
#[tactic(auto, using(crate::proofs::OutcomeLemmas::any_more))]
fn has_errors(piece: &[OwnTurn]) -> bool
    ensures { result ≡ has_any (errors_heard piece.now) }
{
    let [turn, before @ ..] = piece else {
        return false;
    };
    has_errors(before) || is_error(&turn.turn)
}

/// The result of an attempt by the end of its child.
#[tactic(auto, using(crate::proofs::OutcomeLemmas::ended_as))]
pub(crate) fn child_result(terms: AttemptTerms, piece: &[OwnTurn]) -> ExecutionResult
    ensures { result ≡ result_by terms piece.now (start_error_of piece.now) }
{
    if is_refused(piece) {
        return ExecutionResult::ExecFail;
    }
    if has_timed_out(terms.slow, piece) {
        return ExecutionResult::Timeout {
            result: terms.slow.on_timeout,
        };
    }
    execution_result(
        exit_of(piece),
        has_errors(piece),
        has_leaked(piece),
        terms.leak.result,
    )
}

/// What came of its child, of each captured stream.
pub(crate) fn child_output(
    alloc: Global,
    streams: CapturedStreams,
    piece: &[OwnTurn],
) -> Mem<ChildExecutionOutput>
    ensures { IfOk result (λ o. o ≡ output_by (start_error_of piece.now) (output_of streams piece.now)
        (errors_heard piece.now)) }
{
    if let Some(error) = refusal_of(alloc, piece)? {
        return Ok(ChildExecutionOutput::StartError(error));
    }
    let output = output_of(alloc, streams, piece)?;
    let errors = errors_of(alloc, piece)?;
    Ok(ChildExecutionOutput::Output { output, errors })
}
