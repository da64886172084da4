// Theorems over every legal journal.
ghost use Rattle.run_laws_rounds.specs.Answers.{AnswersAreOwnTurns};
ghost use Rattle.run_laws_rounds.specs.Elapsed.{ActiveTimeIsCounted};
ghost use Rattle.run_laws_rounds.specs.LiveCounts.{CountsMove};
ghost use Rattle.run_laws_rounds.specs.Queries.{NoneAnswersTwice, QueriesAreTold};
ghost use Rattle.run_laws_rounds.specs.Requests.{FinishesAnswer, RequestsAreAnswered, StopsAreCounted};
ghost use Rattle.run_laws_rounds.specs.UnitTurns.{UnitTurnsAreOwn};

/// In the newest sub-run of every legal journal what a script or test took is the first part of what was broadcast
/// while it was live, in order; and it answered just the queries that it took, each once and in order, or, where it has
/// ended its last attempt, just those that were broadcast to it. The turn with which it has ended that answers each
/// query in its line once, with its own round and with what came of that attempt. Each stop that leaves a line is
/// counted once.
pub fn requests_are_answered()
    ensures requests { RequestsAreAnswered }
    ensures finishes { FinishesAnswer }
    ensures stops { StopsAreCounted }
{}

/// Each turn of a legal journal broadcasts a query, and tells that units are asked, exactly where it asks what they are
/// doing, with the count of the live ones. Each turn that asks for an answer tells one: the nth in its round, counted
/// from 0, is the nth that was given in it, with that index and with as many as were asked. Each end of a round tells
/// of how many of them no answer was told. No more answers are given in a round, and told, than units were asked. The
/// rounds are those of the sub-run, counted from 0 in each.
pub fn queries_are_told()
    ensures turns { QueriesAreTold }
    ensures fits { NoneAnswersTwice }
{}

/// After every legal journal the active time of the run, which its stopwatch shows and its events say, is how far the
/// turns moved the clock while the run wasn't paused.
pub fn active_time_is_counted()
    ensures { ActiveTimeIsCounted }
{}

/// With each turn of a legal journal the count of live units, and that of the units that hold a request which isn't
/// asked with it, are moved by the unit alone whose turn it is; and what a new round asks is held by each live unit and
/// no other.
pub fn live_counts_move()
    ensures { CountsMove }
{}

/// The turn of a legal journal with which a script or test takes a query answers that alone, with its round, and says
/// what it is doing as its own turns say it: its child runs, is given time to end, or has ended and its streams are
/// waited for; or its attempt failed, and a delay passes: as which process, for which time so far, since when it is
/// slow, why it ends, how long it has waited and still does, and what was captured.
pub fn answers_are_own_turns()
    ensures { AnswersAreOwnTurns }
{}

/// After every legal journal each turn of a script or a test but its timer is enabled exactly where the run isn't
/// over and the unit's own turns in the newest sub-run say so, also while a round is open or the run is paused. Of an
/// attempt that wasn't decided on: the start of its child, and that it was refused, where neither came; the end of
/// its child, and that the wait for it failed, where the child started and neither came, also where the child was
/// killed; what comes of a stream that is captured and not done, where the child started, is not done with, and
/// wasn't killed at once as it ran out of time; what its environment file is, where its child ended well and the file
/// is to be read; and its decision where it has ended. It takes a request where one waits in its line and its streams
/// would be heard, or a delay passes before its next attempt.
pub fn unit_turns_are_own()
    ensures { UnitTurnsAreOwn }
{}
