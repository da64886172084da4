// A unit's own turns, and how they are cut where it was let go.
ghost use Rattle.std.specs.Prelude.{◌≡◌, ◌<◌, ◌≤◌, length, IfSome};
ghost use Rattle.run_model.specs.Story.{begins_attempt, decides, pieces};
ghost use Rattle.run_laws_plain.specs.Newest.{newest, decided_count, attempts_with};

use run_events::Request;
use run_model::UnitTurn;
use std::marker::Model;

/// A unit's own turn, at a moment of the run's clock in nanoseconds.
#[derive(Drop)]
pub struct OwnTurn {
    pub moment: u64,
    pub turn: UnitTurn,
    /// The request that it takes, if it takes one.
    pub request: Option<Request>,
}

impl Model for OwnTurn {
    ghost use Rattle.run_model.specs.Story.{OwnTurn as Defined};

    ghost Value = { Defined };

    ghost view = { λ t. record { moment = t.moment; turn = t.turn; request = t.request } };
}

// Whether an attempt begins with a turn: the unit is let go.
pub(crate) fn begins_attempt(turn: &UnitTurn) -> bool
    ensures { result ≡ begins_attempt turn.now }
{
    matches!(turn, UnitTurn::Answered { go: true })
}

// Whether a turn decides what comes after an attempt.
pub(crate) fn decides(turn: &UnitTurn) -> bool
    ensures { result ≡ decides turn.now }
{
    matches!(turn, UnitTurn::Decide { .. })
}

// How many turns the newest attempt of a story has, where the story has the newest turn first; 0 where it has no
// attempt.
fn newest(story: &[OwnTurn]) -> usize
    ensures turns { result ≡ newest story.now }
    ensures within { result ≤ length story.now }
{
    let [turn, before @ ..] = story else {
        return 0;
    };
    if begins_attempt(&turn.turn) {
        return 1;
    }
    match newest(before) {
        0 => 0,
        turns => turns + 1,
    }
}

// How many of these are from its decide on.
fn decided(story: &[OwnTurn]) -> usize
    ensures turns { result ≡ decided_count story.now }
    ensures within { result ≤ length story.now }
{
    let [turn, before @ ..] = story else {
        return 0;
    };
    if begins_attempt(&turn.turn) {
        return 0;
    }
    match decided(before) {
        0 => usize::from(decides(&turn.turn)),
        turns => turns + 1,
    }
}

// The newest attempt of a story.
#[derive(Drop)]
pub struct NewestAttempt<'a> {
    // Its turns, from the one that let it go until it is decided on, and those from then on, the newest first.
    pub piece: &'a [OwnTurn],
    pub after: &'a [OwnTurn],
    // The story before it.
    pub before: &'a [OwnTurn],
}

impl<'a> Model for NewestAttempt<'a> {
    ghost use Rattle.run_laws_plain.specs.Newest.{NewestAttempt as Defined};

    ghost Value = { Defined };

    ghost view = { λ n. record { piece = n.piece.now; after = n.after.now; before = n.before.now } };
}

#[tactic(auto, using(crate::proofs::Cuts::cut_newest, crate::proofs::Cuts::no_piece, crate::proofs::Cuts::decided_within))]
// The newest attempt of a story, if it has one.
pub(crate) fn newest_attempt(story: &[OwnTurn]) -> Option<NewestAttempt<'_>>
    ensures cut { pieces story.now ≡ attempts_with result }
    ensures shorter { IfSome result (λ newest. length newest.before < length story.now) }
{
    let turns = newest(story);
    if turns == 0 {
        return None;
    }
    let (attempt, before) = story.split_at(turns);
    let (after, piece) = attempt.split_at(decided(story));
    Some(NewestAttempt {
        piece,
        after,
        before,
    })
}

// How many attempts a story has.
pub(crate) fn count_attempts(story: &[OwnTurn]) -> usize
    ensures count { result ≡ length (pieces story.now) }
    ensures within { result ≤ length story.now }
{
    let [turn, before @ ..] = story else {
        return 0;
    };
    count_attempts(before) + usize::from(begins_attempt(&turn.turn))
}
