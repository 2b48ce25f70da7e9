//! What the nodes of a group answered.

ghost use Rattle.std.specs.Prelude.{◌≡◌};
ghost use Rattle.desk_status.specs.Levels.{greatest_place, place_or_zero, is_level, is_majority_level, level_count};

/// What a node answered that was asked for its board.
#[derive(Clone, Copy, Debug, PartialEq, Eq)]
pub enum NodeAnswer {
    /// It gave no reply, or one that shows no board.
    Down,
    /// It showed its board at this place, so many milliseconds after it was asked.
    Up { place: u64, milliseconds: u64 },
}

/// The place that a node reported, and 0 where it is down.
fn place_or_zero(answer: &NodeAnswer) -> u64
    ensures { result ≡ place_or_zero answer.now }
{
    match answer {
        NodeAnswer::Down => 0,
        NodeAnswer::Up {
            place,
            milliseconds: _,
        } => *place,
    }
}

/// The greatest place that a node reported, and 0 where none reported one.
pub fn greatest_place(answers: &[NodeAnswer]) -> u64
    ensures { result ≡ greatest_place answers.now }
{
    let mut greatest = 0;
    for answer in answers {
        greatest = place_or_zero(answer).max(greatest);
    }
    greatest
}

/// Whether a node is up, and reported this place.
fn is_level(answer: &NodeAnswer, greatest: u64) -> bool
    ensures { result ≡ is_level greatest answer.now }
{
    match answer {
        NodeAnswer::Down => false,
        NodeAnswer::Up {
            place,
            milliseconds: _,
        } => *place == greatest,
    }
}

/// How many nodes are up, and reported this place.
fn level_count(answers: &[NodeAnswer], greatest: u64) -> usize
    ensures { result ≡ level_count greatest answers.now }
{
    let mut count = 0;
    for answer in answers {
        if is_level(answer, greatest) {
            count += 1;
        }
    }
    count
}

/// Whether more than half of the nodes are level: each of these is up, and reported the greatest place that any node
/// reported.
pub fn is_majority_level(answers: &[NodeAnswer]) -> bool
    ensures { result ≡ is_majority_level answers.now }
{
    level_count(answers, greatest_place(answers)) > answers.len() / 2
}
