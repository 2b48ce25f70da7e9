//! The laws that the reading of replies keeps.

ghost use Rattle.std.specs.Prelude.{◌≡◌, ◌≤◌, ◌<◌, ◌^◌, ℕ, Some};
ghost use Rattle.desk_types.specs.declared.outcome.Outcome.{Outcome};
ghost use Rattle.desk_types.specs.declared.outcome.Outcome.TheVariants as outcomes;
ghost use Rattle.desk_types.specs.declared.show.Shown.TheVariants as shows;
ghost use Rattle.desk_eido.specs.ReplyLine.{line_of};
ghost use Rattle.desk_follow.specs.Courses.{course_after};
ghost use Rattle.desk_types.specs.declared.limits.TheConstants.{MOST_NODES};
ghost use Rattle.desk_follow.specs.Places.{shown_place};
ghost use Rattle.desk_follow.specs.Readings.{course_of};

/// What is done after the reply line of any outcome is what the table says of that outcome. It does nothing.
pub fn table()
    ensures { (count : ℕ) (outcome : Outcome) → count ≤ MOST_NODES →
        course_of count (line_of outcome) ≡ course_after count outcome }
{}

/// The place that is read of the reply line to a show of the board is the place of that board. It does nothing.
pub fn board_place()
    ensures { (client at incidents units : ℕ) → at < 2 ^ 64 →
        shown_place (line_of (outcomes.Board client (shows.Board at incidents units))) ≡ Some at }
{}
