//! The laws that the reading of places keeps.

ghost use Rattle.std.specs.Prelude.{◌≡◌, ◌<◌, ◌^◌, ℕ, List, Option, Some};
ghost use Rattle.desk_types.specs.declared.list.ListedIncident.{ListedIncident};
ghost use Rattle.desk_types.specs.declared.list.ListedUnit.{ListedUnit};
ghost use Rattle.desk_types.specs.declared.outcome.Outcome.TheVariants as outcomes;
ghost use Rattle.desk_types.specs.declared.show.Shown.TheVariants as shows;
ghost use Rattle.desk_eido.specs.ReplyLine.{line_of};
ghost use Rattle.desk_page.specs.Reported.{place_listed, place_shown};

/// The place that is read of a list's reply line is the place of that list. It does nothing.
pub fn list_place()
    ensures { (client at : ℕ) (incidents : List ListedIncident) (next : Option ℕ) (units : Option (List ListedUnit)) →
        at < 2 ^ 64 →
        place_listed (line_of (outcomes.Board client (shows.List at incidents next units))) ≡ Some at }
{}

/// The place that is read of the reply line to a show of the board is the place of that board. It does nothing.
pub fn show_place()
    ensures { (client at incidents units : ℕ) → at < 2 ^ 64 →
        place_shown (line_of (outcomes.Board client (shows.Board at incidents units))) ≡ Some at }
{}
