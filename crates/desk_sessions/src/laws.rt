//! Laws of what a session answers.

ghost use Rattle.desk_sessions.specs.Laws.{SupersededByALater, NoBrowserLineIsADocument};

/// What is true where a published request is answered as superseded: on a board whose entries rise, its client's row
/// has a greater number. It does nothing: its clause is the law.
pub fn superseded_requests()
    ensures later { SupersededByALater }
{}

/// What is true of the lines at which a session ends as at those of a browser: none begins as a document's line can. It
/// does nothing: its clause is the law.
pub fn browser_lines()
    ensures documents { NoBrowserLineIsADocument }
{}
