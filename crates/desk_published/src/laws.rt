//! Laws of what is reported to a client.

ghost use Rattle.desk_published.specs.Laws.{ReportedHasRow};

/// What is true of each word that a request is published: the client's row is on the board of every list that begins
/// with what was published then. It does nothing: its clause is the law.
pub fn reported_rows()
    ensures row { ReportedHasRow }
{}
