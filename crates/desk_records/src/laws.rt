//! Laws of records.

ghost use Rattle.desk_records.specs.Laws.{ReadsBack, EndsAtFirstWrong};

/// What is true of all runs of records: what is sealed reads back so, and a run ends at the first record that is not
/// right. It does nothing: its clauses are the laws.
pub fn runs()
    ensures back { ReadsBack }
    ensures ends { EndsAtFirstWrong }
{}
