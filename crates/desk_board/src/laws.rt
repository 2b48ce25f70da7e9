//! Laws of the boards of all logs.

ghost use Rattle.desk_board.specs.Laws.{BoardsAreConsistent, CountsEntries, OneMoreStep, LastReply, NamesStay};
ghost use Rattle.desk_board.specs.Laws.{NumbersArePlaces, RowsAreLatest, RepliesStay};
ghost use Rattle.desk_board.specs.VersionOne.{BoardsOfVersionOne, NobodyStandsBy, RepliesOfVersionOne};

/// What is true of the board of every log, whoever executed it. It does nothing: its clauses are the laws.
pub fn boards()
    ensures consistent { BoardsAreConsistent }
    ensures count { CountsEntries }
    ensures step { OneMoreStep }
    ensures reply { LastReply }
    ensures names { NamesStay }
    ensures numbers { NumbersArePlaces }
    ensures rows { RowsAreLatest }
    ensures replies { RepliesStay }
{}

/// What version 1 made of a log, with its fourteen verbs and nobody standing by, version 2 makes of it too. It does
/// nothing: its clauses are the laws.
pub fn version_one()
    ensures boards { BoardsOfVersionOne }
    ensures nobody { NobodyStandsBy }
    ensures replies { RepliesOfVersionOne }
{}
