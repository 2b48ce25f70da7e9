//! The numbers and names of refusals.

use desk_types::{Member, Refusal};

// A refusal by its place in the list below, its number and its name, and what it tells beside them: the name of a
// member, and a number.
type Row = (u32, u8, &'static str, &'static str, u64);

fn refusal_at(index: u32) -> Refusal {
    match index {
        0 => Refusal::TooLong,
        1 => Refusal::BadTime {
            member: Member::Where,
        },
        2 => Refusal::OwnDomain,
        3 => Refusal::LastCall,
        4 => Refusal::Stale { latest: 9 },
        5 => Refusal::WantOfMemory,
        _ => Refusal::WrongFile,
    }
}

fn told_beside(refusal: &Refusal) -> (&'static str, u64) {
    match refusal {
        Refusal::BadTime { member } => (member.name(), 0),
        Refusal::Stale { latest } => ("", *latest),
        _ => ("", 0),
    }
}

const ROWS: &[Row] = &[
    (0, 2, "TooLong", "", 0),
    (1, 8, "BadTime", "where", 0),
    (2, 14, "OwnDomain", "", 0),
    (3, 29, "LastCall", "", 0),
    (4, 31, "Stale", "", 9),
    (5, 40, "WantOfMemory", "", 0),
    (6, 45, "WrongFile", "", 0),
];

fn has_row(refusal: &Refusal, row: &Row) -> bool {
    let (member, reported) = told_beside(refusal);
    refusal.number() == row.1 && refusal.name() == row.2 && member == row.3 && reported == row.4
}

fn is_copied(refusal: &Refusal, row: &Row) -> bool {
    match refusal.copy() {
        Ok(copy) => has_row(&copy, row),
        Err(_) => false,
    }
}

#[test]
fn refusals_have_numbers_and_names(rt: HostRuntime) {
    for row in ROWS {
        let refusal = refusal_at(row.0);
        assert!(rt;
            has_row(&refusal, row) && is_copied(&refusal, row),
            "{}",
            row.2
        );
    }
}
