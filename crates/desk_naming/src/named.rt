//! Which node's file a database is, whosever it is.

ghost use Rattle.std.specs.Prelude.{◌≡◌, ◌≢◌, ◌⊎◌, ◌<◌, List, ℕ, length, IfOk, IfErr, OnOk, MatchOption};
ghost use Rattle.std.specs.List.{AllByRecursion};
ghost use Rattle.sqlite_value.specs.Order.{Row as Cells, column};
ghost use Rattle.sqlite_value.specs.declared.value.Value.TheVariants as cells;
ghost use Rattle.sqlite.specs.State.{HasCleanDisk, IsUnchanged};
ghost use Rattle.sqlite.specs.Held.{state};
ghost use Rattle.desk_types.specs.Identifier.{IsLowerDomain};
ghost use Rattle.desk_types.specs.declared.refusal.Refusal.TheVariants as refusals;
ghost use Rattle.desk_naming.specs.AfterRefusal.{IsSettled, ShowsAsBefore, KeepsFaultsAndLimit, LeavesNoMore};
ghost use Rattle.desk_naming.specs.Named.{named_row, IsRowOfNone, AreRowsOf, AreRowsOfNone, NamesOwner, NamesNobody};

use crate::rows::{node_rows, read};
use crate::table::has_node;
use desk_types::{Domain, Refusal, WantOfMemory};
use sqlite::{Alter, Connection, Row};
use std::alloc::Global;

/// The node whose file a database is, as the row of the node says it.
#[derive(Drop)]
pub struct NamedOwner {
    /// The version of the file: 1, 2 or another.
    pub version: u64,
    /// The node's number.
    pub id: u64,
    /// How many nodes the group has.
    pub n: u64,
    /// The domain of the group's desk.
    pub domain: Domain,
}

/// The domain that a text in lower case spells.
fn domain_of(alloc: Global, text: &str) -> Result<Option<Domain>, WantOfMemory>
    ensures { IfOk result (λ found. MatchOption found (¬ IsLowerDomain text.now) (λ domain. domain ≡ text.now)) }
{
    let domain = match Domain::new(alloc, text) {
        Ok(domain) => domain,
        Err(refusal) => {
            refusal.unless_of_memory()?;
            return Ok(None);
        }
    };
    let is_lower = domain.as_text() == text;
    if !is_lower {
        drop(domain);
        return Ok(None);
    }
    Ok(Some(domain))
}

/// The domain that a column holds, in lower case.
fn read_domain(alloc: Global, row: &Row, at: usize) -> Result<Option<Domain>, WantOfMemory>
    ensures { IfOk result (λ found. MatchOption found
        (at < length row.now → (domain : List ℕ) → IsLowerDomain domain → column row.now at ≢ cells.Text domain)
        (λ domain. column row.now at ≡ cells.Text domain)) }
{
    let Some(text) = read::<String>(row, at)? else {
        return Ok(None);
    };
    domain_of(alloc, text.as_str())
}

/// The node that a row of the node's table names, where it names one.
fn owner_in(alloc: Global, row: &Row) -> Result<Option<NamedOwner>, WantOfMemory>
    ensures { length row.now ≡ 8 → IfOk result (λ found. MatchOption found (IsRowOfNone row.now)
        (λ o. (numbers : Cells) × (row.now ≡ named_row o numbers))) }
{
    let Some(slot) = read::<u64>(row, 0)? else {
        return Ok(None);
    };
    if slot != 1 {
        return Ok(None);
    }
    let Some(version) = read::<u64>(row, 1)? else {
        return Ok(None);
    };
    let Some(id) = read::<u64>(row, 2)? else {
        return Ok(None);
    };
    let Some(n) = read::<u64>(row, 3)? else {
        return Ok(None);
    };
    let Some(domain) = read_domain(alloc, row, 4)? else {
        return Ok(None);
    };
    Ok(Some(NamedOwner {
        version,
        id,
        n,
        domain,
    }))
}

/// The node that the one row names.
fn owner_among(alloc: Global, rows: &[Row]) -> Result<Option<NamedOwner>, WantOfMemory>
    ensures { AllByRecursion (λ row. length row ≡ 8) rows.now
        → IfOk result (λ found. MatchOption found (AreRowsOfNone rows.now) (λ o. AreRowsOf o rows.now)) }
{
    if rows.len() != 1 {
        return Ok(None);
    }
    owner_in(alloc, &rows[0])
}

/// The node whose file a database is, be it a file of version 1, 2 or another: so a caller tells what it found where
/// the file is none of the node's (`WrongFile`). Nothing where the database has no table `node` as a desk has it, or
/// where that has no row or several, or its row has no numbers or no domain in lower case; the other rows may be any.
/// Nothing is changed. A refused growth is `WantOfMemory`, and a fault of the database `StoreFault`.
pub fn named_owner<S: Alter>(
    alloc: Global,
    connection: &mut Connection<S>,
) -> Result<Option<NamedOwner>, Refusal>
    ensures found { HasCleanDisk (state S.Store connection.new) → IfOk result (λ found. MatchOption found
        (NamesNobody (state S.Store connection.old).now)
        (λ o. NamesOwner (state S.Store connection.old).now o)) }
    ensures same { HasCleanDisk (state S.Store connection.new) → OnOk result ((connection.new ≡ connection.old)
        ⊎ IsUnchanged (state S.Store connection.old) (state S.Store connection.new)) }
    ensures left { LeavesNoMore (state S.Store connection.old) (state S.Store connection.new) }
    ensures keeps { KeepsFaultsAndLimit (state S.Store connection.old) (state S.Store connection.new) }
    ensures refused { IfErr result (λ r. (r ≡ refusals.StoreFault) ⊎ (r ≡ refusals.WantOfMemory)) }
    ensures want_of_memory { HasCleanDisk (state S.Store connection.new) → IfErr result (λ r.
        r ≡ refusals.WantOfMemory
        → IsUnchanged (state S.Store connection.old) (state S.Store connection.new)) }
    ensures store_fault { HasCleanDisk (state S.Store connection.new) → IsSettled (state S.Store connection.old)
        → IfErr result (λ r. r ≡ refusals.StoreFault
        → ShowsAsBefore (state S.Store connection.old) (state S.Store connection.new)) }
{
    let is_there = has_node(connection);
    if !is_there {
        return Ok(None);
    }
    let rows = node_rows(connection)?;
    let found = owner_among(alloc, rows.as_slice())?;
    Ok(found)
}
