//! The prefix that two logs have in common.

ghost use Rattle.std.specs.Prelude.{◌≡◌, ◌≤◌, ℕ, length, take};

use crate::equal::are_equal;
use crate::log::Log;
use desk_types::Entry;

/// With how many equal entries both begin. The first `known` of both are equal, and are not compared.
#[tactic(auto, using(crate::proofs::CommonPrefix::ends_before, std::proofs::lemmas::List::take_more_same))]
fn count_same(first: &[Entry], second: &[Entry], known: usize) -> usize
    requires known_within { (known ≤ length first.now) × (known ≤ length second.now) }
    requires known_same { take known first.now ≡ take known second.now }
    ensures within { (result ≤ length first.now) × (result ≤ length second.now) }
    ensures same { take result first.now ≡ take result second.now }
    ensures greatest { (k : ℕ) → k ≤ length first.now → k ≤ length second.now → take k first.now ≡ take k second.now
        → k ≤ result }
{
    let most = first.len().min(second.len());
    for i in known..most {
        if !are_equal(&first[i], &second[i]) {
            return i;
        }
    }
    most
}

impl Log {
    /// The greatest number of entries with which both logs begin. Nothing is copied.
    pub fn same_front(&self, other: &Log) -> u64
        ensures within { (result ≤ length self.now) × (result ≤ length other.now) }
        ensures same { take result self.now ≡ take result other.now }
        ensures greatest { (k : ℕ) → k ≤ length self.now → k ≤ length other.now → take k self.now ≡ take k other.now
            → k ≤ result }
    {
        self.same_front_after(other, 0)
    }

    /// The greatest number of entries with which both logs begin, where the caller knows that they begin with the same
    /// `known` entries. These are not compared, and nothing is copied.
    pub fn same_front_after(&self, other: &Log, known: u64) -> u64
        requires known_within { (known ≤ length self.now) × (known ≤ length other.now) }
        requires known_same { take known self.now ≡ take known other.now }
        ensures within { (result ≤ length self.now) × (result ≤ length other.now) }
        ensures same { take result self.now ≡ take result other.now }
        ensures greatest { (k : ℕ) → k ≤ length self.now → k ≤ length other.now → take k self.now ≡ take k other.now
            → k ≤ result }
    {
        count_same(self.entries(), other.entries(), known as usize) as u64
    }
}
