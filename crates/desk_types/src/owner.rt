//! Nodes as the members of a group.

ghost use Rattle.std.specs.Prelude.{◌≡◌, IfOk};

use crate::domain::Domain;
use crate::memory::WantOfMemory;

/// A node of the group of a desk.
#[derive(Drop)]
pub struct Owner {
    /// The node's number.
    pub id: u8,
    /// How many nodes the group has.
    pub n: u8,
    /// The domain of the group's desk.
    pub domain: Domain,
}

impl Owner {
    /// The same node of the same group.
    pub fn copy(&self) -> Result<Owner, WantOfMemory>
        ensures { IfOk result (λ owner. owner ≡ self.now) }
    {
        Ok(Owner {
            id: self.id,
            n: self.n,
            domain: self.domain.copy()?,
        })
    }
}
