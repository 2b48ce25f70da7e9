//! A name for one published board, in the types of all that belongs to it.

use std::marker::Brand;

/// Names one history of entries, and the domain of its desk. No value of such a type is made: what belongs to one
/// board has it as a parameter, so that a reader learns from its own keeper alone.
pub trait BoardName {
    ghost use Rattle.std.specs.Prelude.{ℕ, List};
    ghost use Rattle.logbook.specs.Pages.{Book};

    ghost book: { Book };

    ghost domain: { List ℕ };
}

impl BoardName for Brand {
    ghost use Rattle.std.specs.Prelude.{[]};

    ghost book = { record { number = 0; log_name = 0; cells_name = 0 } };

    ghost domain = { [] };
}
