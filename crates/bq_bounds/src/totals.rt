//! The totals of some tasks.
ghost use Rattle.std.specs.Prelude.{◌≡◌, ◌≤◌, length};
ghost use Rattle.bq_disc.specs.Totals.{sums_of, HasBounds};

use bq_disc::limits::TASKS;
use bq_disc::{Entity, Totals};

/// Adds up some tasks: their number, the sum of their weights, and the sum of weight times v.
pub fn totals(tasks: &[Entity]) -> Totals
    requires { length tasks.now ≤ TASKS }
    ensures sums { result ≡ sums_of tasks.now }
    ensures bounds { HasBounds result }
{
    let mut totals = Totals::none();
    let mut at = tasks.len();
    while at > 0 {
        at -= 1;
        totals.add(&tasks[at]);
    }
    totals
}
