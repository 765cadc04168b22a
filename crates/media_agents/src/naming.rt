ghost use Rattle.logbook.specs.Pages.{Book};

use log_slots::Naming;
use std::marker::Brand;

/// Names the parts of one driver, its history too, so that what belongs to another one has another type.
pub trait DriverNaming: Naming {
    /// The history of its registry.
    ghost book: { Book };
}
// A program that makes a driver picks the names: `Brand` stands for any.
impl DriverNaming for Brand {
    ghost book = { record { number = 0; log_name = 0; cells_name = 0 } };
}
