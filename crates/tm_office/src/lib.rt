//! Offices: what threads publish and look at, with the replies and the answers of its steps.
//! Stands on tm_types; traits alone, which whoever publishes and whoever is published stand on.
//! Of its own, so that no change of tm_publish or tm_engine proves the machine and all above anew.
//! Promises nothing by itself: what each call says of the list of steps is its trait's clause.
#![tactic(auto)]

mod desk_hall;
mod hall;
mod office;

pub use desk_hall::DeskHall;
pub use hall::Hall;
pub use office::Office;
