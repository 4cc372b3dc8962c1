//! Texts of addresses and of ranges of addresses, read and written.
//! Stands on the list crate and on the number crate, which has the types and reads plain numbers.
//! Of its own, so that tm_types has addresses as data, and not how they are written, below it.
//! Promises that reading is the grammar with the exact fault and takes no memory, that the printed
//! text is the one of RFC 5952, and that it is read again as the same value.
#![tactic(auto)]

mod printing;
mod reading;

pub use printing::{write_addr, write_addr_range};
pub use reading::{AddrFault, read_addr, read_addr_range};
pub use tm_number as number;
