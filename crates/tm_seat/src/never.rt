//! What can't come.
use std::alloc::AllocError;
use tm_list::NoMemory;

/// What is answered where something can't come that no clause excludes: parts of a replay that don't
/// fit together, a place outside its list, a number above its type's. A process is put into one
/// deque and taken out once, by a worker that gives back all its takes in order; the lists were made
/// as long as what they are asked for; and a trace has fewer than 2^32 records. So it would be a
/// fault of this code, and of nothing that it is given. The play ends then as for want of memory.
pub fn lost() -> NoMemory {
    AllocError
}
