//! What the log doesn't show and was supposed.
use tm_log::Source;
use tm_types::unions::DomainName;

/// What the log doesn't show and was supposed.
#[derive(Drop)]
pub enum Warning {
    /// A tree starts with this process in this domain.
    Tree(u32, DomainName),
    /// A process goes to a domain by a manual transition.
    Manual(u32, DomainName),
    /// A thread by its global pid, the pid that the record has, and the process that it counts as.
    Thread(u32, u32, u32),
    /// A process has this parent from now on.
    Handed(u32, u32),
    /// A pid is used again by this new process.
    Again(u32, u32),
    /// A process is in a domain to which no execute that was allowed is recorded, and goes on as
    /// this new one; and whether its last execute is recorded as refused.
    Move(u32, DomainName, u32, bool),
    /// A parent without a record is made in this domain.
    Parent(u32, DomainName),
    /// A process starts in a domain to which no execute is recorded.
    Start(u32, DomainName),
    /// The kernel cut the arguments.
    Arguments,
}

/// A warning and the record that gave cause for it.
#[derive(Drop)]
pub struct Note {
    pub source: Source,
    pub warning: Warning,
}
