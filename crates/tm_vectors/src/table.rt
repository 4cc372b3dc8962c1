//! The tables.
ghost use Rattle.std.specs.Prelude.{◌≡◌};
ghost use Rattle.tm_vectors.specs.Reports.{table_name};

/// A table of recorded answers. Each row has fields between tabs, and the last one is what the real
/// TOMOYO answered.
#[derive(Clone, Copy)]
pub enum Table {
    /// A line of `domain_policy`, and its printed text or `refused`.
    AclLines,
    /// A line of `exception_policy`, and its printed text without the namespace word, or `refused`.
    ExceptionLines,
    /// A number, a domain, a program, and controls with `|` between them; and the domain to which
    /// an execute leads.
    Transitions,
    /// A pattern and a name, and `yes` where the one matches the other, else `no`.
    PatternVectors,
    /// A text, and `yes` where it is a right pattern, else `no`.
    PatternValidity,
}

/// All tables, in the order in which they are reported.
pub const TABLES: [Table; 5] = [
    Table::AclLines,
    Table::ExceptionLines,
    Table::Transitions,
    Table::PatternVectors,
    Table::PatternValidity,
];

impl Table {
    /// The name that the table's file and lines have.
    pub fn name(self) -> &'static str
        ensures { result.now ≡ table_name self }
    {
        match self {
            Table::AclLines => "acl_lines",
            Table::ExceptionLines => "exception_lines",
            Table::Transitions => "transitions",
            Table::PatternVectors => "pattern_vectors",
            Table::PatternValidity => "pattern_validity",
        }
    }
}
