// What the top call reports.

/// What a command that ended well reports.
#[derive(Clone, Copy, Debug, PartialEq, Eq)]
pub struct Report {
    /// The status that the process ends with: 3 where the line of a trap was written, else 0.
    pub code: u8,
    /// The number of calls that a run of a program made: 0 for a command that runs no program.
    pub calls: u64,
}
