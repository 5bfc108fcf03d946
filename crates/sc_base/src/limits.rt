/// The most bytes that a file may have.
pub const LARGEST_FILE: usize = 16 * 1024 * 1024;

/// Bounds on what one run may take.
#[derive(Clone, Copy, Debug, PartialEq, Eq)]
pub struct Limits {
    /// The most branches that a split at one place may have.
    pub branches: usize,
    /// The deepest that a file may be included. The main file has depth 0.
    pub include_depth: usize,
}
