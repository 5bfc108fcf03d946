use crate::FileId;

/// Where a byte of a file stands. Lines and columns count from 1, and a column is a count of bytes.
#[derive(Clone, Copy, Debug, PartialEq, Eq, PartialOrd, Ord, Hash)]
pub struct Place {
    pub file: FileId,
    pub line: usize,
    pub column: usize,
}
