//! How the line that explains an exchange tells it.

/// How the line that explains an exchange tells it.
#[derive(Clone, Copy, PartialEq, Eq)]
pub enum Detail {
    /// By the number of its last record, the command's name and what kind of reply came.
    Names,
    /// By the numbers of its records and its time, with the bytes of both blocks and what the reply says, as a reply that
    /// contradicts others is told.
    Bytes,
}
