//! The files that the parts of a capture become.

use std::io::{self, Write};

/// What makes the files of parts.
pub trait PartFiles {
    /// A new file.
    type File: Write + Drop;

    /// Makes a file of this name. An error comes where it can't be made, and where a file with this name is there already, which is left as it
    /// is.
    fn create_new(&self, name: &str) -> io::Result<Self::File>;
}
