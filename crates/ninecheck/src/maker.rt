//! What makes the views, and all else that is no report of a judging.

use maker9::{Makes, PartFiles};
use std::{fs, io};

/// The files of this machine.
#[derive(Drop)]
pub(crate) struct Files<'a> {
    rt: &'a HostRuntime,
}

impl PartFiles for Files<'_> {
    type File = fs::File;

    fn create_new(&self, name: &str) -> io::Result<fs::File> {
        fs::File::create_new(self.rt, name)
    }
}

/// What makes them here.
pub(crate) fn maker(rt: &HostRuntime) -> Makes<Files<'_>> {
    Makes {
        files: Files { rt },
    }
}
