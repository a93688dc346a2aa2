//! What makes all that the words may ask for beside the reports of a judging.

use crate::exporting::{convert, split};
use crate::making::{
    draw, rewrite_times, scope_of, tell_info, tell_json_run, tell_touches, view_of, write_delays,
    write_digest, write_json, write_motion,
};
use crate::paging::make_page;
use crate::part_files::PartFiles;
use crate::status::{outcome_kept, outcome_made, outcome_rewritten, outcome_told};
use crate::trying::try_each;
use asking9::ask_next;
use program9::{
    Again, Buffered, Job, Keeping, Maker, Message, Named, Outcome, Told, ended, outcome,
};
use std::alloc::Global;
use std::io::{Read, Write};
use view9::ClockFault;
use words9::Made;

/// Makes views, pictures, pages and captures, and the parts of captures as such files.
#[derive(Drop)]
pub struct Makes<F: PartFiles + Drop> {
    /// What makes the files of parts.
    pub files: F,
}

impl<F: PartFiles + Drop> Maker for Makes<F> {
    ghost use Rattle.maker9.specs.Making.{makes as promised};

    ghost makes = { promised };

    fn make<R: Read + Drop, W: Write + Drop>(
        &self,
        alloc: Global,
        reader: R,
        out: &mut Buffered<W>,
        made: Made,
        job: Job,
        named: &Named,
    ) -> Outcome {
        match made {
            Made::Digest(extent) => {
                let of = view_of(&job, extent);
                let told = write_digest(alloc, Again::Opened(reader), out, of);
                outcome_made(&ended(out, told))
            }
            Made::Delays(extent) => {
                let of = view_of(&job, extent);
                let told = write_delays(alloc, Again::Opened(reader), out, of);
                outcome_made(&ended(out, told))
            }
            Made::Motion(extent) => {
                let of = view_of(&job, extent);
                let told = write_motion(alloc, Again::Opened(reader), out, of);
                outcome_made(&ended(out, told))
            }
            Made::Json(view, extent) => {
                let of = view_of(&job, extent);
                let told = write_json(alloc, Again::Opened(reader), out, view, of);
                outcome_made(&ended(out, told))
            }
            Made::JsonRun => {
                let told = tell_json_run(alloc, Again::Opened(reader), out, &job);
                outcome(&ended(out, told))
            }
            Made::Clock(form) => {
                let told = rewrite_times(alloc, reader, out, form);
                outcome_rewritten(&flushed(out, told))
            }
            Made::Info => {
                let told = tell_info(alloc, Again::Opened(reader), out, &job);
                outcome_told(&ended(out, told))
            }
            Made::Try(extent) => {
                let scope = scope_of(&job, extent);
                let sheets = named.sheet_texts.as_slice();
                let told = try_each(alloc, reader, out, scope, job.profile, sheets);
                outcome_kept(ended(out, told))
            }
            Made::Touches => {
                let told = tell_touches(alloc, Again::Opened(reader), out, &job);
                outcome_made(&ended(out, told))
            }
            Made::Picture(extent) => {
                let told = draw(alloc, reader, out, scope_of(&job, extent), &job);
                outcome_kept(ended(out, told))
            }
            Made::Page => {
                let told = make_page(alloc, reader, out, &job, named);
                outcome_kept(ended(out, told))
            }
            Made::Convert(export) => convert(alloc, reader, out, export, named),
            Made::Split => split(alloc, Again::Opened(reader), out, named, &self.files),
        }
    }

    fn ask_next<R: Read + Drop>(&self, alloc: Global, kept: Keeping<R>, told: Told<'_>) -> Message {
        ask_next(alloc, kept, told)
    }
}

/// The end of a text that was rewritten: all is passed on, unless a write failed already.
fn flushed<W: Write + Drop>(
    out: &mut Buffered<W>,
    told: Result<(), ClockFault>,
) -> Result<(), ClockFault> {
    if let Err(ClockFault::Write) = told {
        return told;
    }
    match out.flush() {
        Ok(()) => told,
        Err(_) => Err(ClockFault::Write),
    }
}
