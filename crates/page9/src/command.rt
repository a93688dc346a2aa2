//! The words with which the page was asked for, as a shell takes them again.

use crate::name::put_word;
use crate::page::PageOf;
use deck9::{Hands, Profile};
use report9::{Beginning, Stretch, put_text};
use std::alloc::{AllocError, Global};
use tc25::Rate;
use text9::{Done, put_seconds};

/// The words behind a command of the program.
#[derive(Drop)]
pub(crate) struct Words {
    /// The options of the judging.
    pub(crate) options: Vec<u8>,
    /// The options of the stretch that is shown.
    pub(crate) stretch: Vec<u8>,
    /// The capture's name; nothing where it came on the standard input.
    pub(crate) file: Vec<u8>,
}

impl Words {
    /// The words of a page of a deck that is taken for this.
    pub(crate) fn of(
        alloc: Global,
        page: &PageOf<'_>,
        profile: &Profile,
    ) -> Result<Words, AllocError> {
        let mut words = Words {
            options: Vec::new(alloc),
            stretch: Vec::new(alloc),
            file: Vec::new(alloc),
        };
        put_options(&mut words.options, page, profile)?;
        put_stretch(&mut words.stretch, page.stretch)?;
        if let Some(file) = page.file {
            put_text(
                &mut words.file,
                if file.starts_with(b"-") { "-- " } else { "" },
            )?;
            put_word(&mut words.file, file)?;
        }
        Ok(words)
    }
}

/// Puts the options of the judging, with a blank between them.
fn put_options(options: &mut Vec<u8>, page: &PageOf<'_>, profile: &Profile) -> Done {
    if profile.hands == Hands::Allowed {
        put_option(options, "--hands")?;
    }
    if page.beginning != Beginning::FirstRecord {
        put_option(options, "--sync")?;
    }
    if profile.rate != Rate::Fps25 {
        put_option(options, "--rate ")?;
        put_text(options, profile.rate.word())?;
    }
    for sheet in page.sheets {
        put_option(options, "--deck ")?;
        put_word(options, sheet.as_bytes())?;
    }
    Ok(())
}

/// Puts the options of a stretch; nothing where it is the whole capture.
fn put_stretch(options: &mut Vec<u8>, stretch: Stretch) -> Done {
    if stretch.from_us > 0 {
        put_option(options, "--from ")?;
        put_seconds(options, stretch.from_us)?;
    }
    if let Some(to_us) = stretch.to_us {
        put_option(options, "--to ")?;
        put_seconds(options, to_us)?;
    }
    Ok(())
}

/// Puts an option behind those before.
fn put_option(options: &mut Vec<u8>, option: &str) -> Done {
    if !options.is_empty() {
        put_text(options, " ")?;
    }
    put_text(options, option)
}
