//! The text of an SVG or of a page, written piece by piece: the program's own markup, numbers, and foreign text, which is escaped.
ghost use Rattle.std.specs.Prelude.{◌≡◌, ◌++◌, ◌∷◌, [], ℕ, List, map, OnOk, MatchOption};
ghost use Rattle.text9.specs.Markup.{escape_of, escaped, IsEscaped, joined};

use crate::form::put_form;
use crate::text::Text;
use report9::{TextBuffer, put_text};
use std::alloc::{AllocError, Global};
use std::marker::Model;

/// The result of what takes memory, which may be refused.
pub type Done = Result<(), AllocError>;

/// Where a picture stands, which gives its shapes their colours.
#[derive(Clone, Copy, PartialEq, Eq)]
pub enum Style {
    /// Its own attributes.
    Own,
    /// The style of the page in which it stands: its attributes are classes.
    Page,
}

/// A piece of an SVG or of a page. It remembers whether memory was refused, so that no call has to be checked by itself: `whole` tells.
#[derive(Drop)]
pub struct Markup {
    alloc: Global,
    /// What gives the shapes of the picture their colours.
    style: Style,
    text: Vec<u8>,
    /// Whether memory was refused, so that a part of the text is missing.
    is_short: bool,
}

impl Model for Markup {
    ghost use Rattle.std.specs.Prelude.{List, ℕ, Option, Some, None, if◌then◌else◌};

    ghost Value = { Option (List ℕ) };

    ghost view = { λ h. if h.is_short then None else Some h.text.items };
}

impl Markup {
    ghost use Rattle.std.specs.Prelude.{◌≡◌, [], ℕ, List, false, map, IfOk, IfErr, Some, None, option_map};
    ghost use Rattle.text9.specs.Form.{filled};
    ghost use Rattle.text9.specs.Markup.{escaped, IsPut, joined};

    /// An empty piece.
    pub fn new(alloc: Global) -> Markup
        ensures { result ≡ Some [] }
    {
        Markup {
            alloc,
            style: Style::Own,
            text: Vec::new(alloc),
            is_short: false,
        }
    }

    /// An empty piece, of a picture that stands on a page.
    pub fn on_page(alloc: Global) -> Markup
        ensures { result ≡ Some [] }
    {
        Markup {
            alloc,
            style: Style::Page,
            text: Vec::new(alloc),
            is_short: false,
        }
    }

    /// What gives the shapes of the picture their colours.
    pub fn style(&self) -> Style {
        self.style
    }

    /// Puts the program's own markup, as it is.
    pub fn put_mark(&mut self, marks: &'static str)
        ensures { IsPut self.old self.new (Some marks.now) }
    {
        self.is_short |= put_text(&mut self.text, marks).is_err();
    }

    /// Puts several marks, one behind the other.
    pub fn put_marks(&mut self, marks: &[&'static str])
        ensures { IsPut self.old self.new (Some (joined (map (λ m. m.now) marks.now))) }
    {
        self.is_short |= put_all(&mut self.text, marks).is_err();
    }

    /// Puts a form with these numbers in its places: `form` says which places there are.
    pub fn put_filled(&mut self, form: &'static str, numbers: &[u64])
        ensures { IsPut self.old self.new (Some (filled false form.now numbers.now [])) }
    {
        self.is_short |= put_form(&mut self.text, form.as_bytes(), numbers, &[]).is_err();
    }

    /// Puts a form with these numbers and foreign texts in its places.
    pub fn put_woven(&mut self, form: &'static str, numbers: &[u64], texts: &[&[u8]])
        ensures { IsPut self.old self.new (Some (filled false form.now numbers.now (map (λ t. t.now) texts.now))) }
    {
        self.is_short |= put_form(&mut self.text, form.as_bytes(), numbers, texts).is_err();
    }

    /// Puts foreign text: `&`, `<`, `>` and `"` are written by their names, since they would be read as marks.
    pub fn put_foreign(&mut self, text: &[u8])
        ensures { IsPut self.old self.new (Some (escaped text.now)) }
    {
        self.is_short |= put_escaped(&mut self.text, text).is_err();
    }

    /// Puts foreign text that was built in a buffer of its own. Where memory was refused for that, the text here counts as incomplete,
    /// as it does where memory is refused here.
    pub fn put_made(&mut self, text: Result<Vec<u8>, AllocError>)
        ensures made { IfOk text (λ made. IsPut self.old self.new (Some (escaped made.items))) }
        ensures refused { IfErr text (λ refused. self.new ≡ None) }
    {
        match text {
            Ok(text) => self.put_foreign(text.as_slice()),
            Err(_) => self.is_short = true,
        }
    }

    /// Puts the text of a view, as foreign text. Where memory was refused for a piece of that, one is missing here.
    pub fn put_text(&mut self, text: &Text)
        ensures { IsPut self.old self.new (option_map escaped text.now) }
    {
        match text.whole() {
            Ok(text) => self.put_foreign(text),
            Err(AllocError) => self.is_short = true,
        }
    }

    /// Puts the foreign text that `put` writes into an empty buffer.
    pub fn put_with<F: FnOnce(&mut Vec<u8>) -> Done>(&mut self, put: F)
        requires { F.IsAlwaysCallable put }
        ensures { (text : List ℕ) × IsPut self.old self.new (Some (escaped text)) }
    {
        let mut text = Vec::new(self.alloc);
        self.is_short |= put(&mut text).is_err();
        self.put_foreign(text.as_slice());
    }

    /// Puts the text of another piece. Where that is incomplete, so is this one.
    pub fn put_piece(&mut self, piece: &Markup)
        ensures { IsPut self.old self.new piece.now }
    {
        self.is_short |= piece.is_short || self.text.put(piece.text.as_slice()).is_err();
    }

    /// The allocator, for text that is built in a buffer of its own.
    pub fn alloc(&self) -> Global {
        self.alloc
    }

    /// How many bytes it takes.
    pub fn len(&self) -> usize {
        self.text.len()
    }

    /// Whether nothing was put.
    pub fn is_empty(&self) -> bool {
        self.text.is_empty()
    }

    /// The bytes; an error where memory was refused for one of them.
    pub fn whole(&self) -> Result<&[u8], AllocError>
        ensures whole { IfOk result (λ text. self.now ≡ Some text.now) }
        ensures short { IfErr result (λ refused. self.now ≡ None) }
    {
        if self.is_short {
            return Err(AllocError);
        }
        Ok(self.text.as_slice())
    }
}

/// Puts marks, one behind the other.
fn put_all(text: &mut Vec<u8>, marks: &[&'static str]) -> Done
    ensures { OnOk result (text.new.items ≡ text.old.items ++ joined (map (λ m. m.now) marks.now)) }
{
    for mark in marks {
        put_text(text, mark)?;
    }
    Ok(())
}

/// Puts foreign text, escaped. What stands between two bytes with names is put in one piece.
pub(crate) fn put_escaped(text: &mut Vec<u8>, foreign: &[u8]) -> Done
    ensures { OnOk result (text.new.items ≡ text.old.items ++ escaped foreign.now) }
{
    let mut from = 0;
    for (at, byte) in foreign.iter().enumerate() {
        if let Some(name) = name_of(*byte) {
            text.put(&foreign[from..at])?;
            put_text(text, name)?;
            from = at + 1;
        }
    }
    text.put(&foreign[from..])
}

/// The name by which a byte of foreign text is written; none where it is written as it is.
fn name_of(byte: u8) -> Option<&'static str>
    ensures { MatchOption result (escape_of byte ≡ byte ∷ []) (λ name. escape_of byte ≡ name.now) }
{
    match byte {
        b'&' => Some("&amp;"),
        b'<' => Some("&lt;"),
        b'>' => Some("&gt;"),
        b'"' => Some("&quot;"),
        _ => None,
    }
}

/// Foreign text that was escaped begins and ends no mark and no quoted value.
pub(crate) fn escaped_text_has_no_marks()
    ensures { (text : List ℕ) → IsEscaped (escaped text) }
{}
