//! Text that is put together piece by piece, and remembers whether memory was refused: plain text, and markup, which is that of an SVG or
//! of a page.
//!
//! Markup is the program's own, and foreign text in it is escaped. It stands in forms, which are texts with places (`form`). Numbers are
//! put by their digits.
#![tactic(auto)]

mod form;
mod growing;
mod markup;
mod numbers;
mod text;

pub use growing::Growing;
pub use markup::{Done, Markup, Style};
pub use numbers::{
    milliseconds, put_hundredths, put_long_time, put_milliseconds, put_px, put_seconds, put_tenths,
};
pub use text::Text;
