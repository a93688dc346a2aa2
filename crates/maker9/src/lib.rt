//! What makes all that the words may ask for beside the reports of a judging: views, pictures, pages, captures of exports, the parts of a
//! capture, and the answers of `try`. The program is handed it ([`Makes`]), and knows of none of these.
#![tactic(auto)]

mod exporting;
mod hints;
mod lines;
mod maker;
mod making;
mod paging;
mod part_files;
mod status;
mod trying;

pub use maker::Makes;
pub use part_files::PartFiles;
pub use status::{
    outcome_converted, outcome_drawn, outcome_kept, outcome_made, outcome_of_split,
    outcome_rewritten, outcome_told,
};
