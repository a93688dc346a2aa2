//! Small texts and what is made of them, with values by hand.
mod accepted_sheets;
mod acting_sheets;
mod convert;
mod info;
mod one_sheet;
mod refused_replies;
mod refused_sheets;
mod several_sheets;
