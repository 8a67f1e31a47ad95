//! The text of a level, written for each frame. Also compares a level with a recorded one.
#![tactic(auto)]

mod cell_labels;
mod cell_order;
pub mod equality;
mod label_table;
mod labelled_set;
mod last_text;
mod naming;
mod set_text;
pub mod text_writer;
