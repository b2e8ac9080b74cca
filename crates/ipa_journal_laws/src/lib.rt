//! What is written of a journal is read back.
//!
//! The text of the end of a run, and that of a journal that was read, are read as just that: the same transactions,
//! outcomes and final facts, each on its line. This asks of what is written no more than a journal can say, which
//! `specs/Writable.antt` lists; and what is read of any journal, in either version, can be written. So a journal of
//! version 1 that is read, written and read again has kept its content. A lawful end of a run can be written too.
//!
//! Each function computes nothing: its contract is the law.
#![tactic(auto)]

mod laws;
mod widths;

pub use laws::{
    content_reads_back, document_is_setting, end_reads_back, lawful_end_reads_back, migrates_whole,
    read_is_writable,
};
pub use widths::cuts_have_all_origins;
