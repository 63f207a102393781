//! Files of cases: their lines, the commands that a subject answers, and what differs from the
//! answers that are wanted. The format is in `cases/README.md`.
//!
//! A program of cases has a type for each subject, with an `impl Subject`, and calls `run_file` for
//! each file. Words, letters, histories and messages have one spelling for all subjects.
#![tactic(auto)]

mod answers;
mod cases;
mod events;
mod fault;
mod hex;
mod letters;
mod messages;
mod repeat;
mod run;
mod subject;
mod words;

pub use cases::Cases;
pub use events::{event_of, event_text, node_of, node_text};
pub use fault::Fault;
pub use hex::{bytes_of_hex, bytes_of_text, push_hex};
pub use letters::{Letters, access_of, draft_of_words, id_of, order_of, push_line, yes_or_no};
pub use messages::{durable_of, durable_text, message_of, message_text, messages_text, round_text};
pub use run::{run_file, stem};
pub use subject::{Request, Subject};
pub use words::{
    Words, byte, config_of, config_words, mode_of, node, number, number_64, round_of, split_at,
};
