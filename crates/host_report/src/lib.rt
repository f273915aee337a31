//! Reports: the text of what the commands of a run ended with and of its journal, written and read
//! back.
#![tactic(auto)]

mod collected;
mod draft;
mod event;
mod event_reading;
mod field;
mod key_reading;
mod key_text;
mod laws;
mod line;
mod outcome;
mod outcome_reading;
mod quote;
mod reading;
mod reply;
mod reply_reading;
mod text_reading;
mod told;
mod unread;
mod value;
mod words;
mod writing;

pub use laws::{one_reading, read_or_refused, reports_read_back};
pub use line::{Line, flush, put, put_number};
pub use quote::{put_quoted, put_quoted_text, put_text};
pub use reading::{ReadBack, ReportFault, read_report};
pub use writing::report;
