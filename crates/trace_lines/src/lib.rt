//! The lines of a trace: what the routers of a bus record of each change, query and route.
//!
//! [`read_profile`], [`read_routers`] and [`read_service`] read the lines of its head,
//! [`read_line`] any line behind them. [`profile_line`], [`routers_line`] and [`service_line`]
//! write its head; [`ChangeWords::write_line`], [`write_query_line`] and [`write_route_line`] write
//! the lines behind into a [`Draft`]. What lines read as what is defined in `specs/`, over what
//! their words say; `specs/Texts.antt` says how each is written.
//!
//! ```
//! use std::alloc::{AllocError, Global};
//! use trace_lines::{Subject, read_line};
//!
//! fn asks_at_place_1(alloc: Global) -> Result<bool, AllocError> {
//!     let line = read_line(alloc, 1, "q 1 1 owner :1.1 => :1.1")?;
//!     Ok(match line {
//!         Some(line) => line.place == 1 && matches!(line.subject, Subject::Query(_)),
//!         None => false,
//!     })
//! }
//! ```
#![tactic(auto)]

mod answer_words;
mod draft;
mod heads;
mod line;
mod lines;
mod list_item;
mod records;
mod subjects;
mod told;
mod writing;

pub use answer_words::AnswerWords;
pub use draft::Draft;
pub use heads::{read_profile, read_routers, read_service};
pub use line::{Line, Subject};
pub use lines::read_line;
pub use trace_words::{KeptArgument, Route};
pub use writing::{
    ChangeWords, outcome_text, profile_line, routers_line, service_line, verdict_text,
    write_query_line, write_route_line,
};
