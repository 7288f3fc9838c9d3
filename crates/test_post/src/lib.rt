//! What the tests of hosts serve with: mail in memory over a bus of one thread, and what the routers
//! of a registry begin with.
//!
//! ```
//! use router_host_core::Post;
//! use test_post::LocalPost;
//!
//! /// Whether mail waits for the first slot of a bus. It is taken.
//! fn takes_mail(post: &mut LocalPost) -> bool {
//!     post.take(&(), 0).is_some()
//! }
//! ```
#![tactic(auto)]

mod ends;
mod local_post;

pub use ends::{Ends, EndsOf, Ways, WaysOf};
pub use local_post::LocalPost;
