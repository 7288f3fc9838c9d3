//! Match rules: which messages a connection asks to be sent, or a monitor to be shown.
//!
//! A [`Rule`] is a set of keys with a value for each; a message is seen by rules as [`Facts`].
//! `specs/RuleTexts.antt` says which text is which rule, `specs/RuleFaults.antt` what is wrong with
//! any other text, and `specs/Fitting.antt` which rules fit a message.
//! (D-Bus Specification: "Match Rules".)
//!
//! ```
//! ghost use Rattle.std.specs.Prelude.{None};
//!
//! use match_rules::{Facts, Owners, Rule, RuleFault};
//!
//! /// A bus on which no name has an owner.
//! struct Nobody;
//!
//! impl Owners for Nobody {
//!     ghost heads = { λ owners name. None };
//!
//!     fn head(&self, name: &str) -> Option<u64> {
//!         None
//!     }
//! }
//!
//! fn fits_below(facts: &Facts<'_>) -> Result<bool, RuleFault> {
//!     let rule = Rule::parse("type='signal',path_namespace='/com/example'")?;
//!     Ok(rule.fits(facts, &Nobody))
//! }
//! ```
#![tactic(auto)]

mod canonical;
mod entries;
mod entry_map;
mod facts;
mod fault;
mod fitting;
mod key;
mod kind;
pub mod laws;
mod quoting;
mod reading;
mod room;
mod rule;

pub use facts::{Argument, Facts};
pub use fault::RuleFault;
pub use fitting::{Owners, is_string_argument, is_text};
pub use key::{Key, MAX_ARGUMENTS};
pub use kind::MessageKind;
pub use room::MAX_RULE_LENGTH;
pub use rule::Rule;
