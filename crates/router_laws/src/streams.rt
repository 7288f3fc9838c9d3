//! Streams that one connection sends.
//!
//! ```
//! ghost use Rattle.router_laws.specs.Streams.{StreamsAgree};
//!
//! use bus_view::BusView;
//! use router_core::Gate;
//! use router_laws::streams::streams_agree;
//!
//! /// Behind the same gate it makes no difference how the bytes came.
//! fn may_be_cut_otherwise<V: BusView, G: Gate>()
//!     ensures { StreamsAgree V.BusView G.Gate G.Gate }
//! {
//!     streams_agree::<V, G, G>();
//! }
//! ```

ghost use Rattle.router_laws.specs.Streams.{StreamsAgree};

use bus_view::BusView;
use router_core::Gate;

/// Two calls of [`busd_core::run`] that read the same bytes to their end write the same, however
/// the bytes came and whenever the messages in them were served, where nobody else makes changes of
/// the bus and nothing is refused.
pub fn streams_agree<V: BusView, G: Gate, H: Gate>()
    ensures { StreamsAgree V.BusView G.Gate H.Gate }
{}
