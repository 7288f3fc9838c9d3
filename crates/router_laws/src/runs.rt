//! Runs of the same events.

ghost use Rattle.router_laws.specs.GrantedRuns.{RunsAgree, RunsAreOne};

use router_core::Gate;

/// Where nothing is refused, the same events bring the same: the same is written, put and closed,
/// for the same cause, and the same connections and what the view knows are left.
pub fn runs_are_one()
    ensures { RunsAreOne }
{}

/// Two calls of [`router_laws::run`] with the same bus and the same events, in which nothing is
/// refused, give the same bytes, whatever gates they have.
pub fn runs_agree<G: Gate, H: Gate>()
    ensures { RunsAgree G.passes H.passes }
{}
