//! How the bytes of a connection are cut.

ghost use Rattle.router_laws.specs.Cuts.{BytesComeWhenever, LinesAreNotServed, PiecesAreJoined, ShortMessagesWait, TurnsLeaveOut};
ghost use Rattle.router_laws.specs.GrantedRuns.{AlikeRunsAgree};

use router_core::Gate;

/// However the bytes of a connection are cut, the same bytes go to each connection, and the same is
/// left: pieces that come one after the other are the same as all of it at once, also where they
/// say who it is; serving a connection whose next message is not whole yet, or that still says who
/// it is, does nothing, nor does naming it in a turn; and once it has begun its messages, its bytes
/// may as well come earlier: before whatever happens to others, and before its own messages are
/// served, by themselves or in a turn, where those that are asked for were whole.
pub fn cuts_make_no_difference()
    ensures joined { PiecesAreJoined }
    ensures waiting { ShortMessagesWait }
    ensures lines { LinesAreNotServed }
    ensures whenever { BytesComeWhenever }
    ensures turns { TurnsLeaveOut }
{}

/// So two calls of [`router_laws::run`] with the same bus give the same bytes, where their events
/// differ in such cuts alone, one after the other, and nothing is refused.
pub fn recut_runs_agree<G: Gate, H: Gate>()
    ensures { AlikeRunsAgree G.passes H.passes }
{}
