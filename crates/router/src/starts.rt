//! Starts of services that end without their names. (D-Bus Specification: "Message Bus Starting
//! Services (Activation)")

ghost use Rattle.std.specs.Prelude.{◌≡◌, OnOk, OnErr};
ghost use Rattle.router_core.specs.Events.{ending_child};
ghost use Rattle.router_core.specs.Scripts.{RunsTo};

use crate::peers::Peers;
use bus_view::BusView;
use router_core::limits::MAX_EFFECTS;
use router_core::{Gate, StartEnd};
use std::alloc::AllocError;

impl<V: BusView, G: Gate> Peers<V, G> {
    /// The bus is told of the end of a start, and the calls that waited for it are answered why
    /// their service did not come. Without memory nothing changes.
    pub fn end_start(&mut self, right: &V::Right, ended: &StartEnd) -> Result<(), AllocError>
        ensures comes { OnOk result (RunsTo V.BusView G.Gate
            (ending_child self.old.standing ended.now)
            self.old.work.world self.new.standing self.new.work.world) }
        ensures err { OnErr result (self.new.standing ≡ self.old.standing) }
        ensures world { OnErr result (self.new.work.world ≡ self.old.work.world) }
        ensures keys { self.new.keys ≡ self.old.keys }
    {
        self.context.reserve(MAX_EFFECTS)?;
        self.context.end_start(right, ended)?;
        Ok(())
    }
}
