ghost use Rattle.std.specs.Prelude.{◌≡◌, ◌↔◌, Some, IsTrue};
ghost use Rattle.host_port.specs.HostTable.{may_come_of};
ghost use Rattle.host_port.specs.declared.row.MayCome.TheVariants.{Clock};

use host_port::{MayCome, may_come};

/// The clock comes beside this call, as its row says.
pub fn comes_with_clock(call: u8) -> bool
    ensures { IsTrue result ↔ (may_come_of call ≡ Some Clock) }
{
    matches!(may_come(call), Some(MayCome::Clock))
}
