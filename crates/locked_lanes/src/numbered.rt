//! What both ends of a ring know of each response in it.

use rad_lane::Outgoing;
use rtrb::Protocol;

/// The protocol of a lane's ring: the serial of each response is the number of responses before it, none of these
/// answers the same request, and it answers a record.
#[derive(Clone, Copy)]
pub(crate) struct Numbered;

impl Protocol<Outgoing> for Numbered {
    ghost use Rattle.locked_lanes.specs.Fates.{MayFollow};

    ghost allows = { λ before response. MayFollow before response };
}
