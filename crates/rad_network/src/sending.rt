//! What departs, and what the home server receives.

ghost use Rattle.std.specs.Prelude.{◌≡◌, ℕ, List, Some};
ghost use Rattle.std.specs.List.{Contains};
ghost use Rattle.rad_auth.specs.declared.mark.Mark.{Mark};
ghost use Rattle.rad_auth.specs.Mark.{EndsWithMark};
ghost use Rattle.rad_network.specs.Happens.{Life};
ghost use Rattle.rad_network.specs.World.{Departed, World};

/// All that departs for one number has the same octets: within one life, a retransmission repeats the first sending
/// octet for octet.
pub fn one_number_one_datagram()
    ensures { (world : World) (number : ℕ) (a b : Departed)
        → Life world
        → Contains world.departed a → Contains world.departed b
        → a.number ≡ Some number → b.number ≡ Some number
        → a.octets ≡ b.octets }
{}

/// The home server receives only what departed. So whatever it receives with one mark is the same, octet for octet: a
/// record that comes to it more than once is one record, and a home server that keeps it once by its octets, or by the
/// mark, has each record once.
pub fn one_mark_one_datagram()
    ensures departed { (world : World) (octets : List ℕ)
        → Life world
        → Contains world.received octets
        → (sent : Departed) × Contains world.departed sent × (sent.octets ≡ octets) }
    ensures alike { (world : World) (mark : Mark) (a b : List ℕ)
        → Life world
        → Contains world.received a → Contains world.received b
        → EndsWithMark mark a → EndsWithMark mark b
        → a ≡ b }
{}
