//! Laws of the definitions.

ghost use Rattle.std.specs.Prelude.{◌≡◌, ◌≤◌, ◌↔◌, List, ℕ, Option, Some, None, Result, Err, IsPermutation, map as each};
ghost use Rattle.rad_packet.specs.Packet.{code_of};
ghost use Rattle.rad_packet.specs.Reading.{ReadsAs};
ghost use Rattle.rad_tables.specs.declared.duplicates.Key.{Key};
ghost use Rattle.rad_realms.specs.Checking.{IsChecked, Request};
ghost use Rattle.rad_realms.specs.Configuration.{Configuration};
ghost use Rattle.rad_realms.specs.Realm.{lane_of_packet};
ghost use Rattle.rad_realms.specs.WellFormed.{IsWellFormed};
ghost use Rattle.rad_lane.specs.Accepts.{IsTaken};
ghost use Rattle.rad_lane.specs.Book.{Book};
ghost use Rattle.rad_lane.specs.declared.hearing.Heard.{Heard};
ghost use Rattle.rad_lane.specs.declared.hearing.HearFault.{HearFault};
ghost use Rattle.rad_lane.specs.declared.hearing.HearFault.TheVariants.{Unknown};
ghost use Rattle.rad_lane.specs.Hears.{Hears};
ghost use Rattle.rad_lane.specs.Lawful.{IsLawful};
ghost use Rattle.rad_lane.specs.Repeat.{repeats};
ghost use Rattle.rad_lane.specs.Setup.{IsOfItsRealms, IsSetUp, LaneSetup, LeadsHere};
ghost use Rattle.rad_lane.specs.WithoutOtherHome.{LeadsByTheTable};
ghost use Rattle.rad_lane.specs.Volumes.{IsCut, volume_of, without_cut};
ghost use Rattle.rad_lane.specs.declared.stamp.Stamp.{Stamp};

/// If a configuration leads a packet to a lane, then the packet is of the realms of that lane as the configuration
/// sets it up, and each packet of these realms leads to that lane. So a lane takes each request that leads to it, if
/// the request was checked against the configuration that set up the lane.
pub fn a_lane_takes_what_leads_to_it()
    ensures realm { (config : Configuration) (lane : ℕ) (setup : LaneSetup) (text : List ℕ)
        → IsSetUp config lane setup
        → lane_of_packet config text ≡ Some lane
        → IsOfItsRealms setup text }
    ensures only { (config : Configuration) (lane : ℕ) (setup : LaneSetup) (text : List ℕ)
        → IsWellFormed config
        → IsSetUp config lane setup
        → IsOfItsRealms setup text
        → lane_of_packet config text ≡ Some lane }
    ensures taken { (book : Book) (request : Request)
        → IsChecked request
        → IsSetUp request.config request.lane book.setup
        → IsTaken book request }
{}

/// Where a configuration names no home server for all other realms, a lane takes the realms that the table leads to it,
/// and no others.
pub fn without_other_home_a_lane_takes_its_realms()
    ensures setup { (config : Configuration) (lane : ℕ) (setup : LaneSetup)
        → IsSetUp config lane setup
        → config.other_lane ≡ None
        → setup.unlisted ≡ None }
    ensures takes { (setup : LaneSetup) (realm : Option (List ℕ))
        → setup.unlisted ≡ None
        → LeadsHere setup realm ↔ LeadsByTheTable setup realm }
{}

/// A lane has nothing outstanding on a source port that it does not have. A datagram from the home server that
/// arrives at such a port and reads as an Accounting-Response is `Unknown`.
pub fn a_port_that_a_lane_lacks_is_unknown()
    ensures { (old : Book) (moment port : ℕ) (datagram packet : List ℕ) (answer : Result Heard HearFault) (new : Book)
        → IsLawful old
        → old.setup.ports ≤ port
        → ReadsAs datagram packet
        → code_of packet ≡ 5
        → Hears old moment port datagram answer new
        → answer ≡ Err Unknown }
{}

/// A lawful book without a cut is lawful too. The volume has one answer for each request of the cut, and no other
/// answer. From then on each key repeats what it would repeat without the cut.
pub fn a_cut_loses_nothing()
    ensures lawful { (book : Book) (now : ℕ) (cut kept : List Stamp)
        → IsLawful book → book.last ≤ now → IsCut book now cut kept
        → IsLawful (without_cut book now cut kept) }
    ensures answered_once { (book : Book) (now : ℕ) (cut kept : List Stamp)
        → IsLawful book → book.last ≤ now → IsCut book now cut kept
        → IsPermutation cut (each (λ answer. answer.stamp) (volume_of book cut).answered) }
    ensures repeats { (book : Book) (now : ℕ) (cut kept : List Stamp)
        → IsLawful book → book.last ≤ now → IsCut book now cut kept
        → (key : Key) (later : ℕ) → now ≤ later → repeats (without_cut book now cut kept) key later ≡ repeats book key later }
{}
