//! What a NAS knows that is answered in any of the runs.

ghost use Rattle.std.specs.Prelude.{◌∷◌, ℕ, List};
ghost use Rattle.rad_network.specs.World.{World};
ghost use Rattle.spool_runs.specs.Network.{AnsweredMeansReceived, AreRuns, EachLifeIsARun};

/// In whichever run a NAS is answered, the home server had received the octets made of this very record, in this run or in an
/// earlier one, and had replied to them. It is so if a packet that is valid for what the lane sent was made by the home server,
/// in this run, or in an earlier one as a reply to the same octets (`OnlyHomeEverReplies`), with the premises of
/// `rad_network::acknowledged_means_received` for the requests of this run. Each life of a lane, as that law has it, is a run
/// after any others.
pub fn answered_means_received()
    ensures received { (secret : List ℕ) (world : World) (earlier : List World)
        → AreRuns secret (world ∷ earlier)
        → AnsweredMeansReceived secret world earlier }
    ensures runs { EachLifeIsARun }
{}
