//! Which requests come again in the life of a lane.

ghost use Rattle.std.specs.Prelude.{AllPairs};
ghost use Rattle.rad_network.specs.Happens.{Life};
ghost use Rattle.rad_network.specs.Repeating.{IsAgainAfterItsSpan, accepted_ever, answers_ever};
ghost use Rattle.rad_network.specs.World.{World};

/// In the whole life of a lane no request is accepted again within its span, however often the book was cut: of any two
/// requests with one key that it ever accepted, the earlier one was answered at least a span before the later one was
/// accepted.
pub fn none_again_across_cuts()
    ensures { (world : World) (life : Life world)
        → AllPairs (IsAgainAfterItsSpan (answers_ever life.happenings world.book) world.book.setup.limits.span) (accepted_ever life.happenings world.book) }
{}
