//! The end of the lanes, from their desks and inlets.

ghost use Rattle.std.specs.Prelude.{◌≡◌, ◌≤◌, ◌↔◌, ℕ, [], length, map as each, All, IsTrue, Some};
ghost use Rattle.std.specs.Option.{ForSome};
ghost use Rattle.std.specs.Vec.{vec_len, vec_capacity};
ghost use Rattle.locked_lanes.specs.Desk.{book};
ghost use Rattle.locked_lanes.specs.Inlet.{HasRoom};
ghost use Rattle.locked_lanes.specs.Ending.{GoOnFrom, AgreesAmong, TellsRest, IsEnd, IsReport};

use crate::agreeing::agrees;
use crate::desk::{Desk, RecordQueue};
use crate::inlet::Inlet;
use crate::report::{LaneEnd, Report, Rest};
use block_queue::Fifo;
use rad_lane::{Answered, Outgoing, Series};
use std::alloc::Global;

/// Returns what is left of all lanes: of each desk, with the inlet at the same place, if there is one. The other inlets
/// are dropped. It allocates nothing.
pub(crate) fn end_all(
    alloc: Global,
    desks: Vec<Desk>,
    inlets: Vec<Inlet>,
    ends: Vec<LaneEnd>,
) -> Report
    requires few { vec_len desks ≤ 64 }
    requires places { vec_len desks ≤ vec_capacity ends }
    requires none { ends.items ≡ [] }
    requires rooms { All HasRoom inlets.items }
    ensures { IsReport desks.items inlets.items result }
{
    let mut ends = ends;
    let mut queued = RecordQueue::new(alloc);
    let mut inlets = inlets.into_iter();
    for desk in desks {
        let lane = ends.len() as u16;
        let (end, queue) = end_of(lane, desk, inlets.next());
        queued.append(queue);
        ends.push_reserved(end);
    }
    Report {
        ends: Series::from_vec(ends),
        queued,
    }
}

fn end_of(lane: u16, desk: Desk, inlet: Option<Inlet>) -> (LaneEnd, RecordQueue)
    requires { ForSome inlet HasRoom }
    ensures end { IsEnd lane (book desk) inlet result.0 }
    ensures queued { each (λ k. k.recorded) result.1.items ≡ (book desk).queued }
    ensures bounded { length result.1.items ≤ 65536 }
{
    let counts = desk.counts();
    let parts = desk.close().into_parts();
    let rest = rest_of(lane, parts.answered.as_slice(), counts.answered, inlet);
    let end = LaneEnd {
        lane,
        counts,
        accepted: parts.accepted,
        answered: parts.answered,
        outstanding: parts.outstanding,
        rest,
    };
    (end, parts.queued)
}

fn rest_of(lane: u16, answered: &[Answered], served: u64, inlet: Option<Inlet>) -> Rest
    requires { ForSome inlet HasRoom }
    ensures { TellsRest lane answered.now served inlet result }
{
    let Some(mut inlet) = inlet else {
        return Rest::Unknown;
    };
    rest_in(lane, answered, served, &mut inlet)
}

fn rest_in(lane: u16, answered: &[Answered], served: u64, inlet: &mut Inlet) -> Rest
    requires { HasRoom inlet.old }
    ensures { TellsRest lane answered.now served (Some inlet.old) result }
{
    if inlet.lane() != lane {
        return Rest::Unknown;
    }
    let rest = inlet.empty();
    if inlet.has_taken(served) && agree(answered, rest.as_slice()) {
        Rest::Known(Series::from_vec(rest))
    } else {
        Rest::Unknown
    }
}

fn agree(answered: &[Answered], rest: &[Outgoing]) -> bool
    requires { (first : ℕ) × GoOnFrom first rest.now }
    ensures { IsTrue result ↔ All (AgreesAmong rest.now) answered.now }
{
    let Some(first) = rest.first() else {
        return true;
    };
    for answer in answered {
        if !agrees_among(answer, first.serial, rest) {
            return false;
        }
    }
    true
}

fn agrees_among(answer: &Answered, first: u64, rest: &[Outgoing]) -> bool
    requires { GoOnFrom first rest.now }
    ensures { IsTrue result ↔ AgreesAmong rest.now answer.now }
{
    let serial = answer.serial();
    if serial < first {
        return true;
    }
    match rest.get((serial - first) as usize) {
        Some(response) => agrees(answer, response),
        None => true,
    }
}
