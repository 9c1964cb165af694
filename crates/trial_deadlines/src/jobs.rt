// A run over a list of the single jobs that wait: each is entered when it comes and taken out when it is done, and in each tick the list is searched.
// Where a job stands in the list says nothing: it is entered at the first free place.
use runs::Report;
use std::num::wrapping_add_u32;
use system::{Cycle, TYPE_LIMIT};
use trial::lent::front_mut;

// The most jobs that wait: one for each of 64 instances.
const PLACES: usize = 64;

// A job: when it is due, its type and its instance, both counted from 0, and the ticks that it has still to run, at least 1. The earliest deadline runs; of
// equal ones the lower type, then the lower instance: that is the order of the fields.
#[derive(Clone, Copy, PartialEq, Eq, PartialOrd, Ord)]
struct Single {
    due: u32,
    kind: usize,
    instance: u16,
    left: u32,
}

// One job more. It is left out where all places are taken.
fn enter(places: &mut [Option<Single>], job: Single) {
    if let Some(place) = places.iter_mut().find(|place| place.is_none()) {
        *place = Some(job);
    }
}

// A job that waits is due: it missed its deadline.
fn some_due(places: &[Option<Single>], now: u32) -> bool {
    places
        .iter()
        .any(|place| place.is_some_and(|job| job.due <= now))
}

// The job that runs, where one waits.
fn earliest(places: &[Option<Single>]) -> Option<Single> {
    places.iter().copied().flatten().min()
}

// A job runs for a tick, and is taken out when nothing is left of it.
fn work(places: &mut [Option<Single>], job: Single) {
    let left = job.left.saturating_sub(1);
    for place in places.iter_mut() {
        if *place == Some(job) {
            *place = (left != 0).then_some(Single { left, ..job });
        }
    }
}

// A job of each instance of a type comes now.
fn enter_type(places: &mut [Option<Single>], kind: usize, count: u16, cycle: Cycle, now: u32) {
    for instance in 0..count {
        let job = Single {
            due: wrapping_add_u32(now, cycle.period),
            kind,
            instance,
            left: cycle.run,
        };
        enter(places, job);
    }
}

// All jobs that come now: at 0 and every T. A type without C and T has none.
fn enter_all(
    places: &mut [Option<Single>],
    cycles: &[Cycle; TYPE_LIMIT],
    counts: &[u16; TYPE_LIMIT],
    now: u32,
) {
    for (kind, (cycle, count)) in cycles.iter().zip(counts).enumerate() {
        if cycle.period != 0 && now % cycle.period == 0 {
            enter_type(places, kind, *count, *cycle, now);
        }
    }
}

// The run over so many ticks, of at most 64 instances in all: a place for the job of each.
pub fn run_by_list(
    cycles: [Cycle; TYPE_LIMIT],
    counts: [u16; TYPE_LIMIT],
    instances: usize,
    ticks: u32,
) -> Report {
    let mut all = [None; PLACES];
    let places = front_mut(&mut all, instances);
    let mut idle = 0;
    for now in 0..ticks {
        if some_due(places, now) {
            let missed = Some(now);
            return Report { idle, missed };
        }
        enter_all(places, &cycles, &counts, now);
        match earliest(places) {
            Some(job) => work(places, job),
            None => idle = wrapping_add_u32(idle, 1),
        }
    }
    let missed = some_due(places, ticks).then_some(ticks);
    Report { idle, missed }
}
