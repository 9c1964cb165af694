// Every assignment of up to eight single instances to the engines of a card, tried one after the other, where there are at most 65,536 of them.
use crate::judge;
use brute::recovery::ceilings_of;
use brute::search::{counted_up, digits_of, kind_of, kinds_of, least};
use std::array;
use system::{System, TYPE_LIMIT};

// The engines that an assignment needs: those of both kinds, and those of the second kind among them. The least of these is of the fewest engines, and among
// those of the fewest of the second kind.
#[derive(Clone, Copy, PartialEq, Eq, PartialOrd, Ord)]
pub struct Engines {
    pub all: usize,
    pub second: usize,
}

// There are more assignments than are tried.
#[derive(Clone, Copy)]
pub struct Untried;

// The types, counted from 0, of the first eight single instances, of which those of type 1 come first; None where there are fewer.
type Instances = [Option<usize>; 8];

// A set of the first eight instances is a number of eight bits, one for each of them.
const BITS: [u8; 8] = [1, 2, 4, 8, 16, 32, 64, 128];

// Whether a set of instances fits an engine of the first kind, and of the second: either may be so without the other, and there is no value beside.
#[derive(Clone, Copy)]
struct Fit {
    first: bool,
    second: bool,
}

// One instance more of the type at index t.
fn add_one(counts: &mut [u16; TYPE_LIMIT], t: usize) {
    if let Some(count) = counts.get_mut(t) {
        *count = count.wrapping_add(1);
    }
}

// The counts of a set.
fn counts_in(instances: Instances, set: u8) -> [u16; TYPE_LIMIT] {
    let mut counts = [0; TYPE_LIMIT];
    for (bit, instance) in BITS.iter().zip(&instances) {
        match instance {
            Some(t) if set & *bit != 0 => add_one(&mut counts, *t),
            _ => {}
        }
    }
    counts
}

// Every set of a card's instances.
fn fits_in(y: System, instances: Instances) -> [Fit; 256] {
    array::from_fn(|set| {
        let counts = counts_in(instances, (set % 256) as u8);
        Fit {
            first: judge::fits_on(y, 1, counts),
            second: judge::fits_on(y, y.engines.wrapping_add(1), counts),
        }
    })
}

// The sets on 16 engines under an assignment: an instance is on the engine whose index stands at its place.
fn sets_of(instances: Instances, assignment: [usize; 8]) -> [u8; 16] {
    let mut sets = [0; 16];
    for ((bit, instance), e) in BITS.iter().zip(&instances).zip(&assignment) {
        if instance.is_some() {
            sets[*e % 16] |= *bit;
        }
    }
    sets
}

// An engine, of the first kind or of the second, holds a set.
fn holds(fits: &[Fit; 256], first: bool, set: u8) -> bool {
    let fit = fits[usize::from(set)];
    if first { fit.first } else { fit.second }
}

// The engines that an assignment needs, of which the first m are of the first kind; None where one does not hold its set.
fn needed(fits: &[Fit; 256], sets: [u8; 16], m: usize) -> Option<Engines> {
    if !sets
        .iter()
        .enumerate()
        .all(|(e, set)| holds(fits, e < m, *set))
    {
        return None;
    }
    Some(Engines {
        all: sets.iter().filter(|set| **set != 0).count(),
        second: sets.iter().skip(m).filter(|set| **set != 0).count(),
    })
}

// The least over all assignments, None where none is good.
fn least_tried(y: System, instances: Instances) -> Result<Option<Engines>, Untried> {
    let engines = judge::engines_in(y);
    let fits = fits_in(y, instances);
    let bases = instances.map(|instance| if instance.is_some() { engines } else { 1 });
    let mut assignment = [0; 8];
    let mut best = None;
    for _ in 0..65536 {
        best = least(
            best,
            needed(&fits, sets_of(instances, assignment), y.engines),
        );
        let Some(next) = counted_up(assignment, bases) else {
            return Ok(best);
        };
        assignment = next;
    }
    Err(Untried)
}

// The engines of the best plan of all instances of a card, None where there is no plan.
pub fn best_of(y: System) -> Result<Option<Engines>, Untried> {
    let load = digits_of(ceilings_of(y));
    if kind_of(load, 8).is_some() {
        return Err(Untried);
    }
    least_tried(y, kinds_of(load))
}
