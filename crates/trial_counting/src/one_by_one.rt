// Every assignment of up to eight single instances to the engines of a system, one after the other, where there are at most 4,096 of them.
use brute::recovery::ceilings_of;
use brute::search::{counted_up, digits_of, fits_one, kind_of, kinds_of};
use system::{ENGINE_LIMIT, System};

// The most assignments that are gone through.
const TURNS: usize = 4096;

// How many assignments there are, and how many of them are good.
#[derive(Clone, Copy)]
pub struct Gone {
    pub good: usize,
    pub total: usize,
}

// What the engine at index e holds, where each instance is of one of these types, and at one of these places.
fn load_on(kinds: &[Option<usize>; 8], places: &[usize; 8], e: usize) -> [usize; 8] {
    let mut load: [usize; 8] = [0; 8];
    for (kind, place) in kinds.iter().zip(places) {
        if *place == e {
            if let Some(number) = kind.and_then(|t| load.get_mut(t)) {
                *number = number.wrapping_add(1);
            }
        }
    }
    load
}

// What each engine holds fits there.
fn is_good(y: System, kinds: &[Option<usize>; 8], places: &[usize; 8]) -> bool {
    (0..y.engines.min(ENGINE_LIMIT)).all(|e| fits_one(y, load_on(kinds, places, e)))
}

// All assignments of instances of these types, up to the most that are gone through.
fn gone_through(y: System, kinds: &[Option<usize>; 8]) -> Option<Gone> {
    // the digits' bases: the engines for each instance, 1 for those that there are not
    let bases = kinds.map(|kind| kind.map_or(1, |_| y.engines));
    let mut places: [usize; 8] = [0; 8];
    let mut good: usize = 0;
    for turn in 0..TURNS {
        if is_good(y, kinds, &places) {
            good = good.wrapping_add(1);
        }
        let Some(next) = counted_up(places, bases) else {
            return Some(Gone {
                good,
                total: turn + 1,
            });
        };
        places = next;
    }
    None
}

// All assignments of the instances of a system, where there are at most eight of these and not too many to go through.
pub fn assignments(y: System) -> Option<Gone> {
    let all = digits_of(ceilings_of(y));
    if kind_of(all, 8).is_some() {
        return None;
    }
    gone_through(y, &kinds_of(all))
}
