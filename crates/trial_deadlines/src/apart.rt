// What a run should answer, from the file's bytes as crate `trial` reads them: the refusals in their order, and then the run by a list of jobs.
use crate::jobs::run_by_list;
use runs::Report;
use system::{Cycle, Refusal, System, TYPE_LIMIT};
use trial::files::reading_of;
use trial::systems::cycle_of;

// A type of which an instance is there has no T, or stands past k: 44.
fn some_unpaced(y: &System, counts: &[u16; TYPE_LIMIT]) -> bool {
    let known = y.types.iter().take(y.typecount);
    let past = counts.iter().skip(y.typecount).any(|count| *count != 0);
    past || known.zip(counts).any(|(task, count)| *count != 0 && cycle_of(task.pace).period == 0)
}

fn instances_in(counts: &[u16; TYPE_LIMIT]) -> usize {
    counts.iter().fold(
        0,
        |all: usize, count| all.saturating_add(usize::from(*count)),
    )
}

// The run of an engine of a system: 44, then 45.
fn run_in(y: System, counts: [u16; TYPE_LIMIT], ticks: usize) -> Result<Report, Refusal> {
    if some_unpaced(&y, &counts) {
        return Err(Refusal::Input(44));
    }
    let instances = instances_in(&counts);
    if 64 < instances || 65535 < ticks {
        return Err(Refusal::Input(45));
    }
    // C and T of the six types, 0 where they are not given.
    let cycles: [Cycle; TYPE_LIMIT] = y.types.map(|task| cycle_of(task.pace));
    Ok(run_by_list(cycles, counts, instances, (ticks % 65536) as u32))
}

// What the call should answer.
pub fn run_apart(file: &[u8], counts: [u16; TYPE_LIMIT], ticks: usize) -> Result<Report, Refusal> {
    let r = reading_of(file);
    if r.refusal != 0 {
        return Err(Refusal::Input((r.refusal % 256) as u8));
    }
    if r.system.second.is_some() {
        return Err(Refusal::Input(42));
    }
    run_in(r.system, counts, ticks)
}
