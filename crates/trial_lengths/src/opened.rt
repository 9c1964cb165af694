// What is read of a file alone: as one of one kind of engine, as a card, and for the run of an engine that holds nothing.
use deadlines_code::run_engine;
use system::TYPE_LIMIT;
use system_code::{read_card, read_system};
use trial::say;

pub fn say_opened(rt: &HostRuntime, file: &[u8]) {
    say::say(rt, b" system");
    say::say_answer(rt, read_system(file).answer);
    say::say(rt, b", card");
    say::say_answer(rt, read_card(file).answer);
    say::say(rt, b"\n");
}

pub fn say_run(rt: &HostRuntime, file: &[u8], ticks: usize) {
    match run_engine(file, [0; TYPE_LIMIT], ticks) {
        Ok(report) => {
            say::say(rt, b" idle");
            say::say_also(rt, report.idle as usize);
        }
        Err(r) => say::say_answer(rt, Err(r)),
    }
    say::say(rt, b"\n");
}
