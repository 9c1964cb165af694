// Runs what the programs read with, each size in turn, on one input that is longer than all of them together: lines of ten bytes, each with the number of its
// last byte. So each
// goes on where the one before it ended. The largest is then run on what is left, 329 bytes, and all three where nothing is left. Prints each time how many
// bytes were read, those
// bytes, and whether all past them are 0.
#![tactic(auto)]

use front::{Front, read_front, read_joined, read_watched};

// As crate `trial`'s, of which this trial would take nothing else.
fn say(rt: &HostRuntime, text: &[u8]) {
    let _ = rt.write_all(text);
}

fn say_read<const N: usize>(rt: &HostRuntime, front: Front<N>) {
    let _ = rt.print(front.read);
    say(rt, b" read\n");
    say(rt, front.as_slice());
    if front.bytes[front.read..].iter().all(|b| *b == 0) {
        say(rt, b"|0 past them\n");
    } else {
        say(rt, b"|not 0 past them\n");
    }
}

fn main(rt: HostRuntime) {
    say_read(&rt, read_front(&rt));
    say_read(&rt, read_watched(&rt));
    say_read(&rt, read_joined(&rt));
    say_read(&rt, read_joined(&rt));
    say_read(&rt, read_joined(&rt));
    say_read(&rt, read_watched(&rt));
    say_read(&rt, read_front(&rt));
}
