// The system that a recipe makes: its platform, and the types drawn one after the other.
ghost use Rattle.std.specs.Prelude.{◌≡◌, ◌+◌, ◌%◌, ◌≤◌, ◌<◌};
ghost use Rattle.making.specs.Making.{drawn_to, drawn_system};
ghost use Rattle.making.specs.Inner.{Drawable, Draws};

use crate::generator::step;
use making::{Draw, Recipe};
use system::{System, TaskType};
use system_code::{blank_system, no_task};

// One of the numbers from 1 to `most`.
fn one_to(x: u64, most: u32) -> u32
    requires { 1 ≤ most }
    ensures { result ≡ 1 + x % most }
{
    1 + (x % (most as u64)) as u32
}

// One of the numbers from 0 to `most`.
fn zero_to(x: u64, most: u64) -> u16
    requires { most < 4096 }
    ensures { result ≡ x % (most + 1) }
{
    (x % (most + 1)) as u16
}

// The type that is drawn where the generator stands at x: u, s and n in this order, with a step before each.
fn draw_type(w: Recipe, x: u64) -> Draw
    requires { Drawable w }
    ensures { Draws w x result }
{
    let first = step(x);
    let second = step(first);
    let third = step(second);
    let task = TaskType {
        time: one_to(first, w.timecap),
        memory: one_to(second, w.memorycap),
        ceiling: zero_to(third, w.top),
        ..no_task()
    };
    Draw { value: third, task }
}

// The platform, and no type.
fn drawn_platform(w: Recipe) -> System
    ensures { result ≡ drawn_to w 0 }
{
    System {
        engines: w.engines,
        rule: w.rule,
        timecap: w.timecap,
        memorycap: w.memorycap,
        ..blank_system()
    }
}

// The system with its k types.
pub fn drawn_system(w: Recipe) -> System
    requires { Drawable w }
    ensures { result ≡ drawn_system w }
{
    let mut y = drawn_platform(w);
    let mut x = w.seed;
    for t in 0..w.typecount {
        let draw = draw_type(w, x);
        y.types[t] = draw.task;
        y.typecount = t + 1;
        x = draw.value;
    }
    y
}
