// The call that makes a trial system.
ghost use Rattle.making.specs.Meaning.{MakePromises};

use crate::drawn::drawn_system;
use crate::limits::recipe_fault;
use making::Recipe;
use system::Answer;
use writer_code::write_system;

// Writes the file of the system that a recipe makes at the start of the buffer, and answers its length; or 39, 40, 30 in this order, and nothing is written.
// Bytes past the file stay as they were.
pub fn make_file(w: Recipe, out: &mut [u8]) -> Answer
    ensures { MakePromises w out.old out.new result }
{
    recipe_fault(w)?;
    write_system(drawn_system(w), out)
}
