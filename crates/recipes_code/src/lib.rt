// What program `make` writes for a text of seven numbers, as `1 3 0 100 200 2 3`: the file of the system that they make, the line of a refusal,
// or a line which says that the text is not seven numbers. Crate `recipes` defines it. The line of a refusal, with its word, is crate `listing_code`'s.
// No literal here holds one of the words that the listing keeps in its one string.
#![tactic(auto)]

mod forms;
mod text;

ghost use Rattle.buffer.specs.Written.{Written};
ghost use Rattle.recipes.specs.Output.{not_seven_line, recipe_text};
ghost use Rattle.recipes.specs.Meaning.{RecipePromises, ReadPromises};

use buffer::{least, put_bytes};
use forms::recipe_of;
use listing_code::write_refusal;
use making::Recipe;
use making_code::make_file;
use recipes::NUMBERS;
use system::FILE_BYTES;
use text::read_numbers;

// Writes that a text is not seven numbers.
fn write_not_seven(out: &mut [u8; 4096]) -> usize
    ensures { Written not_seven_line out.old out.new result }
{
    put_bytes(out, 0, b"not seven numbers\n")
}

// Writes the file of the system that a recipe makes, or the line of a refusal.
fn write_made(w: Recipe, out: &mut [u8; 4096]) -> usize
    ensures { Written (recipe_text w) out.old out.new result }
{
    match make_file(w, out) {
        Ok(size) => size.unwrap_or(0),
        Err(why) => write_refusal(out, why),
    }
}

// Writes what a text comes to at the start of the buffer, and answers how many bytes that has. The buffer is long enough for every file.
pub fn make_of(text: &[u8], out: &mut [u8; 4096]) -> usize
    ensures { RecipePromises text.now out.old out.new result }
{
    let passed = read_numbers(text);
    if passed.at != NUMBERS {
        return write_not_seven(out);
    }
    let numbers = passed.numbers;
    write_made(recipe_of(numbers), out)
}

// The same for a text of which `read` bytes were read, at most `FILE_BYTES` of them. Where that many were, more may follow: such a text is not taken for
// seven numbers.
pub fn make_read(front: [u8; FILE_BYTES], read: usize, out: &mut [u8; 4096]) -> usize
    ensures { ReadPromises front read out.old out.new result }
{
    let end = least(read, FILE_BYTES);
    if end == FILE_BYTES {
        return write_not_seven(out);
    }
    make_of(&front[..end], out)
}
