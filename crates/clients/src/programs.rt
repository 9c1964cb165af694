// What the programs write, over tables of the call's own: of a whole file, and of as much of it as was read. Beside each promise it is said of the bytes
// themselves that stand in the
// caller's buffer: the first ones, as many as were answered, tell what is to be told, and those past them are as they were.
ghost use Rattle.std.specs.Prelude.{ℕ, ◌≤◌, ◌<◌, List, ◌≡◌, length, take};
ghost use Rattle.buffer.specs.Written.{Written};
ghost use Rattle.listing.specs.Text.{TellsFile, TextPromises, ReadPromises as ListingRead};
ghost use Rattle.answers.specs.Sheets.{TellsPlanned, SheetPromises, ReadPromises as SheetRead};
ghost use Rattle.answers.specs.Checks.{TellsCheck, CheckPromises, joined, ReadBothPromises};
ghost use Rattle.wording.specs.Meaning.{TellsWhy, WhyPromises, ReadPromises as WhyRead};
ghost use Rattle.tightness.specs.Meaning.{TellsTight, TightPromises, ReadPromises as TightRead};
ghost use Rattle.recipes.specs.Meaning.{TellsText, RecipePromises, says_not_seven, ReadPromises as MakeRead};
ghost use Rattle.timeline.specs.Meaning.{TellsWatch, WatchPromises, input_out, ReadPromises as WatchRead};
ghost use Rattle.clients.specs.Wide.{KeptPastText, file_in, sheet_in, ListsAnyPlan};

use answers_code::JOINED_BYTES;
use system::FILE_BYTES;
use timeline_code::{WATCH_BYTES, WATCH_FRONT};

pub fn listing_of(file: &[u8], out: &mut [u8; 4096]) -> usize
    ensures text_promises { TextPromises file.now out.old out.new result }
    ensures kept_past_text { KeptPastText out.old out.new result × TellsFile file.now (take result out.new) × ListsAnyPlan file.now (take result out.new) }
{
    listing_code::listing_of(file, out)
}

pub fn listing_read(front: [u8; FILE_BYTES], read: usize, out: &mut [u8; 4096]) -> usize
    ensures listing_read { ListingRead front read out.old out.new result }
    ensures by_index { (file : List ℕ) → take 384 file ≡ take read front → TextPromises file out.old out.new result }
    ensures by_index_2 { (file : List ℕ) → take 384 file ≡ take read front → KeptPastText out.old out.new result × TellsFile file (take result out.new) × ListsAnyPlan file (take result out.new) }
{
    listing_code::listing_read(front, read, out)
}

pub fn sheet_of(file: &[u8], out: &mut [u8; 4096]) -> usize
    ensures sheet_promises { SheetPromises file.now out.old out.new result }
    ensures kept_past_text { KeptPastText out.old out.new result × TellsPlanned file.now (take result out.new) }
{
    answers_code::sheet_of(file, out)
}

pub fn sheet_read(front: [u8; FILE_BYTES], read: usize, out: &mut [u8; 4096]) -> usize
    ensures sheet_read { SheetRead front read out.old out.new result }
    ensures by_index { (file : List ℕ) → take 384 file ≡ take read front → SheetPromises file out.old out.new result }
    ensures by_index_2 { (file : List ℕ) → take 384 file ≡ take read front → KeptPastText out.old out.new result × TellsPlanned file (take result out.new) }
{
    answers_code::sheet_read(front, read, out)
}

pub fn check_of(file: &[u8], sheet: &[u8], out: &mut [u8; 4096]) -> usize
    ensures check_promises { CheckPromises file.now sheet.now out.old out.new result }
    ensures kept_past_text { KeptPastText out.old out.new result × TellsCheck file.now sheet.now (take result out.new) }
{
    answers_code::check_of(file, sheet, out)
}

pub fn check_read(front: [u8; JOINED_BYTES], read: usize, out: &mut [u8; 4096]) -> usize
    ensures read_both_promises { ReadBothPromises front read out.old out.new result }
    ensures by_index { (file sheet : List ℕ) → take read front ≡ joined (take 4096 file) (take 4096 sheet) → CheckPromises file sheet out.old out.new result }
    ensures by_index_2 { (file sheet : List ℕ) → take read front ≡ joined (take 4096 file) (take 4096 sheet) → KeptPastText out.old out.new result × TellsCheck file sheet (take result out.new) }
    ensures check_promises { CheckPromises (file_in (take read front)) (sheet_in (take read front)) out.old out.new result
        × (KeptPastText out.old out.new result × TellsCheck (file_in (take read front)) (sheet_in (take read front)) (take result out.new)) }
    ensures by_index_3 { (input : List ℕ) → take 8194 input ≡ take read front → CheckPromises (file_in input) (sheet_in input) out.old out.new result
        × TellsCheck (file_in input) (sheet_in input) (take result out.new) }
{
    answers_code::check_read(front, read, out)
}

pub fn why_of(file: &[u8], out: &mut [u8; 4096]) -> usize
    ensures why_promises { WhyPromises file.now out.old out.new result }
    ensures kept_past_text { KeptPastText out.old out.new result × TellsWhy file.now (take result out.new) }
{
    wording_code::why_of(file, out)
}

pub fn why_read(front: [u8; FILE_BYTES], read: usize, out: &mut [u8; 4096]) -> usize
    ensures why_read { WhyRead front read out.old out.new result }
    ensures by_index { (file : List ℕ) → take 384 file ≡ take read front → WhyPromises file out.old out.new result }
    ensures by_index_2 { (file : List ℕ) → take 384 file ≡ take read front → KeptPastText out.old out.new result × TellsWhy file (take result out.new) }
{
    wording_code::why_read(front, read, out)
}

pub fn tight_of(file: &[u8], out: &mut [u8; 4096]) -> usize
    ensures tight_promises { TightPromises file.now out.old out.new result }
    ensures kept_past_text { KeptPastText out.old out.new result × TellsTight file.now (take result out.new) }
{
    tightness_code::tight_of(file, out)
}

pub fn tight_read(front: [u8; FILE_BYTES], read: usize, out: &mut [u8; 4096]) -> usize
    ensures tight_read { TightRead front read out.old out.new result }
    ensures by_index { (file : List ℕ) → take 384 file ≡ take read front → TightPromises file out.old out.new result }
    ensures by_index_2 { (file : List ℕ) → take 384 file ≡ take read front → KeptPastText out.old out.new result × TellsTight file (take result out.new) }
{
    tightness_code::tight_read(front, read, out)
}

pub fn make_of(text: &[u8], out: &mut [u8; 4096]) -> usize
    ensures recipe_promises { RecipePromises text.now out.old out.new result }
    ensures kept_past_text { KeptPastText out.old out.new result × TellsText text.now (take result out.new) }
{
    recipes_code::make_of(text, out)
}

pub fn make_read(front: [u8; FILE_BYTES], read: usize, out: &mut [u8; 4096]) -> usize
    ensures make_read { MakeRead front read out.old out.new result }
    ensures by_index { ((text : List ℕ) → length text < 384 → take 384 text ≡ take read front → RecipePromises text out.old out.new result)
        × ((text : List ℕ) → 384 ≤ length text → take 384 text ≡ take read front → Written says_not_seven out.old out.new result) }
    ensures by_index_2 { ((text : List ℕ) → length text < 384 → take 384 text ≡ take read front → KeptPastText out.old out.new result × TellsText text (take result out.new))
        × ((text : List ℕ) → 384 ≤ length text → take 384 text ≡ take read front → KeptPastText out.old out.new result × (take result out.new ≡ says_not_seven)) }
{
    recipes_code::make_read(front, read, out)
}

pub fn watch_of(
    file: &[u8],
    engine: usize,
    ticks: usize,
    from: usize,
    out: &mut [u8; WATCH_BYTES],
) -> usize
    ensures watch_promises { WatchPromises file.now engine ticks from out.old out.new result }
    ensures kept_past_text { KeptPastText out.old out.new result × TellsWatch file.now engine ticks from (take result out.new) }
{
    timeline_code::watch_of(file, engine, ticks, from, out)
}

pub fn watch_read(front: [u8; WATCH_FRONT], read: usize, out: &mut [u8; WATCH_BYTES]) -> usize
    ensures watch_read { WatchRead front read out.old out.new result }
    ensures by_index { (file : List ℕ) (e ticks from : ℕ) → take 393 (input_out e ticks from file) ≡ take read front → WatchPromises file e ticks from out.old out.new result }
    ensures kept_past_text { KeptPastText out.old out.new result
        × ((file : List ℕ) (e ticks from : ℕ) → take 393 (input_out e ticks from file) ≡ take read front → TellsWatch file e ticks from (take result out.new)) }
{
    timeline_code::watch_read(front, read, out)
}
