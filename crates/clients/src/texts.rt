// Listings and sheets over tables and buffers of the caller. Of the listings, as of what the programs write, it is said of the bytes in the buffer too.
ghost use Rattle.std.specs.Prelude.{◌+◌, ◌*◌, ◌≤◌, ◌≡◌, length, take};
ghost use Rattle.system.specs.declared.System.{System};
ghost use Rattle.system.specs.Layout.{read_card, read_file, opened};
ghost use Rattle.system.specs.Outcome.{refused, from_input, outcome_of};
ghost use Rattle.partition.specs.Assignment.{Assignment};
ghost use Rattle.partition.specs.Lent.{lent};
ghost use Rattle.partition.specs.Plain.{columns_out, used_to};
ghost use Rattle.listing.specs.Demands.{TellsRefusal, number_of, ListingRefuses, ListingDemand2, RefusalPromises, WriteListingPromises, ListingPromises};
ghost use Rattle.sheets.specs.Meaning.{GoodOnFewest, WriteSheetPromises, CheckPromises};
ghost use Rattle.sheets.specs.Checking.{wrong, sheet_outcome_of};
ghost use Rattle.clients.specs.Wide.{Says11, RightExactly, KeptPastText, KeptPastAnswer, Says30, TellsOfPlan, ListsItsPlan};

use planner::Plan;
use sheets::SHEET_BYTES;
use system::{Answer, Refusal};

pub fn write_refusal(out: &mut [u8; 4096], why: Refusal) -> usize
    ensures refusal_promises { RefusalPromises why out.old out.new result }
    ensures kept_past_text { KeptPastText out.old out.new result × TellsRefusal (number_of why) (take result out.new) }
{
    listing_code::write_refusal(out, why)
}

pub fn write_listing(out: &mut [u8; 4096], p: Plan) -> usize
    ensures write_listing_promises { WriteListingPromises p out.old out.new result }
    ensures kept_past_text { KeptPastText out.old out.new result × TellsOfPlan p (take result out.new) }
{
    listing_code::write_listing(out, p)
}

pub fn listing(
    file: &[u8],
    rows: &mut [u16],
    predecessors: &mut [u16],
    out: &mut [u8; 4096],
) -> usize
    ensures listing_promises { ListingPromises file.now (lent rows.old predecessors.old) out.old out.new result (lent rows.new predecessors.new) }
    ensures kept_past_text { KeptPastText out.old out.new result × (ListingRefuses file.now (lent rows.old predecessors.old) (take result out.new)
        × ListingDemand2 file.now (lent rows.old predecessors.old) (take result out.new)) }
    ensures says11 { Says11 (read_card file.now) rows.old predecessors.old (TellsRefusal 11 (take result out.new)) }
    ensures lists_its_plan { ListsItsPlan file.now (lent rows.old predecessors.old) (take result out.new) (lent rows.new predecessors.new) }
{
    listing_code::listing(file, rows, predecessors, out)
}

pub fn write_sheet(
    file: &[u8],
    rows: &mut [u16],
    predecessors: &mut [u16],
    buffer: &mut [u8],
) -> Answer
    ensures write_sheet_promises { WriteSheetPromises (read_file file.now) (lent rows.old predecessors.old) buffer.old result (lent rows.new predecessors.new) buffer.new }
    ensures says11 { Says11 (read_file file.now) rows.old predecessors.old (outcome_of result ≡ refused from_input 11)
        × ((y : System) (χ : Assignment) → Says30 ((read_file file.now ≡ opened y) × (columns_out y ≤ length rows.old) × (columns_out y ≤ length predecessors.old) × GoodOnFewest y χ)
        (5 + used_to y.engines χ * (12 + 2 * y.typecount)) (length buffer.old) (outcome_of result))
        × KeptPastAnswer buffer.old buffer.new (outcome_of result) }
{
    sheets_code::write_sheet(file, rows, predecessors, buffer)
}

pub fn check_sheet(
    file: &[u8],
    sheet: &[u8],
    rows: &mut [u16],
    predecessors: &mut [u16],
) -> Result<bool, Refusal>
    ensures check_promises { CheckPromises (read_file file.now) sheet.now (lent rows.old predecessors.old) result (lent rows.new predecessors.new) }
    ensures says11 { Says11 (read_file file.now) rows.old predecessors.old (sheet_outcome_of result ≡ wrong from_input 11)
        × RightExactly (read_file file.now) sheet.now rows.old predecessors.old (sheet_outcome_of result) }
{
    sheets_code::check_sheet(file, sheet, rows, predecessors)
}

// The bytes that are enough for every sheet: 5, and for each of 16 engines 12 and two for each of six types.
pub fn sheet_bytes() -> usize
    ensures { result ≡ 5 + 16 * (12 + 2 * 6) }
{
    SHEET_BYTES
}
