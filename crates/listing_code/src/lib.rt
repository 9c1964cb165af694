// Writes the bytes of a plan's listing (document 01's "Listing"), which crate `listing` defines.
//
// The functions that put something into the buffer answer the place after it. Each asks for the room that its part can take, and promises to take no more.
#![tactic(auto)]

ghost use Rattle.std.specs.Prelude.{◌≡◌, ◌∷◌, [], ◌++◌, map, ◌+◌, ◌*◌, ◌≤◌, ◌<◌, length, get_or, take, drop};
ghost use Rattle.buffer.specs.Written.{Puts};
ghost use Rattle.system.specs.Outcome.{refusal_of};
ghost use Rattle.partition.specs.Lent.{lent};
ghost use Rattle.planner.specs.Plan.{records_with};
ghost use Rattle.listing.specs.Listing.{engines_word, util_word, mem_word, types_word, refused_word, space, decimal, parted};
ghost use Rattle.listing.specs.Listing.{record_line, record_lines, plan_lines, listing_of};
ghost use Rattle.listing.specs.Room.{number_room, spaced_room, line_room, engine_room, engines_room, listing_room};
ghost use Rattle.listing.specs.Demands.{RefusalPromises, WriteListingPromises, ListingPromises};
ghost use Rattle.listing.specs.Text.{TextPromises, ReadPromises};

use buffer::{least, put_byte, put_bytes};
use loads::EngineLoad;
use planner::Plan;
use system::{COLUMN_LIMIT, ENGINE_LIMIT, FILE_BYTES, Refusal, TYPE_LIMIT};

// The words of a listing, one behind the other: all the text that the program has. A word is a part of them, given by its start and its size; `engine` is the
// first six bytes of `engines`. They are a static: of a constant the compiler builds all bytes on the stack, out of numbers in the code, at each use.
static WORDS: [u8; 26] = *b"enginesutilmemtypesrefused";

// Where `engines` starts, and `engine`.
const ENGINES: usize = 0;

// Where `util` starts.
const UTIL: usize = 7;

// Where `mem` starts.
const MEM: usize = 11;

// Where `types` starts.
const TYPES: usize = 14;

// Where `refused` starts.
const REFUSED: usize = 19;

// The most digits of a number of 64 bits.
const NUMBER_ROOM: usize = 20;

// The byte of the words at a place, 0 past their end.
fn letter(place: usize) -> u8
    ensures { result ≡ get_or (engines_word ++ util_word ++ mem_word ++ types_word ++ refused_word) place 0 }
{
    WORDS.get(place).copied().unwrap_or(0)
}

// Puts a number in decimal.
pub fn put_number(out: &mut [u8], at: usize, n: u64) -> usize
    requires { at + number_room ≤ length out.old }
    ensures { Puts (decimal n) at out.old out.new result × (result ≤ at + number_room) }
{
    let mut text = [0u8; NUMBER_ROOM];
    let k = io::decimal(n, &mut text);
    put_bytes(out, at, &text[..k])
}

// Puts a word: its bytes are copied from the words.
fn put_word(out: &mut [u8], at: usize, start: usize, size: usize) -> usize
    requires { (start + size ≤ 26) × (at + size ≤ length out.old) }
    ensures { Puts (take size (drop start (engines_word ++ util_word ++ mem_word ++ types_word ++ refused_word))) at out.old out.new result × (result ≤ at + size) }
{
    let mut next = at;
    for i in 0..size {
        next = put_byte(out, next, letter(start + i));
    }
    next
}

// Puts a word, its numbers, each after a space, and the byte after them. It calls itself for all numbers but the last: so the compiler keeps it as one function
// and copies no word into its callers' code.
fn put_numbered(
    out: &mut [u8],
    at: usize,
    start: usize,
    size: usize,
    numbers: &[u64],
    end: u8,
) -> usize
    requires { (start + size ≤ 26) × (at + size + length numbers.now * spaced_room + 1 ≤ length out.old) }
    ensures { Puts (take size (drop start (engines_word ++ util_word ++ mem_word ++ types_word ++ refused_word)) ++ parted (map decimal numbers.now) ++ (end ∷ [])) at out.old out.new result × (result ≤ at + size + length numbers.now * spaced_room + 1) }
{
    let count = numbers.len();
    if count == 0 {
        let named = put_word(out, at, start, size);
        return put_byte(out, named, end);
    }
    let last = count - 1;
    let next = put_numbered(out, at, start, size, &numbers[..last], b' ');
    let told = put_number(out, next, numbers[last]);
    put_byte(out, told, end)
}

// Puts a word, its one number and the byte after it, as `util 8`.
fn put_entry(out: &mut [u8], at: usize, start: usize, size: usize, n: u64, end: u8) -> usize
    requires { (start + size ≤ 26) × (at + size + spaced_room + 1 ≤ length out.old) }
    ensures { Puts (take size (drop start (engines_word ++ util_word ++ mem_word ++ types_word ++ refused_word)) ++ (space ∷ decimal n) ++ (end ∷ [])) at out.old out.new result × (result ≤ at + size + spaced_room + 1) }
{
    let numbers = [n];
    put_numbered(out, at, start, size, &numbers, end)
}

// The counts of a load as numbers to put.
fn wide_counts(counts: [u16; TYPE_LIMIT]) -> [u64; TYPE_LIMIT]
    ensures { result ≡ counts }
{
    counts.map(|count| count as u64)
}

// Puts the line of one engine.
fn put_engine(out: &mut [u8], at: usize, number: usize, load: EngineLoad, typecount: usize) -> usize
    requires { at + engine_room ≤ length out.old }
    ensures { Puts (record_line typecount (record { number = number; load = load })) at out.old out.new result × (result ≤ at + engine_room) }
{
    let named = put_entry(out, at, ENGINES, 6, number as u64, b' ');
    let timed = put_entry(out, named, UTIL, 4, load.time as u64, b' ');
    let sized = put_entry(out, timed, MEM, 3, load.memory as u64, b' ');
    let numbers = wide_counts(load.counts);
    let end = least(typecount, TYPE_LIMIT);
    put_numbered(out, sized, TYPES, 5, &numbers[..end], b'\n')
}

// Puts the lines of a plan's used engines, which have these numbers. Numbers and loads stand side by side in `Plan`, whose shape the theorems name.
fn put_engines(out: &mut [u8], at: usize, p: Plan) -> usize
    requires { at + engines_room ≤ length out.old }
    ensures { Puts (record_lines p.typecount (take p.used (records_with p.numbers p.loads))) at out.old out.new result × (result ≤ at + engines_room) }
{
    let end = least(p.used, ENGINE_LIMIT);
    let mut next = at;
    for i in 0..end {
        next = put_engine(out, next, p.numbers[i], p.loads[i], p.typecount);
    }
    next
}

// Puts the listing of a plan that was given.
fn put_plan(out: &mut [u8], p: Plan) -> usize
    requires { listing_room ≤ length out.old }
    ensures { Puts (plan_lines p.used p.typecount (records_with p.numbers p.loads)) 0 out.old out.new result × (result ≤ listing_room) }
{
    let next = put_entry(out, 0, ENGINES, 7, p.used as u64, b'\n');
    put_engines(out, next, p)
}

// Puts the listing of a refusal, from whichever list.
fn put_refusal(out: &mut [u8], why: Refusal) -> usize
    requires { line_room refused_word ≤ length out.old }
    ensures { Puts (listing_of (refusal_of why) 0 0 []) 0 out.old out.new result × (result ≤ line_room refused_word) }
{
    match why {
        Refusal::Input(n) | Refusal::State(n) => put_entry(out, 0, REFUSED, 7, n as u64, b'\n'),
    }
}

// Writes the line of a refusal, from whichever list, at the start of the buffer, and answers its length.
pub fn write_refusal(out: &mut [u8; 4096], why: Refusal) -> usize
    ensures { RefusalPromises why out.old out.new result }
{
    put_refusal(out, why)
}

// Writes the listing of a plan at the start of the buffer, and answers its length. Every listing fits.
pub fn write_listing(out: &mut [u8; 4096], p: Plan) -> usize
    ensures { WriteListingPromises p out.old out.new result }
{
    match p.answer {
        Ok(_) => put_plan(out, p),
        Err(why) => put_refusal(out, why),
    }
}

// Writes the listing of a system file, planned over the lent table, at the start of the buffer, and answers its length.
// The table is left as a plan leaves it.
pub fn listing(
    file: &[u8],
    rows: &mut [u16],
    predecessors: &mut [u16],
    out: &mut [u8; 4096],
) -> usize
    ensures { ListingPromises file.now (lent rows.old predecessors.old) out.old out.new result (lent rows.new predecessors.new) }
{
    write_listing(out, planner_code::plan_of(file, rows, predecessors))
}

// Writes the listing of a system file at the start of the buffer, and answers its length. The table is the function's own.
pub fn listing_of(file: &[u8], out: &mut [u8; 4096]) -> usize
    ensures { TextPromises file.now out.old out.new result }
{
    let mut rows = [0u16; COLUMN_LIMIT];
    let mut predecessors = [0u16; COLUMN_LIMIT];
    listing(file, &mut rows, &mut predecessors, out)
}

// Writes the listing of a file of which `read` bytes were read, at most `FILE_BYTES` of them. A longer file has the same listing.
pub fn listing_read(front: [u8; FILE_BYTES], read: usize, out: &mut [u8; 4096]) -> usize
    ensures { ReadPromises front read out.old out.new result }
{
    let end = least(read, FILE_BYTES);
    listing_of(&front[..end], out)
}
