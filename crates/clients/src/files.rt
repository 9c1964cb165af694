// Reading system files, and writing and making them, with where 30 is said and what stands past the file; and the system of which nothing was read.
ghost use Rattle.std.specs.Prelude.{ℕ, ◌+◌, ◌*◌, List, [], ◌∷◌, ◌++◌, ◌≡◌, length, drop};
ghost use Rattle.system.specs.Values.{no_task, blank};
ghost use Rattle.system.specs.Layout.{read_card, read_file, field_at, tag_at, length_at, body_at, next_at, Reads};
ghost use Rattle.system.specs.Inner.{part_of};
ghost use Rattle.system.specs.Fields.{StandsAt};
ghost use Rattle.system.specs.Outcome.{accepted, outcome_of};
ghost use Rattle.writer.specs.Meaning.{file_out, MayBeWritten, WritesInOrder, WritePromises};
ghost use Rattle.making.specs.Meaning.{NumbersWithin, PowerWithin, MakePromises};
ghost use Rattle.clients.specs.Wide.{Says30, KeptPastAnswer, unknown_type, NothingRead};
ghost use Rattle.clients.specs.Answers.{ReadsPlainly, PartPlainly};

use making::Recipe;
use system::{Answer, Cursor, Field, Opened, System, TaskType};

pub fn no_task() -> TaskType
    ensures value { result ≡ no_task }
    ensures value_2 { result ≡ unknown_type }
{
    system_code::no_task()
}

pub fn blank_system() -> System
    ensures value { result ≡ blank }
    ensures nothing_read { NothingRead result }
{
    system_code::blank_system()
}

pub fn read_system(file: &[u8]) -> Opened
    ensures reads { Reads (read_file file.now) result }
    ensures reads_plainly { ReadsPlainly (read_file file.now) result }
{
    system_code::read_system(file)
}

pub fn read_card(file: &[u8]) -> Opened
    ensures reads { Reads (read_card file.now) result }
    ensures reads_plainly { ReadsPlainly (read_card file.now) result }
{
    system_code::read_card(file)
}

pub fn field_at(file: &[u8], c: Cursor) -> Field
    ensures { result ≡ field_at file.now c.at }
{
    system_code::field_at(file, c)
}

pub fn body_part(file: &[u8], field: Field) -> &[u8]
    ensures result_value { result.now ≡ part_of file.now field.start field.next.at }
    ensures part_plainly { PartPlainly file.now field.start field.next.at result.now }
{
    system_code::body_part(file, field)
}

pub fn tag_at(file: &[u8], c: Cursor) -> u8
    ensures value { result ≡ tag_at file.now c.at }
    ensures by_index { (t n : ℕ) (body : List ℕ) (next : ℕ) → StandsAt file.now c.at t n body next → result ≡ t }
{
    system_code::tag_at(file, c)
}

pub fn length_at(file: &[u8], c: Cursor) -> u16
    ensures value { result ≡ length_at file.now c.at }
    ensures by_index { (t n : ℕ) (body : List ℕ) (next : ℕ) → StandsAt file.now c.at t n body next → result ≡ n }
{
    system_code::length_at(file, c)
}

pub fn body_at(file: &[u8], c: Cursor) -> &[u8]
    ensures result_value { result.now ≡ body_at file.now c.at }
    ensures by_index { (t n : ℕ) (body : List ℕ) (next : ℕ) → StandsAt file.now c.at t n body next → result.now ≡ body }
{
    system_code::body_at(file, c)
}

pub fn next_at(file: &[u8], c: Cursor) -> Cursor
    ensures value { result ≡ next_at file.now c.at }
    ensures by_index { (t n : ℕ) (body : List ℕ) (next : ℕ) → StandsAt file.now c.at t n body next → result.at ≡ next }
{
    system_code::next_at(file, c)
}

pub fn write_system(y: System, out: &mut [u8]) -> Answer
    ensures write_promises { WritePromises y out.old out.new result }
    ensures writes_in_order { WritesInOrder y (length out.old) (outcome_of result)
        × ((n : ℕ) → outcome_of result ≡ accepted (n ∷ []) → MayBeWritten y × (out.new ≡ file_out y ++ drop n out.old))
        × KeptPastAnswer out.old out.new (outcome_of result) }
{
    writer_code::write_system(y, out)
}

pub fn make_file(w: Recipe, out: &mut [u8]) -> Answer
    ensures make_promises { MakePromises w out.old out.new result }
    ensures says30 { Says30 (NumbersWithin w × PowerWithin w) (13 + 13 * w.typecount) (length out.old) (outcome_of result) × KeptPastAnswer out.old out.new (outcome_of result) }
{
    making_code::make_file(w, out)
}
