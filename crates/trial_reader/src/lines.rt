// The cases as they stand in the text, two words for each: its name, and the file. They come in groups, by what decides them:
// - `empty`: refusal 1, for 1 or 2 bytes where a field should start, whatever they are, and for a body that passes the file's end;
// - `tag-0`: refusals 2, 3 and 4;
// - `six-types`: refusal 7, and what comes before it in one field;
// - `m-0`: refusals 5, 6 and 8, in this order;
// - `no-types`: refusals 9 and 10, at the end only;
// - `m-0-then-one-byte`: a field's numbers are judged before any later field, in file order, and not at the end;
// - `d-first`: refusal 3 of a d, which follows its type directly, and once;
// - `d-of-type-6`: a d after six types, with and without one before it, and after a seventh;
// - `d-of-length-0`: refusals 4, 1 and 8 of a d, in this order, and what it is where it is read;
// - `q-first`: refusal 3 of a q, which follows its type, or the d of its type, and comes once;
// - `q-of-type-1-of-2`: which type a q is of;
// - `q-of-type-6`: a q after six types, with and without one before it, and after a seventh;
// - `longest`: what may come after the longest file of one kind without a C and T, which has 163 bytes (241 with a second kind): nothing but those;
// - `q-of-length-0`: refusals 4 and 1 of a q, in this order and before 31;
// - `q-0`: refusal 31, and what a q is where it is read: at both ends, and above n;
// - `u-1000001-then-q-0`: 31 among the refusals of other fields, those before it first, and those at the end last;
// - `kinds-..`: a second kind of engine (tag 6) and the costs there (tag 7): their places, lengths, cuts and numbers; 41 where one stands without the other,
//   between 9 and 10; and 42 for every file of two kinds, from which a system of one kind is wanted;
// - `pace-..`: a C and T (tag 5): its places, lengths and cuts; 43 at both ends of each of its bounds, and in its order among the refusals; in files of one
//   kind and of two, where it is judged by the first kind's u and U; and what may come after the longest files, which have 229 bytes and 307: nothing;
// - `place-..-cut`: each of the seven tags as the first field and after each of the seven, its last byte missing, with its own length and with one more: its
//   place (3) is judged before its length (4), and that before the cut (1);
// - `start-..`: 1 or 2 bytes where a field should start, the first one and after each of the seven tags, with each of the seven tags, right there or not, and
//   with three that are none: the start's cut (1) is judged before the tag (2), its place (3) and its length (4);
// - `pending-..`: files that are to be refused at their end, 41 for costs without a second kind or a second kind without costs, 10 for columns far past
//   4,096, or both, 41 first, and 9 for a second kind without a type; each also with one more field for every refusal that a field can have after a type (1
//   to 4, 7, 8, 31, 43), which is told and not the one of the end, and with types up to the sixth, which change nothing.
use crate::show::show;
use trial::cases::{Words, each_case};

// The bytes of the text that are read at most.
const TEXT_BYTES: usize = 262144;

// All cases of the text.
pub fn say_cases(rt: &HostRuntime) {
    each_case::<TEXT_BYTES, _>(rt, |line| {
        let mut words = Words::of(line);
        let name = words.word();
        show(rt, name, words.bytes().as_slice());
    });
}
