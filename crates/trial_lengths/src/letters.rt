// The kinds of cases, a letter each: what is done with the file of a case, and what its number is.

// What is done with a file, or in place of one.
#[derive(Clone, Copy)]
pub enum Kind {
    // k columns_needed: nothing.
    Columns,
    // h read_system and read_card: nothing.
    Opened,
    // d run_engine, of an engine that holds nothing: the ticks.
    Run,
    // y write_system: the bytes of the buffer that are lent.
    System,
    // Y write_system, of a system told by words, which stand in place of the sheet and are named in `told`: the same.
    Told,
    // m make_file: the same.
    Made,
    // n count_assignments, lent as many entries as the row part: nothing.
    Counts,
    Text(Text),
    Over(Over),
}

// A call that writes a text into a buffer of 4,096 bytes. g listing_of, e sheet_of, u why_of, z tight_of, j make_of, for which the file is the text of seven
// numbers: nothing; o check_of: the bytes that are lent of the sheet (0s behind it); v listing_read, b sheet_read, U why_read, Z tight_read, J make_read,
// O check_read, for which the file has a sheet behind it: the bytes that were read.
#[derive(Clone, Copy)]
pub enum Text {
    Listing,
    Sheet,
    Why,
    Tight,
    Made,
    Check,
    ListingRead,
    SheetRead,
    WhyRead,
    TightRead,
    MadeRead,
    CheckRead,
}

// A call that is lent the two parts. p plan_of, P plan_one_kind, f fill_table, l plan_list, i listing, w why_no_plan: nothing; q plan_into: the records that
// are lent; t write_sheet: the bytes of the buffer that are lent; c check_sheet: those of the sheet (0s behind it); a admit, s seat, x why_no_room: the type
// of the newcomer, on a fresh board; r repack, after two of type 1 were admitted to two engines: nothing.
#[derive(Clone, Copy)]
pub enum Over {
    Plan,
    PlanOneKind,
    Fill,
    List,
    Listing,
    Cause,
    Into,
    Sheet,
    Check,
    Admit,
    Seat,
    NoRoom,
    Repack,
}

impl From<u8> for Kind {
    fn from(letter: u8) -> Kind {
        match letter {
            b'k' => Kind::Columns,
            b'h' => Kind::Opened,
            b'd' => Kind::Run,
            b'y' => Kind::System,
            b'Y' => Kind::Told,
            b'm' => Kind::Made,
            b'n' => Kind::Counts,
            b'g' => Kind::Text(Text::Listing),
            b'e' => Kind::Text(Text::Sheet),
            b'u' => Kind::Text(Text::Why),
            b'z' => Kind::Text(Text::Tight),
            b'j' => Kind::Text(Text::Made),
            b'o' => Kind::Text(Text::Check),
            b'v' => Kind::Text(Text::ListingRead),
            b'b' => Kind::Text(Text::SheetRead),
            b'U' => Kind::Text(Text::WhyRead),
            b'Z' => Kind::Text(Text::TightRead),
            b'J' => Kind::Text(Text::MadeRead),
            b'O' => Kind::Text(Text::CheckRead),
            b'p' => Kind::Over(Over::Plan),
            b'P' => Kind::Over(Over::PlanOneKind),
            b'f' => Kind::Over(Over::Fill),
            b'l' => Kind::Over(Over::List),
            b'i' => Kind::Over(Over::Listing),
            b'w' => Kind::Over(Over::Cause),
            b'q' => Kind::Over(Over::Into),
            b't' => Kind::Over(Over::Sheet),
            b'c' => Kind::Over(Over::Check),
            b'a' => Kind::Over(Over::Admit),
            b's' => Kind::Over(Over::Seat),
            b'x' => Kind::Over(Over::NoRoom),
            _ => Kind::Over(Over::Repack),
        }
    }
}
