// Systems drawn from the numbers at both ends of every limit, in every field, those past the last type too; and for each a buffer that is a byte too
// short, just long enough, a byte longer, or much longer.
use system::{System, TYPE_LIMIT};
use system_code::blank_system;
use trial::buffers::BUFFER_BYTES;
use trial::changes::with_number;
use trial::files;
use trial::spread::Draws;

// What a number is drawn from: up to its limit, and past it.
#[derive(Clone, Copy)]
struct Ends {
    within: [usize; 8],
    past: [usize; 4],
}

const COUNTS: Ends = Ends {
    within: [1, 1, 2, 3, 4, 5, 6, 6],
    past: [0, 7, 257, 18446744073709551615],
};

const ENGINES: Ends = Ends {
    within: [1, 1, 2, 3, 8, 15, 16, 16],
    past: [0, 17, 257, 18446744073709551615],
};

const SECONDS: Ends = Ends {
    within: [1, 1, 1, 2, 8, 13, 14, 15],
    past: [0, 7, 257, 18446744073709551615],
};

const RULES: Ends = Ends {
    within: [0, 1, 0, 1, 0, 1, 0, 1],
    past: [2, 3, 128, 255],
};

const SIZES: Ends = Ends {
    within: [0, 1, 256, 65535, 65536, 658188, 999999, 1000000],
    past: [1000001, 1000256, 16777216, 4294967295],
};

const DATA: Ends = Ends {
    within: [0, 0, 0, 0, 1, 256, 65536, 1000000],
    past: [1000001, 1000256, 16777216, 4294967295],
};

const MOSTS: Ends = Ends {
    within: [65536, 65536, 65536, 1, 2, 256, 65534, 65535],
    past: [0, 0, 0, 0],
};

const RUNS: Ends = Ends {
    within: [1, 1, 1, 2, 3, 255, 32768, 65535],
    past: [0, 65536, 65537, 4294967295],
};

const PERIODS: Ends = Ends {
    within: [1, 3, 256, 32768, 65534, 65535, 65535, 65535],
    past: [0, 65536, 65537, 4294967295],
};

const CEILINGS: Ends = Ends {
    within: [0, 0, 0, 1, 1, 3, 63, 4095],
    past: [4096, 4351, 65534, 65535],
};

// A system and the length of its buffer, and what is drawn after them.
#[derive(Clone, Copy)]
pub struct Drawn {
    pub draws: Draws,
    pub system: System,
    pub room: usize,
}

impl Drawn {
    // Draws one number of the system, one in 16 past its limit.
    fn set(&mut self, what: u8, t: usize, ends: &Ends) {
        let side = self.draws.below(16);
        let place = self.draws.below(8);
        let n = if side == 0 {
            ends.past[place % 4]
        } else {
            ends.within[place % 8]
        };
        self.system = with_number(self.system, what, t, n);
    }

    fn set_platform(&mut self) {
        self.set(b'k', 0, &COUNTS);
        self.set(b'm', 0, &ENGINES);
        self.set(b'r', 0, &RULES);
        self.set(b'U', 0, &SIZES);
        self.set(b'S', 0, &SIZES);
    }

    // The type at index t.
    fn set_type(&mut self, t: usize) {
        self.set(b'u', t, &SIZES);
        self.set(b's', t, &SIZES);
        self.set(b'n', t, &CEILINGS);
        self.set(b'd', t, &DATA);
        self.set(b'q', t, &MOSTS);
    }

    // A second kind of engine: its number, U and S; none in one of 16.
    fn set_second(&mut self) {
        if self.draws.below(16) != 0 {
            self.set(b'x', 0, &SECONDS);
            self.set(b'X', 0, &SIZES);
            self.set(b'Z', 0, &SIZES);
        }
    }

    // Costs there of the type at index t, which one in 16 has not, as long as it is one of the first k, and one in two past them.
    fn set_there(&mut self, t: usize) {
        let without = if t < self.system.typecount { 1 } else { 8 };
        if without <= self.draws.below(16) {
            self.set(b'v', t, &SIZES);
            self.set(b'z', t, &SIZES);
        }
    }

    // A C and T of the type at index t, in one of four.
    fn set_pace(&mut self, t: usize) {
        if self.draws.below(4) == 0 {
            self.set(b'R', t, &RUNS);
            self.set(b'P', t, &PERIODS);
        }
    }

    // The platform and all six types, of one kind of engine, without a C and T.
    fn new(seed: u64) -> Drawn {
        let mut d = Drawn {
            draws: Draws { seed },
            system: blank_system(),
            room: BUFFER_BYTES,
        };
        d.set_platform();
        for t in 0..TYPE_LIMIT {
            d.set_type(t);
        }
        d
    }

    // The same with a C and T for some types.
    fn with_paces(mut self) -> Drawn {
        for t in 0..TYPE_LIMIT {
            self.set_pace(t);
        }
        self
    }

    // The same with two kinds of engine and costs there; one in 16 has costs there alone.
    fn with_kinds(mut self) -> Drawn {
        self.set_second();
        for t in 0..TYPE_LIMIT {
            self.set_there(t);
        }
        self
    }

    // The same with a length of the buffer: the file's less one, the file's, one more, or all of it.
    fn with_room(mut self) -> Drawn {
        let choice = self.draws.below(4);
        if choice < 3 {
            let f = files::file_of(self.system);
            self.room = f.size.wrapping_add(choice).wrapping_sub(1);
        }
        self
    }
}

pub fn drawn_edges(seed: u64) -> Drawn {
    Drawn::new(seed).with_room()
}

pub fn drawn_paces(seed: u64) -> Drawn {
    Drawn::new(seed).with_paces().with_room()
}

pub fn drawn_kinds(seed: u64) -> Drawn {
    Drawn::new(seed).with_kinds().with_room()
}

pub fn drawn_both(seed: u64) -> Drawn {
    Drawn::new(seed).with_paces().with_kinds().with_room()
}
