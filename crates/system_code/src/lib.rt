// The functions on a system: the tests of its limits, a card's two kinds, and the reader of system files. What they answer is defined in crate `system`.
#![tactic(auto)]

mod card;
mod limits;
mod reader;
mod rules;
mod values;

pub use card::{first_kind, second_kind};
pub use limits::{
    SIZE_LIMIT, columns_fault, columns_within, costs_fault, keeps_limits, kinds_fault, most_fault,
    pace_fault, paces_fault, platform_fault, second_fault, type_fault,
};
pub use reader::{
    HEAD_SIZE, body_at, body_part, byte_at, field_at, four_bytes, length_at, next_at, read_card,
    read_system, rest_at, tag_at, two_bytes,
};
pub use rules::{COSTS, DATA, MOST, PACE, PLATFORM, SECOND, TYPE, rule_of};
pub use values::{blank_system, cleared, no_task};
