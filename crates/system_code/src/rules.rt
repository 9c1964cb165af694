// Document 01's table of fields, and which field may follow which: a later tag is one more row in each.
ghost use Rattle.std.specs.Prelude.{◌≡◌};
ghost use Rattle.system.specs.Rules.{field_rules, rule_of, follows, may_follow};

use system::{FieldRule, Follow, TYPE_LIMIT};

// The tags, numbers and no enum: a file has them, and one that is none of these has a refusal of its own, 2.
pub const PLATFORM: u8 = 1;

pub const TYPE: u8 = 2;

pub const DATA: u8 = 3;

pub const MOST: u8 = 4;

pub const PACE: u8 = 5;

pub const SECOND: u8 = 6;

pub const COSTS: u8 = 7;

// The table of fields: refusals 2, 4 and 7 are decided from it.
const RULES: [FieldRule; 7] = [
    FieldRule {
        tag: PLATFORM,
        body: 10, // m, rule, U, S
        allowed: 1,
    },
    FieldRule {
        tag: TYPE,
        body: 10, // u, s, n
        allowed: TYPE_LIMIT, // a seventh is refused 7
    },
    FieldRule {
        tag: DATA,
        body: 4, // d (request 2026-03)
        allowed: TYPE_LIMIT, // one for each type
    },
    FieldRule {
        tag: MOST,
        body: 2, // q (request 2026-04)
        allowed: TYPE_LIMIT, // one for each type
    },
    FieldRule {
        tag: PACE,
        body: 8, // C, T (request 2026-14)
        allowed: TYPE_LIMIT, // one for each type
    },
    FieldRule {
        tag: SECOND,
        body: 9, // the second kind's number, U, S (request 2026-13)
        allowed: 1,
    },
    FieldRule {
        tag: COSTS,
        body: 8, // u, s there
        allowed: TYPE_LIMIT, // one for each type
    },
];

// Which field may follow which: refusal 3 is decided from it alone.
const FOLLOWS: [Follow; 19] = [
    Follow {
        tag: PLATFORM,
        last: 0,
    },
    Follow {
        tag: TYPE,
        last: PLATFORM, // a card of one kind
    },
    Follow {
        tag: TYPE,
        last: TYPE,
    },
    Follow {
        tag: DATA, // directly after its type, and once
        last: TYPE,
    },
    Follow {
        tag: TYPE,
        last: DATA,
    },
    Follow {
        tag: MOST, // after its type and any d, and once
        last: TYPE,
    },
    Follow {
        tag: MOST,
        last: DATA,
    },
    Follow {
        tag: TYPE,
        last: MOST,
    },
    Follow {
        tag: PACE, // after its type and any d and q, and once
        last: TYPE,
    },
    Follow {
        tag: PACE,
        last: DATA,
    },
    Follow {
        tag: PACE,
        last: MOST,
    },
    Follow {
        tag: TYPE,
        last: PACE,
    },
    Follow {
        tag: SECOND, // directly after the platform, and once
        last: PLATFORM,
    },
    Follow {
        tag: TYPE,
        last: SECOND,
    },
    Follow {
        tag: COSTS, // last after its type, and once
        last: TYPE,
    },
    Follow {
        tag: COSTS,
        last: DATA,
    },
    Follow {
        tag: COSTS,
        last: MOST,
    },
    Follow {
        tag: COSTS,
        last: PACE,
    },
    Follow {
        tag: TYPE,
        last: COSTS,
    },
];

// The table's rule for a tag.
#[tactic(auto, unfolding(system::specs::Rules::rule_of))]
pub fn rule_of(tag: u8) -> Option<FieldRule>
    ensures { result ≡ rule_of field_rules tag }
{
    RULES.iter().find(|rule| rule.tag == tag).copied()
}

// Whether a field of this tag may come after one of tag `last`.
pub(crate) fn may_follow(last: u8, tag: u8) -> bool
    ensures { result ≡ may_follow follows last tag }
{
    FOLLOWS.contains(&Follow { tag, last })
}
