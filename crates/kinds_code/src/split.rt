// Sharing all instances out between two kinds of engine: the split that costs least, by the row parts of both kinds.
ghost use Rattle.std.specs.Prelude.{◌≡◌, ◌+◌, ◌≤◌};
ghost use Rattle.system.specs.Limits.{engine_limit};
ghost use Rattle.partition.specs.Kinds.{least_at};
ghost use Rattle.kinds.specs.Inner.{cost_of, cost_at, SplitIn};

// What a split costs that one of the kinds cannot hold: more than any other, so that one comparison of costs picks the best, as partition's `least_at` does.
const NO_SPLIT: u16 = 65535;

// What a split costs where the first kind's column has the row `a` of m, and the second's the row `b` of n: the engines of both kinds together count
// first, then those of the second.
fn split_cost(a: u16, b: u16, m: usize, n: usize) -> u16
    requires { (m ≤ engine_limit) × (n ≤ engine_limit) }
    ensures { result ≡ cost_of a b m n }
{
    if (a as usize <= m) & (b as usize <= n) {
        return (a + b) * 32 + b;
    }
    NO_SPLIT
}

// The cost of the split that gives column p to the first kind. Column `last` is that of all instances, so that the rest is column `last - p`.
fn cost_at(rows: &[u16], rows2: &[u16], last: usize, p: usize, m: usize, n: usize) -> u16
    requires { SplitIn rows.now rows2.now last m n × (p ≤ last) }
    ensures { result ≡ cost_at rows.now rows2.now last m n p }
{
    split_cost(rows[p], rows2[last - p], m, n)
}

// The first of the columns 0 to `last` whose split costs least.
pub(crate) fn best_split(rows: &[u16], rows2: &[u16], last: usize, m: usize, n: usize) -> usize
    requires { SplitIn rows.now rows2.now last m n }
    ensures { result ≡ least_at (cost_at rows.now rows2.now last m n) (last + 1) }
{
    let mut best: usize = 0;
    let mut least = cost_at(rows, rows2, last, 0, m, n);
    for p in 0..last + 1 {
        let cost = cost_at(rows, rows2, last, p, m, n);
        if cost < least {
            best = p;
            least = cost;
        }
    }
    best
}
