// Lists of engines, and rows put on them: the one place that knows which engine a row of the table stands for.
ghost use Rattle.std.specs.Prelude.{◌≡◌, ◌≤◌, take};
ghost use Rattle.system.specs.Limits.{engine_limit};
ghost use Rattle.loads.specs.Load.{idle_engine};
ghost use Rattle.partition.specs.Assignment.{engines_to};
ghost use Rattle.partition.specs.Shares.{on_engines};
ghost use Rattle.table.specs.Chain.{listed, OnListed};

use loads::EngineLoad;
use system::ENGINE_LIMIT;
use table::Engines;

// The engines 1 to m.
pub fn engines_to(m: usize) -> Engines
    requires { m ≤ engine_limit }
    ensures { (result.count ≡ m) × (listed result ≡ engines_to m) }
{
    let mut numbers = [0usize; ENGINE_LIMIT];
    for i in 0..m {
        numbers[i] = i + 1;
    }
    Engines {
        count: m,
        numbers: numbers,
    }
}

// Puts row i on the i-th of the engines, for the first `used` rows; the other engines are idle.
pub(crate) fn on_engines(
    engines: Engines,
    rows: [EngineLoad; ENGINE_LIMIT],
    used: usize,
) -> [EngineLoad; ENGINE_LIMIT]
    requires { OnListed engines used }
    ensures { result ≡ on_engines idle_engine engine_limit (listed engines) (take used rows) }
{
    let numbers = engines.numbers;
    let mut loads = [loads_code::idle_engine(); ENGINE_LIMIT];
    for i in 0..used {
        let e = numbers[i];
        let at = e - 1;
        loads[at] = rows[i];
    }
    loads
}
