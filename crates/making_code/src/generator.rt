// The generator: Marsaglia's xorshift on 64 bits.
ghost use Rattle.std.specs.Prelude.{◌≡◌};
ghost use Rattle.making.specs.Generator.{step};

// The value after x. A shift drops the bits past 64.
pub fn step(x: u64) -> u64
    ensures { result ≡ step x }
{
    let one = x ^ (x << 13);
    let two = one ^ (one >> 7);
    two ^ (two << 17)
}
