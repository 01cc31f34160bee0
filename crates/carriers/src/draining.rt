// Work on any carrier, by code that knows no more of it than the trait.
ghost use Rattle.std.specs.Prelude.{◌≡◌, ◌+◌, ◌%◌, ◌^◌, [], length};

use crate::carrier::Carrier;

/// Takes messages until none waits, and answers how many came, modulo 2^32.
pub fn drain<C: Carrier>(carrier: &mut C) -> u32
    ensures value { result ≡ length (C.Carrier.carried carrier.old).waiting % 2 ^ 32 }
    ensures waiting { (C.Carrier.carried carrier.new).waiting ≡ [] }
    ensures capacity { (C.Carrier.carried carrier.new).capacity ≡ (C.Carrier.carried carrier.old).capacity }
    ensures handed { (C.Carrier.carried carrier.new).handed ≡ ((C.Carrier.carried carrier.old).handed + length (C.Carrier.carried carrier.old).waiting) % 2 ^ 32 }
{
    let before = carrier.handed_out();
    take_all(carrier);
    carrier.handed_out().wrapping_sub(before)
}

// Takes messages until none comes.
fn take_all<C: Carrier>(carrier: &mut C)
    ensures waiting { (C.Carrier.carried carrier.new).waiting ≡ [] }
    ensures capacity { (C.Carrier.carried carrier.new).capacity ≡ (C.Carrier.carried carrier.old).capacity }
    ensures handed { (C.Carrier.carried carrier.new).handed % 2 ^ 32 ≡ ((C.Carrier.carried carrier.old).handed + length (C.Carrier.carried carrier.old).waiting) % 2 ^ 32 }
{
    while carrier.take().is_some() {}
}
