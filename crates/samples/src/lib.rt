//! Ten samples of the protocol, as one table: packets, values, times and numbers, and what the rules make of each.
#![tactic(auto)]

ghost use Rattle.std.specs.Prelude.{◌≡◌, length};
ghost use Rattle.samples.specs.Table.{table, TenSamples};

/// How many samples there are. Each of them follows from the rules.
pub fn samples() -> usize
    ensures count { result ≡ length table }
    ensures follow { TenSamples }
{
    10
}
