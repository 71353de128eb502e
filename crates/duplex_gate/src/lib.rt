// The consensus gate, from duplex_caller.rs: whether a record's strands were covered deeply enough. Uses refusals, numbers,
// duplex_depths, duplex_min_reads and duplex_reads.
#![tactic(auto)]

ghost use Rattle.std.specs.Prelude.{◌≡◌, max};
ghost use Rattle.numbers.specs.Numbers.{largest};
ghost use Rattle.duplex_gate.specs.ConsensusGate.{largest_within, depth_counts, consensus_gate};

use duplex_depths::RecordDepths;
use duplex_reads::{StrandCounts, gate_answer};
use numbers::largest;
use refusals::{Refusal, refuse};

// Each count, or the largest of more depths of its strand.
// Not inlined, for speed: with two more loops in it, largest_within keeps less in registers.
#[inline(never)]
fn or_larger(counts: StrandCounts, more_ab: &[u16], more_ba: &[u16]) -> StrandCounts
    ensures { (result.a ≡ max counts.a (largest more_ab.now)) × (result.b ≡ max counts.b (largest more_ba.now)) }
{
    StrandCounts {
        a: counts.a.max(u32::from(largest(more_ab))),
        b: counts.b.max(u32::from(largest(more_ba))),
    }
}

// The largest of each strand's depths within the record's length, uncapped; 0 where there are none.
// One loop goes over both strands as far as both reach, for speed: `largest` of each strand takes a third longer at 300 positions,
// which the Rust would overtake at 150.
fn largest_within(r: RecordDepths) -> StrandCounts
    ensures { (result.a ≡ largest_within r.entry.positions r.entry.ab.now) × (result.b ≡ largest_within r.entry.positions r.entry.ba.now) }
{
    let RecordDepths { positions, ab, ba } = r;
    let ab_end = positions.min(ab.len());
    let ba_end = positions.min(ba.len());
    let both = ab_end.min(ba_end);
    let mut of_ab = 0;
    let mut of_ba = 0;
    for (&of_a, &of_b) in ab[..both].iter().zip(&ba[..both]) {
        of_ab = of_ab.max(of_a);
        of_ba = of_ba.max(of_b);
    }
    let counts = StrandCounts {
        a: u32::from(of_ab),
        b: u32::from(of_ba),
    };
    if ab_end == ba_end {
        return counts;
    }
    or_larger(counts, &ab[both..ab_end], &ba[both..ba_end])
}

// The largest depths of a record's strands, which take the place of read counts. Refuses by 7.
fn depth_counts(r: RecordDepths) -> Result<StrandCounts, Refusal>
    ensures { result ≡ depth_counts r.entry.positions r.entry.ab.now r.entry.ba.now }
{
    refuse(r.too_long(), Refusal::TooLong)?;
    Ok(largest_within(r))
}

// The consensus gate of a record: whether its strands' largest depths within its positions, uncapped, reach the thresholds. Refuses by
// the thresholds' rows, then by 7.
pub fn duplex_consensus_has_minimum_reads(
    r: RecordDepths,
    min_reads: &[u32],
) -> Result<bool, Refusal>
    ensures { result ≡ consensus_gate r.entry.positions r.entry.ab.now r.entry.ba.now min_reads.now }
{
    gate_answer(min_reads, depth_counts(r))
}
