// The depths of a duplex record, from duplex_caller.rs: both strands' depths at each position, and their range. Uses lists, refusals and
// numbers.
#![tactic(auto)]

ghost use Rattle.std.specs.Prelude.{ℕ, ◌≡◌, ◌≤◌, length, get_or};
ghost use Rattle.lists.specs.Output.{put};
ghost use Rattle.refusals.specs.Outcome.{answer, after};
ghost use Rattle.refusals.specs.Refusal.{record_too_long};
ghost use Rattle.duplex_depths.specs.Depths.{combined_depths, longer, combined_refused, extremes, depth_range};

use lists::copy;
use numbers::{largest, smallest};
use refusals::{Refusal, record_too_long, refuse};

#[derive(Clone, Copy, Debug, PartialEq, Eq)]
pub struct DepthRange {
    pub min: u16,
    pub max: u16,
}

// How many positions a record has, and its strands' depths; an absent strand has none.
#[derive(Clone, Copy)]
pub struct RecordDepths<'a> {
    pub positions: usize,
    pub ab: &'a [u16],
    pub ba: &'a [u16],
}

impl RecordDepths<'_> {
    // Row 7's condition.
    pub fn too_long(self) -> bool
        ensures { result ≡ record_too_long self.entry.positions (length self.entry.ab.now) (length self.entry.ba.now) }
    {
        record_too_long(self.positions, self.ab.len(), self.ba.len())
    }
}

// The longer of two slices, the first where they are as long. That a depth fits its type is told of a slice, and not of a slice in a
// struct, so its caller is told here.
fn longer<'a>(xs: &'a [u16], ys: &'a [u16]) -> &'a [u16]
    ensures is { result.now ≡ longer xs.now ys.now }
    ensures fits { (i : ℕ) → get_or result.now i 0 ≤ 65535 }
{
    if xs.len() < ys.len() { ys } else { xs }
}

// To where both strands reach their depths are added; then the longer is alone, and behind it there is none.
#[tactic(auto, using(lists::proofs::Output::begin, lists::proofs::Table::length_tabulate, lists::proofs::Told::next_table), unfolding(numbers::specs::Numbers::saturating_add))]
fn write_combined(r: RecordDepths, out: &mut [u16])
    requires { r.positions ≤ length out.old }
    ensures { out.new ≡ put (combined_depths r.entry.positions r.entry.ab.now r.entry.ba.now) out.old }
{
    let RecordDepths { positions, ab, ba } = r;
    let both = positions.min(ab.len().min(ba.len()));
    // By index: of what is written through `out[..both].iter_mut().zip(..)` the proof has no clause (tried), and it is no faster.
    for i in 0..both {
        out[i] = ab[i].saturating_add(ba[i]);
    }
    let alone = longer(ab, ba);
    let end = positions.min(alone.len());
    copy(&alone[both..end], &mut out[both..end]);
    out[end..positions].fill(0);
}

// Writes the depths of both strands at each of the record's positions, and answers how many these are. Refuses by 7, 12.
pub fn combined_depths(r: RecordDepths, out: &mut [u16]) -> Result<usize, Refusal>
    ensures value { result ≡ answer (combined_refused r.entry.positions r.entry.ab.now r.entry.ba.now out.old) r.entry.positions }
    ensures out_after { out.new ≡ after (combined_refused r.entry.positions r.entry.ab.now r.entry.ba.now out.old) (combined_depths r.entry.positions r.entry.ab.now r.entry.ba.now) out.old }
{
    refuse(r.too_long(), Refusal::TooLong)?;
    refuse(out.len() < r.positions, Refusal::OutputTooShort)?;
    write_combined(r, out);
    Ok(r.positions)
}

fn extremes(depths: &[u16]) -> DepthRange
    ensures { result ≡ extremes depths.now }
{
    DepthRange {
        min: smallest(depths),
        max: largest(depths),
    }
}

// The smallest and the largest of a record's combined depths, each 0 over no positions. Refuses by 7.
#[tactic(auto, using(lists::proofs::Output::front_of, crate::proofs::Depths::combined_length))]
pub fn depth_range(r: RecordDepths) -> Result<DepthRange, Refusal>
    ensures { result ≡ depth_range r.entry.positions r.entry.ab.now r.entry.ba.now }
{
    let too_long = r.too_long();
    refuse(too_long, Refusal::TooLong)?;
    // No heap: arrays of the most that is looked at.
    let mut depths = [0; 1024];
    write_combined(r, &mut depths);
    Ok(extremes(&depths[0..r.positions]))
}
