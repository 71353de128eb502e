// The thresholds of read counts, from duplex_caller.rs. Uses lists and refusals.
#![tactic(auto)]

ghost use Rattle.std.specs.Prelude.{◌≡◌};
ghost use Rattle.duplex_min_reads.specs.MinReads.{validated, min_yx_reads, single_strand, reaches_all};

use lists::get_or;
use refusals::{Refusal, refuse};

// The least number of reads of a molecule, of its better covered strand (XY) and of the other (YX).
#[derive(Clone, Copy)]
pub struct MinReads {
    pub total: u32,
    pub xy: u32,
    pub yx: u32,
}

// The thresholds padded to three, or the first row that refuses them: no thresholds, more than 3, and two that rise.
pub fn validate_min_reads(min_reads: &[u32]) -> Result<MinReads, Refusal>
    ensures { result ≡ validated min_reads.now }
{
    let total = get_or(min_reads, 0, 0);
    let xy = get_or(min_reads, 1, total);
    let yx = get_or(min_reads, 2, xy);
    refuse(min_reads.is_empty(), Refusal::NoThresholds)?;
    refuse(3 < min_reads.len(), Refusal::TooManyThresholds)?;
    refuse(total < xy, Refusal::XyAboveTotal)?;
    refuse(xy < yx, Refusal::YxAboveXy)?;
    Ok(MinReads { total, xy, yx })
}

// The threshold of the less covered strand.
pub fn min_yx_reads_for(min_reads: &[u32]) -> Result<u32, Refusal>
    ensures { result ≡ min_yx_reads min_reads.now }
{
    let thresholds = validate_min_reads(min_reads)?;
    Ok(thresholds.yx)
}

// Whether a record of one strand is allowed.
pub fn allows_single_strand_consensus(min_reads: &[u32]) -> Result<bool, Refusal>
    ensures { result ≡ single_strand min_reads.now }
{
    let yx = min_yx_reads_for(min_reads)?;
    Ok(yx == 0)
}

// Whether two strands' counts reach the thresholds: both together, the larger and the smaller.
pub fn reaches(min_reads: MinReads, a: u32, b: u32) -> bool
    ensures { result ≡ reaches_all min_reads a b }
{
    let sum = u64::from(a) + u64::from(b);
    (u64::from(min_reads.total) <= sum) & ((min_reads.xy <= a.max(b)) & (min_reads.yx <= a.min(b)))
}
