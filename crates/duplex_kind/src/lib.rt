// Which record two strands make, from duplex_caller.rs (duplex_consensus): what refuses them, which of them count, and the record's
// length. Uses lists, refusals, methylation and vanilla_caller.
#![tactic(auto)]

ghost use Rattle.std.specs.Prelude.{◌≡◌, is_some};
ghost use Rattle.refusals.specs.Refusal.{refused};
ghost use Rattle.refusals.specs.Outcome.{answer};
ghost use Rattle.duplex_kind.specs.Kind.{any_depth, given, given_of, given_in, count_in, leaving_in, shorter_present, some_depth, kind_by, long, uneven, kind_given};
ghost use Rattle.duplex_kind.specs.Limit.{lengths_of, over_in, length_faults};

use lists::front;
use refusals::{MAX_POSITIONS, MAX_READS, Refusal, refuse};
use vanilla_caller::{Lengths, VanillaConsensusRead, strand_over, strand_ragged, strand_too_long};

// The record's kind, and how many positions it has.
#[derive(Clone, Copy, Debug, PartialEq, Eq)]
pub enum DuplexConsensus {
    // Strand A alone.
    Ab(usize),
    // Strand B alone, stored as the first strand.
    Ba(usize),
    Both(usize),
}

// What is given of a strand: how long its arrays are, and its depths.
#[derive(Clone, Copy)]
pub struct GivenStrand<'a> {
    pub lengths: Lengths,
    pub depths: &'a [u16],
}

// What is given of a list of reads: how many there are, and whether a read's part leaves its buffer.
// `leaving` is row 10's condition and `count` is tested by row 9: neither says whether the other counts.
#[derive(Clone, Copy, Debug, PartialEq, Eq)]
pub struct GivenReads {
    pub count: usize,
    pub leaving: bool,
}

// What is given of a strand that may be absent.
// Inlined, here and in record_kind, for speed (duplex_record).
#[inline(always)]
pub fn given_strand<'a>(s: Option<VanillaConsensusRead<'a>>) -> Option<GivenStrand<'a>>
    ensures { given_in result ≡ given (given_of s.entry) }
{
    s.map(|s| GivenStrand {
        lengths: s.lengths(),
        depths: s.depths,
    })
}

// The length of a record: the shorter of the strands present. A and B are the two operands, as the caller has them.
fn record_length(a: Option<GivenStrand>, b: Option<GivenStrand>) -> usize
    ensures { result ≡ shorter_present (given_in a.entry) (given_in b.entry) }
{
    match (a, b) {
        (Some(a), Some(b)) => a.lengths.bases.min(b.lengths.bases),
        (Some(a), None) => a.lengths.bases,
        (None, Some(b)) => b.lengths.bases,
        (None, None) => 0,
    }
}

// Whether some depth of a block is above 0. Inlined for speed: of a block the compiler then knows how many depths it has.
#[inline(always)]
fn is_block_covered(depths: &[u16]) -> bool
    ensures { result ≡ any_depth depths.now }
{
    // Speed: by `any` 1,024 depths that are all 0 take six times as long.
    depths.iter().fold(false, |met, &depth| met | (0 < depth))
}

// So many depths are one block.
const BLOCK: usize = 32;

// Whether some depth is above 0. In blocks, for speed: a block is looked at whole, and behind the first that has one no other is. The last
// block ends at the last depth, so that it may have depths of the one before.
fn is_covered(depths: &[u16]) -> bool
    ensures { result ≡ some_depth depths.now }
{
    if depths.len() < BLOCK {
        return is_block_covered(depths);
    }
    for block in 0..depths.len() / BLOCK {
        let start = BLOCK * block;
        if is_block_covered(&depths[start..start + BLOCK]) {
            return true;
        }
    }
    is_block_covered(&depths[depths.len() - BLOCK..])
}

// The record's kind, once its strands are known to be of one length each.
fn kind_of(a: Option<GivenStrand>, b: Option<GivenStrand>) -> Option<DuplexConsensus>
    ensures { result ≡ kind_by (given_in a.entry) (given_in b.entry) }
{
    let n = record_length(a, b);
    let a_covered = a.filter(|s| is_covered(front(s.depths, n)));
    let b_covered = b.filter(|s| is_covered(front(s.depths, n)));
    match (a_covered, b_covered) {
        (Some(_), Some(_)) => Some(DuplexConsensus::Both(n)),
        (Some(a), None) => Some(DuplexConsensus::Ab(a.lengths.bases)),
        (None, Some(b)) => Some(DuplexConsensus::Ba(b.lengths.bases)),
        (None, None) => None,
    }
}

// Row 7's condition for a strand that may be absent.
fn is_long(s: Option<GivenStrand>) -> bool
    ensures { result ≡ long (given_in s.entry) }
{
    s.is_some_and(|s| strand_too_long(s.lengths))
}

// Row 8's.
fn is_uneven(s: Option<GivenStrand>) -> bool
    ensures { result ≡ uneven (given_in s.entry) }
{
    s.is_some_and(|s| strand_ragged(s.lengths))
}

// The kind of the record that two strands make, either of which may be absent, and how many positions it has. Refuses by 7, 8, 9, 10.
#[inline(always)]
pub fn record_kind(
    a: Option<GivenStrand>,
    b: Option<GivenStrand>,
    list: Option<GivenReads>,
) -> Result<Option<DuplexConsensus>, Refusal>
    ensures { result ≡ kind_given (given_in a.entry) (given_in b.entry) (is_some list) (count_in list) (leaving_in list) }
{
    refuse(is_long(a) | is_long(b), Refusal::TooLong)?;
    refuse(is_uneven(a) | is_uneven(b), Refusal::Ragged)?;
    if let Some(list) = list {
        refuse(MAX_READS < list.count, Refusal::TooManyReads)?;
        refuse(list.leaving, Refusal::PartOutside)?;
    }
    Ok(kind_of(a, b))
}

// The lengths of a strand that may be absent.
// Inlined, here and below, for speed (duplex_record).
#[inline(always)]
pub fn strand_lengths(s: Option<VanillaConsensusRead>) -> Option<Lengths>
    ensures { result ≡ lengths_of (given_of s.entry) }
{
    s.map(|s| s.lengths())
}

// Whether some array of a strand that is there has over so many positions.
#[inline(always)]
fn is_over(limit: usize, s: Option<Lengths>) -> bool
    ensures { result ≡ over_in limit s }
{
    s.is_some_and(|s| strand_over(limit, s))
}

// What a call by a lab's limit tests of two strands before it makes a record: of their lengths alone. Refuses by 7, 19.
#[inline(always)]
pub fn limit_refusal(limit: u16, a: Option<Lengths>, b: Option<Lengths>) -> Result<(), Refusal>
    ensures { result ≡ answer (refused (length_faults limit a b)) tt }
{
    let limit = usize::from(limit);
    refuse(
        is_over(MAX_POSITIONS, a) | is_over(MAX_POSITIONS, b),
        Refusal::TooLong,
    )?;
    refuse(is_over(limit, a) | is_over(limit, b), Refusal::OverLimit)
}
