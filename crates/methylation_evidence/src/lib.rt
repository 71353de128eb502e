// The evidence of a strand's annotation, from methylation.rs: marks and two counts in lent slices, cleared where not
// informative, cut to a length, and as the count tags hold them. The pattern takes no part. Uses lists, refusals, methylation and
// vanilla_caller, and a law of numbers.
#![tactic(auto)]

ghost use Rattle.std.specs.Prelude.{◌≡◌, map, length, take};
ghost use Rattle.lists.specs.Output.{put};
ghost use Rattle.refusals.specs.Outcome.{answer, after};
ghost use Rattle.vanilla_caller.specs.Strand.{mark};
ghost use Rattle.methylation.specs.Arrays.{evidence_in};
ghost use Rattle.methylation.specs.Outputs.{evidence_out, SameEvidence};
ghost use Rattle.methylation_evidence.specs.Counts.{tag_count, tag_counts, counts_refused, summed_counts, summed_refused};
ghost use Rattle.methylation_evidence.specs.Gate.{GatedAs};
ghost use Rattle.methylation_evidence.specs.Truncate.{TruncatedAs};

use lists::{copy, front, get_or};
use methylation::{
    EvidenceOutputs, EvidenceSlices, evidence_if, evidence_ragged, evidence_too_long,
    evidence_too_short,
};
use refusals::{MAX_POSITIONS, Refusal, record_too_long, refuse};
use vanilla_caller::mark_of;

// The largest count of a tag: that of i16. No count is below zero, so u16 stands for i16.
pub const MAX_TAG_COUNT: u32 = 32767;

// Clears the evidence (mark 0, both counts 0) at each position that is not informative; other marks become 1. Answers how many
// positions there are. Refuses by 7, 8.
pub fn gate_to_informative(out: &mut EvidenceOutputs<'_>) -> Result<usize, Refusal>
    ensures same_references { SameEvidence out.old out.new }
    ensures gated { GatedAs (evidence_out out.old) (evidence_out out.new) result }
{
    let lengths = out.lengths();
    refuse(evidence_too_long(lengths), Refusal::TooLong)?;
    refuse(evidence_ragged(lengths), Refusal::Ragged)?;
    let marks = &mut *out.marks;
    let unconverted = &mut *out.unconverted;
    let converted = &mut *out.converted;
    let n = marks.len();
    // By index: all three arrays are read and written at the same place.
    for i in 0..n {
        let evidence = evidence_if(marks[i] != 0, unconverted[i], converted[i]);
        marks[i] = evidence.mark;
        unconverted[i] = evidence.unconverted;
        converted[i] = evidence.converted;
    }
    Ok(n)
}

// Writes as many marks as there is room for, as 0 or 1, to the front of out.
fn copy_marks(marks: &[u8], out: &mut [u8])
    ensures { out.new ≡ put (take (length out.old) (map mark marks.now)) out.old }
{
    // The output by its place: of what is written through `iter_mut` the proof learns nothing.
    for (i, &mark) in front(marks, out.len()).iter().enumerate() {
        out[i] = mark_of(mark);
    }
}

// Writes as much evidence as there is room for, with marks as 0 or 1, each array to the front of its own output.
pub fn copy_evidence(evidence: EvidenceSlices<'_>, out: &mut EvidenceOutputs<'_>)
    ensures same_references { SameEvidence out.old out.new }
    ensures marks { out.new.marks.now ≡ put (take (length out.old.marks.now) (map mark evidence.entry.marks.now)) out.old.marks.now }
    ensures unconverted { out.new.unconverted.now ≡ put (take (length out.old.unconverted.now) evidence.entry.unconverted.now) out.old.unconverted.now }
    ensures converted { out.new.converted.now ≡ put (take (length out.old.converted.now) evidence.entry.converted.now) out.old.converted.now }
{
    copy_marks(evidence.marks, out.marks);
    copy(evidence.unconverted, out.unconverted);
    copy(evidence.converted, out.converted);
}

// Writes the first len positions of an annotation, or all where it has no more, with marks as 0 or 1, and answers how many.
// Refuses by 7, 8, 12.
pub fn truncate(
    evidence: EvidenceSlices<'_>,
    len: usize,
    out: &mut EvidenceOutputs<'_>,
) -> Result<usize, Refusal>
    ensures same_references { SameEvidence out.old out.new }
    ensures truncated { TruncatedAs (evidence_in evidence.entry) len (evidence_out out.old) (evidence_out out.new) result }
{
    let room = out.lengths();
    let n = len.min(evidence.marks.len());
    refuse(evidence_too_long(evidence.lengths()), Refusal::TooLong)?;
    refuse(evidence_ragged(evidence.lengths()), Refusal::Ragged)?;
    refuse(evidence_too_short(n, room), Refusal::OutputTooShort)?;
    copy_evidence(evidence.front(len), out);
    Ok(n)
}

// A count as a tag holds it, 0..32,767.
fn tag_count(count: u32) -> u16
    ensures { result ≡ tag_count count }
{
    count.min(MAX_TAG_COUNT) as u16
}

// The counts of an annotation, unconverted or converted, each held to 32,767. Answers how many. Refuses by 7, 12.
#[tactic(auto, using(lists::proofs::Output::begin, lists::proofs::Output::next, crate::proofs::Counts::counts_length, crate::proofs::Counts::count_at))]
pub fn tag_counts(counts: &[u32], out: &mut [u16]) -> Result<usize, Refusal>
    ensures value { result ≡ answer (counts_refused counts.now out.old) (length counts.now) }
    ensures out_after { out.new ≡ after (counts_refused counts.now out.old) (tag_counts counts.now) out.old }
{
    let n = counts.len();
    refuse(MAX_POSITIONS < n, Refusal::TooLong)?;
    refuse(out.len() < n, Refusal::OutputTooShort)?;
    // The output by its place, as in `copy_marks`.
    for (i, &count) in counts.iter().enumerate() {
        out[i] = tag_count(count);
    }
    Ok(n)
}

// Of the unconverted ones (cu, au, bu), and of the converted ones (ct, at, bt).
pub use self::{tag_counts as converted_counts, tag_counts as unconverted_counts};

// The unconverted, or the converted, counts of two annotations summed over a sequence of so many positions: each sum held to
// 4,294,967,295, and then to 32,767. An array that ends before a position counts 0 there, an empty one everywhere. Answers how
// many are written. Refuses by 7, 12.
// No struct of positions, a and b, here and where it is called: it would be made anew for each call, once of unconverted counts and once
// of converted ones.
#[tactic(auto, using(lists::proofs::Output::begin, crate::proofs::Counts::summed_length))]
pub fn summed_counts(
    positions: usize,
    a: &[u32],
    b: &[u32],
    out: &mut [u16],
) -> Result<usize, Refusal>
    ensures value { result ≡ answer (summed_refused positions a.now b.now out.old) positions }
    ensures out_after { out.new ≡ after (summed_refused positions a.now b.now out.old) (summed_counts positions a.now b.now) out.old }
{
    refuse(
        record_too_long(positions, a.len(), b.len()),
        Refusal::TooLong,
    )?;
    refuse(out.len() < positions, Refusal::OutputTooShort)?;
    // By index: either array may end before the position.
    for i in 0..positions {
        out[i] = tag_count(get_or(a, i, 0).saturating_add(get_or(b, i, 0)));
    }
    Ok(positions)
}
