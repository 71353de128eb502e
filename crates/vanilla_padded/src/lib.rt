// Padding of a strand, from vanilla_caller.rs. Uses lists, refusals, dna, phred, methylation, vanilla_caller and
// methylation_evidence.
#![tactic(auto)]

ghost use Rattle.std.specs.Prelude.{◌≡◌, ◌≤◌, map, length, take};
ghost use Rattle.lists.specs.Output.{put};
ghost use Rattle.lists.specs.Part.{only_if};
ghost use Rattle.refusals.specs.Refusal.{refused};
ghost use Rattle.refusals.specs.Outcome.{answer};
ghost use Rattle.methylation.specs.Annotation.{pattern_held, evidence_held};
ghost use Rattle.methylation.specs.Methylation.{is_annotated};
ghost use Rattle.methylation.specs.Outputs.{evidence_out, SameEvidence};
ghost use Rattle.vanilla_caller.specs.Strand.{annotation_in, arrays_in, mark};
ghost use Rattle.vanilla_padded.specs.Lent.{strand_out, lengths_beside, kept_of, SameStrand};
ghost use Rattle.vanilla_padded.specs.Padding.{padding, default_padding, pad_to, padded_faults, PaddedAs};

use dna::NO_CALL_BASE_LOWER;
use lists::copy;
use methylation::{ConversionPattern, EvidenceLengths, EvidenceOutputs, MethylationAnnotation};
use methylation_evidence::copy_evidence;
use phred::MIN_PHRED;
use refusals::{MAX_POSITIONS, Refusal, refuse};
use vanilla_caller::{
    Lengths, VanillaConsensusRead, outputs_too_short, strand_ragged, strand_too_long,
};

// A strand's own outputs; those for its evidence stand beside them, since who makes a struct of lent structs learns nothing of what their
// slices hold. A function that is lent them leaves each slice where it is (specs/Lent.antt).
#[derive(Drop)]
pub struct StrandOutputs<'a> {
    pub bases: &'a mut [u8],
    pub quals: &'a mut [u8],
    pub depths: &'a mut [u16],
    pub errors: &'a mut [u16],
}

impl StrandOutputs<'_> {
    // Beside outputs for evidence that are so long, where they are looked at.
    fn lengths(&self, evidence: Option<EvidenceLengths>) -> Lengths
        ensures { result ≡ lengths_beside self.now evidence }
    {
        Lengths {
            bases: self.bases.len(),
            quals: self.quals.len(),
            depths: self.depths.len(),
            errors: self.errors.len(),
            evidence,
        }
    }
}

// A strand that is padded to new_length, with the annotation that it keeps.
fn kept<'a>(strand: VanillaConsensusRead<'a>, new_length: usize) -> VanillaConsensusRead<'a>
    ensures { result ≡ kept_of strand.entry new_length }
{
    if strand.bases.len() == new_length {
        strand
    } else {
        strand.plain()
    }
}

// Writes an array with copies of a value added, on the left or the right, up to new_length.
// `new_length` and `left` are the Rust's own two parameters, here and in the calls.
fn pad<T: Copy>(xs: &[T], new_length: usize, left: bool, value: T, out: &mut [T])
    requires fits { (length xs.now ≤ new_length) × (new_length ≤ length out.old) }
    requires infallible { T.is_infallible value }
    requires clones { (other : T) → T.is_clone value other → other ≡ value }
    ensures { out.new ≡ put (pad_to new_length left value xs.now) out.old }
{
    let size = xs.len();
    let added = new_length - size;
    if left {
        out[0..added].fill(value);
        copy(xs, &mut out[added..new_length]);
        return;
    }
    copy(xs, &mut out[0..size]);
    out[size..new_length].fill(value);
}

fn padded_refusal(strand: Lengths, new_length: usize, out: Lengths) -> Result<(), Refusal>
    ensures { result ≡ answer (refused (padded_faults strand new_length out)) tt }
{
    let too_long = (MAX_POSITIONS < new_length) | strand_too_long(strand);
    refuse(too_long, Refusal::TooLong)?;
    refuse(strand_ragged(strand), Refusal::Ragged)?;
    refuse(new_length < strand.bases, Refusal::BelowLength)?;
    refuse(outputs_too_short(new_length, out), Refusal::OutputTooShort)
}

// As much of an annotation's evidence as there is room for.
#[tactic(auto, using(lists::proofs::Output::put_none), unfolding(lists::specs::Part::only_if))]
fn write_evidence(annotation: Option<MethylationAnnotation<'_>>, out: &mut EvidenceOutputs<'_>)
    ensures same_references { SameEvidence out.old out.new }
    ensures marks { out.new.marks.now ≡ put (only_if (is_annotated (pattern_held annotation.entry)) (take (length out.old.marks.now) (map mark (evidence_held annotation.entry).marks))) out.old.marks.now }
    ensures unconverted { out.new.unconverted.now ≡ put (only_if (is_annotated (pattern_held annotation.entry)) (take (length out.old.unconverted.now) (evidence_held annotation.entry).unconverted)) out.old.unconverted.now }
    ensures converted { out.new.converted.now ≡ put (only_if (is_annotated (pattern_held annotation.entry)) (take (length out.old.converted.now) (evidence_held annotation.entry).converted)) out.old.converted.now }
{
    if let Some(m) = annotation {
        copy_evidence(m.evidence, out);
    }
}

// Adds positions on the left or the right, up to new_length, with a base, a quality, depth 0 and error 0, and answers the annotation
// that the strand keeps. The same length copies all, with marks as 0 or 1; a greater drops the annotation and leaves its outputs as
// they are. Refuses by 7, 8, 11, 12.
// `new_length` and `left` are the Rust's own two parameters, and so in padded_default.
pub fn padded(
    strand: VanillaConsensusRead<'_>,
    new_length: usize,
    left: bool,
    base: u8,
    qual: u8,
    out: &mut StrandOutputs<'_>,
    evidence: &mut EvidenceOutputs<'_>,
) -> Result<Option<ConversionPattern>, Refusal>
    ensures same_references { SameStrand out.old out.new × SameEvidence evidence.old evidence.new }
    ensures padded { PaddedAs (annotation_in strand.entry) (arrays_in strand.entry)
        (padding new_length left base qual)
        (strand_out out.old (evidence_out evidence.old))
        (strand_out out.new (evidence_out evidence.new))
        result }
{
    let kept = kept(strand, new_length);
    let annotation = kept.annotation();
    let room = out.lengths(annotation.and(Some(evidence.lengths())));
    padded_refusal(strand.lengths(), new_length, room)?;
    pad(strand.bases, new_length, left, base, out.bases);
    pad(strand.quals, new_length, left, qual, out.quals);
    pad(strand.depths, new_length, left, 0, out.depths);
    pad(strand.errors, new_length, left, 0, out.errors);
    write_evidence(kept.methylation, evidence);
    Ok(annotation)
}

// padded with the base n and the quality 2. The Rust's own call, which stands for who calls it by that name: rust_padded's entry goes by
// its other entry, with the two values.
pub fn padded_default(
    strand: VanillaConsensusRead<'_>,
    new_length: usize,
    left: bool,
    out: &mut StrandOutputs<'_>,
    evidence: &mut EvidenceOutputs<'_>,
) -> Result<Option<ConversionPattern>, Refusal>
    ensures same_references { SameStrand out.old out.new × SameEvidence evidence.old evidence.new }
    ensures padded { PaddedAs (annotation_in strand.entry) (arrays_in strand.entry)
        (default_padding new_length left)
        (strand_out out.old (evidence_out evidence.old))
        (strand_out out.new (evidence_out evidence.new))
        result }
{
    padded(
        strand,
        new_length,
        left,
        NO_CALL_BASE_LOWER,
        MIN_PHRED,
        out,
        evidence,
    )
}
