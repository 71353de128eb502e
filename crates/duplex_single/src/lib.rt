// One strand alone as a duplex record, from duplex_caller.rs and methylation.rs. Uses lists, refusals, methylation, vanilla_caller,
// methylation_evidence and duplex_outputs.
#![tactic(auto)]

ghost use Rattle.std.specs.Prelude.{◌≡◌, None};
ghost use Rattle.refusals.specs.Refusal.{refused};
ghost use Rattle.refusals.specs.Outcome.{answer};
ghost use Rattle.methylation.specs.Arrays.{evidence_in, HasPlaces, PutsEvidence};
ghost use Rattle.methylation.specs.Outputs.{evidence_out, no_evidence, SameEvidence};
ghost use Rattle.methylation_evidence.specs.Gate.{gated};
ghost use Rattle.vanilla_caller.specs.Strand.{annotation_in, arrays_in};
ghost use Rattle.duplex_outputs.specs.Lent.{record_out, SameOutputs};
ghost use Rattle.duplex_single.specs.Single.{single_faults, SingleAs};

use duplex_outputs::{RecordLengths, RecordOutputs, record_too_short};
use lists::copy;
use methylation::{EvidenceOutputs, EvidenceSlices, evidence_if};
use refusals::{Refusal, refuse};
use vanilla_caller::{Lengths, VanillaConsensusRead, strand_ragged, strand_too_long};

fn single_refusal(strand: Lengths, out: RecordLengths) -> Result<(), Refusal>
    ensures { result ≡ answer (refused (single_faults strand out)) tt }
{
    refuse(strand_too_long(strand), Refusal::TooLong)?;
    refuse(strand_ragged(strand), Refusal::Ragged)?;
    refuse(record_too_short(strand.bases, out), Refusal::OutputTooShort)
}

// Writes evidence, clear where it is not informative. The count stands beside whole outputs: that they stay as they were past it is
// promised too. Not copies that `gate_to_informative` then goes over: that answers a refusal, which there cannot be here.
#[tactic(auto, using(methylation::proofs::Filling::done_evidence))]
fn write_gated(places: usize, evidence: EvidenceSlices<'_>, out: &mut EvidenceOutputs<'_>)
    requires given { HasPlaces places (evidence_in evidence) }
    requires room { HasPlaces places (evidence_out out.old) }
    ensures same_references { SameEvidence out.old out.new }
    ensures puts { PutsEvidence (gated places (evidence_in evidence.entry)) (evidence_out out.old) (evidence_out out.new) }
{
    let marks_out = &mut *out.marks;
    let unconverted_out = &mut *out.unconverted;
    let converted_out = &mut *out.converted;
    // By index: three arrays are read, and three others written, at the same place.
    for i in 0..places {
        let kept = evidence_if(
            evidence.marks[i] != 0,
            evidence.unconverted[i],
            evidence.converted[i],
        );
        marks_out[i] = kept.mark;
        unconverted_out[i] = kept.unconverted;
        converted_out[i] = kept.converted;
    }
}

// Writes a strand as a record of its own: bases, qualities and errors untruncated, evidence clear where it is not informative, and
// answers how many positions it has. The record's depths are the strand's own. Without an annotation the evidence's outputs stay as
// they are. Refuses by 7, 8, 12.
pub fn gated_single_strand(
    strand: VanillaConsensusRead<'_>,
    out: &mut RecordOutputs<'_>,
    evidence: &mut EvidenceOutputs<'_>,
) -> Result<usize, Refusal>
    ensures same_references { SameOutputs out.old out.new × SameEvidence evidence.old evidence.new }
    ensures single { SingleAs (annotation_in strand.entry) (arrays_in strand.entry)
        (record_out out.old (evidence_out evidence.old) no_evidence)
        (record_out out.new (evidence_out evidence.new) no_evidence)
        result }
{
    let room = out.lengths(strand.annotation().and(Some(evidence.lengths())), None);
    single_refusal(strand.lengths(), room)?;
    let n = strand.bases.len();
    copy(strand.bases, out.bases);
    copy(strand.quals, out.quals);
    copy(strand.errors, out.errors);
    if let Some(annotation) = strand.methylation {
        write_gated(n, annotation.evidence, evidence);
    }
    Ok(n)
}

// The same of a strand without its annotation, which is not looked at.
pub fn plain_single_strand(
    strand: VanillaConsensusRead<'_>,
    out: &mut RecordOutputs<'_>,
) -> Result<usize, Refusal>
    ensures same_references { SameOutputs out.old out.new }
    ensures single { SingleAs None (arrays_in strand.entry)
        (record_out out.old no_evidence no_evidence)
        (record_out out.new no_evidence no_evidence)
        result }
{
    gated_single_strand(strand.plain(), out, &mut EvidenceOutputs::none())
}
