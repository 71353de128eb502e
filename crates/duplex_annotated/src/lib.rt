// Two strands that may be annotated, combined position by position, from duplex_caller.rs (combine_strands). Uses refusals, settings,
// methylation, vanilla_caller, duplex_molecule, duplex_arrays, duplex_evidence, duplex_outputs and duplex_strands.
#![tactic(auto)]

ghost use Rattle.settings.specs.Settings.{given_of};
ghost use Rattle.methylation.specs.Outputs.{evidence_out, SameEvidence};
ghost use Rattle.vanilla_caller.specs.Strand.{annotation_in, arrays_in};
ghost use Rattle.duplex_molecule.specs.Molecule.{ct_input};
ghost use Rattle.duplex_outputs.specs.Lent.{record_out, SameOutputs};
ghost use Rattle.duplex_strands.specs.Combine.{CombinedAs};

use duplex_arrays::{PositionOutputs, write_errors, write_positions};
use duplex_evidence::write_evidence;
use duplex_molecule::ct_input;
use duplex_outputs::RecordOutputs;
use duplex_strands::combined_length;
use methylation::EvidenceOutputs;
use refusals::Refusal;
use settings::Settings;
use vanilla_caller::VanillaConsensusRead;

// Combines strands that may be annotated. Evidence is written of annotated strands only. Refuses by 7, 8, 12.
// Of a list only whether there is one counts here. A and B are two operands, which each caller has as two; their outputs come as
// three structs: one of these was tried, and who makes it learns nothing of what its slices hold.
// Inlined for speed (duplex_record).
#[inline(always)]
pub fn combine_strands_annotated(
    settings: Settings,
    a: VanillaConsensusRead,
    b: VanillaConsensusRead,
    listed: bool,
    out: &mut RecordOutputs<'_>,
    a_out: &mut EvidenceOutputs<'_>,
    b_out: &mut EvidenceOutputs<'_>,
) -> Result<usize, Refusal>
    ensures same_references { SameOutputs out.old out.new × SameEvidence a_out.old a_out.new × SameEvidence b_out.old b_out.new }
    ensures combined { CombinedAs (given_of settings) (ct_input (annotation_in a.entry) (annotation_in b.entry)) (annotation_in a.entry) (arrays_in a.entry) (annotation_in b.entry) (arrays_in b.entry)
        listed
        (record_out out.old (evidence_out a_out.old) (evidence_out b_out.old))
        (record_out out.new (evidence_out a_out.new) (evidence_out b_out.new))
        result }
{
    let for_a = a.annotation().and(Some(a_out.lengths()));
    let for_b = b.annotation().and(Some(b_out.lengths()));
    let room = out.lengths(for_a, for_b);
    let n = combined_length(a.lengths(), b.lengths(), room)?;
    let ct = ct_input(a.annotation(), b.annotation());
    let mut positions = PositionOutputs {
        bases: &mut *out.bases,
        quals: &mut *out.quals,
    };
    write_positions(settings.ceiling, ct, a, b, n, &mut positions);
    write_errors(ct, listed, a, b, n, out.errors);
    write_evidence(ct, a, b, a, n, a_out);
    write_evidence(ct, a, b, b, n, b_out);
    Ok(n)
}
