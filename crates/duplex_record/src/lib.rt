// The duplex record, from duplex_caller.rs (duplex_consensus): of two strands, one or none, without the source reads, whose
// errors are counted later. Uses lists, refusals, settings, methylation, vanilla_caller, duplex_molecule, duplex_outputs,
// duplex_strands, duplex_annotated, duplex_single and duplex_kind.
#![tactic(auto)]

ghost use Rattle.std.specs.Prelude.{◌≡◌, is_some};
ghost use Rattle.settings.specs.Settings.{given_of as lab_of};
ghost use Rattle.methylation.specs.Outputs.{evidence_out, no_evidence, SameEvidence};
ghost use Rattle.duplex_outputs.specs.Lent.{record_out, SameOutputs};
ghost use Rattle.duplex_strands.specs.Combine.{uncounted};
ghost use Rattle.duplex_kind.specs.Kind.{given_of, count_in, leaving_in};
ghost use Rattle.duplex_record.specs.Parts.{lent_as, plain_of};
ghost use Rattle.duplex_record.specs.Record.{DuplexAs};

use duplex_annotated::combine_strands_annotated;
pub use duplex_kind::{DuplexConsensus, GivenReads};
use duplex_kind::{given_strand, record_kind};
use duplex_outputs::RecordOutputs;
use duplex_single::gated_single_strand;
use methylation::EvidenceOutputs;
use refusals::Refusal;
use settings::Settings;
use vanilla_caller::VanillaConsensusRead;

// The strand, or one of no positions.
#[inline(always)]
fn lent<'a>(s: Option<VanillaConsensusRead<'a>>) -> VanillaConsensusRead<'a>
    ensures { given_of s.entry ≡ lent_as (is_some s.entry) result }
{
    s.unwrap_or(VanillaConsensusRead::new(&[], &[], &[], &[]))
}

// The record of two strands, of one or of none. One strand alone goes to the first strand's outputs. Where reads are listed, the
// errors of a record of two strands are left 0, to be counted. Refuses by 7, 8, 9, 10 whatever the record, then by 12 for what is
// written.
// A and B are two operands, which each caller has as two; their outputs come as three structs: one of these was tried, and who makes it
// learns nothing of what its slices hold.
// Inlined for speed, as what it calls of strands: each call of a function copies the slices of both strands. A record of 150 positions
// without a list or annotation takes 390 ns for 450, one of 300 takes 560 for 630.
#[inline(always)]
pub fn duplex_record(
    settings: Settings,
    a: Option<VanillaConsensusRead>,
    b: Option<VanillaConsensusRead>,
    list: Option<GivenReads>,
    out: &mut RecordOutputs<'_>,
    a_out: &mut EvidenceOutputs<'_>,
    b_out: &mut EvidenceOutputs<'_>,
) -> Result<Option<DuplexConsensus>, Refusal>
    ensures same_references { SameOutputs out.old out.new × SameEvidence a_out.old a_out.new × SameEvidence b_out.old b_out.new }
    ensures made { DuplexAs (lab_of settings) (given_of a.entry) (given_of b.entry) (is_some list) (count_in list) (leaving_in list) uncounted
        (record_out out.old (evidence_out a_out.old) (evidence_out b_out.old))
        (record_out out.new (evidence_out a_out.new) (evidence_out b_out.new))
        result }
{
    let Some(kind) = record_kind(given_strand(a), given_strand(b), list)? else {
        return Ok(None);
    };
    let a = lent(a);
    let b = lent(b);
    let written = match kind {
        DuplexConsensus::Ab(_) => gated_single_strand(a, out, a_out),
        DuplexConsensus::Ba(_) => gated_single_strand(b, out, a_out),
        DuplexConsensus::Both(_) => {
            combine_strands_annotated(settings, a, b, list.is_some(), out, a_out, b_out)
        }
    };
    written.map(|_| Some(kind))
}

// A strand without its annotation.
fn plain<'a>(s: Option<VanillaConsensusRead<'a>>) -> Option<VanillaConsensusRead<'a>>
    ensures { given_of result ≡ plain_of s.entry }
{
    s.map(|s| s.plain())
}

// The same of strands without their annotations, whose evidence goes nowhere: these are not looked at. Of the reads their number and
// `leaving` are, as there.
pub fn plain_record(
    settings: Settings,
    a: Option<VanillaConsensusRead>,
    b: Option<VanillaConsensusRead>,
    list: Option<GivenReads>,
    out: &mut RecordOutputs<'_>,
) -> Result<Option<DuplexConsensus>, Refusal>
    ensures same_references { SameOutputs out.old out.new }
    ensures made { DuplexAs (lab_of settings) (plain_of a.entry) (plain_of b.entry) (is_some list) (count_in list) (leaving_in list) uncounted
        (record_out out.old no_evidence no_evidence)
        (record_out out.new no_evidence no_evidence)
        result }
{
    duplex_record(
        settings,
        plain(a),
        plain(b),
        list,
        out,
        &mut EvidenceOutputs::none(),
        &mut EvidenceOutputs::none(),
    )
}
