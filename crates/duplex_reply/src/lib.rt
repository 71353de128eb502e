// A strand and a molecule that numbers tell of, and the kind of a duplex record and its length as numbers, for the entry points that
// programs link. Uses refusals, methylation, settings, replies, vanilla_caller and duplex_kind.
#![tactic(auto)]

ghost use Rattle.std.specs.Prelude.{◌≡◌};
ghost use Rattle.refusals.specs.Refusal.{number_of};
ghost use Rattle.methylation.specs.Arrays.{evidence_in};
ghost use Rattle.methylation.specs.Choices.{annotation_of};
ghost use Rattle.vanilla_caller.specs.Strand.{arrays_in, with_evidence, arrays_seen};
ghost use Rattle.duplex_reply.specs.Reply.{no_record, record_told, record_for};
ghost use Rattle.duplex_reply.specs.Strand.{told_by, strand_by};

use duplex_kind::DuplexConsensus;
use methylation::EvidenceSlices;
use refusals::Refusal;
use replies::annotation_in;
use settings::GivenSettings;
use vanilla_caller::VanillaConsensusRead;

// What a duplex record is: `refused` is the refusal's number, 0 for none; kind 0 is no record, 1 strand A alone, 2 strand B alone,
// 3 both.
#[repr(C)]
#[derive(Clone, Copy)]
pub struct DuplexRecord {
    pub refused: u8,
    pub kind: u8,
    pub positions: usize,
}

impl From<Refusal> for DuplexRecord {
    ghost from_gives = { λ refusal reply. reply ≡ no_record (number_of refusal) };

    fn from(refusal: Refusal) -> DuplexRecord {
        DuplexRecord {
            refused: refusal.number(),
            kind: 0,
            positions: 0,
        }
    }
}

// The answer of a combination as numbers, which are those that C sees. Of a refusal told by its number, any number is handed on.
impl From<Result<Option<DuplexConsensus>, u8>> for DuplexRecord {
    ghost from_gives = { λ answer reply. reply ≡ record_told answer };

    fn from(answer: Result<Option<DuplexConsensus>, u8>) -> DuplexRecord {
        let (refused, kind, positions) = match answer {
            Err(number) => (number, 0, 0),
            Ok(None) => (0, 0, 0),
            Ok(Some(DuplexConsensus::Ab(n))) => (0, 1, n),
            Ok(Some(DuplexConsensus::Ba(n))) => (0, 2, n),
            Ok(Some(DuplexConsensus::Both(n))) => (0, 3, n),
        };
        DuplexRecord {
            refused,
            kind,
            positions,
        }
    }
}

impl From<Result<Option<DuplexConsensus>, Refusal>> for DuplexRecord {
    ghost from_gives = { λ answer reply. reply ≡ record_for answer };

    fn from(answer: Result<Option<DuplexConsensus>, Refusal>) -> DuplexRecord {
        DuplexRecord::from(answer.map_err(Refusal::number))
    }
}

// What a program tells of a strand beside its arrays. Present: 0 is no, any other number yes; an annotation: 0 is none, 1 C to T, 2 G to
// A, and is not looked at of a strand that is not present.
#[repr(C)]
#[derive(Clone, Copy)]
pub struct ToldStrand {
    pub present: u8,
    pub annotation: u8,
}

// And of a molecule, whose source reads may be listed: 0 is no, any other number yes.
#[repr(C)]
#[derive(Clone, Copy)]
pub struct ToldMolecule {
    pub a: ToldStrand,
    pub b: ToldStrand,
    pub listed: u8,
    pub settings: GivenSettings,
}

// A strand as numbers tell of it, which are those of a ToldStrand, with the evidence that stands beside it, which is not looked at
// without an annotation. One that the strand has is not looked at: its number tells of it. Refuses by 13.
// By two numbers, not by a ToldStrand: the entry that says why a position shows N has them so.
pub fn strand_in<'a>(
    present: u8,
    annotation: u8,
    strand: VanillaConsensusRead<'a>,
    evidence: EvidenceSlices<'a>,
) -> Result<Option<VanillaConsensusRead<'a>>, Refusal>
    ensures { told_by result ≡ strand_by present annotation (arrays_seen (annotation_of annotation) (with_evidence (arrays_in strand.entry) (evidence_in evidence.entry))) }
{
    if present == 0 {
        return Ok(None);
    }
    let annotation = annotation_in(annotation)?;
    Ok(Some(strand.annotated(annotation, evidence)))
}
