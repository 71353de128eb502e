// The strand, from vanilla_caller.rs: a single-strand consensus as lent slices (bases, qualities, depths and errors, and perhaps
// an annotation's evidence), what refuses it, and its depths. Uses lists, refusals, numbers and methylation.
#![tactic(auto)]

ghost use Rattle.std.specs.Prelude.{◌≡◌, None, []};
ghost use Rattle.vanilla_caller.specs.Depth.{max_depth, min_depth};
ghost use Rattle.methylation.specs.Annotation.{evidence_held};
ghost use Rattle.methylation.specs.Arrays.{evidence_in};
ghost use Rattle.vanilla_caller.specs.Strand.{arrays, annotation_in, arrays_in, with_evidence, arrays_seen, plain, lengths, mark, strand_over, strand_too_long, strand_ragged, outputs_too_short};

use methylation::{
    ConversionPattern, EvidenceLengths, EvidenceSlices, MethylationAnnotation, evidence_of,
    evidence_over, evidence_too_short, evidence_uneven, lengths_of,
};
use numbers::{largest, smallest};
use refusals::{MAX_POSITIONS, Refusal, refuse};

// A strand as lent slices.
#[derive(Clone, Copy)]
pub struct VanillaConsensusRead<'a> {
    pub bases: &'a [u8],
    pub quals: &'a [u8],
    pub depths: &'a [u16],
    pub errors: &'a [u16],
    pub methylation: Option<MethylationAnnotation<'a>>,
}

// How long each array of a strand is, its evidence's where there is an annotation.
#[derive(Clone, Copy)]
pub struct Lengths {
    pub bases: usize,
    pub quals: usize,
    pub depths: usize,
    pub errors: usize,
    pub evidence: Option<EvidenceLengths>,
}

impl<'a> VanillaConsensusRead<'a> {
    // A strand without annotation.
    pub fn new(
        bases: &'a [u8],
        quals: &'a [u8],
        depths: &'a [u16],
        errors: &'a [u16],
    ) -> VanillaConsensusRead<'a>
        ensures annotation { annotation_in result ≡ None }
        ensures arrays { arrays_in result ≡ arrays bases.now quals.now depths.now errors.now [] [] [] }
    {
        let methylation = None;
        VanillaConsensusRead {
            bases,
            quals,
            depths,
            errors,
            methylation,
        }
    }

    // The pattern of its annotation.
    pub fn annotation(self) -> Option<ConversionPattern>
        ensures { result ≡ annotation_in self.entry }
    {
        self.methylation.map(|m| m.pattern)
    }

    // Its annotation's evidence; without one none.
    pub fn evidence(self) -> EvidenceSlices<'a>
        ensures { evidence_in result ≡ evidence_held self.entry.methylation }
    {
        evidence_of(self.methylation)
    }

    // The strand with this annotation and its evidence, or with none.
    pub fn annotated(
        self,
        annotation: Option<ConversionPattern>,
        evidence: EvidenceSlices<'a>,
    ) -> VanillaConsensusRead<'a>
        ensures annotation { annotation_in result ≡ annotation }
        ensures arrays { arrays_in result ≡ arrays_seen annotation (with_evidence (arrays_in self.entry) (evidence_in evidence.entry)) }
    {
        let methylation = MethylationAnnotation::of(annotation, evidence);
        VanillaConsensusRead {
            methylation,
            ..self
        }
    }

    // The strand without its annotation.
    pub fn plain(self) -> VanillaConsensusRead<'a>
        ensures { result ≡ plain self.entry }
    {
        VanillaConsensusRead {
            methylation: None,
            ..self
        }
    }

    pub fn lengths(self) -> Lengths
        ensures { result ≡ lengths (annotation_in self.entry) (arrays_in self.entry) }
    {
        Lengths {
            bases: self.bases.len(),
            quals: self.quals.len(),
            depths: self.depths.len(),
            errors: self.errors.len(),
            evidence: lengths_of(self.methylation),
        }
    }
}

// The largest depth; 0 of no positions. Refuses by 7.
pub fn max_depth(depths: &[u16]) -> Result<u16, Refusal>
    ensures { result ≡ max_depth depths.now }
{
    refuse(MAX_POSITIONS < depths.len(), Refusal::TooLong)?;
    Ok(largest(depths))
}

// The smallest depth; 0 of no positions. Refuses by 7.
pub fn min_depth(depths: &[u16]) -> Result<u16, Refusal>
    ensures { result ≡ min_depth depths.now }
{
    refuse(MAX_POSITIONS < depths.len(), Refusal::TooLong)?;
    Ok(smallest(depths))
}

// Row 19's condition for a strand, by a limit.
// Inlined, for speed, as methylation's `evidence_over`.
#[inline(always)]
pub fn strand_over(limit: usize, s: Lengths) -> bool
    ensures { result ≡ strand_over limit s }
{
    let four = (limit < s.bases) | ((limit < s.quals) | ((limit < s.depths) | (limit < s.errors)));
    four | s.evidence.is_some_and(|e| evidence_over(limit, e))
}

// Row 7's.
pub fn strand_too_long(s: Lengths) -> bool
    ensures { result ≡ strand_too_long s }
{
    strand_over(MAX_POSITIONS, s)
}

// Row 8's condition for a strand.
pub fn strand_ragged(s: Lengths) -> bool
    ensures { result ≡ strand_ragged s }
{
    let n = s.bases;
    let four = (s.quals != n) | ((s.depths != n) | (s.errors != n));
    four | s.evidence.is_some_and(|e| evidence_uneven(n, e))
}

// Row 12's condition for outputs to which a strand of n positions goes.
pub fn outputs_too_short(n: usize, out: Lengths) -> bool
    ensures { result ≡ outputs_too_short n out }
{
    let four = (out.bases < n) | ((out.quals < n) | ((out.depths < n) | (out.errors < n)));
    four | out.evidence.is_some_and(|e| evidence_too_short(n, e))
}

// An informative mark as it is written: 0 no, any other byte yes.
pub fn mark_of(x: u8) -> u8
    ensures { result ≡ mark x }
{
    u8::from(x != 0)
}
