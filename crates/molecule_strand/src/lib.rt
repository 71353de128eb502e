// A strand given as bytes: what of it is looked at, the rows that are tested of its byte counts before its numbers are read, 13 and 7,
// its numbers, and the kind of the record that two strands make. Uses lists, refusals, methylation, vanilla_caller, byte_numbers, molecule_evidence and duplex_kind.
#![tactic(auto)]

ghost use Rattle.std.specs.Prelude.{◌≡◌, ◌/◌, None, Some, length, true};
ghost use Rattle.lists.specs.Part.{only_if};
ghost use Rattle.refusals.specs.Refusal.{refused};
ghost use Rattle.refusals.specs.Outcome.{answer};
ghost use Rattle.methylation.specs.Arrays.{evidence_in};
ghost use Rattle.methylation.specs.Methylation.{is_annotated};
ghost use Rattle.methylation.specs.Outputs.{SameEvidence};
ghost use Rattle.duplex_kind.specs.Kind.{given_of, given_in};
ghost use Rattle.molecule_strand.specs.Rows.{byte_lengths, is_misfit, positions_of, is_long, numbers_in, length_faults, given_by, kind_read};
ghost use Rattle.molecule_strand.specs.Strand.{encoded_pattern, encoded_annotation, wrong_encoded_pattern, encoded_annotation_in, pattern_held, bytes_held, lengths_held, strand_bytes, encoded_in, numbers, numbers_strand, NumbersRead, StrandRead};

use duplex_kind::{DuplexConsensus, GivenStrand, record_kind};
use lists::front;
use methylation::{ConversionPattern, EvidenceLengths, EvidenceOutputs, EvidenceSlices};
use molecule_evidence::{POSITION_BYTES, read_evidence};
use refusals::{Refusal, refuse};
use vanilla_caller::{Lengths, VanillaConsensusRead, strand_too_long};

// An annotation whose evidence is bytes, nine a position.
#[derive(Clone, Copy)]
pub struct EncodedAnnotation<'a> {
    pub pattern: ConversionPattern,
    pub evidence: &'a [u8],
}

impl<'a> EncodedAnnotation<'a> {
    // Evidence counts with a pattern alone.
    #[tactic(auto, unfolding(lists::specs::Part::only_if))]
    pub fn of(
        annotation: Option<ConversionPattern>,
        evidence: &'a [u8],
    ) -> Option<EncodedAnnotation<'a>>
        ensures pattern { pattern_held result ≡ annotation }
        ensures evidence { bytes_held result ≡ only_if (is_annotated annotation) evidence.now }
    {
        let pattern = annotation?;
        Some(EncodedAnnotation { pattern, evidence })
    }

    // How many positions its bytes are.
    fn places(self) -> usize
        ensures { result ≡ length self.entry.evidence.now / 9 }
    {
        self.evidence.len() / POSITION_BYTES
    }
}

// The pattern of an annotation, where there is one.
pub fn pattern_held(m: Option<EncodedAnnotation>) -> Option<ConversionPattern>
    ensures { result ≡ pattern_held m.entry }
{
    m.map(|m| m.pattern)
}

// The bytes of its evidence; without an annotation none.
pub fn bytes_held<'a>(m: Option<EncodedAnnotation<'a>>) -> &'a [u8]
    ensures { result.now ≡ bytes_held m.entry }
{
    m.map_or(&[], |m| m.evidence)
}

// How many positions they are.
pub fn places_held(m: Option<EncodedAnnotation>) -> usize
    ensures { result ≡ length (bytes_held m.entry) / 9 }
{
    m.map_or(0, EncodedAnnotation::places)
}

// How long its evidence is, where there is an annotation.
pub fn lengths_held(m: Option<EncodedAnnotation>) -> Option<EvidenceLengths>
    ensures { result ≡ lengths_held m.entry }
{
    m.map(|m| EvidenceLengths::of(m.places()))
}

// How many bytes each array of a strand is, its evidence's where there is an annotation.
#[derive(Clone, Copy)]
pub struct ByteLengths {
    pub bases: usize,
    pub quals: usize,
    pub depths: usize,
    pub errors: usize,
    pub evidence: Option<usize>,
}

impl ByteLengths {
    // Whether they do not fit the widths.
    fn is_misfit(self) -> bool
        ensures { result ≡ is_misfit self }
    {
        (self.depths % 2 != 0)
            | (self.errors % 2 != 0)
            | self.evidence.is_some_and(|n| n % POSITION_BYTES != 0)
    }

    // How many positions they are.
    pub fn positions(self) -> Lengths
        ensures { result ≡ positions_of self }
    {
        Lengths {
            bases: self.bases,
            quals: self.quals,
            depths: self.depths / 2,
            errors: self.errors / 2,
            evidence: self
                .evidence
                .map(|n| EvidenceLengths::of(n / POSITION_BYTES)),
        }
    }

    // Whether an array has over 1,024 positions.
    fn is_long(self) -> bool
        ensures { result ≡ is_long self }
    {
        strand_too_long(self.positions())
    }
}

// A strand whose numbers are bytes: depths and errors two a position, low byte first. The fields are those of `VanillaConsensusRead`, and
// not one struct for both: it would take a type for numbers and one for evidence wherever it stands, and lengths count numbers there,
// halves and ninths of bytes here.
#[derive(Clone, Copy)]
pub struct EncodedStrand<'a> {
    pub bases: &'a [u8],
    pub quals: &'a [u8],
    pub depths: &'a [u8],
    pub errors: &'a [u8],
    pub methylation: Option<EncodedAnnotation<'a>>,
}

impl<'a> EncodedStrand<'a> {
    // A strand without annotation.
    pub fn new(
        bases: &'a [u8],
        quals: &'a [u8],
        depths: &'a [u8],
        errors: &'a [u8],
    ) -> EncodedStrand<'a>
        ensures bases { result.bases.now ≡ bases.now }
        ensures quals { result.quals.now ≡ quals.now }
        ensures depths { result.depths.now ≡ depths.now }
        ensures errors { result.errors.now ≡ errors.now }
        ensures methylation { result.methylation ≡ None }
    {
        let methylation = None;
        EncodedStrand {
            bases,
            quals,
            depths,
            errors,
            methylation,
        }
    }

    // The strand with this annotation and its evidence, or with none.
    pub fn annotated(
        self,
        annotation: Option<ConversionPattern>,
        evidence: &'a [u8],
    ) -> EncodedStrand<'a>
        ensures { encoded_in (Some result) ≡ strand_bytes true annotation self.entry.bases.now self.entry.quals.now self.entry.depths.now self.entry.errors.now (only_if (is_annotated annotation) evidence.now) }
    {
        let methylation = EncodedAnnotation::of(annotation, evidence);
        EncodedStrand {
            methylation,
            ..self
        }
    }

    // The pattern of its annotation.
    pub fn annotation(self) -> Option<ConversionPattern>
        ensures { result ≡ (encoded_in (Some self.entry)).annotation }
    {
        pattern_held(self.methylation)
    }

    // Its annotation's evidence; without one none.
    pub fn evidence(self) -> &'a [u8]
        ensures { result.now ≡ (encoded_in (Some self.entry)).evidence }
    {
        bytes_held(self.methylation)
    }

    // How many bytes each array is, its evidence where there is an annotation.
    pub fn byte_lengths(self) -> ByteLengths
        ensures { Some result ≡ byte_lengths (encoded_in (Some self.entry)) }
    {
        ByteLengths {
            bases: self.bases.len(),
            quals: self.quals.len(),
            depths: self.depths.len(),
            errors: self.errors.len(),
            evidence: self.methylation.map(|m| m.evidence.len()),
        }
    }

    // How many positions the bytes of each array are, those of its evidence where there is an annotation.
    #[tactic(auto, using(crate::proofs::Strand::held_positions))]
    pub fn lengths(self) -> Lengths
        ensures { result ≡ numbers_in (encoded_in (Some self.entry)) }
    {
        self.byte_lengths().positions()
    }
}

// A pattern by its byte: 0 is C to T, any other G to A. (methylation's `pattern_of` reads the numbers of calls that take no bytes, 1 and 2.)
// This, `wrong_encoded_pattern` and `encoded_annotation` are promised so and cannot fail: `encoded_annotation_in` is made of them.
pub fn encoded_pattern(byte: u8) -> ConversionPattern
    ensures { result ≡ encoded_pattern byte }
{
    match byte {
        0 => ConversionPattern::CToT,
        _ => ConversionPattern::GToA,
    }
}

// A strand's annotation, where it has one, by the byte of its pattern. C gives a flag and a byte, here and below.
pub fn encoded_annotation(annotated: bool, pattern: u8) -> Option<ConversionPattern>
    ensures { result ≡ encoded_annotation annotated pattern }
{
    annotated.then(|| encoded_pattern(pattern))
}

// Whether there is an annotation, and the byte of its pattern stands for none: row 13's condition for it.
pub fn wrong_encoded_pattern(annotated: bool, pattern: u8) -> bool
    ensures { result ≡ wrong_encoded_pattern annotated pattern }
{
    annotated & (1 < pattern)
}

// The annotation, where there is one. Refuses by 13; without an annotation the pattern is not looked at.
pub fn encoded_annotation_in(
    annotated: bool,
    pattern: u8,
) -> Result<Option<ConversionPattern>, Refusal>
    ensures { result ≡ encoded_annotation_in annotated pattern }
{
    refuse(wrong_encoded_pattern(annotated, pattern), Refusal::Broken)?;
    Ok(encoded_annotation(annotated, pattern))
}

// How many bytes each array of a strand is that may be absent.
pub fn byte_lengths(s: Option<EncodedStrand>) -> Option<ByteLengths>
    ensures { result ≡ byte_lengths (encoded_in s.entry) }
{
    s.map(EncodedStrand::byte_lengths)
}

// The rows that are tested of two strands given as bytes, either of which may be absent, before numbers are read: of the lengths of their
// arrays alone. Refuses by 13, 7. The strands are two operands: a struct of both would be taken apart for each test.
pub fn early_refusal(a: Option<ByteLengths>, b: Option<ByteLengths>) -> Result<(), Refusal>
    ensures { result ≡ answer (refused (length_faults a b)) tt }
{
    let misfit = a.is_some_and(ByteLengths::is_misfit) | b.is_some_and(ByteLengths::is_misfit);
    refuse(misfit, Refusal::Broken)?;
    let long = a.is_some_and(ByteLengths::is_long) | b.is_some_and(ByteLengths::is_long);
    refuse(long, Refusal::TooLong)
}

// What is given of a strand, whose depths were read to the front of an array.
fn given_by<'a>(s: Option<EncodedStrand>, depths: &'a [u16]) -> Option<GivenStrand<'a>>
    ensures { given_in result ≡ given_by (encoded_in s.entry) depths.now }
{
    s.map(|s| GivenStrand {
        lengths: s.lengths(),
        depths: front(depths, s.depths.len() / 2),
    })
}

// The kind of the record that two strands make, for which of their numbers the depths alone are looked at: those that were read to the
// front of two arrays. Refuses by 13, 7, 8. Each strand and its array come apart, as its bytes and its numbers do.
pub fn kind_of_depths(
    a: Option<EncodedStrand>,
    b: Option<EncodedStrand>,
    a_depths: &[u16],
    b_depths: &[u16],
) -> Result<Option<DuplexConsensus>, Refusal>
    ensures { result ≡ kind_read (encoded_in a.entry) (encoded_in b.entry) a_depths.now b_depths.now }
{
    early_refusal(byte_lengths(a), byte_lengths(b))?;
    record_kind(given_by(a, a_depths), given_by(b, b_depths), None)
}

// Reads as many of a strand's depths and errors as there is room for. Its other slices are not looked at.
// Not one function with molecule_counts' `CountBuffers::decode`: for both it would take the two slices and the two outputs, and be no more than
// these two lines.
#[tactic(auto, using(crate::proofs::Strand::nothing_read))]
pub fn read_numbers(s: Option<EncodedStrand>, depths_out: &mut [u16], errors_out: &mut [u16])
    ensures { NumbersRead (encoded_in s.entry) depths_out.old errors_out.old depths_out.new errors_out.new }
{
    if let Some(s) = s {
        byte_numbers::read(s.depths, depths_out);
        byte_numbers::read(s.errors, errors_out);
    }
}

// The same of its depths, errors and evidence. Its bases and qualities are not looked at.
#[tactic(auto, using(crate::proofs::Strand::held_seen))]
pub fn read_strand(
    s: Option<EncodedStrand>,
    depths_out: &mut [u16],
    errors_out: &mut [u16],
    evidence: &mut EvidenceOutputs<'_>,
)
    ensures same_references { SameEvidence evidence.old evidence.new }
    ensures read { StrandRead (encoded_in s.entry)
        (numbers depths_out.old errors_out.old evidence.old.marks.now evidence.old.unconverted.now evidence.old.converted.now)
        (numbers depths_out.new errors_out.new evidence.new.marks.now evidence.new.unconverted.now evidence.new.converted.now) }
{
    read_numbers(s, depths_out, errors_out);
    if let Some(s) = s {
        read_evidence(s.evidence(), evidence);
    }
}

// The strand whose numbers were read to the front of these arrays: each slice is as long as what was read.
// No `map`: in a closure the strand's bytes and the arrays have a lifetime each, and the borrow checker has no rule for a struct that holds
// both at one.
#[tactic(auto, unfolding(lists::specs::Part::only_if))]
pub fn strand_of_numbers<'a>(
    s: Option<EncodedStrand<'a>>,
    depths: &'a [u16],
    errors: &'a [u16],
    evidence: EvidenceSlices<'a>,
) -> Option<VanillaConsensusRead<'a>>
    ensures { given_of result ≡ numbers_strand (encoded_in s.entry) depths.now errors.now (evidence_in evidence.entry) }
{
    let s = s?;
    let strand = VanillaConsensusRead::new(
        s.bases,
        s.quals,
        front(depths, s.depths.len() / 2),
        front(errors, s.errors.len() / 2),
    );
    let places = places_held(s.methylation);
    Some(strand.annotated(s.annotation(), evidence.front(places)))
}
