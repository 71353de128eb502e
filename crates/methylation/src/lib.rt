// Methylation: chemistries, conversion patterns, annotations and their evidence, from methylation.rs and lib.rs. Uses lists,
// refusals, dna and flags.
#![tactic(auto)]

ghost use Rattle.std.specs.Prelude.{◌≡◌};
ghost use Rattle.methylation.specs.Choices.{pattern_number, pattern_of, wrong_pattern, pattern_in, mode_of, wrong_mode, mode_in};
ghost use Rattle.methylation.specs.Arrays.{evidence_arrays, evidence_in, evidence_places, annotated_lengths, evidence_lengths, evidence_of_length, evidence_fronts, evidence_over, evidence_too_long, evidence_ragged, evidence_uneven, evidence_too_short};
ghost use Rattle.methylation.specs.Outputs.{evidence_out, no_evidence};
ghost use Rattle.methylation.specs.Annotation.{pattern_held, evidence_held, evidence_seen};
ghost use Rattle.methylation.specs.Methylation.{is_enabled, pattern_of_flags, pattern_bases, is_cg, is_cpg_context, evidence_if};

use dna::eq_ignore_ascii_case;
use flags::{LAST_SEGMENT, is_set};
use lists::front;
use refusals::{MAX_POSITIONS, Refusal, refuse};

// The chemistry, which decides whether a converted base is methylated.
#[derive(Clone, Copy, Debug, PartialEq, Eq)]
pub enum MethylationMode {
    // Conversions are errors, and there are no tags.
    Disabled,
    // An unconverted base is methylated.
    EmSeq,
    // A converted base is methylated.
    Taps,
}

impl MethylationMode {
    pub fn is_enabled(self) -> bool
        ensures { result ≡ is_enabled self }
    {
        self != MethylationMode::Disabled
    }
}

// How a read shows conversions, in the orientation in which it was sequenced; with the number that stands for it where a program
// chooses.
#[derive(Clone, Copy, Debug, PartialEq, Eq)]
pub enum ConversionPattern {
    CToT = 1,
    GToA = 2,
}

// The reference base that a pattern tracks, and how a read shows it unconverted and converted.
#[derive(Clone, Copy)]
pub struct PatternBases {
    pub reference: u8,
    pub unconverted: u8,
    pub converted: u8,
}

impl ConversionPattern {
    // A read with the flag 0x80 is of pattern G to A, any other of C to T.
    pub fn from_read_flags(read_flags: u16) -> Self
        ensures { result ≡ pattern_of_flags read_flags }
    {
        if is_set(read_flags, LAST_SEGMENT) {
            ConversionPattern::GToA
        } else {
            ConversionPattern::CToT
        }
    }

    // The number that stands for it: those that C sees.
    pub fn number(self) -> u8
        ensures { result ≡ pattern_number self }
    {
        self as u8
    }

    pub fn bases(self) -> PatternBases
        ensures { result ≡ pattern_bases self }
    {
        match self {
            ConversionPattern::CToT => PatternBases {
                reference: b'C',
                unconverted: b'C',
                converted: b'T',
            },
            ConversionPattern::GToA => PatternBases {
                reference: b'G',
                unconverted: b'G',
                converted: b'A',
            },
        }
    }
}

// Whether a number stands for no pattern. This and `pattern_of` are promised so and cannot fail: TryFrom is made of the two.
pub fn wrong_pattern(number: u8) -> bool
    ensures { result ≡ wrong_pattern number }
{
    (number == 0) | (2 < number)
}

// 1: C to T; any other number: G to A. Promised for every number, as `wrong_pattern` is.
pub fn pattern_of(number: u8) -> ConversionPattern
    ensures { result ≡ pattern_of number }
{
    match number {
        1 => ConversionPattern::CToT,
        _ => ConversionPattern::GToA,
    }
}

impl TryFrom<u8> for ConversionPattern {
    type Error = Refusal;

    ghost try_from_gives = { λ number answer. answer ≡ pattern_in number };

    fn try_from(number: u8) -> Result<Self, Refusal> {
        refuse(wrong_pattern(number), Refusal::Broken)?;
        Ok(pattern_of(number))
    }
}

// Whether a number stands for no mode. This and `mode_of` are promised so and cannot fail: TryFrom is made of the two.
pub fn wrong_mode(number: u8) -> bool
    ensures { result ≡ wrong_mode number }
{
    2 < number
}

// 0: Disabled; 1: EM-Seq; any other number: TAPs. Promised for every number, as `wrong_mode` is.
pub fn mode_of(number: u8) -> MethylationMode
    ensures { result ≡ mode_of number }
{
    match number {
        0 => MethylationMode::Disabled,
        1 => MethylationMode::EmSeq,
        _ => MethylationMode::Taps,
    }
}

impl TryFrom<u8> for MethylationMode {
    type Error = Refusal;

    ghost try_from_gives = { λ number answer. answer ≡ mode_in number };

    fn try_from(number: u8) -> Result<Self, Refusal> {
        refuse(wrong_mode(number), Refusal::Broken)?;
        Ok(mode_of(number))
    }
}

// A strand's evidence at one position.
#[derive(Clone, Copy)]
pub struct Evidence {
    pub mark: u8,
    pub unconverted: u32,
    pub converted: u32,
}

// The evidence of an annotation as lent slices: a mark and two counts for each position. Three slices and not one of `Evidence`, as
// the callers from C lend three arrays, and loops over the marks alone go 16 at once.
#[derive(Clone, Copy)]
pub struct EvidenceSlices<'a> {
    pub marks: &'a [u8],
    pub unconverted: &'a [u32],
    pub converted: &'a [u32],
}

// An annotation: the pattern of a strand's conversions, and its evidence.
#[derive(Clone, Copy)]
pub struct MethylationAnnotation<'a> {
    pub pattern: ConversionPattern,
    pub evidence: EvidenceSlices<'a>,
}

// The outputs for an annotation's evidence, three slices as those of `EvidenceSlices`. A function that is lent them keeps each slice
// where it is (specs/Outputs.antt).
#[derive(Drop)]
pub struct EvidenceOutputs<'a> {
    pub marks: &'a mut [u8],
    pub unconverted: &'a mut [u32],
    pub converted: &'a mut [u32],
}

// How long each array of an annotation's evidence is.
#[derive(Clone, Copy)]
pub struct EvidenceLengths {
    pub marks: usize,
    pub unconverted: usize,
    pub converted: usize,
}

fn is_cg(first: u8, second: u8) -> bool
    ensures { result ≡ is_cg first second }
{
    eq_ignore_ascii_case(first, b'C') & eq_ignore_ascii_case(second, b'G')
}

// Whether a position of the reference is in a CpG: on the top strand a C followed by a G, on the bottom strand a G after a C,
// in any case. `is_top_strand` is the Rust's own parameter.
pub fn is_cpg_context(ref_seq: &[u8], pos: usize, is_top_strand: bool) -> bool
    ensures { result ≡ is_cpg_context ref_seq.now pos is_top_strand }
{
    if ref_seq.len() <= pos {
        return false;
    }
    if is_top_strand {
        let next = pos + 1;
        if ref_seq.len() <= next {
            return false;
        }
        return is_cg(ref_seq[pos], ref_seq[next]);
    }
    if pos == 0 {
        return false;
    }
    is_cg(ref_seq[pos - 1], ref_seq[pos])
}

// Evidence as a record holds it: marked and with its counts where it is kept, clear where not. The flag chooses a value and no way
// through the code: callers have a mark, of which they would make an Option by that same test.
pub fn evidence_if(kept: bool, unconverted: u32, converted: u32) -> Evidence
    ensures { result ≡ evidence_if kept unconverted converted }
{
    if kept {
        return Evidence {
            mark: 1,
            unconverted,
            converted,
        };
    }
    Evidence {
        mark: 0,
        unconverted: 0,
        converted: 0,
    }
}

// How many places of evidence are written, of n positions: all, or none without an annotation. Of the annotation only whether there is
// one counts; callers hand on the `Option` that they hold.
pub fn evidence_places(annotation: Option<ConversionPattern>, n: usize) -> usize
    ensures { result ≡ evidence_places annotation n }
{
    annotation.map_or(0, |_| n)
}

impl EvidenceLengths {
    // Three arrays of so many places each.
    pub fn of(places: usize) -> Self
        ensures { result ≡ evidence_of_length places }
    {
        EvidenceLengths {
            marks: places,
            unconverted: places,
            converted: places,
        }
    }
}

impl<'a> MethylationAnnotation<'a> {
    // Evidence counts with a pattern alone.
    pub fn of(
        pattern: Option<ConversionPattern>,
        evidence: EvidenceSlices<'a>,
    ) -> Option<MethylationAnnotation<'a>>
        ensures pattern { pattern_held result ≡ pattern }
        ensures evidence { evidence_held result ≡ evidence_seen pattern (evidence_in evidence.entry) }
    {
        let pattern = pattern?;
        Some(MethylationAnnotation { pattern, evidence })
    }
}

// The evidence of an annotation; without one none.
pub fn evidence_of<'a>(annotation: Option<MethylationAnnotation<'a>>) -> EvidenceSlices<'a>
    ensures { evidence_in result ≡ evidence_held annotation.entry }
{
    annotation.map_or(EvidenceSlices::none(), |m| m.evidence)
}

// How long that is; without an annotation there are no lengths.
pub fn lengths_of(annotation: Option<MethylationAnnotation<'_>>) -> Option<EvidenceLengths>
    ensures { result ≡ annotated_lengths (pattern_held annotation.entry) (evidence_held annotation.entry) }
{
    annotation.map(|m| m.evidence.lengths())
}

impl<'a> EvidenceSlices<'a> {
    pub fn new(marks: &'a [u8], unconverted: &'a [u32], converted: &'a [u32]) -> EvidenceSlices<'a>
        ensures { evidence_in result ≡ evidence_arrays marks.now unconverted.now converted.now }
    {
        EvidenceSlices {
            marks,
            unconverted,
            converted,
        }
    }

    // That of no annotation.
    pub fn none() -> EvidenceSlices<'a>
        ensures { evidence_in result ≡ no_evidence }
    {
        EvidenceSlices::new(&[], &[], &[])
    }

    // The first n places of each array, or all where there are fewer.
    pub fn front(self, n: usize) -> EvidenceSlices<'a>
        ensures { evidence_in result ≡ evidence_fronts n (evidence_in self.entry) }
    {
        EvidenceSlices {
            marks: front(self.marks, n),
            unconverted: front(self.unconverted, n),
            converted: front(self.converted, n),
        }
    }

    pub fn lengths(self) -> EvidenceLengths
        ensures { result ≡ evidence_lengths (evidence_in self.entry) }
    {
        EvidenceLengths {
            marks: self.marks.len(),
            unconverted: self.unconverted.len(),
            converted: self.converted.len(),
        }
    }
}

// Row 19's condition for an annotation, by a limit.
// Inlined, for speed: entries test it of two strands beside row 7's.
#[inline(always)]
pub fn evidence_over(limit: usize, e: EvidenceLengths) -> bool
    ensures { result ≡ evidence_over limit e }
{
    (limit < e.marks) | ((limit < e.unconverted) | (limit < e.converted))
}

// Row 7's.
pub fn evidence_too_long(e: EvidenceLengths) -> bool
    ensures { result ≡ evidence_too_long e }
{
    evidence_over(MAX_POSITIONS, e)
}

// Row 8's condition for an annotation's arrays among themselves.
pub fn evidence_ragged(e: EvidenceLengths) -> bool
    ensures { result ≡ evidence_ragged e }
{
    evidence_uneven(e.marks, e)
}

// The same beside n bases.
pub fn evidence_uneven(n: usize, e: EvidenceLengths) -> bool
    ensures { result ≡ evidence_uneven n e }
{
    (e.marks != n) | ((e.unconverted != n) | (e.converted != n))
}

// Row 12's condition for outputs to which n positions go.
pub fn evidence_too_short(n: usize, out: EvidenceLengths) -> bool
    ensures { result ≡ evidence_too_short n out }
{
    (out.marks < n) | ((out.unconverted < n) | (out.converted < n))
}

impl<'a> EvidenceOutputs<'a> {
    // Those of no annotation.
    pub fn none() -> EvidenceOutputs<'a>
        ensures { evidence_out result ≡ no_evidence }
    {
        EvidenceOutputs {
            marks: &mut [],
            unconverted: &mut [],
            converted: &mut [],
        }
    }

    // Not by that of `EvidenceSlices`: to read the outputs as such would name each of the three once more.
    pub fn lengths(&self) -> EvidenceLengths
        ensures { result ≡ evidence_lengths (evidence_out self.now) }
    {
        EvidenceLengths {
            marks: self.marks.len(),
            unconverted: self.unconverted.len(),
            converted: self.converted.len(),
        }
    }
}
