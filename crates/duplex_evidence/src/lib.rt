// The evidence of a strand in a two-strand record, position by position, from duplex_caller.rs (combine_strands). Uses lists,
// methylation, vanilla_caller, duplex_molecule, duplex_call and duplex_arrays.
#![tactic(auto)]

ghost use Rattle.std.specs.Prelude.{◌≡◌, Some, false, [], ◌∷◌, ◌≤◌, length};
ghost use Rattle.lists.specs.Output.{put};
ghost use Rattle.lists.specs.Table.{tabulate};
ghost use Rattle.methylation.specs.Arrays.{HasPlaces};
ghost use Rattle.methylation.specs.Outputs.{evidence_out, SameEvidence};
ghost use Rattle.vanilla_caller.specs.Strand.{annotation_in, arrays_in};
ghost use Rattle.duplex_arrays.specs.Positions.{arrays_short, unless_short};
ghost use Rattle.duplex_evidence.specs.Kept.{mark_of, marked_at, marks_short, EvidenceAs};

use duplex_call::Site;
use duplex_molecule::CtInput;
use methylation::{
    ConversionPattern, EvidenceLengths, EvidenceOutputs, EvidenceSlices, evidence_if,
};
use vanilla_caller::VanillaConsensusRead;

// Whether one of these lengths is below n. The marks that a strand has are not looked at. A and B are two operands, here and below:
// each caller has them as two.
#[tactic(auto, unfolding(duplex_arrays::specs::Positions::arrays_short))]
fn evidence_short(
    n: usize,
    a_bases: usize,
    b_bases: usize,
    own: EvidenceLengths,
    out: EvidenceLengths,
) -> bool
    ensures { result ≡ arrays_short n false [] (a_bases ∷ b_bases ∷ own.unconverted ∷ own.converted ∷ out.marks ∷ out.unconverted ∷ out.converted ∷ []) }
{
    let read = (a_bases < n) | ((b_bases < n) | ((own.unconverted < n) | (own.converted < n)));
    read | ((out.marks < n) | ((out.unconverted < n) | (out.converted < n)))
}

// The marks of the first n positions. Here and below n stands beside whole outputs: that they stay as they were past it is promised too.
#[tactic(auto, using(lists::proofs::Output::begin, lists::proofs::Table::length_tabulate, lists::proofs::Told::next_table))]
fn fill_marks(
    pattern: ConversionPattern,
    ct: CtInput,
    a_bases: &[u8],
    b_bases: &[u8],
    n: usize,
    marks_out: &mut [u8],
)
    requires { (n ≤ length a_bases.now) × (n ≤ length b_bases.now) × (n ≤ length marks_out.old) }
    ensures { marks_out.new ≡ put (tabulate n (mark_of ct (Some pattern) a_bases.now b_bases.now)) marks_out.old }
{
    // By index: two arrays are read and one is written at the same place.
    for i in 0..n {
        let site = Site {
            ct,
            a: a_bases[i],
            b: b_bases[i],
        };
        marks_out[i] = u8::from(site.keeps_evidence(Some(pattern)));
    }
}

// Writes the marks that a strand of this pattern keeps at the first n positions, and no counts; nothing where an array is shorter than n.
// A strand's counts may be bytes: who has those writes them by these marks. The bases and n come apart, as in `write_evidence`.
#[tactic(auto, using(lists::proofs::Output::put_none), unfolding(duplex_arrays::specs::Positions::arrays_short, duplex_arrays::specs::Positions::unless_short))]
pub fn write_marks(
    pattern: ConversionPattern,
    ct: CtInput,
    a_bases: &[u8],
    b_bases: &[u8],
    n: usize,
    marks_out: &mut [u8],
)
    ensures { marks_out.new ≡ put (unless_short (marks_short n a_bases.now b_bases.now marks_out.old) (tabulate n (mark_of ct (Some pattern) a_bases.now b_bases.now))) marks_out.old }
{
    if (a_bases.len() < n) | ((b_bases.len() < n) | (marks_out.len() < n)) {
        return;
    }
    fill_marks(pattern, ct, a_bases, b_bases, n, marks_out);
}

// The counts of the first n positions, where those are marked.
#[tactic(auto, using(lists::proofs::Output::begin, lists::proofs::Table::length_tabulate, lists::proofs::Told::next_table))]
fn fill_counts(own: EvidenceSlices, n: usize, out: &mut EvidenceOutputs<'_>)
    requires own { (n ≤ length own.unconverted.now) × (n ≤ length own.converted.now) }
    requires room { HasPlaces n (evidence_out out.old) }
    ensures same_references { SameEvidence out.old out.new }
    ensures marks { out.new.marks.now ≡ out.old.marks.now }
    ensures unconverted { out.new.unconverted.now ≡ put (tabulate n (λ i. (marked_at out.old.marks.now own.entry.unconverted.now own.entry.converted.now i).unconverted)) out.old.unconverted.now }
    ensures converted { out.new.converted.now ≡ put (tabulate n (λ i. (marked_at out.old.marks.now own.entry.unconverted.now own.entry.converted.now i).converted)) out.old.converted.now }
{
    let marks = &mut *out.marks;
    let unconverted_out = &mut *out.unconverted;
    let converted_out = &mut *out.converted;
    // By index: three arrays are read and two are written at the same place.
    for i in 0..n {
        let e = evidence_if(marks[i] != 0, own.unconverted[i], own.converted[i]);
        unconverted_out[i] = e.unconverted;
        converted_out[i] = e.converted;
    }
}

// Writes the evidence of one of the strands A and B, where it is annotated, at the first n positions; nothing where an array is
// shorter than n. The marks come first, since bytes alone go 16 at once, then each count by its mark.
// Of A and B the bases are looked at, of the strand its two counts; other arrays may be empty. The strands and n come apart: that
// the arrays reach n is what is tested here.
// Inlined for speed (duplex_record): most strands have no annotation.
#[inline(always)]
#[tactic(auto, using(lists::proofs::Output::put_none, crate::proofs::Kept::by_marks, lists::proofs::Output::put_holds, lists::proofs::Table::length_tabulate), unfolding(duplex_arrays::specs::Positions::arrays_short, duplex_arrays::specs::Positions::unless_short, lists::specs::Part::only_if, crate::specs::Kept::kept_marks, crate::specs::Kept::kept_unconverted, crate::specs::Kept::kept_converted))]
pub fn write_evidence(
    ct: CtInput,
    a: VanillaConsensusRead,
    b: VanillaConsensusRead,
    own: VanillaConsensusRead,
    n: usize,
    out: &mut EvidenceOutputs<'_>,
)
    ensures same_references { SameEvidence out.old out.new }
    ensures written { EvidenceAs n ct (arrays_in a.entry) (arrays_in b.entry) (annotation_in own.entry) (arrays_in own.entry) (evidence_out out.old) (evidence_out out.new) }
{
    let Some(annotation) = own.methylation else {
        return;
    };
    if evidence_short(
        n,
        a.bases.len(),
        b.bases.len(),
        annotation.evidence.lengths(),
        out.lengths(),
    ) {
        return;
    }
    fill_marks(annotation.pattern, ct, a.bases, b.bases, n, out.marks);
    fill_counts(annotation.evidence, n, out);
}
