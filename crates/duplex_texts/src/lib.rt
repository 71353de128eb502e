// The sequence, MM and ML of a duplex record, from methylation.rs. Uses lists, refusals, methylation, duplex_molecule, methylation_restore
// and mm_ml.
#![tactic(auto)]

ghost use Rattle.std.specs.Prelude.{◌≡◌, ◌+◌, ◌≤◌, length};
ghost use Rattle.lists.specs.Output.{put};
ghost use Rattle.refusals.specs.Refusal.{refused};
ghost use Rattle.refusals.specs.Outcome.{answer};
ghost use Rattle.duplex_texts.specs.Lent.{texts_out, SameTexts};
ghost use Rattle.duplex_texts.specs.Texts.{strand_in, duplex_seq, second_first, grouped};
ghost use Rattle.methylation_restore.specs.Restore.{strand_bases};
ghost use Rattle.duplex_texts.specs.Outputs.{text_lengths, long, uneven, given_faults, texts_too_short, DuplexTextsAs};
ghost use Rattle.duplex_texts.specs.Parts.{AsLong, TextsAs, needed_for};

use duplex_molecule::{CtInput, ct_input};
use lists::{copy, front};
use methylation::{
    EvidenceLengths, MethylationAnnotation, MethylationMode, evidence_too_long, evidence_uneven,
    lengths_of,
};
use methylation_restore::restore_unconverted_bases;
use mm_ml::{AnnotatedBases, TagLengths, build_mm_ml_tags};
use refusals::{MAX_POSITIONS, Refusal, refuse};

// The outputs for the sequence and the texts. A function that is lent them leaves each slice where it is (specs/Lent.antt).
#[derive(Drop)]
pub struct TextOutputs<'a> {
    pub seq: &'a mut [u8],
    pub a_mm: &'a mut [u8],
    pub b_mm: &'a mut [u8],
    pub mm: &'a mut [u8],
    pub ml: &'a mut [u8],
}

// How many places each output has, or how many go there: 0 for a text that is not there.
#[derive(Clone, Copy)]
pub struct TextLengths {
    pub seq: usize,
    pub a_mm: usize,
    pub b_mm: usize,
    pub mm: usize,
    pub ml: usize,
}

impl TextOutputs<'_> {
    fn lengths(&self) -> TextLengths
        ensures { result ≡ text_lengths (texts_out self.now) }
    {
        TextLengths {
            seq: self.seq.len(),
            a_mm: self.a_mm.len(),
            b_mm: self.b_mm.len(),
            mm: self.mm.len(),
            ml: self.ml.len(),
        }
    }
}

// Row 7's condition for a strand.
fn is_long(s: Option<EvidenceLengths>) -> bool
    ensures { result ≡ long s }
{
    s.is_some_and(evidence_too_long)
}

// Row 8's condition for a strand beside so many bases.
fn is_uneven(bases: usize, s: Option<EvidenceLengths>) -> bool
    ensures { result ≡ uneven bases s }
{
    s.is_some_and(|e| evidence_uneven(bases, e))
}

// Refuses a sequence and the evidence of two strands, by their lengths: none of a strand without an annotation.
// The strands are two operands, here and below: a struct of the bases and both would be taken apart for each one's texts.
pub fn given_refusal(
    bases: usize,
    a: Option<EvidenceLengths>,
    b: Option<EvidenceLengths>,
) -> Result<(), Refusal>
    ensures { result ≡ answer (refused (given_faults bases a b)) tt }
{
    let too_long = (MAX_POSITIONS < bases) | (is_long(a) | is_long(b));
    refuse(too_long, Refusal::TooLong)?;
    refuse(is_uneven(bases, a) | is_uneven(bases, b), Refusal::Ragged)
}

// Restores a sequence by a strand's annotation. No call is refused here.
// What no row refuses (`AsLong`) stands in the requires, here and below: of a struct that holds it as a ghost, each function would ask
// instead that its length is the sequence's.
fn restore_by(s: Option<MethylationAnnotation>, seq: &mut [u8])
    requires { AsLong (length seq.old) (strand_in s) }
    ensures { seq.new ≡ strand_bases (strand_in s.entry).annotation (strand_in s.entry).evidence.marks seq.old }
{
    if let Some(annotation) = s {
        let _ = restore_unconverted_bases(seq, annotation);
    }
}

// Writes the sequence, restored by both strands.
fn restore_both(
    bases: &[u8],
    a: Option<MethylationAnnotation>,
    b: Option<MethylationAnnotation>,
    seq: &mut [u8],
)
    requires room { length bases.now ≤ length seq.old }
    requires as_long { AsLong (length bases.now) (strand_in a) }
    requires as_long_2 { AsLong (length bases.now) (strand_in b) }
    ensures { seq.new ≡ put (duplex_seq bases.now (strand_in a.entry) (strand_in b.entry)) seq.old }
{
    copy(bases, seq);
    restore_by(a, &mut seq[..bases.len()]);
    restore_by(b, &mut seq[..bases.len()]);
}

// Writes a strand's MM text against the restored sequence, and its ML bytes, to buffers that have room for any.
fn strand_texts(
    seq: &[u8],
    s: Option<MethylationAnnotation>,
    mode: MethylationMode,
    mm: &mut [u8],
    ml: &mut [u8],
) -> TagLengths
    requires as_long { AsLong (length seq.now) (strand_in s) }
    requires room { (5125 ≤ length mm.old) × (1024 ≤ length ml.old) }
    ensures { TextsAs mode seq.now (strand_in s.entry) mm.old ml.old mm.new ml.new result }
{
    let Some(annotation) = s else {
        return TagLengths::default();
    };
    let strand = AnnotatedBases {
        bases: seq,
        annotation,
    };
    // Not refused here; and where nothing is called there is no tag.
    build_mm_ml_tags(strand, mode, mm, ml)
        .ok()
        .flatten()
        .unwrap_or_default()
}

// How many places go to each output.
fn needed_for(positions: usize, a: TagLengths, b: TagLengths) -> TextLengths
    requires { (a.mm + b.mm ≤ 10250) × (a.ml + b.ml ≤ 2048) }
    ensures { result ≡ needed_for positions a b }
{
    TextLengths {
        seq: positions,
        a_mm: a.mm,
        b_mm: b.mm,
        mm: a.mm + b.mm,
        ml: a.ml + b.ml,
    }
}

// Row 12's condition.
fn is_too_short(needed: TextLengths, out: TextLengths) -> bool
    ensures { result ≡ texts_too_short needed out }
{
    (out.seq < needed.seq)
        | ((out.a_mm < needed.a_mm)
            | ((out.b_mm < needed.b_mm) | ((out.mm < needed.mm) | (out.ml < needed.ml))))
}

// Whether the second strand's group goes first: the first is of pattern G to A and the second of C to T.
#[tactic(auto, unfolding(duplex_molecule::specs::Molecule::ct_input))]
fn is_second_first(a: Option<MethylationAnnotation>, b: Option<MethylationAnnotation>) -> bool
    ensures { result ≡ second_first (strand_in a.entry).annotation (strand_in b.entry).annotation }
{
    ct_input(a.map(|s| s.pattern), b.map(|s| s.pattern)) == CtInput::IsB
}

// Writes what each strand has, one behind the other, in the order of their groups.
// One flag for both uses: a closure or swapped arguments would say it twice.
fn write_groups(second_first: bool, a: &[u8], b: &[u8], out: &mut [u8])
    requires { length a.now + length b.now ≤ length out.old }
    ensures { out.new ≡ put (grouped second_first a.now b.now) out.old }
{
    let first = if second_first { b } else { a };
    let second = if second_first { a } else { b };
    copy(first, out);
    copy(second, &mut out[first.len()..]);
}

// A duplex record's sequence, MM and ML, from its consensus bases and the annotations of its strands, in strand order. Each
// strand's annotation restores the sequence first. Then each strand's MM text, and the combined MM and ML with C-to-T groups first.
// Nothing goes to the output of an absent annotation. A text has at most 5 bytes and 5 for each
// position, the combined one twice that, and ML 2 for each position. Refuses by 7, 8, 12.
pub fn duplex_texts(
    bases: &[u8],
    a: Option<MethylationAnnotation>,
    b: Option<MethylationAnnotation>,
    mode: MethylationMode,
    out: &mut TextOutputs<'_>,
) -> Result<TextLengths, Refusal>
    ensures same_references { SameTexts out.old out.new }
    ensures texts { DuplexTextsAs mode bases.now (strand_in a.entry) (strand_in b.entry) (texts_out out.old) (texts_out out.new) result }
{
    given_refusal(bases.len(), lengths_of(a), lengths_of(b))?;
    // No heap: arrays of the most that is looked at.
    let mut seq = [0; 1024];
    restore_both(bases, a, b, &mut seq);
    let restored = front(&seq, bases.len());
    let mut a_mm = [0; 5125];
    let mut a_ml = [0; 1024];
    let of_a = strand_texts(restored, a, mode, &mut a_mm, &mut a_ml);
    let mut b_mm = [0; 5125];
    let mut b_ml = [0; 1024];
    let of_b = strand_texts(restored, b, mode, &mut b_mm, &mut b_ml);
    let needed = needed_for(bases.len(), of_a, of_b);
    refuse(is_too_short(needed, out.lengths()), Refusal::OutputTooShort)?;
    let second_first = is_second_first(a, b);
    let a_text = front(&a_mm, of_a.mm);
    let b_text = front(&b_mm, of_b.mm);
    let a_bytes = front(&a_ml, of_a.ml);
    let b_bytes = front(&b_ml, of_b.ml);
    copy(restored, out.seq);
    copy(a_text, out.a_mm);
    copy(b_text, out.b_mm);
    write_groups(second_first, a_text, b_text, out.mm);
    write_groups(second_first, a_bytes, b_bytes, out.ml);
    Ok(needed)
}
