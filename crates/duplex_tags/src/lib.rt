// The methylation tags of a duplex record, from methylation.rs: its texts and its counts. Uses lists, refusals, methylation,
// methylation_evidence and duplex_texts.
#![tactic(auto)]

ghost use Rattle.std.specs.Prelude.{◌≡◌, None, length};
ghost use Rattle.refusals.specs.Outcome.{answer};
ghost use Rattle.methylation_evidence.specs.Counts.{tag_counts, summed_counts};
ghost use Rattle.duplex_texts.specs.Lent.{texts_out, SameTexts};
ghost use Rattle.duplex_texts.specs.Texts.{strand_in};
ghost use Rattle.duplex_tags.specs.Lent.{kind_out, counts_out, lengths_in, SameKind};
ghost use Rattle.duplex_tags.specs.Tags.{kind_arrays};
ghost use Rattle.duplex_tags.specs.Outputs.{kind_too_short, LeavesKind, DuplexTaggedAs};
ghost use Rattle.duplex_tags.specs.Parts.{needed_counts, counts_refused, Countable};

use duplex_texts::{TextLengths, TextOutputs, duplex_texts, given_refusal};
use methylation::{
    EvidenceLengths, MethylationAnnotation, MethylationMode, evidence_of, lengths_of,
};
use methylation_evidence::{summed_counts, tag_counts};
use refusals::{Refusal, refuse};

// How many places each output of one kind of counts has, or how many go there.
#[derive(Clone, Copy)]
pub struct KindLengths {
    pub a: usize,
    pub b: usize,
    pub both: usize,
}

// The outputs for one kind of counts, as numbers or as bytes: the first strand's, the second's, and for both summed. A function that is
// lent them leaves each slice where it is (specs/Lent.antt).
#[derive(Drop)]
pub struct KindOutputs<'a, T> {
    pub a: &'a mut [T],
    pub b: &'a mut [T],
    pub both: &'a mut [T],
}

impl<T> KindOutputs<'_, T> {
    pub fn lengths(&self) -> KindLengths
        ensures { result ≡ lengths_in self.now }
    {
        KindLengths {
            a: self.a.len(),
            b: self.b.len(),
            both: self.both.len(),
        }
    }
}

// How many counts of one kind go to each output: none of a strand without evidence.
// Not by methylation's `evidence_places`, which asks for a pattern, and here are lengths: all that the two share is what `map_or` is.
// The strands are two operands, here and below: a struct of both would be taken apart for each one's counts.
fn needed_counts(
    positions: usize,
    a: Option<EvidenceLengths>,
    b: Option<EvidenceLengths>,
) -> KindLengths
    ensures { result ≡ needed_counts positions a b }
{
    KindLengths {
        a: a.map_or(0, |_| positions),
        b: b.map_or(0, |_| positions),
        both: positions,
    }
}

// Row 12's condition for the outputs of one kind of counts.
fn kind_too_short(needed: KindLengths, out: KindLengths) -> bool
    ensures { result ≡ kind_too_short needed out }
{
    (out.a < needed.a) | ((out.b < needed.b) | (out.both < needed.both))
}

// Refuses the sequence, the evidence, or the outputs of counts, by their lengths. Those of the two kinds come apart, as the outputs do.
pub fn counts_refusal(
    bases: usize,
    a: Option<EvidenceLengths>,
    b: Option<EvidenceLengths>,
    unconverted: KindLengths,
    converted: KindLengths,
) -> Result<(), Refusal>
    ensures { result ≡ answer (counts_refused bases a b unconverted converted) tt }
{
    given_refusal(bases, a, b)?;
    let needed = needed_counts(bases, a, b);
    let too_short = kind_too_short(needed, unconverted) | kind_too_short(needed, converted);
    refuse(too_short, Refusal::OutputTooShort)
}

// Writes each strand's counts of one kind, and their sums over the sequence. No call is refused here.
fn write_counts(positions: usize, a: &[u32], b: &[u32], out: &mut KindOutputs<'_, u16>)
    requires of_a { Countable (length a.now) (length out.old.a.now) }
    requires of_b { Countable (length b.now) (length out.old.b.now) }
    requires of_both { Countable positions (length out.old.both.now) }
    ensures same_references { SameKind out.old out.new }
    ensures written { LeavesKind None
        (kind_arrays (tag_counts a.now) (tag_counts b.now) (summed_counts positions a.now b.now))
        (kind_out out.old)
        (kind_out out.new) }
{
    let _ = tag_counts(a, out.a);
    let _ = tag_counts(b, out.b);
    let _ = summed_counts(positions, a, b, out.both);
}

// A duplex record's sequence and methylation tags, from its consensus bases and the annotations of its strands, in strand order.
// Each strand's annotation restores the sequence first. Then each strand's MM text, the combined MM and ML with C-to-T groups
// first, each strand's counts held to 32,767, and the strands' counts summed. Nothing goes to the
// outputs of an absent annotation. A text has at most 5 bytes and 5 for each position, the combined one twice that, and ML 2 for each
// position. Answers how many positions there are, and how many bytes each text and the ML array have. Refuses by 7, 8, 12.
// No struct of the two kinds: who makes one that nests lent structs learns nothing of what their slices hold.
pub fn duplex_methylation_tags(
    bases: &[u8],
    a: Option<MethylationAnnotation>,
    b: Option<MethylationAnnotation>,
    mode: MethylationMode,
    texts: &mut TextOutputs<'_>,
    unconverted: &mut KindOutputs<'_, u16>,
    converted: &mut KindOutputs<'_, u16>,
) -> Result<TextLengths, Refusal>
    ensures same_references { SameTexts texts.old texts.new × SameKind unconverted.old unconverted.new × SameKind converted.old converted.new }
    ensures tagged { DuplexTaggedAs mode bases.now (strand_in a.entry) (strand_in b.entry)
        (texts_out texts.old)
        (counts_out unconverted.old converted.old)
        (texts_out texts.new)
        (counts_out unconverted.new converted.new)
        result }
{
    let n = bases.len();
    counts_refusal(
        n,
        lengths_of(a),
        lengths_of(b),
        unconverted.lengths(),
        converted.lengths(),
    )?;
    let lengths = duplex_texts(bases, a, b, mode, texts)?;
    let a_counts = evidence_of(a);
    let b_counts = evidence_of(b);
    write_counts(n, a_counts.unconverted, b_counts.unconverted, unconverted);
    write_counts(n, a_counts.converted, b_counts.converted, converted);
    Ok(lengths)
}
