// The entry point for C programs of a record's methylation tags: bytes in, bytes out. An array of wider numbers is passed as its
// bytes, low byte first. The tags are duplex_texts's and duplex_tags's; this crate owns row 13 for them, and their evidence and counts
// as bytes. Uses lists, refusals, methylation, replies, byte_numbers, molecule_evidence, molecule_strand, methylation_evidence,
// duplex_texts, duplex_tags and rust_methylation.
#![tactic(auto)]

ghost use Rattle.std.specs.Prelude.{◌≡◌, ◌/◌, ◌≤◌, None, length};
ghost use Rattle.lists.specs.Output.{put};
ghost use Rattle.byte_numbers.specs.Bytes.{bytes16};
ghost use Rattle.methylation_evidence.specs.Counts.{tag_counts, summed_counts};
ghost use Rattle.duplex_texts.specs.Lent.{texts_out, SameTexts};
ghost use Rattle.duplex_texts.specs.Texts.{text_arrays};
ghost use Rattle.duplex_tags.specs.Lent.{kind_out, counts_out, SameKind};
ghost use Rattle.duplex_tags.specs.Tags.{kind_arrays, count_arrays};
ghost use Rattle.duplex_tags.specs.Outputs.{LeavesKind};
ghost use Rattle.duplex_tags.specs.Parts.{Countable};
ghost use Rattle.rust_methylation.specs.Entries.{duplex_arrays};
ghost use Rattle.c_tags.specs.Tags.{annotation_bytes, each_kind, TagsEntry};
ghost use Rattle.c_tags.specs.Parts.{TagsReadAs, EvidenceReadAs, ReadAs, counts_in};

use duplex_tags::{KindLengths, KindOutputs, counts_refusal};
use duplex_texts::{TextLengths, TextOutputs, duplex_texts};
use lists::front;
use methylation::{MethylationAnnotation, MethylationMode};
use methylation_evidence::{summed_counts, tag_counts};
use molecule_evidence::{EvidenceBuffers, POSITION_BYTES};
use molecule_strand::{
    EncodedAnnotation, bytes_held, encoded_annotation_in, lengths_held, pattern_held, places_held,
};
use refusals::{Refusal, refuse};
use rust_methylation::DuplexTagsReply;

// A strand's annotation as C gives it: any flag but 0 says that there is one. Refuses by 13 a pattern above 1, and bytes that are not
// whole positions. Without an annotation neither is looked at.
#[tactic(auto, unfolding(lists::specs::Part::only_if))]
fn read_annotation<'a>(
    annotated: u8,
    pattern: u8,
    evidence: &'a [u8],
) -> Result<Option<EncodedAnnotation<'a>>, Refusal>
    ensures { EvidenceReadAs (annotation_bytes annotated pattern evidence.now) result }
{
    let annotated = annotated != 0;
    let pattern = encoded_annotation_in(annotated, pattern)?;
    let broken = annotated & (evidence.len() % POSITION_BYTES != 0);
    refuse(broken, Refusal::Broken)?;
    Ok(EncodedAnnotation::of(pattern, evidence))
}

// What is given for a call: its strands and the chemistry.
#[derive(Clone, Copy)]
struct Given<'a> {
    a: Option<EncodedAnnotation<'a>>,
    b: Option<EncodedAnnotation<'a>>,
    mode: MethylationMode,
}

// From the numbers that C gives. Refuses by 13.
fn read_given<'a>(
    a_annotated: u8,
    a_pattern: u8,
    a_evidence: &'a [u8],
    b_annotated: u8,
    b_pattern: u8,
    b_evidence: &'a [u8],
    mode: u8,
) -> Result<Given<'a>, Refusal>
    ensures { ReadAs (annotation_bytes a_annotated a_pattern a_evidence.now) (annotation_bytes b_annotated b_pattern b_evidence.now) mode result }
{
    let a = read_annotation(a_annotated, a_pattern, a_evidence)?;
    let b = read_annotation(b_annotated, b_pattern, b_evidence)?;
    let mode = MethylationMode::try_from(mode)?;
    Ok(Given { a, b, mode })
}

// How many counts outputs of so many bytes hold.
fn counts_in(bytes: KindLengths) -> KindLengths
    ensures { result ≡ counts_in bytes }
{
    KindLengths {
        a: bytes.a / 2,
        b: bytes.b / 2,
        both: bytes.both / 2,
    }
}

// A strand's counts of one kind, held to 32,767, as bytes.
fn write_held(counts: &[u32], out: &mut [u8])
    requires { Countable (length counts.now) (length out.old / 2) }
    ensures { out.new ≡ put (bytes16 (tag_counts counts.now)) out.old }
{
    // No heap: arrays of the most that is looked at.
    let mut held = [0; 1024];
    let _ = tag_counts(counts, &mut held);
    byte_numbers::write(front(&held, counts.len()), out);
}

// Two strands' counts of one kind, summed over so many positions, as bytes.
fn write_summed(positions: usize, a: &[u32], b: &[u32], out: &mut [u8])
    requires fits { Countable positions (length out.old / 2) }
    requires few { (length a.now ≤ 1024) × (length b.now ≤ 1024) }
    ensures { out.new ≡ put (bytes16 (summed_counts positions a.now b.now)) out.old }
{
    // No heap: arrays of the most that is looked at.
    let mut sums = [0; 1024];
    let _ = summed_counts(positions, a, b, &mut sums);
    byte_numbers::write(front(&sums, positions), out);
}

// Each strand's counts of one kind, and their sums over so many positions.
fn write_counts(positions: usize, a: &[u32], b: &[u32], out: &mut KindOutputs<'_, u8>)
    requires of_a { Countable (length a.now) (length out.old.a.now / 2) }
    requires of_b { Countable (length b.now) (length out.old.b.now / 2) }
    requires of_both { Countable positions (length out.old.both.now / 2) }
    ensures same_references { SameKind out.old out.new }
    ensures written { LeavesKind None
        (each_kind bytes16 (kind_arrays (tag_counts a.now) (tag_counts b.now) (summed_counts positions a.now b.now)))
        (kind_out out.old)
        (kind_out out.new) }
{
    write_held(a, out.a);
    write_held(b, out.b);
    write_summed(positions, a, b, out.both);
}

// A record's tags, from its bases and what was read of its strands. Refuses as that did, then by 7, 8, 12. No struct of the two kinds of
// counts: who makes one that nests lent structs learns nothing of what their slices hold.
fn write_tags(
    bases: &[u8],
    given: Result<Given, Refusal>,
    texts: &mut TextOutputs<'_>,
    unconverted: &mut KindOutputs<'_, u8>,
    converted: &mut KindOutputs<'_, u8>,
) -> Result<TextLengths, Refusal>
    ensures same_references { SameTexts texts.old texts.new × SameKind unconverted.old unconverted.new × SameKind converted.old converted.new }
    ensures tagged { TagsReadAs given.entry bases.now
        (duplex_arrays (texts_out texts.old) (counts_out unconverted.old converted.old))
        (duplex_arrays (texts_out texts.new) (counts_out unconverted.new converted.new))
        result }
{
    let n = bases.len();
    let Given { a, b, mode } = given?;
    counts_refusal(
        n,
        lengths_held(a),
        lengths_held(b),
        counts_in(unconverted.lengths()),
        counts_in(converted.lengths()),
    )?;
    let mut a_read = EvidenceBuffers::zeros();
    a_read.read(bytes_held(a));
    let mut b_read = EvidenceBuffers::zeros();
    b_read.read(bytes_held(b));
    let a_evidence = a_read.slices().front(places_held(a));
    let b_evidence = b_read.slices().front(places_held(b));
    let lengths = duplex_texts(
        bases,
        MethylationAnnotation::of(pattern_held(a), a_evidence),
        MethylationAnnotation::of(pattern_held(b), b_evidence),
        mode,
        texts,
    )?;
    write_counts(
        n,
        a_evidence.unconverted,
        b_evidence.unconverted,
        unconverted,
    );
    write_counts(n, a_evidence.converted, b_evidence.converted, converted);
    Ok(lengths)
}

// A record's sequence, its MM and ML, each strand's MM, and the counts as tags hold them, from its bases and the annotations of its
// strands, in strand order: `duplex_methylation_tags` over bytes. Evidence is nine bytes a position (mark, unconverted, converted),
// counts two. What is annotated is 0 for no, any other number for yes; a pattern is 0 for C to T, 1 for G to A; a mode is 0 for
// Disabled, 1 for EM-Seq, 2 for TAPs. Of an absent annotation neither pattern nor evidence is looked at, and nothing goes to its
// outputs. Refuses by 13, 7, 8, 12.
#[unsafe(no_mangle)]
pub extern "C" fn gedrashiw_methylation_tags(
    bases: &[u8],
    a_annotated: u8,
    a_pattern: u8,
    a_evidence: &[u8],
    b_annotated: u8,
    b_pattern: u8,
    b_evidence: &[u8],
    mode: u8,
    seq_out: &mut [u8],
    a_mm_out: &mut [u8],
    b_mm_out: &mut [u8],
    mm_out: &mut [u8],
    ml_out: &mut [u8],
    a_unconverted_out: &mut [u8],
    a_converted_out: &mut [u8],
    b_unconverted_out: &mut [u8],
    b_converted_out: &mut [u8],
    unconverted_out: &mut [u8],
    converted_out: &mut [u8],
) -> DuplexTagsReply
    ensures { TagsEntry mode bases.now
        (annotation_bytes a_annotated a_pattern a_evidence.now)
        (annotation_bytes b_annotated b_pattern b_evidence.now)
        (duplex_arrays
        (text_arrays seq_out.old a_mm_out.old b_mm_out.old mm_out.old ml_out.old)
        (count_arrays a_unconverted_out.old a_converted_out.old b_unconverted_out.old b_converted_out.old unconverted_out.old converted_out.old))
        (duplex_arrays
        (text_arrays seq_out.new a_mm_out.new b_mm_out.new mm_out.new ml_out.new)
        (count_arrays a_unconverted_out.new a_converted_out.new b_unconverted_out.new b_converted_out.new unconverted_out.new converted_out.new))
        result }
{
    let mut texts = TextOutputs {
        seq: seq_out,
        a_mm: a_mm_out,
        b_mm: b_mm_out,
        mm: mm_out,
        ml: ml_out,
    };
    let mut unconverted = KindOutputs {
        a: a_unconverted_out,
        b: b_unconverted_out,
        both: unconverted_out,
    };
    let mut converted = KindOutputs {
        a: a_converted_out,
        b: b_converted_out,
        both: converted_out,
    };
    let given = read_given(
        a_annotated,
        a_pattern,
        a_evidence,
        b_annotated,
        b_pattern,
        b_evidence,
        mode,
    );
    DuplexTagsReply::from(write_tags(bases, given, &mut texts, &mut unconverted, &mut converted))
}
