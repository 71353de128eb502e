// The entry points over the methylation calls: numbers and native slices, choices and answers as numbers. A number that stands for
// nothing is refused as 13, before all else. Uses refusals, methylation, replies, methylation_restore, mm_ml, duplex_texts and
// duplex_tags.
#![tactic(auto)]

ghost use Rattle.std.specs.Prelude.{◌≡◌, ◌||◌, cond, Ok, Err};
ghost use Rattle.refusals.specs.Refusal.{number_of};
ghost use Rattle.refusals.specs.declared.Refusal.TheVariants.{Broken};
ghost use Rattle.methylation.specs.Choices.{annotation_of, pattern_of, mode_of, wrong_annotation, wrong_pattern, wrong_mode};
ghost use Rattle.replies.specs.Replies.{not_counted, count_reply, RepliedAs};
ghost use Rattle.mm_ml.specs.Tags.{annotated, MmTaggedAs};
ghost use Rattle.duplex_texts.specs.Texts.{strand, text_arrays};
ghost use Rattle.duplex_tags.specs.Tags.{count_arrays};
ghost use Rattle.rust_methylation.specs.Entries.{tags_reply, mm_ml_reply, mm_reply, duplex_tags_told, duplex_tags_reply, RestoredAs, StrandBasesAs, tag_arrays, duplex_arrays, TagsAs, DuplexTagsAs};

use duplex_tags::{KindOutputs, duplex_methylation_tags};
use duplex_texts::{TextLengths, TextOutputs};
use methylation::{ConversionPattern, EvidenceSlices, MethylationAnnotation, MethylationMode};
use methylation_restore::{methylation_strand_bases, restore_unconverted_bases};
use mm_ml::{AnnotatedBases, TagLengths, build_mm_ml_tags, build_mm_tag_no_ml};
use refusals::Refusal;
use replies::{Count, annotation_in, annotations_in};

// Of a strand's tags: `refused` is the refusal's number; where it is 0, `tagged` is 1 where there is a tag, of such lengths, else 0.
#[repr(C)]
#[derive(Clone, Copy)]
pub struct TagsReply {
    pub refused: u8,
    pub tagged: u8,
    pub mm: usize,
    pub ml: usize,
}

// Of a record's tags: `refused` is the refusal's number; where it is 0, the length of the sequence and of each text.
#[repr(C)]
#[derive(Clone, Copy)]
pub struct DuplexTagsReply {
    pub refused: u8,
    pub positions: usize,
    pub a_mm: usize,
    pub b_mm: usize,
    pub mm: usize,
    pub ml: usize,
}

// The numbers are those that C sees.
impl From<Refusal> for TagsReply {
    ghost from_gives = { λ refusal reply. reply ≡ tags_reply (number_of refusal) 0 0 0 };

    fn from(refusal: Refusal) -> TagsReply {
        TagsReply {
            refused: refusal.number(),
            tagged: 0,
            mm: 0,
            ml: 0,
        }
    }
}

// The numbers are those that C sees.
impl From<Result<Option<TagLengths>, Refusal>> for TagsReply {
    ghost from_gives = { λ tags reply. reply ≡ mm_ml_reply tags };

    fn from(tags: Result<Option<TagLengths>, Refusal>) -> TagsReply {
        match tags {
            Ok(Some(TagLengths { mm, ml })) => TagsReply {
                refused: 0,
                tagged: 1,
                mm,
                ml,
            },
            Ok(None) => TagsReply {
                refused: 0,
                tagged: 0,
                mm: 0,
                ml: 0,
            },
            Err(refusal) => TagsReply::from(refusal),
        }
    }
}

// Of the MM text alone.
impl From<Result<Option<usize>, Refusal>> for TagsReply {
    ghost from_gives = { λ text reply. reply ≡ mm_reply text };

    fn from(text: Result<Option<usize>, Refusal>) -> TagsReply {
        TagsReply::from(text.map(|tag| tag.map(|mm| TagLengths { mm, ml: 0 })))
    }
}

// The numbers are those that C sees.
impl From<Refusal> for DuplexTagsReply {
    ghost from_gives = { λ refusal reply. reply ≡ duplex_tags_reply (Err refusal) };

    fn from(refusal: Refusal) -> DuplexTagsReply {
        DuplexTagsReply {
            refused: refusal.number(),
            positions: 0,
            a_mm: 0,
            b_mm: 0,
            mm: 0,
            ml: 0,
        }
    }
}

// The numbers are those that C sees. Of a refusal told by its number, any number is handed on.
impl From<Result<TextLengths, u8>> for DuplexTagsReply {
    ghost from_gives = { λ tags reply. reply ≡ duplex_tags_told tags };

    fn from(tags: Result<TextLengths, u8>) -> DuplexTagsReply {
        match tags {
            Ok(lengths) => DuplexTagsReply {
                refused: 0,
                positions: lengths.seq,
                a_mm: lengths.a_mm,
                b_mm: lengths.b_mm,
                mm: lengths.mm,
                ml: lengths.ml,
            },
            Err(refused) => DuplexTagsReply {
                refused,
                positions: 0,
                a_mm: 0,
                b_mm: 0,
                mm: 0,
                ml: 0,
            },
        }
    }
}

impl From<Result<TextLengths, Refusal>> for DuplexTagsReply {
    ghost from_gives = { λ tags reply. reply ≡ duplex_tags_reply tags };

    fn from(tags: Result<TextLengths, Refusal>) -> DuplexTagsReply {
        DuplexTagsReply::from(tags.map_err(Refusal::number))
    }
}

// What the numbers of a pattern and a mode stand for. Refuses by 13.
fn pattern_and_mode(pattern: u8, mode: u8) -> Result<(ConversionPattern, MethylationMode), Refusal>
    ensures { result ≡ cond (wrong_pattern pattern || wrong_mode mode) (Err Broken) (Ok (pattern_of pattern, mode_of mode)) }
{
    Ok((
        ConversionPattern::try_from(pattern)?,
        MethylationMode::try_from(mode)?,
    ))
}

// What the numbers of two annotations and a mode stand for. Refuses by 13.
fn annotations_and_mode(
    a_annotation: u8,
    b_annotation: u8,
    mode: u8,
) -> Result<
    (
        Option<ConversionPattern>,
        Option<ConversionPattern>,
        MethylationMode,
    ),
    Refusal,
>
    ensures { result ≡ cond ((wrong_annotation a_annotation || wrong_annotation b_annotation) || wrong_mode mode) (Err Broken) (Ok (annotation_of a_annotation, annotation_of b_annotation, mode_of mode)) }
{
    let (a, b) = annotations_in(a_annotation, b_annotation)?;
    Ok((a, b, MethylationMode::try_from(mode)?))
}

// Puts the unconverted letter back where a marked base shows the converted one.
#[unsafe(no_mangle)]
pub extern "C" fn gedrashiw_restore_unconverted_bases(
    consensus_bases: &mut [u8],
    pattern: u8,
    marks: &[u8],
) -> Count
    ensures { RepliedAs (wrong_pattern pattern) (not_counted 13) count_reply (RestoredAs (pattern_of pattern) marks.now)
        consensus_bases.old consensus_bases.new result }
{
    // No `?`: no plainer, a function between would have this contract once more, over a Result. A closure was tried in rust_padded.
    let pattern = match ConversionPattern::try_from(pattern) {
        Ok(pattern) => pattern,
        Err(refusal) => return Count::from(refusal),
    };
    // No counts are lent here, and none are looked at.
    let evidence = EvidenceSlices::new(marks, &[], &[]);
    let annotation = MethylationAnnotation { pattern, evidence };
    Count::from(restore_unconverted_bases(consensus_bases, annotation))
}

// A strand's bases as its tag shows them: restored by its annotation; without one, as they are.
#[unsafe(no_mangle)]
pub extern "C" fn gedrashiw_methylation_strand_bases(
    bases: &[u8],
    annotation: u8,
    marks: &[u8],
    out: &mut [u8],
) -> Count
    ensures { RepliedAs (wrong_annotation annotation) (not_counted 13) count_reply (StrandBasesAs (annotation_of annotation) bases.now marks.now)
        out.old out.new result }
{
    // No `?`: no plainer, a function between would have this contract once more, over a Result. A closure was tried in rust_padded.
    let annotation = match annotation_in(annotation) {
        Ok(annotation) => annotation,
        Err(refusal) => return Count::from(refusal),
    };
    // No counts are lent here, and none are looked at.
    let evidence = EvidenceSlices::new(marks, &[], &[]);
    let annotation = MethylationAnnotation::of(annotation, evidence);
    Count::from(methylation_strand_bases(bases, annotation, out))
}

// A strand's MM and ML.
#[unsafe(no_mangle)]
pub extern "C" fn gedrashiw_build_mm_ml_tags(
    consensus_bases: &[u8],
    pattern: u8,
    marks: &[u8],
    unconverted: &[u32],
    converted: &[u32],
    mode: u8,
    mm: &mut [u8],
    ml: &mut [u8],
) -> TagsReply
    ensures { RepliedAs (wrong_pattern pattern || wrong_mode mode) (tags_reply 13 0 0 0) mm_ml_reply
        (TagsAs (mode_of mode) (annotated consensus_bases.now (pattern_of pattern) marks.now unconverted.now converted.now))
        (tag_arrays mm.old ml.old) (tag_arrays mm.new ml.new)
        result }
{
    // No `?`: no plainer, a function between would have this contract once more, over a Result. A closure was tried in rust_padded.
    let (pattern, mode) = match pattern_and_mode(pattern, mode) {
        Ok(choices) => choices,
        Err(refusal) => return TagsReply::from(refusal),
    };
    let evidence = EvidenceSlices::new(marks, unconverted, converted);
    let strand = AnnotatedBases {
        bases: consensus_bases,
        annotation: MethylationAnnotation { pattern, evidence },
    };
    TagsReply::from(build_mm_ml_tags(strand, mode, mm, ml))
}

// A strand's MM, without an ML.
#[unsafe(no_mangle)]
pub extern "C" fn gedrashiw_build_mm_tag_no_ml(
    consensus_bases: &[u8],
    pattern: u8,
    marks: &[u8],
    unconverted: &[u32],
    converted: &[u32],
    mode: u8,
    mm: &mut [u8],
) -> TagsReply
    ensures { RepliedAs (wrong_pattern pattern || wrong_mode mode) (tags_reply 13 0 0 0) mm_reply
        (MmTaggedAs (mode_of mode) (annotated consensus_bases.now (pattern_of pattern) marks.now unconverted.now converted.now))
        mm.old mm.new
        result }
{
    // No `?`: no plainer, a function between would have this contract once more, over a Result. A closure was tried in rust_padded.
    let (pattern, mode) = match pattern_and_mode(pattern, mode) {
        Ok(choices) => choices,
        Err(refusal) => return TagsReply::from(refusal),
    };
    let evidence = EvidenceSlices::new(marks, unconverted, converted);
    let strand = AnnotatedBases {
        bases: consensus_bases,
        annotation: MethylationAnnotation { pattern, evidence },
    };
    TagsReply::from(build_mm_tag_no_ml(strand, mode, mm))
}

// A record's sequence, its MM and ML, each strand's MM, and the counts as tags hold them.
#[unsafe(no_mangle)]
pub extern "C" fn gedrashiw_duplex_methylation_tags(
    bases: &[u8],
    a_annotation: u8,
    a_marks: &[u8],
    a_unconverted: &[u32],
    a_converted: &[u32],
    b_annotation: u8,
    b_marks: &[u8],
    b_unconverted: &[u32],
    b_converted: &[u32],
    mode: u8,
    seq_out: &mut [u8],
    a_mm_out: &mut [u8],
    b_mm_out: &mut [u8],
    mm_out: &mut [u8],
    ml_out: &mut [u8],
    a_unconverted_out: &mut [u16],
    a_converted_out: &mut [u16],
    b_unconverted_out: &mut [u16],
    b_converted_out: &mut [u16],
    unconverted_out: &mut [u16],
    converted_out: &mut [u16],
) -> DuplexTagsReply
    ensures { RepliedAs ((wrong_annotation a_annotation || wrong_annotation b_annotation) || wrong_mode mode) (duplex_tags_reply (Err Broken)) duplex_tags_reply
        (DuplexTagsAs (mode_of mode) bases.now
        (strand (annotation_of a_annotation) a_marks.now a_unconverted.now a_converted.now)
        (strand (annotation_of b_annotation) b_marks.now b_unconverted.now b_converted.now))
        (duplex_arrays
        (text_arrays seq_out.old a_mm_out.old b_mm_out.old mm_out.old ml_out.old)
        (count_arrays a_unconverted_out.old a_converted_out.old b_unconverted_out.old b_converted_out.old unconverted_out.old converted_out.old))
        (duplex_arrays
        (text_arrays seq_out.new a_mm_out.new b_mm_out.new mm_out.new ml_out.new)
        (count_arrays a_unconverted_out.new a_converted_out.new b_unconverted_out.new b_converted_out.new unconverted_out.new converted_out.new))
        result }
{
    // No `?`: no plainer, a function between would have this contract once more, over a Result. A closure was tried in rust_padded.
    let (a_annotation, b_annotation, mode) = match annotations_and_mode(
        a_annotation,
        b_annotation,
        mode,
    ) {
        Ok(choices) => choices,
        Err(refusal) => return DuplexTagsReply::from(refusal),
    };
    let a_evidence = EvidenceSlices::new(a_marks, a_unconverted, a_converted);
    let b_evidence = EvidenceSlices::new(b_marks, b_unconverted, b_converted);
    let a = MethylationAnnotation::of(a_annotation, a_evidence);
    let b = MethylationAnnotation::of(b_annotation, b_evidence);
    let mut texts = TextOutputs {
        seq: seq_out,
        a_mm: a_mm_out,
        b_mm: b_mm_out,
        mm: mm_out,
        ml: ml_out,
    };
    let mut unconverted = KindOutputs {
        a: a_unconverted_out,
        b: b_unconverted_out,
        both: unconverted_out,
    };
    let mut converted = KindOutputs {
        a: a_converted_out,
        b: b_converted_out,
        both: converted_out,
    };
    DuplexTagsReply::from(duplex_methylation_tags(
        bases,
        a,
        b,
        mode,
        &mut texts,
        &mut unconverted,
        &mut converted,
    ))
}
