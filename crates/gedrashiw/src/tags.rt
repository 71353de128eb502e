// The methylation tags of a record. The calls are those of rust_methylation.
ghost use Rattle.methylation.specs.Choices.{pattern_of, wrong_pattern, annotation_of, wrong_annotation, mode_of, wrong_mode};
ghost use Rattle.replies.specs.Replies.{not_counted, count_reply, RepliedAs};
ghost use Rattle.rust_methylation.specs.Entries.{RestoredAs, StrandBasesAs, tags_reply, mm_ml_reply, tag_arrays, TagsAs, mm_reply, duplex_tags_reply, duplex_arrays, DuplexTagsAs};
ghost use Rattle.std.specs.Prelude.{◌||◌, Err};
ghost use Rattle.refusals.specs.declared.Refusal.TheVariants.{Broken};
ghost use Rattle.mm_ml.specs.Tags.{annotated, MmTaggedAs};
ghost use Rattle.duplex_texts.specs.Texts.{strand, text_arrays};
ghost use Rattle.duplex_tags.specs.Tags.{count_arrays};

use replies::Count;
use rust_methylation::{DuplexTagsReply, TagsReply};

// Puts the unconverted letter back where a marked base shows the converted one.
#[unsafe(no_mangle)]
pub extern "C" fn gedrashiw_restore_unconverted_bases(
    consensus_bases: &mut [u8],
    pattern: u8,
    marks: &[u8],
) -> Count
    ensures { RepliedAs (wrong_pattern pattern) (not_counted 13) count_reply (RestoredAs (pattern_of pattern) marks.now)
        consensus_bases.old consensus_bases.new result }
{
    rust_methylation::gedrashiw_restore_unconverted_bases(consensus_bases, pattern, marks)
}

// A strand's bases as its tag shows them: restored by its annotation; without one, as they are.
#[unsafe(no_mangle)]
pub extern "C" fn gedrashiw_methylation_strand_bases(
    bases: &[u8],
    annotation: u8,
    marks: &[u8],
    out: &mut [u8],
) -> Count
    ensures { RepliedAs (wrong_annotation annotation) (not_counted 13) count_reply (StrandBasesAs (annotation_of annotation) bases.now marks.now)
        out.old out.new result }
{
    rust_methylation::gedrashiw_methylation_strand_bases(bases, annotation, marks, out)
}

// A strand's MM and ML.
#[unsafe(no_mangle)]
pub extern "C" fn gedrashiw_build_mm_ml_tags(
    consensus_bases: &[u8],
    pattern: u8,
    marks: &[u8],
    unconverted: &[u32],
    converted: &[u32],
    mode: u8,
    mm: &mut [u8],
    ml: &mut [u8],
) -> TagsReply
    ensures { RepliedAs (wrong_pattern pattern || wrong_mode mode) (tags_reply 13 0 0 0) mm_ml_reply
        (TagsAs (mode_of mode) (annotated consensus_bases.now (pattern_of pattern) marks.now unconverted.now converted.now))
        (tag_arrays mm.old ml.old) (tag_arrays mm.new ml.new)
        result }
{
    rust_methylation::gedrashiw_build_mm_ml_tags(
        consensus_bases,
        pattern,
        marks,
        unconverted,
        converted,
        mode,
        mm,
        ml,
    )
}

// A strand's MM, without an ML.
#[unsafe(no_mangle)]
pub extern "C" fn gedrashiw_build_mm_tag_no_ml(
    consensus_bases: &[u8],
    pattern: u8,
    marks: &[u8],
    unconverted: &[u32],
    converted: &[u32],
    mode: u8,
    mm: &mut [u8],
) -> TagsReply
    ensures { RepliedAs (wrong_pattern pattern || wrong_mode mode) (tags_reply 13 0 0 0) mm_reply
        (MmTaggedAs (mode_of mode) (annotated consensus_bases.now (pattern_of pattern) marks.now unconverted.now converted.now))
        mm.old mm.new
        result }
{
    rust_methylation::gedrashiw_build_mm_tag_no_ml(
        consensus_bases,
        pattern,
        marks,
        unconverted,
        converted,
        mode,
        mm,
    )
}

// A record's sequence, its MM and ML, each strand's MM, and the counts as tags hold them.
#[unsafe(no_mangle)]
pub extern "C" fn gedrashiw_duplex_methylation_tags(
    bases: &[u8],
    a_annotation: u8,
    a_marks: &[u8],
    a_unconverted: &[u32],
    a_converted: &[u32],
    b_annotation: u8,
    b_marks: &[u8],
    b_unconverted: &[u32],
    b_converted: &[u32],
    mode: u8,
    seq_out: &mut [u8],
    a_mm_out: &mut [u8],
    b_mm_out: &mut [u8],
    mm_out: &mut [u8],
    ml_out: &mut [u8],
    a_unconverted_out: &mut [u16],
    a_converted_out: &mut [u16],
    b_unconverted_out: &mut [u16],
    b_converted_out: &mut [u16],
    unconverted_out: &mut [u16],
    converted_out: &mut [u16],
) -> DuplexTagsReply
    ensures { RepliedAs ((wrong_annotation a_annotation || wrong_annotation b_annotation) || wrong_mode mode) (duplex_tags_reply (Err Broken)) duplex_tags_reply
        (DuplexTagsAs (mode_of mode) bases.now
        (strand (annotation_of a_annotation) a_marks.now a_unconverted.now a_converted.now)
        (strand (annotation_of b_annotation) b_marks.now b_unconverted.now b_converted.now))
        (duplex_arrays
        (text_arrays seq_out.old a_mm_out.old b_mm_out.old mm_out.old ml_out.old)
        (count_arrays a_unconverted_out.old a_converted_out.old b_unconverted_out.old b_converted_out.old unconverted_out.old converted_out.old))
        (duplex_arrays
        (text_arrays seq_out.new a_mm_out.new b_mm_out.new mm_out.new ml_out.new)
        (count_arrays a_unconverted_out.new a_converted_out.new b_unconverted_out.new b_converted_out.new unconverted_out.new converted_out.new))
        result }
{
    rust_methylation::gedrashiw_duplex_methylation_tags(
        bases,
        a_annotation,
        a_marks,
        a_unconverted,
        a_converted,
        b_annotation,
        b_marks,
        b_unconverted,
        b_converted,
        mode,
        seq_out,
        a_mm_out,
        b_mm_out,
        mm_out,
        ml_out,
        a_unconverted_out,
        a_converted_out,
        b_unconverted_out,
        b_converted_out,
        unconverted_out,
        converted_out,
    )
}
