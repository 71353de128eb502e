// Entry points over numbers as they are: the padding of a strand. Uses refusals, dna, phred, methylation, replies, vanilla_caller and
// vanilla_padded.
#![tactic(auto)]

ghost use Rattle.std.specs.Prelude.{◌≡◌};
ghost use Rattle.methylation.specs.Choices.{annotation_of, wrong_annotation};
ghost use Rattle.replies.specs.Choices.{yes};
ghost use Rattle.replies.specs.Replies.{no_number, RepliedAs};
ghost use Rattle.vanilla_caller.specs.Strand.{arrays};
ghost use Rattle.vanilla_padded.specs.Padding.{padding, default_padding, PaddedAs};
ghost use Rattle.rust_padded.specs.Answers.{annotation_number, padded_number};

use dna::NO_CALL_BASE_LOWER;
use methylation::{ConversionPattern, EvidenceOutputs, EvidenceSlices};
use phred::MIN_PHRED;
use replies::{Number, annotation_in};
use vanilla_caller::VanillaConsensusRead;
use vanilla_padded::{StrandOutputs, padded};

// 0: none; else the pattern's number. The numbers are those that C sees.
fn annotation_number(annotation: Option<ConversionPattern>) -> u32
    ensures { result ≡ annotation_number annotation }
{
    annotation.map_or(0, |pattern| u32::from(pattern.number()))
}

// Adds positions to a strand, on the left where left is not 0; answers the annotation that it keeps. Refuses by 13, 7, 8, 11, 12.
#[unsafe(no_mangle)]
pub extern "C" fn gedrashiw_padded(
    bases: &[u8],
    quals: &[u8],
    depths: &[u16],
    errors: &[u16],
    annotation: u8,
    marks: &[u8],
    unconverted: &[u32],
    converted: &[u32],
    new_length: usize,
    left: u8,
    base: u8,
    qual: u8,
    bases_out: &mut [u8],
    quals_out: &mut [u8],
    depths_out: &mut [u16],
    errors_out: &mut [u16],
    marks_out: &mut [u8],
    unconverted_out: &mut [u32],
    converted_out: &mut [u32],
) -> Number
    ensures { RepliedAs (wrong_annotation annotation) (no_number 13) padded_number
        (PaddedAs (annotation_of annotation)
        (arrays bases.now quals.now depths.now errors.now marks.now unconverted.now converted.now)
        (padding new_length (yes left) base qual))
        (arrays bases_out.old quals_out.old depths_out.old errors_out.old marks_out.old unconverted_out.old converted_out.old)
        (arrays bases_out.new quals_out.new depths_out.new errors_out.new marks_out.new unconverted_out.new converted_out.new)
        result }
{
    // No `?`: no plainer, a function between would have this contract once more, over a Result. By `and_then`, which was tried here, the
    // proof did not close: of outputs that a closure takes along nothing is known where it is not called.
    let annotation = match annotation_in(annotation) {
        Ok(annotation) => annotation,
        Err(refusal) => return Number::from(refusal),
    };
    let evidence = EvidenceSlices::new(marks, unconverted, converted);
    let strand = VanillaConsensusRead::new(bases, quals, depths, errors).annotated(
        annotation, evidence,
    );
    let mut out = StrandOutputs {
        bases: bases_out,
        quals: quals_out,
        depths: depths_out,
        errors: errors_out,
    };
    let mut evidence_out = EvidenceOutputs {
        marks: marks_out,
        unconverted: unconverted_out,
        converted: converted_out,
    };
    let kept = padded(
        strand,
        new_length,
        left != 0,
        base,
        qual,
        &mut out,
        &mut evidence_out,
    );
    Number::from(kept.map(annotation_number))
}

// The same with the base n and the quality 2. By the entry above and not by `padded_default`: that would read the annotation and take the
// strand and its outputs together once more.
#[unsafe(no_mangle)]
pub extern "C" fn gedrashiw_padded_default(
    bases: &[u8],
    quals: &[u8],
    depths: &[u16],
    errors: &[u16],
    annotation: u8,
    marks: &[u8],
    unconverted: &[u32],
    converted: &[u32],
    new_length: usize,
    left: u8,
    bases_out: &mut [u8],
    quals_out: &mut [u8],
    depths_out: &mut [u16],
    errors_out: &mut [u16],
    marks_out: &mut [u8],
    unconverted_out: &mut [u32],
    converted_out: &mut [u32],
) -> Number
    ensures { RepliedAs (wrong_annotation annotation) (no_number 13) padded_number
        (PaddedAs (annotation_of annotation)
        (arrays bases.now quals.now depths.now errors.now marks.now unconverted.now converted.now)
        (default_padding new_length (yes left)))
        (arrays bases_out.old quals_out.old depths_out.old errors_out.old marks_out.old unconverted_out.old converted_out.old)
        (arrays bases_out.new quals_out.new depths_out.new errors_out.new marks_out.new unconverted_out.new converted_out.new)
        result }
{
    gedrashiw_padded(
        bases,
        quals,
        depths,
        errors,
        annotation,
        marks,
        unconverted,
        converted,
        new_length,
        left,
        NO_CALL_BASE_LOWER,
        MIN_PHRED,
        bases_out,
        quals_out,
        depths_out,
        errors_out,
        marks_out,
        unconverted_out,
        converted_out,
    )
}
