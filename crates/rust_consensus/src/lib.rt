// Entry points over numbers as they are: two strands combined, and a strand alone as a record. Uses refusals, methylation, settings, replies,
// vanilla_caller, duplex_molecule, duplex_outputs, duplex_strands, duplex_annotated, duplex_single and duplex_kind.
#![tactic(auto)]

ghost use Rattle.std.specs.Prelude.{◌||◌, Some, None, [], ◌++◌};
ghost use Rattle.refusals.specs.Refusal.{refused};
ghost use Rattle.methylation.specs.Choices.{annotation_of, wrong_annotation};
ghost use Rattle.settings.specs.Settings.{settings_faults, told_faults};
ghost use Rattle.replies.specs.Choices.{yes};
ghost use Rattle.replies.specs.Replies.{count_reply, not_counted, RefusedOr, RepliedAs};
ghost use Rattle.vanilla_caller.specs.Strand.{arrays, lengths};
ghost use Rattle.duplex_molecule.specs.Molecule.{ct_input};
ghost use Rattle.duplex_molecule.specs.declared.CtInput.TheVariants.{Neither};
ghost use Rattle.duplex_outputs.specs.Outputs.{record_of};
ghost use Rattle.duplex_strands.specs.Combine.{CombinedAs};
ghost use Rattle.duplex_single.specs.Single.{SingleAs};
ghost use Rattle.duplex_kind.specs.Limit.{length_faults};

use duplex_annotated::combine_strands_annotated;
use duplex_kind::limit_refusal;
use duplex_outputs::RecordOutputs;
use duplex_single::gated_single_strand;
use duplex_strands::combine_strands;
use methylation::{EvidenceOutputs, EvidenceSlices};
use replies::{Count, annotation_in, annotations_in};
use settings::GivenSettings;
use vanilla_caller::VanillaConsensusRead;

// What a program tells of two strands beside their arrays: an annotation is 0 for none, 1 for C to T, 2 for G to A; listed, whether the
// errors are left 0 for reads that are listed, is 0 for no, any other number for yes.
#[repr(C)]
#[derive(Clone, Copy)]
pub struct ToldStrands {
    pub a_annotation: u8,
    pub b_annotation: u8,
    pub listed: u8,
    pub settings: GivenSettings,
}

// Combines strands without annotation. Where reads are listed (listed is not 0) the errors are left 0. Refuses by 14, 7, 19, 8, 12.
#[unsafe(no_mangle)]
pub extern "C" fn gedrashiw_combine_strands(
    listed: u8,
    settings: GivenSettings,
    a_bases: &[u8],
    a_quals: &[u8],
    a_depths: &[u16],
    a_errors: &[u16],
    b_bases: &[u8],
    b_quals: &[u8],
    b_depths: &[u16],
    b_errors: &[u16],
    bases_out: &mut [u8],
    quals_out: &mut [u8],
    errors_out: &mut [u16],
) -> Count
    ensures { RefusedOr (refused (settings_faults settings ++ length_faults settings.limit
        (Some (lengths None (arrays a_bases.now a_quals.now a_depths.now a_errors.now [] [] [])))
        (Some (lengths None (arrays b_bases.now b_quals.now b_depths.now b_errors.now [] [] [])))))
        count_reply
        (CombinedAs settings Neither None
        (arrays a_bases.now a_quals.now a_depths.now a_errors.now [] [] [])
        None
        (arrays b_bases.now b_quals.now b_depths.now b_errors.now [] [] [])
        (yes listed))
        (record_of bases_out.old quals_out.old errors_out.old [] [] [] [] [] [])
        (record_of bases_out.new quals_out.new errors_out.new [] [] [] [] [] [])
        result }
{
    // No `?`: no plainer, a function between would have this contract once more, over a Result. A closure was tried in rust_padded.
    let settings = match settings.tested() {
        Ok(settings) => settings,
        Err(refusal) => return Count::from(refusal),
    };
    let a = VanillaConsensusRead::new(a_bases, a_quals, a_depths, a_errors);
    let b = VanillaConsensusRead::new(b_bases, b_quals, b_depths, b_errors);
    if let Err(refusal) = limit_refusal(settings.limit, Some(a.lengths()), Some(b.lengths())) {
        return Count::from(refusal);
    }
    let mut out = RecordOutputs {
        bases: bases_out,
        quals: quals_out,
        errors: errors_out,
    };
    Count::from(combine_strands(settings, a, b, listed != 0, &mut out))
}

// Combines strands that may be annotated. Refuses by 13, 14, 7, 19, 8, 12.
#[unsafe(no_mangle)]
pub extern "C" fn gedrashiw_combine_strands_annotated(
    strands: ToldStrands,
    a_bases: &[u8],
    a_quals: &[u8],
    a_depths: &[u16],
    a_errors: &[u16],
    a_marks: &[u8],
    a_unconverted: &[u32],
    a_converted: &[u32],
    b_bases: &[u8],
    b_quals: &[u8],
    b_depths: &[u16],
    b_errors: &[u16],
    b_marks: &[u8],
    b_unconverted: &[u32],
    b_converted: &[u32],
    bases_out: &mut [u8],
    quals_out: &mut [u8],
    errors_out: &mut [u16],
    a_marks_out: &mut [u8],
    a_unconverted_out: &mut [u32],
    a_converted_out: &mut [u32],
    b_marks_out: &mut [u8],
    b_unconverted_out: &mut [u32],
    b_converted_out: &mut [u32],
) -> Count
    ensures { RefusedOr (refused (told_faults (wrong_annotation strands.a_annotation || wrong_annotation strands.b_annotation) strands.settings ++ length_faults strands.settings.limit
        (Some (lengths (annotation_of strands.a_annotation) (arrays a_bases.now a_quals.now a_depths.now a_errors.now a_marks.now a_unconverted.now a_converted.now)))
        (Some (lengths (annotation_of strands.b_annotation) (arrays b_bases.now b_quals.now b_depths.now b_errors.now b_marks.now b_unconverted.now b_converted.now)))))
        count_reply
        (CombinedAs strands.settings (ct_input (annotation_of strands.a_annotation) (annotation_of strands.b_annotation)) (annotation_of strands.a_annotation)
        (arrays a_bases.now a_quals.now a_depths.now a_errors.now a_marks.now a_unconverted.now a_converted.now)
        (annotation_of strands.b_annotation)
        (arrays b_bases.now b_quals.now b_depths.now b_errors.now b_marks.now b_unconverted.now b_converted.now)
        (yes strands.listed))
        (record_of bases_out.old quals_out.old errors_out.old a_marks_out.old a_unconverted_out.old a_converted_out.old b_marks_out.old b_unconverted_out.old b_converted_out.old)
        (record_of bases_out.new quals_out.new errors_out.new a_marks_out.new a_unconverted_out.new a_converted_out.new b_marks_out.new b_unconverted_out.new b_converted_out.new)
        result }
{
    // No `?`, here and below, as in gedrashiw_combine_strands.
    let (a_annotation, b_annotation) = match annotations_in(
        strands.a_annotation,
        strands.b_annotation,
    ) {
        Ok(annotations) => annotations,
        Err(refusal) => return Count::from(refusal),
    };
    let settings = match strands.settings.tested() {
        Ok(settings) => settings,
        Err(refusal) => return Count::from(refusal),
    };
    let a_evidence = EvidenceSlices::new(a_marks, a_unconverted, a_converted);
    let a = VanillaConsensusRead::new(a_bases, a_quals, a_depths, a_errors).annotated(
        a_annotation,
        a_evidence,
    );
    let b_evidence = EvidenceSlices::new(b_marks, b_unconverted, b_converted);
    let b = VanillaConsensusRead::new(b_bases, b_quals, b_depths, b_errors).annotated(
        b_annotation,
        b_evidence,
    );
    if let Err(refusal) = limit_refusal(
        strands.settings.limit,
        Some(a.lengths()),
        Some(b.lengths()),
    ) {
        return Count::from(refusal);
    }
    let mut out = RecordOutputs {
        bases: bases_out,
        quals: quals_out,
        errors: errors_out,
    };
    let mut a_out = EvidenceOutputs {
        marks: a_marks_out,
        unconverted: a_unconverted_out,
        converted: a_converted_out,
    };
    let mut b_out = EvidenceOutputs {
        marks: b_marks_out,
        unconverted: b_unconverted_out,
        converted: b_converted_out,
    };
    let listed = strands.listed != 0;
    Count::from(combine_strands_annotated(settings, a, b, listed, &mut out, &mut a_out, &mut b_out))
}

// A strand alone as a record. Refuses by 13, 7, 8, 12.
#[unsafe(no_mangle)]
pub extern "C" fn gedrashiw_gated_single_strand(
    bases: &[u8],
    quals: &[u8],
    depths: &[u16],
    errors: &[u16],
    annotation: u8,
    marks: &[u8],
    unconverted: &[u32],
    converted: &[u32],
    bases_out: &mut [u8],
    quals_out: &mut [u8],
    errors_out: &mut [u16],
    marks_out: &mut [u8],
    unconverted_out: &mut [u32],
    converted_out: &mut [u32],
) -> Count
    ensures { RepliedAs (wrong_annotation annotation) (not_counted 13) count_reply
        (SingleAs (annotation_of annotation)
        (arrays bases.now quals.now depths.now errors.now marks.now unconverted.now converted.now))
        (record_of bases_out.old quals_out.old errors_out.old marks_out.old unconverted_out.old converted_out.old [] [] [])
        (record_of bases_out.new quals_out.new errors_out.new marks_out.new unconverted_out.new converted_out.new [] [] [])
        result }
{
    // No `?`: no plainer, a function between would have this contract once more, over a Result. A closure was tried in rust_padded.
    let annotation = match annotation_in(annotation) {
        Ok(annotation) => annotation,
        Err(refusal) => return Count::from(refusal),
    };
    let evidence = EvidenceSlices::new(marks, unconverted, converted);
    let strand = VanillaConsensusRead::new(bases, quals, depths, errors).annotated(
        annotation, evidence,
    );
    let mut out = RecordOutputs {
        bases: bases_out,
        quals: quals_out,
        errors: errors_out,
    };
    let mut evidence_out = EvidenceOutputs {
        marks: marks_out,
        unconverted: unconverted_out,
        converted: converted_out,
    };
    Count::from(gated_single_strand(strand, &mut out, &mut evidence_out))
}
