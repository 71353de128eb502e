// The combination of two strands, and a strand alone. The calls are those of rust_consensus.
ghost use Rattle.std.specs.Prelude.{◌||◌, Some, None, [], ◌++◌};
ghost use Rattle.refusals.specs.Refusal.{refused};
ghost use Rattle.methylation.specs.Choices.{annotation_of, wrong_annotation};
ghost use Rattle.settings.specs.Settings.{settings_faults, told_faults};
ghost use Rattle.replies.specs.Choices.{yes};
ghost use Rattle.replies.specs.Replies.{count_reply, RefusedOr, not_counted, RepliedAs};
ghost use Rattle.vanilla_caller.specs.Strand.{arrays, lengths};
ghost use Rattle.duplex_molecule.specs.declared.CtInput.TheVariants.{Neither};
ghost use Rattle.duplex_outputs.specs.Outputs.{record_of};
ghost use Rattle.duplex_strands.specs.Combine.{CombinedAs};
ghost use Rattle.duplex_molecule.specs.Molecule.{ct_input};
ghost use Rattle.duplex_single.specs.Single.{SingleAs};
ghost use Rattle.duplex_kind.specs.Limit.{length_faults};

use replies::Count;
use rust_consensus::ToldStrands;
use settings::GivenSettings;

// Combines strands without annotation. Where reads are listed (listed is not 0) the errors are left 0. Refuses by 14, 7, 19, 8, 12.
#[unsafe(no_mangle)]
pub extern "C" fn gedrashiw_combine_strands(
    listed: u8,
    settings: GivenSettings,
    a_bases: &[u8],
    a_quals: &[u8],
    a_depths: &[u16],
    a_errors: &[u16],
    b_bases: &[u8],
    b_quals: &[u8],
    b_depths: &[u16],
    b_errors: &[u16],
    bases_out: &mut [u8],
    quals_out: &mut [u8],
    errors_out: &mut [u16],
) -> Count
    ensures { RefusedOr (refused (settings_faults settings ++ length_faults settings.limit
        (Some (lengths None (arrays a_bases.now a_quals.now a_depths.now a_errors.now [] [] [])))
        (Some (lengths None (arrays b_bases.now b_quals.now b_depths.now b_errors.now [] [] [])))))
        count_reply
        (CombinedAs settings Neither None
        (arrays a_bases.now a_quals.now a_depths.now a_errors.now [] [] [])
        None
        (arrays b_bases.now b_quals.now b_depths.now b_errors.now [] [] [])
        (yes listed))
        (record_of bases_out.old quals_out.old errors_out.old [] [] [] [] [] [])
        (record_of bases_out.new quals_out.new errors_out.new [] [] [] [] [] [])
        result }
{
    rust_consensus::gedrashiw_combine_strands(
        listed, settings, a_bases, a_quals, a_depths, a_errors, b_bases, b_quals, b_depths,
        b_errors, bases_out, quals_out, errors_out,
    )
}

// Combines strands that may be annotated. Refuses by 13, 14, 7, 19, 8, 12.
#[unsafe(no_mangle)]
pub extern "C" fn gedrashiw_combine_strands_annotated(
    strands: ToldStrands,
    a_bases: &[u8],
    a_quals: &[u8],
    a_depths: &[u16],
    a_errors: &[u16],
    a_marks: &[u8],
    a_unconverted: &[u32],
    a_converted: &[u32],
    b_bases: &[u8],
    b_quals: &[u8],
    b_depths: &[u16],
    b_errors: &[u16],
    b_marks: &[u8],
    b_unconverted: &[u32],
    b_converted: &[u32],
    bases_out: &mut [u8],
    quals_out: &mut [u8],
    errors_out: &mut [u16],
    a_marks_out: &mut [u8],
    a_unconverted_out: &mut [u32],
    a_converted_out: &mut [u32],
    b_marks_out: &mut [u8],
    b_unconverted_out: &mut [u32],
    b_converted_out: &mut [u32],
) -> Count
    ensures { RefusedOr (refused (told_faults (wrong_annotation strands.a_annotation || wrong_annotation strands.b_annotation) strands.settings ++ length_faults strands.settings.limit
        (Some (lengths (annotation_of strands.a_annotation) (arrays a_bases.now a_quals.now a_depths.now a_errors.now a_marks.now a_unconverted.now a_converted.now)))
        (Some (lengths (annotation_of strands.b_annotation) (arrays b_bases.now b_quals.now b_depths.now b_errors.now b_marks.now b_unconverted.now b_converted.now)))))
        count_reply
        (CombinedAs strands.settings (ct_input (annotation_of strands.a_annotation) (annotation_of strands.b_annotation)) (annotation_of strands.a_annotation)
        (arrays a_bases.now a_quals.now a_depths.now a_errors.now a_marks.now a_unconverted.now a_converted.now)
        (annotation_of strands.b_annotation)
        (arrays b_bases.now b_quals.now b_depths.now b_errors.now b_marks.now b_unconverted.now b_converted.now)
        (yes strands.listed))
        (record_of bases_out.old quals_out.old errors_out.old a_marks_out.old a_unconverted_out.old a_converted_out.old b_marks_out.old b_unconverted_out.old b_converted_out.old)
        (record_of bases_out.new quals_out.new errors_out.new a_marks_out.new a_unconverted_out.new a_converted_out.new b_marks_out.new b_unconverted_out.new b_converted_out.new)
        result }
{
    rust_consensus::gedrashiw_combine_strands_annotated(
        strands,
        a_bases,
        a_quals,
        a_depths,
        a_errors,
        a_marks,
        a_unconverted,
        a_converted,
        b_bases,
        b_quals,
        b_depths,
        b_errors,
        b_marks,
        b_unconverted,
        b_converted,
        bases_out,
        quals_out,
        errors_out,
        a_marks_out,
        a_unconverted_out,
        a_converted_out,
        b_marks_out,
        b_unconverted_out,
        b_converted_out,
    )
}

// A strand alone as a record. Refuses by 13, 7, 8, 12.
#[unsafe(no_mangle)]
pub extern "C" fn gedrashiw_gated_single_strand(
    bases: &[u8],
    quals: &[u8],
    depths: &[u16],
    errors: &[u16],
    annotation: u8,
    marks: &[u8],
    unconverted: &[u32],
    converted: &[u32],
    bases_out: &mut [u8],
    quals_out: &mut [u8],
    errors_out: &mut [u16],
    marks_out: &mut [u8],
    unconverted_out: &mut [u32],
    converted_out: &mut [u32],
) -> Count
    ensures { RepliedAs (wrong_annotation annotation) (not_counted 13) count_reply
        (SingleAs (annotation_of annotation)
        (arrays bases.now quals.now depths.now errors.now marks.now unconverted.now converted.now))
        (record_of bases_out.old quals_out.old errors_out.old marks_out.old unconverted_out.old converted_out.old [] [] [])
        (record_of bases_out.new quals_out.new errors_out.new marks_out.new unconverted_out.new converted_out.new [] [] [])
        result }
{
    rust_consensus::gedrashiw_gated_single_strand(
        bases,
        quals,
        depths,
        errors,
        annotation,
        marks,
        unconverted,
        converted,
        bases_out,
        quals_out,
        errors_out,
        marks_out,
        unconverted_out,
        converted_out,
    )
}
