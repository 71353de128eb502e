// Why a position of a record shows N. The calls are those of rust_reason.
ghost use Rattle.std.specs.Prelude.{◌≡◌, ◌&&◌, ◌||◌};
ghost use Rattle.methylation.specs.Choices.{annotation_of, wrong_annotation};
ghost use Rattle.replies.specs.Choices.{yes};
ghost use Rattle.vanilla_caller.specs.Strand.{arrays};
ghost use Rattle.duplex_kind.specs.Kind.{strand};
ghost use Rattle.rust_reason.specs.Reply.{reason_for, entry_reason};

use rust_reason::Reason;

// Why a position of the record that two strands make shows N. Present: 0 is no, any other number yes; an annotation: 0 is none, 1 C to T,
// 2 G to A, and is not looked at of a strand that is not present. Refuses by 13, then 7, 8, whether or not there is a record.
#[unsafe(no_mangle)]
pub extern "C" fn gedrashiw_no_call_reason_typed(
    a_present: u8,
    a_bases: &[u8],
    a_quals: &[u8],
    a_depths: &[u16],
    a_errors: &[u16],
    a_annotation: u8,
    a_marks: &[u8],
    a_unconverted: &[u32],
    a_converted: &[u32],
    b_present: u8,
    b_bases: &[u8],
    b_quals: &[u8],
    b_depths: &[u16],
    b_errors: &[u16],
    b_annotation: u8,
    b_marks: &[u8],
    b_unconverted: &[u32],
    b_converted: &[u32],
    position: usize,
) -> Reason
    ensures { result ≡ reason_for (entry_reason
        ((yes a_present && wrong_annotation a_annotation) || (yes b_present && wrong_annotation b_annotation))
        (strand (yes a_present) (annotation_of a_annotation) (arrays a_bases.now a_quals.now a_depths.now a_errors.now a_marks.now a_unconverted.now a_converted.now))
        (strand (yes b_present) (annotation_of b_annotation) (arrays b_bases.now b_quals.now b_depths.now b_errors.now b_marks.now b_unconverted.now b_converted.now))
        position) }
{
    rust_reason::gedrashiw_no_call_reason_typed(
        a_present,
        a_bases,
        a_quals,
        a_depths,
        a_errors,
        a_annotation,
        a_marks,
        a_unconverted,
        a_converted,
        b_present,
        b_bases,
        b_quals,
        b_depths,
        b_errors,
        b_annotation,
        b_marks,
        b_unconverted,
        b_converted,
        position,
    )
}
