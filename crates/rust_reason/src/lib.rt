// Why a position of a record shows N, document 02's #101, as an entry point over numbers as they are: the answer as numbers, and row 13
// for an annotation. Uses refusals, methylation, replies, vanilla_caller, duplex_kind, duplex_reply and duplex_reason.
#![tactic(auto)]

ghost use Rattle.std.specs.Prelude.{◌≡◌, ◌&&◌, ◌||◌};
ghost use Rattle.methylation.specs.Choices.{annotation_of, wrong_annotation};
ghost use Rattle.replies.specs.Choices.{yes};
ghost use Rattle.vanilla_caller.specs.Strand.{arrays};
ghost use Rattle.duplex_kind.specs.Kind.{strand};
ghost use Rattle.duplex_reply.specs.Strand.{told_by};
ghost use Rattle.rust_reason.specs.Reply.{reason_number, reason_told, reason_for, entry_reason, reason_between};

use duplex_reason::{NoCallReason, no_call_reason};
use duplex_reply::strand_in;
use methylation::EvidenceSlices;
use refusals::Refusal;
use vanilla_caller::VanillaConsensusRead;

// What is said of a position: `refused` is the refusal's number, 0 for none; reason 0 is refused, 1 outside the record, 2 within a record
// of one strand, 3 called. The record shows N: 4 A alone shows N, 5 B alone, 6 both; 7 the bases differ at equal qualities, 8 at a
// difference of 1 or 2; 9 the sum of the qualities is at most 2; 10 the confirming quality, which counts alone, is.
#[repr(C)]
#[derive(Clone, Copy)]
pub struct Reason {
    pub refused: u8,
    pub reason: u8,
}

// The numbers are those that C sees.
fn reason_number(reason: NoCallReason) -> u8
    ensures { result ≡ reason_number reason }
{
    reason as u8
}

// The answer as numbers. Of a refusal told by its number, any number is handed on.
impl From<Result<NoCallReason, u8>> for Reason {
    ghost from_gives = { λ answer reply. reply ≡ reason_told answer };

    fn from(answer: Result<NoCallReason, u8>) -> Reason {
        match answer {
            Ok(reason) => Reason {
                refused: 0,
                reason: reason_number(reason),
            },
            Err(refused) => Reason { refused, reason: 0 },
        }
    }
}

impl From<Result<NoCallReason, Refusal>> for Reason {
    ghost from_gives = { λ answer reply. reply ≡ reason_for answer };

    fn from(answer: Result<NoCallReason, Refusal>) -> Reason {
        Reason::from(answer.map_err(Refusal::number))
    }
}

// The reason between two strands, each of which may be refused.
fn reason_between(
    a: Result<Option<VanillaConsensusRead>, Refusal>,
    b: Result<Option<VanillaConsensusRead>, Refusal>,
    position: usize,
) -> Result<NoCallReason, Refusal>
    ensures { result ≡ reason_between (told_by a.entry) (told_by b.entry) position }
{
    no_call_reason(a?, b?, position)
}

// Why a position of the record that two strands make shows N. Present: 0 is no, any other number yes; an annotation: 0 is none, 1 C to T,
// 2 G to A, and is not looked at of a strand that is not present. Refuses by 13, then 7, 8, whether or not there is a record.
#[unsafe(no_mangle)]
pub extern "C" fn gedrashiw_no_call_reason_typed(
    a_present: u8,
    a_bases: &[u8],
    a_quals: &[u8],
    a_depths: &[u16],
    a_errors: &[u16],
    a_annotation: u8,
    a_marks: &[u8],
    a_unconverted: &[u32],
    a_converted: &[u32],
    b_present: u8,
    b_bases: &[u8],
    b_quals: &[u8],
    b_depths: &[u16],
    b_errors: &[u16],
    b_annotation: u8,
    b_marks: &[u8],
    b_unconverted: &[u32],
    b_converted: &[u32],
    position: usize,
) -> Reason
    ensures { result ≡ reason_for (entry_reason
        ((yes a_present && wrong_annotation a_annotation) || (yes b_present && wrong_annotation b_annotation))
        (strand (yes a_present) (annotation_of a_annotation) (arrays a_bases.now a_quals.now a_depths.now a_errors.now a_marks.now a_unconverted.now a_converted.now))
        (strand (yes b_present) (annotation_of b_annotation) (arrays b_bases.now b_quals.now b_depths.now b_errors.now b_marks.now b_unconverted.now b_converted.now))
        position) }
{
    let a = VanillaConsensusRead::new(a_bases, a_quals, a_depths, a_errors);
    let a_evidence = EvidenceSlices::new(a_marks, a_unconverted, a_converted);
    let b = VanillaConsensusRead::new(b_bases, b_quals, b_depths, b_errors);
    let b_evidence = EvidenceSlices::new(b_marks, b_unconverted, b_converted);
    let a = strand_in(a_present, a_annotation, a, a_evidence);
    let b = strand_in(b_present, b_annotation, b, b_evidence);
    Reason::from(reason_between(a, b, position))
}
