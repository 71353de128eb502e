// Why a position of a record shows N, document 02's #101: one of seven reasons, or that the base is called, or that the position is not one
// of two strands. Uses lists, refusals, dna, methylation, vanilla_caller, duplex_molecule
// and duplex_kind.
#![tactic(auto)]

ghost use Rattle.std.specs.Prelude.{◌≡◌};
ghost use Rattle.duplex_kind.specs.Kind.{given_of};
ghost use Rattle.duplex_reason.specs.Reason.{carries, converted_by, others_alone, disagree, sum_counts, holds, quality_reasons, first_of, reason_at};
ghost use Rattle.duplex_reason.specs.Record.{shown_in, shown_at, within, reason_told, reason_of};

use dna::{NO_CALL_BASE, eq_ignore_ascii_case, to_ascii_uppercase};
use duplex_kind::{DuplexConsensus, given_strand, record_kind};
use duplex_molecule::{CtInput, ct_input};
use lists::get_or;
use methylation::ConversionPattern;
use refusals::Refusal;
use vanilla_caller::VanillaConsensusRead;

// What is said of a position, with the number that stands for it where it is answered by one.
#[derive(Clone, Copy, Debug, PartialEq, Eq)]
pub enum NoCallReason {
    // Past the record, or there is none.
    Outside = 1,
    // Within a record of one strand, which shows what that strand shows.
    SingleStrand = 2,
    // Two strands, and the record shows a base other than N.
    Called = 3,
    // Two strands, and the record shows N: A alone shows N, or B alone, or both.
    ANoCall = 4,
    BNoCall = 5,
    BothNoCall = 6,
    // The bases differ without a methylation call, at equal qualities or at a difference of 1 or 2.
    EqualQualities = 7,
    CloseQualities = 8,
    // The qualities are added, and the sum is at most 2.
    LowSum = 9,
    // The quality of the strand that confirms a methylation call counts alone, and is at most 2.
    LowConfirming = 10,
}

// What a strand shows at a position, and its annotation; by default nothing. The functions below take one of A and one of B: no struct of
// the two, since a call is asked both ways round, carries_call(a, b) and carries_call(b, a).
#[derive(Clone, Copy, Debug, Default, PartialEq, Eq)]
pub struct Shown {
    pub annotation: Option<ConversionPattern>,
    pub base: u8,
    pub qual: u8,
    pub mark: u8,
}

// Whether a strand is the informative one of a methylation call that the other confirms.
// Not by duplex_call's test of a site, where A and B have their places: here a strand and the other are asked both ways round, in document
// 02's words. That both tests agree is the claim SameCalls of reason_claims.
#[tactic(auto, unfolding(duplex_molecule::specs::Molecule::ct_input, crate::specs::Reason::called_by))]
fn carries_call(s: Shown, other: Shown) -> bool
    ensures { result ≡ carries s other }
{
    let shown = to_ascii_uppercase(s.base);
    let confirming = to_ascii_uppercase(other.base);
    match ct_input(s.annotation, other.annotation) {
        CtInput::Neither => false,
        CtInput::IsA => (confirming == b'C') & ((shown == b'C') | (shown == b'T')),
        CtInput::IsB => (confirming == b'G') & ((shown == b'G') | (shown == b'A')),
    }
}

// Whether a strand shows its annotation's converted base.
fn shows_converted(annotation: Option<ConversionPattern>, base: u8) -> bool
    ensures { result ≡ converted_by annotation base }
{
    annotation.is_some_and(|pattern| eq_ignore_ascii_case(base, pattern.bases().converted))
}

// Whether the other strand's quality counts alone.
fn others_alone(s: Shown, other: Shown) -> bool
    ensures { result ≡ others_alone s other }
{
    carries_call(s, other) & (shows_converted(s.annotation, s.base) & (s.mark == 0))
}

// Whether the bases differ without a methylation call.
fn is_disagreement(a: Shown, b: Shown) -> bool
    ensures { result ≡ disagree a b }
{
    !(carries_call(a, b) | carries_call(b, a)) & (a.base != b.base)
}

#[tactic(auto, unfolding(crate::specs::Reason::holds))]
fn is_equal_qualities(a: Shown, b: Shown) -> bool
    ensures { result ≡ holds NoCallReason.EqualQualities a b }
{
    is_disagreement(a, b) & (a.qual == b.qual)
}

#[tactic(auto, unfolding(crate::specs::Reason::holds))]
fn is_close_qualities(a: Shown, b: Shown) -> bool
    ensures { result ≡ holds NoCallReason.CloseQualities a b }
{
    let by = a.qual.abs_diff(b.qual);
    is_disagreement(a, b) & ((by == 1) | (by == 2))
}

// Whether the sum of the qualities counts: at equal bases, and at a call where no quality counts alone.
fn does_sum_count(a: Shown, b: Shown) -> bool
    ensures { result ≡ sum_counts a b }
{
    let called = carries_call(a, b) | carries_call(b, a);
    let alone = others_alone(a, b) | others_alone(b, a);
    ((a.base == b.base) | called) & !alone
}

#[tactic(auto, unfolding(crate::specs::Reason::holds))]
fn is_low_sum(a: Shown, b: Shown) -> bool
    ensures { result ≡ holds NoCallReason.LowSum a b }
{
    does_sum_count(a, b) & (u16::from(a.qual) + u16::from(b.qual) <= 2)
}

#[tactic(auto, unfolding(crate::specs::Reason::holds))]
fn is_low_confirming(a: Shown, b: Shown) -> bool
    ensures { result ≡ holds NoCallReason.LowConfirming a b }
{
    (others_alone(a, b) & (b.qual <= 2)) | (others_alone(b, a) & (a.qual <= 2))
}

// The reason by the qualities, of strands neither of which shows N.
fn reason_by_quality(a: Shown, b: Shown) -> NoCallReason
    ensures { result ≡ first_of quality_reasons a b }
{
    if is_equal_qualities(a, b) {
        return NoCallReason::EqualQualities;
    }
    if is_close_qualities(a, b) {
        return NoCallReason::CloseQualities;
    }
    if is_low_sum(a, b) {
        return NoCallReason::LowSum;
    }
    if is_low_confirming(a, b) {
        return NoCallReason::LowConfirming;
    }
    NoCallReason::Called
}

// The reason at a position where two strands show this, the N reasons first, or that the base is called.
#[tactic(auto, unfolding(crate::specs::Reason::holds, crate::specs::Reason::reason_at))]
pub fn reason_at(a: Shown, b: Shown) -> NoCallReason
    ensures { result ≡ reason_at a b }
{
    if (a.base == NO_CALL_BASE) & (b.base != NO_CALL_BASE) {
        return NoCallReason::ANoCall;
    }
    if (b.base == NO_CALL_BASE) & (a.base != NO_CALL_BASE) {
        return NoCallReason::BNoCall;
    }
    if (a.base == NO_CALL_BASE) & (b.base == NO_CALL_BASE) {
        return NoCallReason::BothNoCall;
    }
    reason_by_quality(a, b)
}

// What a strand with these arrays shows at a position; zeros past an array's end. The mark is told with an annotation or without.
pub fn shown_in(
    annotation: Option<ConversionPattern>,
    bases: &[u8],
    quals: &[u8],
    marks: &[u8],
    position: usize,
) -> Shown
    ensures { result ≡ shown_in annotation bases.now quals.now marks.now position }
{
    Shown {
        annotation,
        base: get_or(bases, position, 0),
        qual: get_or(quals, position, 0),
        mark: get_or(marks, position, 0),
    }
}

// What a strand that may be absent shows at a position; zeros past its end. Of its slices bases, quals and marks are looked at: the others
// may be empty.
pub fn shown_at(s: Option<VanillaConsensusRead>, position: usize) -> Shown
    ensures { result ≡ shown_at (given_of s.entry) position }
{
    s.map_or(
        Shown::default(),
        |s| shown_in(
            s.annotation(),
            s.bases,
            s.quals,
            s.evidence().marks,
            position,
        ),
    )
}

// An answer for the positions of a record of n positions; the others are outside.
fn within(n: usize, reason: NoCallReason, position: usize) -> NoCallReason
    ensures { result ≡ within n reason position }
{
    if position < n {
        reason
    } else {
        NoCallReason::Outside
    }
}

// What is said of a position of a record of this kind, or where there is none, whose strands show this there; a refusal of any type is
// handed on.
pub fn reason_in<E>(
    made: Result<Option<DuplexConsensus>, E>,
    a: Shown,
    b: Shown,
    position: usize,
) -> Result<NoCallReason, E>
    ensures { result ≡ reason_told made a b position }
{
    let reason = match made? {
        None => NoCallReason::Outside,
        Some(DuplexConsensus::Ab(n) | DuplexConsensus::Ba(n)) => {
            within(n, NoCallReason::SingleStrand, position)
        }
        Some(DuplexConsensus::Both(n)) => within(n, reason_at(a, b), position),
    };
    Ok(reason)
}

// Why a position of the record that two strands make shows N, either of which may be absent. Source reads play no part: they change no
// base. Refuses by 7, 8, as the combination does, whether or not there is a record.
pub fn no_call_reason(
    a: Option<VanillaConsensusRead>,
    b: Option<VanillaConsensusRead>,
    position: usize,
) -> Result<NoCallReason, Refusal>
    ensures { result ≡ reason_of (given_of a.entry) (given_of b.entry) position }
{
    let made = record_kind(given_strand(a), given_strand(b), None);
    let at_a = shown_at(a, position);
    let at_b = shown_at(b, position);
    reason_in(made, at_a, at_b, position)
}
