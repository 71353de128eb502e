// One position of a two-strand record, from duplex_caller.rs (combine_strands): base and quality of two strands' bases and
// qualities under a lab's ceiling, without a methylation call and with one, and the base before masking. Uses dna and phred.
#![tactic(auto)]

ghost use Rattle.std.specs.Prelude.{◌≡◌};
ghost use Rattle.duplex_position.specs.Combination.{agreed, disagreed, masked, unmasked, uncalled, called};

use dna::NO_CALL_BASE;
use phred::{Ceiling, MIN_PHRED, cap_quality};

// The base that a strand shows, and its quality. Functions take A's and B's as two operands: a struct of both would only be made
// and taken apart, since each caller has them as two.
#[derive(Clone, Copy)]
pub struct StrandBase {
    pub base: u8,
    pub qual: u8,
}

// The base and quality of the record.
#[derive(Clone, Copy)]
pub struct Position {
    pub base: u8,
    pub qual: u8,
}

// Both strands support a base: their qualities are added.
#[tactic(auto, unfolding(crate::specs::Combination::agreed))]
fn agreed_quality(ceiling: Ceiling, a_qual: u8, b_qual: u8) -> u8
    ensures { result ≡ agreed ceiling.value a_qual b_qual }
{
    cap_quality(u16::from(a_qual) + u16::from(b_qual), ceiling)
}

// The strands disagree: the difference of their qualities is left.
#[tactic(auto, unfolding(crate::specs::Combination::disagreed))]
fn disagreed_quality(ceiling: Ceiling, a_qual: u8, b_qual: u8) -> u8
    ensures { result ≡ disagreed ceiling.value a_qual b_qual }
{
    cap_quality(u16::from(a_qual.abs_diff(b_qual)), ceiling)
}

// N with the lowest quality where either strand shows N or the quality is the lowest.
#[tactic(auto, unfolding(crate::specs::Combination::masked))]
fn masked_position(a: StrandBase, b: StrandBase, base: u8, qual: u8) -> Position
    ensures { result ≡ masked a.base b.base base qual }
{
    if (a.base == NO_CALL_BASE) | ((b.base == NO_CALL_BASE) | (qual == MIN_PHRED)) {
        return Position {
            base: NO_CALL_BASE,
            qual: MIN_PHRED,
        };
    }
    Position { base, qual }
}

// The base before it is masked, where there is no call: that of the higher quality, A's where they are equal. Errors are counted against
// it, so that no ceiling comes into them.
#[tactic(auto, unfolding(crate::specs::Combination::unmasked))]
pub fn unmasked_base(a: StrandBase, b: StrandBase) -> u8
    ensures { result ≡ unmasked a.base a.qual b.base b.qual }
{
    if a.qual < b.qual { b.base } else { a.base }
}

// The position without a methylation call.
#[tactic(auto, unfolding(crate::specs::Combination::uncalled))]
pub fn combine_bases(ceiling: Ceiling, a: StrandBase, b: StrandBase) -> Position
    ensures { result ≡ uncalled ceiling.value a.base a.qual b.base b.qual }
{
    if a.base == b.base {
        return masked_position(a, b, a.base, agreed_quality(ceiling, a.qual, b.qual));
    }
    let qual = disagreed_quality(ceiling, a.qual, b.qual);
    masked_position(a, b, unmasked_base(a, b), qual)
}

// The position at a methylation call with a confirmed base: the strands' qualities added, or the confirming strand's alone.
// The flag stays beside its quality, so that a value is chosen and no way through the code: with an `Option` of the quality, 300
// positions with calls took an eighth longer.
#[tactic(auto, unfolding(crate::specs::Combination::called))]
pub fn combine_called(
    ceiling: Ceiling,
    a: StrandBase,
    b: StrandBase,
    confirmed: u8,
    confirming_alone: bool,
    confirming_qual: u8,
) -> Position
    ensures { result ≡ called ceiling.value a.base a.qual b.base b.qual confirmed confirming_alone confirming_qual }
{
    if confirming_alone {
        let alone = cap_quality(u16::from(confirming_qual), ceiling);
        return masked_position(a, b, confirmed, alone);
    }
    masked_position(a, b, confirmed, agreed_quality(ceiling, a.qual, b.qual))
}
