// One position of two strands that may be annotated, from duplex_caller.rs (combine_strands): base and quality, the estimate of
// errors, and what a source read should show. Uses dna, phred, methylation, duplex_molecule, duplex_position and duplex_errors.
#![tactic(auto)]

ghost use Rattle.std.specs.Prelude.{◌≡◌, cond};
ghost use Rattle.duplex_call.specs.Annotated.{combined, estimated_uncalled, estimated, expected};
ghost use Rattle.duplex_call.specs.Tests.{is_b, by_b, at_call};
ghost use Rattle.duplex_molecule.specs.Molecule.{call_at, is_call, is_call_of};

use dna::{eq_ignore_ascii_case, to_ascii_uppercase};
use duplex_errors::{estimate_agreeing, estimate_disagreeing};
use duplex_molecule::{CtInput, can_call};
use duplex_position::{Position, StrandBase, combine_bases, combine_called, unmasked_base};
use methylation::ConversionPattern;
use phred::Ceiling;

// A strand's base with its informative mark, which a methylation call asks for. A's and B's are two operands, as of a StrandBase.
#[derive(Clone, Copy)]
pub struct MarkedBase {
    pub shown: StrandBase,
    pub mark: u8,
}

// A strand's base with its depth and errors, which the errors' estimate asks for. Two operands, as of a StrandBase.
#[derive(Clone, Copy)]
pub struct CountedBase {
    pub shown: StrandBase,
    pub depth: u16,
    pub errors: u16,
}

// These functions choose between values and never between ways through the code, so that the loops over positions run on several
// positions at once.
// The flag is the condition itself, a comparison's or the caller's; both values are there before it.
fn pick<T: Copy>(first: bool, a: T, b: T) -> T
    ensures { result ≡ cond first a b }
{
    if first { a } else { b }
}

fn ct_is_b(ct: CtInput) -> bool
    ensures { result ≡ is_b ct }
{
    ct == CtInput::IsB
}

// Whether B is the informative strand of a call of a pattern, or else A. The pattern and `ct` come apart: a position has one `ct`, and
// is asked of both patterns.
#[tactic(auto, using(crate::proofs::Calls::informative))]
fn informative_is_b(pattern: ConversionPattern, ct: CtInput) -> bool
    ensures { result ≡ by_b pattern ct }
{
    ct_is_b(ct) == (pattern == ConversionPattern::CToT)
}

// A position where there may be a methylation call: which strand is of pattern C to T, and the bases of A and B.
#[derive(Clone, Copy)]
pub struct Site {
    pub ct: CtInput,
    pub a: u8,
    pub b: u8,
}

impl Site {
    fn of(ct: CtInput, a: StrandBase, b: StrandBase) -> Self
        ensures { result ≡ record { ct = ct; a = a.base; b = b.base } }
    {
        Site {
            ct,
            a: a.base,
            b: b.base,
        }
    }

    // Whether there is a call of a pattern.
    #[tactic(auto, using(crate::proofs::Calls::of_test))]
    fn is_call_of(self, pattern: ConversionPattern) -> bool
        ensures { result ≡ is_call_of (Some pattern) (call_at self.ct self.a self.b) }
    {
        let by_b = informative_is_b(pattern, self.ct);
        let shown = to_ascii_uppercase(pick(by_b, self.b, self.a));
        let confirming = to_ascii_uppercase(pick(by_b, self.a, self.b));
        let bases = pattern.bases();
        can_call(self.ct)
            & ((confirming == bases.unconverted)
                & ((shown == bases.unconverted) | (shown == bases.converted)))
    }

    // Whether there is a call of either.
    #[tactic(auto, using(crate::proofs::Calls::either))]
    fn is_call(self) -> bool
        ensures { result ≡ is_call (call_at self.ct self.a self.b) }
    {
        self.is_call_of(ConversionPattern::CToT) | self.is_call_of(ConversionPattern::GToA)
    }

    // Whether a strand of this annotation keeps its evidence: it is the informative one of a call.
    #[tactic(auto, unfolding(duplex_molecule::specs::Molecule::is_call_of))]
    pub fn keeps_evidence(self, annotation: Option<ConversionPattern>) -> bool
        ensures { result ≡ is_call_of annotation (call_at self.ct self.a self.b) }
    {
        annotation.is_some_and(|pattern| self.is_call_of(pattern))
    }
}

// Base and quality at a call of a pattern.
#[tactic(auto, unfolding(crate::specs::Tests::at_call))]
fn combine_at_call(
    ceiling: Ceiling,
    pattern: ConversionPattern,
    ct: CtInput,
    a: MarkedBase,
    b: MarkedBase,
) -> Position
    ensures { result ≡ at_call ceiling.value pattern ct a.shown.base a.shown.qual a.mark b.shown.base b.shown.qual b.mark }
{
    let by_b = informative_is_b(pattern, ct);
    let informative = pick(by_b, b, a);
    let confirming = pick(by_b, a, b);
    let bases = pattern.bases();
    combine_called(
        ceiling,
        a.shown,
        b.shown,
        bases.reference,
        eq_ignore_ascii_case(informative.shown.base, bases.converted) & (informative.mark == 0),
        confirming.shown.qual,
    )
}

// Base and quality of two strands' bases, qualities and informative marks.
#[tactic(auto, using(crate::proofs::Calls::position))]
pub fn combine_annotated(ceiling: Ceiling, ct: CtInput, a: MarkedBase, b: MarkedBase) -> Position
    ensures { result ≡ combined ceiling.value ct a.shown.base a.shown.qual a.mark b.shown.base b.shown.qual b.mark }
{
    let site = Site::of(ct, a.shown, b.shown);
    let c_to_t = site.is_call_of(ConversionPattern::CToT);
    let g_to_a = site.is_call_of(ConversionPattern::GToA);
    let pattern = pick(c_to_t, ConversionPattern::CToT, ConversionPattern::GToA);
    let at_call = combine_at_call(ceiling, pattern, ct, a, b);
    let uncalled = combine_bases(ceiling, a.shown, b.shown);
    pick(c_to_t | g_to_a, at_call, uncalled)
}

// The errors' estimate where there is no call. Of different bases that of the higher quality wins, A's where they are equal.
#[tactic(auto, using(crate::proofs::Calls::winner), unfolding(crate::specs::Annotated::estimated_uncalled))]
pub fn estimate_uncalled(a: CountedBase, b: CountedBase) -> u16
    ensures { result ≡ estimated_uncalled a.shown.base a.shown.qual a.depth a.errors b.shown.base b.shown.qual b.depth b.errors }
{
    let b_wins = a.shown.qual < b.shown.qual;
    let winner = pick(b_wins, b, a);
    let loser = pick(b_wins, a, b);
    pick(
        a.shown.base == b.shown.base,
        estimate_agreeing(a.errors, b.errors),
        estimate_disagreeing(winner.errors, loser.depth, loser.errors),
    )
}

// The errors' estimate where no source reads are kept.
#[tactic(auto, unfolding(crate::specs::Annotated::estimated))]
pub fn estimate_errors(ct: CtInput, a: CountedBase, b: CountedBase) -> u16
    ensures { result ≡ estimated ct a.shown.base a.shown.qual a.depth a.errors b.shown.base b.shown.qual b.depth b.errors }
{
    let site = Site::of(ct, a.shown, b.shown);
    pick(
        site.is_call(),
        estimate_agreeing(a.errors, b.errors),
        estimate_uncalled(a, b),
    )
}

// What a source read should show at a position: the unmasked base, or at a call what its own strand should show. `last` says
// that it has the flag 0x80.
// The flag is a read's own bit, whether it is the last of its pair, and the same over all positions; here it chooses values alone.
#[tactic(auto, using(crate::proofs::Calls::expects))]
pub fn expected_base(ct: CtInput, a: StrandBase, b: StrandBase, last: bool) -> u8
    ensures { result ≡ expected ct a.base a.qual b.base b.qual last }
{
    let is_b = ct_is_b(ct);
    let at_c = pick(last, b'C', pick(is_b, b.base, a.base));
    let at_g = pick(last, pick(is_b, a.base, b.base), b'G');
    let unmasked = unmasked_base(a, b);
    let site = Site::of(ct, a, b);
    let uncalled_or_g = pick(site.is_call_of(ConversionPattern::GToA), at_g, unmasked);
    pick(
        site.is_call_of(ConversionPattern::CToT),
        at_c,
        uncalled_or_g,
    )
}
