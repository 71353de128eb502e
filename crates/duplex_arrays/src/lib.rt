// The arrays of a two-strand record, position by position, from duplex_caller.rs (combine_strands): bases and qualities, and
// errors without source reads. Uses lists, refusals, phred, vanilla_caller, duplex_molecule, duplex_position and duplex_call.
#![tactic(auto)]

ghost use Rattle.std.specs.Prelude.{◌≡◌, ℕ, false, [], ◌∷◌, ◌≤◌, ◌<◌, length, get_or};
ghost use Rattle.lists.specs.Output.{put};
ghost use Rattle.lists.specs.Table.{tabulate, Tells};
ghost use Rattle.vanilla_caller.specs.Strand.{arrays_in};
ghost use Rattle.duplex_arrays.specs.Positions.{arrays_short, positions_short, PositionsAs, ErrorsAs, SamePositions};

use duplex_call::{CountedBase, MarkedBase, combine_annotated, estimate_errors, estimate_uncalled};
use duplex_molecule::{CtInput, can_call};
use duplex_position::{Position, StrandBase, combine_bases};
use phred::Ceiling;
use vanilla_caller::{Lengths, VanillaConsensusRead};

// Where base and quality of each position go. A function that is lent it leaves each slice where it is (specs/Positions.antt).
#[derive(Drop)]
pub struct PositionOutputs<'a> {
    pub bases: &'a mut [u8],
    pub quals: &'a mut [u8],
}

// A strand that has a base and a quality at each of the first n positions.
#[derive(Clone, Copy)]
struct Shown<'a> {
    strand: VanillaConsensusRead<'a>,
    n: usize,
    ghost reaches: { (n ≤ length strand.bases.now) × (n ≤ length strand.quals.now) },
}

// One that has a mark there too: the marks of its annotation's evidence.
#[derive(Clone, Copy)]
struct Marked<'a> {
    shown: Shown<'a>,
    marks: &'a [u8],
    ghost marked: { (marks.now ≡ (arrays_in shown.strand).evidence.marks) × (shown.n ≤ length marks.now) },
}

// One that has a depth and errors there too.
#[derive(Clone, Copy)]
struct Counted<'a> {
    shown: Shown<'a>,
    ghost counted: { (shown.n ≤ length shown.strand.depths.now) × (shown.n ≤ length shown.strand.errors.now) },
}

impl Shown<'_> {
    fn at(self, i: usize) -> StrandBase
        requires { i < self.n }
        ensures { result ≡ record { base = get_or self.entry.strand.bases.now i 0; qual = get_or self.entry.strand.quals.now i 0 } }
    {
        StrandBase {
            base: self.strand.bases[i],
            qual: self.strand.quals[i],
        }
    }
}

impl Marked<'_> {
    fn at(self, i: usize) -> MarkedBase
        requires { i < self.shown.n }
        ensures shown { result.shown ≡ record { base = get_or self.entry.shown.strand.bases.now i 0; qual = get_or self.entry.shown.strand.quals.now i 0 } }
        ensures mark { result.mark ≡ get_or (arrays_in self.entry.shown.strand).evidence.marks i 0 }
    {
        MarkedBase {
            shown: self.shown.at(i),
            mark: self.marks[i],
        }
    }
}

impl Counted<'_> {
    fn at(self, i: usize) -> CountedBase
        requires { i < self.shown.n }
        ensures shown { result.shown ≡ record { base = get_or self.entry.shown.strand.bases.now i 0; qual = get_or self.entry.shown.strand.quals.now i 0 } }
        ensures depth { result.depth ≡ get_or self.entry.shown.strand.depths.now i 0 }
        ensures errors { result.errors ≡ get_or self.entry.shown.strand.errors.now i 0 }
    {
        CountedBase {
            shown: self.shown.at(i),
            depth: self.shown.strand.depths[i],
            errors: self.shown.strand.errors[i],
        }
    }
}

// Whether an array that is looked at or written is shorter than n. Marks count where there may be calls.
// A and B are two operands, here and below: each caller has them as two.
#[tactic(auto, unfolding(crate::specs::Positions::arrays_short))]
fn positions_short(
    n: usize,
    ct: CtInput,
    a: VanillaConsensusRead,
    b: VanillaConsensusRead,
    out: &PositionOutputs<'_>,
) -> bool
    ensures { result ≡ positions_short n ct (arrays_in a.entry) (arrays_in b.entry) out.now.bases.now out.now.quals.now }
{
    let marks = (a.evidence().marks.len() < n) | (b.evidence().marks.len() < n);
    let outputs = (out.bases.len() < n) | (out.quals.len() < n);
    let strands = (a.bases.len() < n)
        | ((a.quals.len() < n) | ((b.bases.len() < n) | (b.quals.len() < n)));
    (can_call(ct) & marks) | (strands | outputs)
}

// The same for the errors.
#[tactic(auto, unfolding(crate::specs::Positions::arrays_short))]
fn errors_short(n: usize, a: Lengths, b: Lengths, errors_out: usize) -> bool
    ensures { result ≡ arrays_short n false [] (a.bases ∷ a.quals ∷ a.depths ∷ a.errors ∷ b.bases ∷ b.quals ∷ b.depths ∷ b.errors ∷ errors_out ∷ []) }
{
    let ours = (a.bases < n) | ((a.quals < n) | ((a.depths < n) | (a.errors < n)));
    let others = (b.bases < n) | ((b.quals < n) | ((b.depths < n) | (b.errors < n)));
    ours | (others | (errors_out < n))
}

// Base and quality of each of the first n positions, as a closure answers them: what is written is whatever is told of its answers.
// By index: two outputs are written at the same place, and of what goes through an adapter of `iter_mut` no clause says.
#[tactic(auto, using(lists::proofs::Output::begin, lists::proofs::Table::length_tabulate))]
fn fill_positions<F: Fn(usize) -> Position>(n: usize, at: F, out: &mut PositionOutputs<'_>)
    requires room { (n ≤ length out.old.bases.now) × (n ≤ length out.old.quals.now) }
    requires answers { (i : ℕ) → i < n → F.pre at i }
    ensures same_references { SamePositions out.old out.new }
    ensures written { (told : ℕ → Position) → Tells n (F.post at) told
        → (out.new.bases.now ≡ put (tabulate n (λ i. (told i).base)) out.old.bases.now) × (out.new.quals.now ≡ put (tabulate n (λ i. (told i).qual)) out.old.quals.now) }
{
    let bases_out = &mut *out.bases;
    let quals_out = &mut *out.quals;
    for i in 0..n {
        let p = at(i);
        bases_out[i] = p.base;
        quals_out[i] = p.qual;
    }
}

// Writes base and quality of the first n positions; nothing where an array is shorter than n. Of the strands bases and qualities
// are looked at, and marks where there may be calls; their other arrays may be empty.
// The strands and n come apart: that the arrays reach n, as Shown states, is what is tested here.
#[tactic(auto, using(lists::proofs::Output::put_none), unfolding(crate::specs::Positions::arrays_short, crate::specs::Positions::unless_short))]
pub fn write_positions(
    ceiling: Ceiling,
    ct: CtInput,
    a: VanillaConsensusRead,
    b: VanillaConsensusRead,
    n: usize,
    out: &mut PositionOutputs<'_>,
)
    ensures same_references { SamePositions out.old out.new }
    ensures written { PositionsAs ceiling.value n ct (arrays_in a.entry) (arrays_in b.entry)
        out.old.bases.now out.old.quals.now
        out.new.bases.now out.new.quals.now }
{
    if positions_short(n, ct, a, b, out) {
        return;
    }
    let shown_a = Shown { strand: a, n };
    let shown_b = Shown { strand: b, n };
    // A call each: where there may be no methylation call there need be no marks.
    if can_call(ct) {
        let a = Marked {
            shown: shown_a,
            marks: a.evidence().marks,
        };
        let b = Marked {
            shown: shown_b,
            marks: b.evidence().marks,
        };
        fill_positions(n, |i| combine_annotated(ceiling, ct, a.at(i), b.at(i)), out);
    } else {
        fill_positions(
            n,
            |i| combine_bases(ceiling, shown_a.at(i), shown_b.at(i)),
            out,
        );
    }
}

// The errors of each of the first n positions, as a closure answers them. By index: what goes through an adapter of `iter_mut` no clause
// says.
#[tactic(auto, using(lists::proofs::Output::begin, lists::proofs::Table::length_tabulate))]
fn fill_errors<F: Fn(usize) -> u16>(n: usize, at: F, errors_out: &mut [u16])
    requires room { n ≤ length errors_out.old }
    requires answers { (i : ℕ) → i < n → F.pre at i }
    ensures { (told : ℕ → ℕ) → Tells n (F.post at) told → errors_out.new ≡ put (tabulate n told) errors_out.old }
{
    for i in 0..n {
        errors_out[i] = at(i);
    }
}

// Writes the errors of the first n positions: 0 where reads are listed, which are counted later, else the estimate; nothing
// where an array is shorter than n.
// Of a list only whether there is one counts here. The strands and n come apart as in write_positions; evidence is not looked at.
#[tactic(auto, using(lists::proofs::Output::put_none), unfolding(crate::specs::Positions::arrays_short, crate::specs::Positions::unless_short))]
pub fn write_errors(
    ct: CtInput,
    listed: bool,
    a: VanillaConsensusRead,
    b: VanillaConsensusRead,
    n: usize,
    errors_out: &mut [u16],
)
    ensures { ErrorsAs listed n ct (arrays_in a.entry) (arrays_in b.entry)
        errors_out.old
        errors_out.new }
{
    if errors_short(n, a.lengths(), b.lengths(), errors_out.len()) {
        return;
    }
    let a = Counted {
        shown: Shown { strand: a, n },
    };
    let b = Counted {
        shown: Shown { strand: b, n },
    };
    // Two estimates, for speed: by `estimate_errors` alone a record of 300 positions without calls takes 616 for 465 ns.
    if listed {
        errors_out[..n].fill(0);
    } else if can_call(ct) {
        fill_errors(n, |i| estimate_errors(ct, a.at(i), b.at(i)), errors_out);
    } else {
        fill_errors(n, |i| estimate_uncalled(a.at(i), b.at(i)), errors_out);
    }
}
