// Source reads: a list of reads, each with its flags and its bases as a part of one byte buffer, and how many of them are errors
// at each position of a record. Uses lists, refusals, flags, duplex_molecule, duplex_position and duplex_call, and a law of numbers.
#![tactic(auto)]

ghost use Rattle.std.specs.Prelude.{◌≡◌, ℕ, [], ◌∷◌, ◌<◌, ◌≤◌, length, get_or, true, false};
ghost use Rattle.lists.specs.Output.{put};
ghost use Rattle.lists.specs.Table.{tabulate, Tells};
ghost use Rattle.numbers.specs.Numbers.{smallest};
ghost use Rattle.source_reads.specs.Arrays.{combined_in, shown_in, asked};
ghost use Rattle.source_reads.specs.Bases.{base_at, bases_errors};
ghost use Rattle.source_reads.specs.Reads.{any_leaves, one_more, counted_length, expected_bases, shown_errors, counted_errors};

use duplex_call::expected_base;
use duplex_molecule::{CtInput, is_error};
use duplex_position::{StrandBase, unmasked_base};
use flags::{LAST_SEGMENT, is_set};
use lists::{part, part_leaves};
use refusals::MAX_POSITIONS;

// A read: its flags, and where its bases are in a byte buffer.
#[repr(C)]
#[derive(Clone, Copy)]
pub struct SourceRead {
    pub flags: u16,
    pub offset: usize,
    pub length: usize,
}

// A list of reads, and the byte buffer that their bases are in.
#[derive(Clone, Copy)]
pub struct SourceReads<'a> {
    pub reads: &'a [SourceRead],
    pub bytes: &'a [u8],
}

// A strand's bases and qualities, which say what a read should show.
#[derive(Clone, Copy)]
pub struct StrandBases<'a> {
    pub bases: &'a [u8],
    pub quals: &'a [u8],
}

// Strands A and B, which of them is the C-to-T one, and how many positions of the record that they make are asked for.
#[derive(Clone, Copy)]
pub struct CombinedBases<'a> {
    pub ct: CtInput,
    pub positions: usize,
    pub a: StrandBases<'a>,
    pub b: StrandBases<'a>,
}

// What reads should show at the positions that are asked for, of which each array may have fewer: `first` is for reads without the flag
// 0x80, `last` for those with it.
#[derive(Clone, Copy)]
pub struct ShownBases<'a> {
    pub positions: usize,
    pub first: &'a [u8],
    pub last: &'a [u8],
}

// The same worked out for the positions that are counted. No heap: arrays of the most that is looked at.
#[derive(Clone, Copy)]
pub struct ExpectedBases {
    pub positions: usize,
    pub first: [u8; 1024],
    pub last: [u8; 1024],
}

// Whether the part of some read leaves a buffer of a size.
#[tactic(auto, unfolding(crate::specs::Reads::any_leaves, crate::specs::Reads::read_leaves))]
pub fn list_leaves(reads: &[SourceRead], size: usize) -> bool
    ensures { result ≡ any_leaves size reads.now }
{
    reads
        .iter()
        .any(|read| part_leaves(read.offset, read.length, size))
}

// As many positions as are asked for, no more than each array has, and no more than a strand may have. Of the arrays only how long
// they are is asked, so that any lengths will do. Public as it was promised; the crates that use this one have no need of it.
pub fn counted_length(
    positions: usize,
    a_bases: usize,
    a_quals: usize,
    b_bases: usize,
    b_quals: usize,
    errors: usize,
) -> usize
    ensures { result ≡ smallest (positions ∷ a_bases ∷ a_quals ∷ b_bases ∷ b_quals ∷ errors ∷ 1024 ∷ []) }
{
    let within_a = positions.min(a_bases).min(a_quals);
    let within_b = within_a.min(b_bases).min(b_quals);
    within_b.min(errors).min(MAX_POSITIONS)
}

// The same of two strands' arrays. Where it is 0 nothing is counted, and no expected bases need be worked out.
pub fn counted_within(s: CombinedBases<'_>, errors: usize) -> usize
    ensures { result ≡ counted_length (combined_in s.entry) errors }
{
    counted_length(
        s.positions,
        s.a.bases.len(),
        s.a.quals.len(),
        s.b.bases.len(),
        s.b.quals.len(),
        errors,
    )
}

#[tactic(auto, unfolding(crate::specs::Reads::one_more), using(numbers::proofs::Numbers::saturated))]
fn one_more(error: bool, so_far: u16) -> u16
    ensures { result ≡ one_more error so_far }
{
    if error {
        return so_far.saturating_add(1);
    }
    so_far
}

// A strand that has a base and a quality at each of the first n positions.
#[derive(Clone, Copy)]
struct Reaching<'a> {
    strand: StrandBases<'a>,
    n: usize,
    ghost reaches: { (n ≤ length strand.bases.now) × (n ≤ length strand.quals.now) },
}

impl Reaching<'_> {
    // Not one with that of duplex_arrays' `Shown`, which has whole strands: a public function for both could not ask that i is within,
    // since none has a `requires`.
    fn at(self, i: usize) -> StrandBase
        requires { i < self.n }
        ensures { result ≡ base_at (get_or self.entry.strand.bases.now i 0) (get_or self.entry.strand.quals.now i 0) }
    {
        StrandBase {
            base: self.strand.bases[i],
            qual: self.strand.quals[i],
        }
    }
}

// What a read should show at each of the first n positions, as a closure answers it. By index: the closure asks for a place in other arrays.
// Not one with duplex_arrays' `fill_errors`: a public function for both could not ask that there is room.
#[tactic(auto, using(lists::proofs::Output::begin, lists::proofs::Table::length_tabulate))]
fn fill_bases<F: Fn(usize) -> u8>(n: usize, at: F, out: &mut [u8])
    requires room { n ≤ length out.old }
    requires answers { (i : ℕ) → i < n → F.pre at i }
    ensures { (told : ℕ → ℕ) → Tells n (F.post at) told → out.new ≡ put (tabulate n told) out.old }
{
    for i in 0..n {
        out[i] = at(i);
    }
}

// What reads with the flag 0x80, or those without it, should show at the first positions: as many as are asked for, and no more
// than each array has. Behind them 0. Worked out once, it serves every read.
pub fn expected_bases(s: CombinedBases<'_>, last: bool) -> [u8; 1024]
    ensures { result ≡ expected_bases (combined_in s.entry) last }
{
    // No heap: arrays of the most that is looked at.
    let mut out = [0u8; 1024];
    let n = counted_within(s, 1024);
    let a = Reaching { strand: s.a, n };
    let b = Reaching { strand: s.b, n };
    if s.ct == CtInput::Neither {
        // `expected_base` answers the same here; by it the array takes 148 ns in place of 84 at 150 positions, and 259 in place of 75 at 300.
        fill_bases(n, |i| unmasked_base(a.at(i), b.at(i)), &mut out);
    } else {
        fill_bases(n, |i| expected_base(s.ct, a.at(i), b.at(i), last), &mut out);
    }
    out
}

impl ExpectedBases {
    // What reads should show at the positions that are counted: as many as are asked for, no more than each array has, no more than there
    // are numbers for their errors, and no more than a strand may have.
    pub fn counted(s: CombinedBases<'_>, errors: usize) -> Self
        ensures positions { result.positions ≡ counted_length (combined_in s.entry) errors }
        ensures first { result.first ≡ expected_bases (asked result.positions (combined_in s.entry)) false }
        ensures last { result.last ≡ expected_bases (asked result.positions (combined_in s.entry)) true }
    {
        let positions = counted_within(s, errors);
        let counted = CombinedBases { positions, ..s };
        ExpectedBases {
            positions,
            first: expected_bases(counted, false),
            last: expected_bases(counted, true),
        }
    }

    pub fn shown(&self) -> ShownBases<'_>
        ensures positions { result.positions ≡ self.now.positions }
        ensures first { result.first.now ≡ self.now.first }
        ensures last { result.last.now ≡ self.now.last }
    {
        ShownBases {
            positions: self.positions,
            first: &self.first,
            last: &self.last,
        }
    }
}

// Adds the errors of the first n bases of a read, against what it should show. n stays beside the arrays: the numbers behind it stay as
// they are, which of an output cut to n would have to be put together again.
fn add_shown_errors(bases: &[u8], n: usize, shown: &[u8], errors: &mut [u16])
    requires { (n ≤ length bases.now) × (n ≤ length shown.now) × (n ≤ length errors.old) }
    ensures { errors.new ≡ bases_errors n bases.now (λ i. get_or shown.now i 0) errors.old }
{
    // By index: a number is read and written at the place of both bases.
    for i in 0..n {
        errors[i] = one_more(is_error(bases[i], shown[i]), errors[i]);
    }
}

// Adds the errors of a read at the first positions, no more than there are numbers, against what it should show. The numbers stay beside
// what is shown, here and below: they are the one output.
#[tactic(auto, using(crate::proofs::Counted::either, crate::proofs::Counted::one_shown))]
pub fn add_read_errors(read: SourceRead, bytes: &[u8], shown: ShownBases<'_>, errors: &mut [u16])
    ensures { errors.new ≡ shown_errors (read ∷ []) bytes.now (shown_in shown.entry) errors.old }
{
    let ShownBases {
        positions,
        first,
        last,
    } = shown;
    let bases = part(bytes, read.offset, read.length);
    let all = positions.min(first.len()).min(last.len()).min(errors.len());
    let n = all.min(bases.len());
    if is_set(read.flags, LAST_SEGMENT) {
        add_shown_errors(bases, n, last, errors);
    } else {
        add_shown_errors(bases, n, first, errors);
    }
}

// The same of each read.
fn count_shown_errors(list: SourceReads<'_>, shown: ShownBases<'_>, errors: &mut [u16])
    ensures { errors.new ≡ shown_errors list.entry.reads.now list.entry.bytes.now (shown_in shown.entry) errors.old }
{
    for &read in list.reads {
        add_read_errors(read, list.bytes, shown, errors);
    }
}

// Adds the errors of each read at the first positions: as many as are asked for, no more than each array has, and no more than a
// strand may have.
#[tactic(auto, using(crate::proofs::Counted::none_counted, crate::proofs::Counted::as_expected))]
pub fn count_read_errors(list: SourceReads<'_>, s: CombinedBases<'_>, errors: &mut [u16])
    ensures { errors.new ≡ counted_errors list.entry.reads.now list.entry.bytes.now (combined_in s.entry) errors.old }
{
    if counted_within(s, errors.len()) == 0 {
        return;
    }
    let expected = ExpectedBases::counted(s, errors.len());
    count_shown_errors(list, expected.shown(), errors);
}
