// The metrics of a duplex record, from duplex_caller.rs (duplex_read_into). Depths and errors are capped at each position before
// anything else. Uses lists, refusals, numbers, dna, rates and caller.
#![tactic(auto)]

ghost use Rattle.std.specs.Prelude.{◌≡◌, ◌≤◌, ◌<◌, cond, [], length, get_or, true};
ghost use Rattle.lists.specs.Part.{only_if};
ghost use Rattle.caller.specs.Short.{short};
ghost use Rattle.refusals.specs.Refusal.{refused};
ghost use Rattle.refusals.specs.Outcome.{answer};
ghost use Rattle.duplex_metrics.specs.Metrics.{strand_figures, record_depth, is_no_call, metrics_record, lengths_in, input_lengths, input_given, depths_in, figures_in_counts, Even, EvenIfThere, counts_long, counts_ragged, metrics_faults, metrics_of, strand_metrics};
ghost use Rattle.duplex_metrics.specs.Running.{so_far, added, Continues, running, figures_in};

use caller::{FGBIO_SHORT_DEPTH_MAX, rate_refusal};
use dna::NO_CALL_BASE;
use lists::copy;
use rates::error_rate;
use refusals::{MAX_POSITIONS, Refusal, refuse};

// A strand as the metrics look at it: its depths and its errors, as 16-bit numbers or as the bytes of these.
#[derive(Clone, Copy)]
pub struct Counts<'a, T> {
    pub depths: &'a [T],
    pub errors: &'a [T],
}

// How long both are.
#[derive(Clone, Copy, Debug, PartialEq, Eq)]
pub struct CountsLengths {
    pub depths: usize,
    pub errors: usize,
}

impl<'a, T: Copy> Counts<'a, T> {
    // Of an absent strand.
    pub fn none() -> Counts<'a, T>
        ensures { (result.depths.now ≡ []) × (result.errors.now ≡ []) }
    {
        Counts {
            depths: &[],
            errors: &[],
        }
    }

    pub fn lengths(self) -> CountsLengths
        ensures { result ≡ lengths_in self.entry }
    {
        CountsLengths {
            depths: self.depths.len(),
            errors: self.errors.len(),
        }
    }
}

// Of a strand or a record: the largest and the smallest depth, the summed depths and the summed errors; each 0 over no positions.
#[derive(Clone, Copy, Debug, PartialEq, Eq)]
pub struct Figures {
    pub largest: u32,
    pub smallest: u32,
    pub depths: u32,
    pub errors: u32,
}

// A record's tags by their names: D the largest depth, M the smallest, E the error rate, of the first strand (a), the second (b)
// and both (c). nc is the number of positions whose base is N and whose depth, that behind c, is above 0.
// Flat, as the tags are: a struct of D, M and E for each of a, b and c would call them by other names than the tags'.
#[derive(Clone, Copy)]
pub struct MetricsRecord {
    pub aD: u32,
    pub aM: u32,
    pub aE: f32,
    pub bD: u32,
    pub bM: u32,
    pub bE: f32,
    pub cD: u32,
    pub cM: u32,
    pub cE: f32,
    pub nc: u32,
}

// How long each array is that a call is given. The second strand may be absent.
#[derive(Clone, Copy, Debug, PartialEq, Eq)]
pub struct MetricsLengths {
    pub a: CountsLengths,
    pub b: Option<CountsLengths>,
    pub bases: usize,
    pub errors: usize,
}

// What the metrics of a record are asked with: the strands' arrays, the second strand's where there is one, and the record's bases and
// errors. The strands' numbers stand as S, the record's as R: the line program has the ones as bytes and the others as numbers.
#[derive(Clone, Copy)]
pub struct MetricsInput<'a, S, R> {
    pub a: Counts<'a, S>,
    pub b: Option<Counts<'a, S>>,
    pub bases: &'a [u8],
    pub errors: &'a [R],
}

impl<'a, S: Copy, R: Copy> MetricsInput<'a, S, R> {
    // For arrays of a function's own: Rattle's borrow checker takes strands that are lent for different times as arguments, not as fields.
    pub fn new(
        a: Counts<'a, S>,
        b: Option<Counts<'a, S>>,
        bases: &'a [u8],
        errors: &'a [R],
    ) -> MetricsInput<'a, S, R>
        ensures { (result.a ≡ a.entry) × (result.b ≡ b.entry) × (result.bases.now ≡ bases.now) × (result.errors.now ≡ errors.now) }
    {
        MetricsInput {
            a,
            b,
            bases,
            errors,
        }
    }

    pub fn lengths(self) -> MetricsLengths
        ensures { result ≡ input_lengths self.entry }
    {
        MetricsLengths {
            a: self.a.lengths(),
            b: self.b.map(|b| b.lengths()),
            bases: self.bases.len(),
            errors: self.errors.len(),
        }
    }
}

// The figures of the positions so far, and how many of them are no-calls: handed on by value, one position at a time.
#[derive(Clone, Copy, Debug, PartialEq, Eq)]
pub struct Running {
    pub largest: u16,
    pub smallest: u16,
    pub depths: u32,
    pub errors: u32,
    pub nc: u32,
}

// 1 at a no-call, 0 elsewhere.
fn no_call(base: u8, depth: u16) -> u32
    ensures { result ≡ cond (is_no_call base depth) 1 0 }
{
    u32::from((base == NO_CALL_BASE) & (0 < depth))
}

impl Running {
    // Of no positions, before one with this depth.
    #[tactic(auto, unfolding(lists::specs::Count::count_of))]
    fn start(first: u16) -> Running
        ensures { result ≡ so_far first [] [] [] }
    {
        Running {
            largest: 0,
            smallest: first,
            depths: 0,
            errors: 0,
            nc: 0,
        }
    }

    // With one position more: its depth and its error, which are capped already, and its base.
    #[tactic(auto, using(crate::proofs::SoFar::continues))]
    fn add(mut self, depth: u16, error: u16, base: u8) -> Running
        requires { (self.depths ≤ 4294901760) × (self.errors ≤ 4294901760) × (self.nc ≤ 4294901760) }
        ensures { (result ≡ added self depth error base) × Continues self depth error base result }
    {
        self.largest = self.largest.max(depth);
        self.smallest = self.smallest.min(depth);
        self.depths += u32::from(depth);
        self.errors += u32::from(error);
        self.nc += no_call(base, depth);
        self
    }
}

// A depth or an error, capped, in 16 bits, not clamp_per_base_to_fgbio_short's 32: as narrow as that the loop below takes eight positions
// at a time.
fn capped_u16(n: u16) -> u16
    ensures { result ≡ short n }
{
    n.min(FGBIO_SHORT_DEPTH_MAX)
}

// The depth at a position: of both strands, or of one alone. A `bool` beside the slice for speed, as running_over says.
#[tactic(auto, unfolding(lists::specs::Part::only_if, crate::specs::Metrics::record_depth))]
fn depth_at(a: &[u16], second: bool, b: &[u16], i: usize) -> u16
    requires { (i < length a.now) × (second ≡ true → i < length b.now) }
    ensures { result ≡ record_depth a.now (only_if second b.now) i }
{
    if second {
        capped_u16(a[i]) + capped_u16(b[i])
    } else {
        capped_u16(a[i])
    }
}

// The depth of the first position, 0 where there is none. A `bool` beside the slice for speed, as running_over says.
#[tactic(auto, unfolding(lists::specs::Part::only_if, crate::specs::Metrics::record_depth))]
fn first_depth(a: &[u16], second: bool, b: &[u16]) -> u16
    requires { second ≡ true → length b.now ≡ length a.now }
    ensures { result ≡ record_depth a.now (only_if second b.now) 0 }
{
    if a.is_empty() {
        return 0;
    }
    depth_at(a, second, b, 0)
}

// The base at a position, 0 where bases are not asked for. A `bool` beside the slice for speed, as running_over says.
#[tactic(auto, unfolding(lists::specs::Part::only_if))]
fn base_at(asked: bool, bases: &[u8], i: usize) -> u8
    requires { asked ≡ true → i < length bases.now }
    ensures { result ≡ get_or (only_if asked bases.now) i 0 }
{
    if asked { bases[i] } else { 0 }
}

// All positions in one pass, of one strand or of two, with bases or without: the one loop of all figures. Both questions are the same at
// every position, so that the compiler makes a loop without tests of each choice. It does so with a `bool` beside a slice; with an
// `Option` of the slice a record of two strands was measured to take a quarter longer.
fn running_over(
    a: &[u16],
    second: bool,
    b: &[u16],
    errors: &[u16],
    asked: bool,
    bases: &[u8],
) -> Running
    requires { (length a.now ≡ length errors.now) × (second ≡ true → length b.now ≡ length errors.now) × (asked ≡ true → length bases.now ≡ length errors.now) × (length errors.now ≤ 1024) }
    ensures { result ≡ running a.now (only_if second b.now) errors.now (only_if asked bases.now) }
{
    let mut r = Running::start(first_depth(a, second, b));
    for (i, &error) in errors.iter().enumerate() {
        r = r.add(
            depth_at(a, second, b, i),
            capped_u16(error),
            base_at(asked, bases, i),
        );
    }
    r
}

fn figures_in(r: Running) -> Figures
    ensures { result ≡ figures_in r }
{
    Figures {
        largest: u32::from(r.largest),
        smallest: u32::from(r.smallest),
        depths: r.depths,
        errors: r.errors,
    }
}

// A strand's own figures: there is no second strand, and no bases are asked for. Even is no ghost field of Counts, which callers build of
// any arrays; a type of its own would have to be made of the second strand in a closure, which does not know that the rows were tested.
#[tactic(auto, using(crate::proofs::Depths::one_strand), unfolding(lists::specs::Part::only_if, crate::specs::Metrics::strand_figures))]
fn strand_figures(s: Counts<u16>) -> Figures
    requires { Even s }
    ensures { result ≡ strand_figures s.entry.depths.now s.entry.errors.now }
{
    figures_in(running_over(s.depths, false, &[], s.errors, false, &[]))
}

// Those of a strand that may be absent, which then has no positions.
fn second_figures(s: Option<Counts<u16>>) -> Figures
    requires { EvenIfThere s }
    ensures { result ≡ figures_in_counts s.entry }
{
    strand_figures(s.unwrap_or(Counts::none()))
}

// What a record's figures are of: the depths of two strands, of which the second may be empty, and its own errors and bases.
#[derive(Clone, Copy)]
struct Columns<'a> {
    a: &'a [u16],
    b: &'a [u16],
    errors: &'a [u16],
    bases: &'a [u8],
    ghost same: { length bases.now ≡ length errors.now },
    ghost few: { length errors.now ≤ 1024 },
}

// Where a strand is shorter than the record: over copies of both with zeros behind them.
#[tactic(auto, using(crate::proofs::SoFar::alike, crate::proofs::SoFar::padded_cut), unfolding(lists::specs::Part::only_if))]
fn padded_running(x: Columns) -> Running
    ensures { result ≡ running x.entry.a.now x.entry.b.now x.entry.errors.now x.entry.bases.now }
{
    // No heap: arrays of the most that is looked at.
    let mut a_depths = [0; 1024];
    let mut b_depths = [0; 1024];
    copy(x.a, &mut a_depths);
    copy(x.b, &mut b_depths);
    let n = x.errors.len();
    running_over(
        &a_depths[0..n],
        true,
        &b_depths[0..n],
        x.errors,
        true,
        x.bases,
    )
}

// The figures and the no-calls of a record.
#[tactic(auto, using(crate::proofs::SoFar::alike, crate::proofs::SoFar::cut_at, crate::proofs::SoFar::empty_at), unfolding(lists::specs::Part::only_if))]
fn record_running(x: Columns) -> Running
    ensures { result ≡ running x.entry.a.now x.entry.b.now x.entry.errors.now x.entry.bases.now }
{
    let Columns {
        a,
        b,
        errors,
        bases,
    } = x;
    let n = errors.len();
    if n <= a.len() {
        if n <= b.len() {
            return running_over(&a[0..n], true, &b[0..n], errors, true, bases);
        }
        if b.is_empty() {
            return running_over(&a[0..n], false, b, errors, true, bases);
        }
    }
    padded_running(x)
}

// The metrics of one strand. Refuses by 7, 8.
pub fn strand_metrics(s: Counts<u16>) -> Result<Figures, Refusal>
    ensures { result ≡ strand_metrics s.entry.depths.now s.entry.errors.now }
{
    rate_refusal(s.depths.len(), s.errors.len())?;
    Ok(strand_figures(s))
}

fn metrics_record(a: Figures, b: Figures, c: Figures, nc: u32) -> MetricsRecord
    ensures { result ≡ metrics_record a b c nc }
{
    MetricsRecord {
        aD: a.largest,
        aM: a.smallest,
        aE: error_rate(a.errors, a.depths),
        bD: b.largest,
        bM: b.smallest,
        bE: error_rate(b.errors, b.depths),
        cD: c.largest,
        cM: c.smallest,
        cE: error_rate(c.errors, c.depths),
        nc,
    }
}

// Row 7's condition for a strand's arrays. Not by rate_refusal, which tests both rows of one strand: a record's arrays are all tested by 7
// before any by 8.
fn is_long(n: CountsLengths) -> bool
    ensures { result ≡ counts_long n }
{
    (MAX_POSITIONS < n.depths) | (MAX_POSITIONS < n.errors)
}

// Row 8's.
fn is_ragged(n: CountsLengths) -> bool
    ensures { result ≡ counts_ragged n }
{
    n.errors != n.depths
}

// The refusal of arrays of these lengths, if any.
pub fn metrics_refusal(n: MetricsLengths) -> Result<(), Refusal>
    ensures { result ≡ answer (refused (metrics_faults n)) tt }
{
    let long_record = (MAX_POSITIONS < n.bases) | (MAX_POSITIONS < n.errors);
    let long_second = n.b.is_some_and(is_long);
    refuse((is_long(n.a) | long_record) | long_second, Refusal::TooLong)?;
    let ragged_record = n.errors != n.bases;
    let ragged_second = n.b.is_some_and(is_ragged);
    refuse(
        (is_ragged(n.a) | ragged_record) | ragged_second,
        Refusal::Ragged,
    )
}

// The depths of a strand that may be absent.
pub fn depths_of<'a>(s: Option<Counts<'a, u16>>) -> &'a [u16]
    ensures { result.now ≡ depths_in s.entry }
{
    s.map_or(&[], |s| s.depths)
}

// The metrics of a record. A strand may be longer or shorter than the record. Refuses by 7, 8.
#[tactic(auto, using(crate::proofs::Given::told_given, crate::proofs::Given::record_given, crate::proofs::Given::refused_alike, crate::proofs::Given::passed_alike), unfolding(crate::specs::Metrics::record_figures))]
pub fn duplex_metrics(x: MetricsInput<u16, u16>) -> Result<MetricsRecord, Refusal>
    ensures { result ≡ metrics_of (input_given x.entry) }
{
    metrics_refusal(x.lengths())?;
    let c = record_running(Columns {
        a: x.a.depths,
        b: depths_of(x.b),
        errors: x.errors,
        bases: x.bases,
    });
    Ok(metrics_record(
        strand_figures(x.a),
        second_figures(x.b),
        figures_in(c),
        c.nc,
    ))
}
