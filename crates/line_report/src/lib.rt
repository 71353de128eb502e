// What is reported of an answer beside its positions: its kind, its gate and its metrics, which are asked here on the record's own
// strands. Uses lists, refusals, byte_numbers, duplex_kind, duplex_depths, duplex_gate, duplex_metrics, metrics_bits,
// molecule_counts and line_format.
#![tactic(auto)]

ghost use Rattle.std.specs.Prelude.{◌≡◌};
ghost use Rattle.duplex_metrics.specs.Metrics.{input_given};
ghost use Rattle.molecule_counts.specs.Counts.{arrays_in, second_in, buffers_in};
ghost use Rattle.line_report.specs.Within.{first_read, second_read};
ghost use Rattle.line_report.specs.Report.{strands_in, input_in, judged, record_report, reported};

use duplex_depths::RecordDepths;
use duplex_gate::duplex_consensus_has_minimum_reads;
use duplex_kind::DuplexConsensus;
use duplex_metrics::{Counts, MetricsInput, depths_of};
use line_format::Kind;
use lists::front;
use metrics_bits::{MetricsBits, metrics_bits};
use molecule_counts::CountBuffers;
use refusals::Refusal;

// What a record is made of, how many positions it has, whether the gate keeps it, and its metrics. Kind and positions apart, as line_format
// writes them: a DuplexConsensus here would be taken apart again by each that prints it.
#[derive(Clone, Copy)]
pub struct Report {
    pub kind: Kind,
    pub positions: usize,
    pub kept: bool,
    pub metrics: MetricsBits,
}

// A record of n positions, given its own strands, bases and errors up to there.
fn judge(
    kind: Kind,
    n: usize,
    x: MetricsInput<u16, u16>,
    min_reads: &[u32],
) -> Result<Report, Refusal>
    ensures { result ≡ judged kind n (input_given x.entry) min_reads.now }
{
    let r = RecordDepths {
        positions: n,
        ab: x.a.depths,
        ba: depths_of(x.b),
    };
    let kept = duplex_consensus_has_minimum_reads(r, min_reads)?;
    let metrics = metrics_bits(x)?;
    Ok(Report {
        kind,
        positions: n,
        kept,
        metrics,
    })
}

// The first n numbers of a strand that were read to these arrays.
fn first_read<'a>(n: usize, s: Counts<u8>, read: &'a CountBuffers) -> Counts<'a, u16>
    ensures { arrays_in result ≡ first_read n s.entry (buffers_in read.now) }
{
    let all = read.counts(s);
    Counts {
        depths: front(all.depths, n),
        errors: front(all.errors, n),
    }
}

// The same of a strand that may be absent. A function: with the closure in own_report the proof does not close (tried), since of what a
// closure that calls first_read answers nothing is told there that it can use.
fn second_read<'a>(
    n: usize,
    s: Option<Counts<u8>>,
    read: &'a CountBuffers,
) -> Option<Counts<'a, u16>>
    ensures { second_in result ≡ second_read n s.entry (buffers_in read.now) }
{
    s.map(|s| first_read(n, s, read))
}

// A record of n positions, given its own strands: no more than 1,024 numbers of each are looked at, since a record of more positions
// is refused.
fn own_report(
    kind: Kind,
    n: usize,
    x: MetricsInput<u8, u16>,
    min_reads: &[u32],
) -> Result<Report, Refusal>
    ensures { result ≡ record_report kind n (input_in x.entry.a x.entry.b x.entry.bases.now x.entry.errors.now) min_reads.now }
{
    let mut a = CountBuffers::zeros();
    a.decode(Some(x.a));
    let mut b = CountBuffers::zeros();
    b.decode(x.b);
    let own = first_read(n, x.a, &a);
    let others = second_read(n, x.b, &b);
    let within = MetricsInput::new(own, others, front(x.bases, n), front(x.errors, n));
    judge(kind, n, within, min_reads)
}

// The report of an answer of the library, given the strands, the thresholds, and the bases and errors that a record was written to.
// Refuses as the library did, then as the gate and the metrics do. An answer that is refused by any number is taken: a Refusal would ask
// more of callers. The strands come apart, not as a MetricsInput: which of them are the record's own is what `made` says.
pub fn record_report<'a>(
    made: Result<Option<DuplexConsensus>, u8>,
    a: Counts<'a, u8>,
    b: Counts<'a, u8>,
    min_reads: &[u32],
    bases: &'a [u8],
    errors: &'a [u16],
) -> Result<Option<Report>, u8>
    ensures { result ≡ reported made (strands_in a.entry b.entry) min_reads.now bases.now errors.now }
{
    let Some(made) = made? else {
        return Ok(None);
    };
    let of_a = MetricsInput::new(a, None, bases, errors);
    let of_b = MetricsInput::new(b, None, bases, errors);
    let of_both = MetricsInput::new(a, Some(b), bases, errors);
    let report = match made {
        DuplexConsensus::Ab(n) => own_report(Kind::Ab, n, of_a, min_reads),
        DuplexConsensus::Ba(n) => own_report(Kind::Ba, n, of_b, min_reads),
        DuplexConsensus::Both(n) => own_report(Kind::Both, n, of_both, min_reads),
    };
    report.map(Some).map_err(Refusal::number)
}
