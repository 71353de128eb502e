// The metrics of a record from bytes to bytes: an array of wider numbers is its bytes, low byte first. It owns row 13 for them, and
// the layout of the record; that of the bytes is byte_numbers's, what a call answers metrics_bits's.
// Uses lists, refusals, byte_numbers, duplex_metrics, metrics_bits and molecule_counts.
#![tactic(auto)]

ghost use Rattle.std.specs.Prelude.{◌≡◌, ◌≤◌, length};
ghost use Rattle.lists.specs.Output.{put};
ghost use Rattle.byte_numbers.specs.Bytes.{odd_count, bytes32};
ghost use Rattle.duplex_metrics.specs.Metrics.{input_given, metrics_of};
ghost use Rattle.metrics_bits.specs.Bits.{metrics_words};
ghost use Rattle.c_metrics.specs.Bytes.{Narrow, MetricsAs, halves, halved_lengths, decoded, odd_strand, odd_bytes, record_words};

use duplex_metrics::{CountsLengths, MetricsInput, MetricsLengths, metrics_refusal};
use lists::front;
use metrics_bits::{MetricsBits, metrics_bits};
use molecule_counts::CountBuffers;
use refusals::{Refusal, refuse};

// The bytes of a metrics record: ten numbers of four bytes.
pub const METRICS_BYTES: usize = 40;

#[tactic(auto, using(byte_numbers::proofs::Groups::all_fit), unfolding(crate::specs::Bytes::record_words))]
fn write_record(r: MetricsBits, out: &mut [u8])
    requires { 40 ≤ length out.old }
    ensures { out.new ≡ put (bytes32 (record_words r)) out.old }
{
    let words = [r.aD, r.aM, r.aE, r.bD, r.bM, r.bE, r.cD, r.cM, r.cE, r.nc];
    byte_numbers::write(&words, out);
}

// The library's call on the decoded numbers.
fn decoded_metrics(x: MetricsInput<u8, u8>) -> Result<MetricsBits, Refusal>
    requires { Narrow (input_given x) }
    ensures { result ≡ metrics_words (metrics_of (decoded (input_given x.entry))) }
{
    let mut a = CountBuffers::zeros();
    let mut b = CountBuffers::zeros();
    // No heap: an array of the most that is looked at.
    let mut own = [0; 1024];
    a.decode(Some(x.a));
    b.decode(x.b);
    byte_numbers::read(x.errors, &mut own);
    let first = a.counts(x.a);
    let second = x.b.map(|s| b.counts(s));
    let own = front(&own, x.errors.len() / 2);
    metrics_bits(MetricsInput::new(first, second, x.bases, own))
}

fn odd(n: usize) -> bool
    ensures { result ≡ odd_count n }
{
    n % 2 != 0
}

// Whether a byte count of a strand's is odd.
fn is_odd(n: CountsLengths) -> bool
    ensures { result ≡ odd_strand n }
{
    odd(n.depths) | odd(n.errors)
}

// Row 13's condition, for byte counts. A base is one byte, so theirs fits.
fn odd_bytes(n: MetricsLengths) -> bool
    ensures { result ≡ odd_bytes n }
{
    (is_odd(n.a) | odd(n.errors)) | n.b.is_some_and(is_odd)
}

// How many numbers so many bytes are.
fn halved(n: CountsLengths) -> CountsLengths
    ensures { result ≡ halves n }
{
    CountsLengths {
        depths: n.depths / 2,
        errors: n.errors / 2,
    }
}

// The same of all that a call is given.
fn halved_lengths(n: MetricsLengths) -> MetricsLengths
    ensures { result ≡ halved_lengths n }
{
    MetricsLengths {
        a: halved(n.a),
        b: n.b.map(halved),
        bases: n.bases,
        errors: n.errors / 2,
    }
}

// The metrics of a record, document 01's "Metrics", as 40 bytes: aD, aM, aE, bD, bM, bE, cD, cM, cE, nc. Depths and errors are
// 16-bit numbers, those written are 32-bit numbers, and a rate is its bits. Refuses by 13, 7, 8, 12.
pub fn metrics_of_bytes(x: MetricsInput<u8, u8>, out: &mut [u8]) -> Result<(), Refusal>
    ensures { MetricsAs (input_given x.entry) out.old out.new result }
{
    let n = x.lengths();
    refuse(odd_bytes(n), Refusal::Broken)?;
    metrics_refusal(halved_lengths(n))?;
    refuse(out.len() < METRICS_BYTES, Refusal::OutputTooShort)?;
    let record = decoded_metrics(x)?;
    write_record(record, out);
    Ok(())
}
