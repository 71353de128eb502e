// The metrics of a record with its rates as their bits, which is how they are handed out as text and to C. What a call answers is
// duplex_metrics's. Uses refusals and duplex_metrics.
#![tactic(auto)]

ghost use Rattle.std.specs.Prelude.{◌≡◌};
ghost use Rattle.duplex_metrics.specs.Metrics.{input_given, metrics_of};
ghost use Rattle.metrics_bits.specs.Bits.{Numbers, in_bits, metrics_words};

use duplex_metrics::{MetricsInput, MetricsRecord, duplex_metrics};
use refusals::Refusal;

// A record's tags, of which aE, bE and cE are the bits of 32-bit floats.
// Not a MetricsRecord over any type of rate: a u32 in its place would not say that it is a float's bits, which the name here says.
#[derive(Clone, Copy, Debug, PartialEq, Eq)]
pub struct MetricsBits {
    pub aD: u32,
    pub aM: u32,
    pub aE: u32,
    pub bD: u32,
    pub bM: u32,
    pub bE: u32,
    pub cD: u32,
    pub cM: u32,
    pub cE: u32,
    pub nc: u32,
}

fn in_bits(r: MetricsRecord) -> MetricsBits
    requires { Numbers r }
    ensures { result ≡ in_bits r }
{
    MetricsBits {
        aD: r.aD,
        aM: r.aM,
        aE: f32::to_bits(r.aE),
        bD: r.bD,
        bM: r.bM,
        bE: f32::to_bits(r.bE),
        cD: r.cD,
        cM: r.cM,
        cE: f32::to_bits(r.cE),
        nc: r.nc,
    }
}

// The metrics of a record, as duplex_metrics gives them. Refuses by 7, 8.
pub fn metrics_bits(x: MetricsInput<u16, u16>) -> Result<MetricsBits, Refusal>
    ensures { result ≡ metrics_words (metrics_of (input_given x.entry)) }
{
    let record = duplex_metrics(x)?;
    Ok(in_bits(record))
}
