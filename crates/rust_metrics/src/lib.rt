// Entry points over numbers as they are: a record's depths, and the metrics of a strand and of a record. Uses refusals, replies,
// duplex_depths, duplex_metrics and metrics_bits.
#![tactic(auto)]

ghost use Rattle.std.specs.Prelude.{◌≡◌};
ghost use Rattle.refusals.specs.Outcome.{answer, after};
ghost use Rattle.replies.specs.Choices.{yes};
ghost use Rattle.replies.specs.Replies.{count_reply};
ghost use Rattle.duplex_depths.specs.Depths.{combined_depths, combined_refused, depth_range};
ghost use Rattle.duplex_metrics.specs.Metrics.{input, metrics_of, strand_metrics};
ghost use Rattle.metrics_bits.specs.Bits.{metrics_words};
ghost use Rattle.rust_metrics.specs.Answers.{range_reply, figures_reply, metrics_reply};

use duplex_depths::{DepthRange, RecordDepths, combined_depths, depth_range};
use duplex_metrics::{Counts, Figures, MetricsInput, strand_metrics};
use metrics_bits::{MetricsBits, metrics_bits};
use refusals::Refusal;
use replies::Count;

// `refused` is the refusal's number; where it is 0, the smallest and the largest depth.
#[repr(C)]
#[derive(Clone, Copy)]
pub struct Range {
    pub refused: u8,
    pub min: u16,
    pub max: u16,
}

// The numbers are those that C sees.
impl From<Result<DepthRange, Refusal>> for Range {
    ghost from_gives = { λ answer reply. reply ≡ range_reply answer };

    fn from(answer: Result<DepthRange, Refusal>) -> Range {
        match answer {
            Ok(range) => Range {
                refused: 0,
                min: range.min,
                max: range.max,
            },
            Err(refusal) => Range {
                refused: refusal.number(),
                min: 0,
                max: 0,
            },
        }
    }
}

// `refused` is the refusal's number; where it is 0, the figures of a strand.
#[repr(C)]
#[derive(Clone, Copy)]
pub struct FiguresReply {
    pub refused: u8,
    pub largest: u32,
    pub smallest: u32,
    pub depths: u32,
    pub errors: u32,
}

// The numbers are those that C sees.
impl From<Result<Figures, Refusal>> for FiguresReply {
    ghost from_gives = { λ answer reply. reply ≡ figures_reply answer };

    fn from(answer: Result<Figures, Refusal>) -> FiguresReply {
        match answer {
            Ok(figures) => FiguresReply {
                refused: 0,
                largest: figures.largest,
                smallest: figures.smallest,
                depths: figures.depths,
                errors: figures.errors,
            },
            Err(refusal) => FiguresReply {
                refused: refusal.number(),
                largest: 0,
                smallest: 0,
                depths: 0,
                errors: 0,
            },
        }
    }
}

// `refused` is the refusal's number; where it is 0, a record's tags, of which aE, bE and cE are the bits of 32-bit floats.
#[repr(C)]
#[derive(Clone, Copy)]
pub struct MetricsReply {
    pub refused: u8,
    pub aD: u32,
    pub aM: u32,
    pub aE: u32,
    pub bD: u32,
    pub bM: u32,
    pub bE: u32,
    pub cD: u32,
    pub cM: u32,
    pub cE: u32,
    pub nc: u32,
}

// The numbers are those that C sees.
impl From<Result<MetricsBits, Refusal>> for MetricsReply {
    ghost from_gives = { λ answer reply. reply ≡ metrics_reply answer };

    fn from(answer: Result<MetricsBits, Refusal>) -> MetricsReply {
        match answer {
            Ok(bits) => MetricsReply {
                refused: 0,
                aD: bits.aD,
                aM: bits.aM,
                aE: bits.aE,
                bD: bits.bD,
                bM: bits.bM,
                bE: bits.bE,
                cD: bits.cD,
                cM: bits.cM,
                cE: bits.cE,
                nc: bits.nc,
            },
            Err(refusal) => MetricsReply {
                refused: refusal.number(),
                aD: 0,
                aM: 0,
                aE: 0,
                bD: 0,
                bM: 0,
                bE: 0,
                cD: 0,
                cM: 0,
                cE: 0,
                nc: 0,
            },
        }
    }
}

// The depths of both strands at each of a record's positions. Refuses by 7, 12.
#[unsafe(no_mangle)]
pub extern "C" fn gedrashiw_combined_depths(
    positions: usize,
    ab: &[u16],
    ba: &[u16],
    out: &mut [u16],
) -> Count
    ensures value { result ≡ count_reply (answer (combined_refused positions ab.now ba.now out.old) positions) }
    ensures out_after { out.new ≡ after (combined_refused positions ab.now ba.now out.old) (combined_depths positions ab.now ba.now) out.old }
{
    Count::from(combined_depths(RecordDepths { positions, ab, ba }, out))
}

// The smallest and the largest of a record's depths. Refuses by 7.
#[unsafe(no_mangle)]
pub extern "C" fn gedrashiw_depth_range(positions: usize, ab: &[u16], ba: &[u16]) -> Range
    ensures { result ≡ range_reply (depth_range positions ab.now ba.now) }
{
    Range::from(depth_range(RecordDepths { positions, ab, ba }))
}

// The figures of a strand. Refuses by 7, 8.
#[unsafe(no_mangle)]
pub extern "C" fn gedrashiw_strand_metrics(depths: &[u16], errors: &[u16]) -> FiguresReply
    ensures { result ≡ figures_reply (strand_metrics depths.now errors.now) }
{
    FiguresReply::from(strand_metrics(Counts { depths, errors }))
}

// The metrics of a record; second is 0 where there is no second strand. Refuses by 7, 8.
#[unsafe(no_mangle)]
#[tactic(auto, using(duplex_metrics::proofs::Given::second_given))]
pub extern "C" fn gedrashiw_duplex_metrics(
    a_depths: &[u16],
    a_errors: &[u16],
    second: u8,
    b_depths: &[u16],
    b_errors: &[u16],
    bases: &[u8],
    errors: &[u16],
) -> MetricsReply
    ensures { result ≡ metrics_reply (metrics_words (metrics_of (input a_depths.now a_errors.now (yes second) b_depths.now b_errors.now bases.now errors.now))) }
{
    let a = Counts {
        depths: a_depths,
        errors: a_errors,
    };
    let b = Counts {
        depths: b_depths,
        errors: b_errors,
    };
    let b = (second != 0).then_some(b);
    MetricsReply::from(metrics_bits(MetricsInput {
        a,
        b,
        bases,
        errors,
    }))
}
