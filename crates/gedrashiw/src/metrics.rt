// A record's depths, and the metrics. The calls are those of rust_metrics.
ghost use Rattle.std.specs.Prelude.{◌≡◌};
ghost use Rattle.refusals.specs.Outcome.{answer, after};
ghost use Rattle.duplex_depths.specs.Depths.{combined_depths, combined_refused, depth_range};
ghost use Rattle.rust_metrics.specs.Answers.{range_reply, figures_reply, metrics_reply};
ghost use Rattle.duplex_metrics.specs.Metrics.{strand_metrics, input, metrics_of};
ghost use Rattle.replies.specs.Choices.{yes};
ghost use Rattle.replies.specs.Replies.{count_reply};
ghost use Rattle.metrics_bits.specs.Bits.{metrics_words};

use replies::Count;
use rust_metrics::{FiguresReply, MetricsReply, Range};

// The depths of both strands at each of a record's positions. Refuses by 7, 12.
#[unsafe(no_mangle)]
pub extern "C" fn gedrashiw_combined_depths(
    positions: usize,
    ab: &[u16],
    ba: &[u16],
    out: &mut [u16],
) -> Count
    ensures value { result ≡ count_reply (answer (combined_refused positions ab.now ba.now out.old) positions) }
    ensures out_after { out.new ≡ after (combined_refused positions ab.now ba.now out.old) (combined_depths positions ab.now ba.now) out.old }
{
    rust_metrics::gedrashiw_combined_depths(positions, ab, ba, out)
}

// The smallest and the largest of a record's depths. Refuses by 7.
#[unsafe(no_mangle)]
pub extern "C" fn gedrashiw_depth_range(positions: usize, ab: &[u16], ba: &[u16]) -> Range
    ensures { result ≡ range_reply (depth_range positions ab.now ba.now) }
{
    rust_metrics::gedrashiw_depth_range(positions, ab, ba)
}

// The figures of a strand. Refuses by 7, 8.
#[unsafe(no_mangle)]
pub extern "C" fn gedrashiw_strand_metrics(depths: &[u16], errors: &[u16]) -> FiguresReply
    ensures { result ≡ figures_reply (strand_metrics depths.now errors.now) }
{
    rust_metrics::gedrashiw_strand_metrics(depths, errors)
}

// The metrics of a record; second is 0 where there is no second strand. Refuses by 7, 8.
#[unsafe(no_mangle)]
pub extern "C" fn gedrashiw_duplex_metrics(
    a_depths: &[u16],
    a_errors: &[u16],
    second: u8,
    b_depths: &[u16],
    b_errors: &[u16],
    bases: &[u8],
    errors: &[u16],
) -> MetricsReply
    ensures { result ≡ metrics_reply (metrics_words (metrics_of (input a_depths.now a_errors.now (yes second) b_depths.now b_errors.now bases.now errors.now))) }
{
    rust_metrics::gedrashiw_duplex_metrics(
        a_depths, a_errors, second, b_depths, b_errors, bases, errors,
    )
}
