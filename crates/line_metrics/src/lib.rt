// The metrics of a record as text: ten numbers, a blank before each. Uses decimal, hexadecimal, line_output and metrics_bits.
// By hand, not by Display, as line_output says.
#![tactic(auto)]

ghost use Rattle.std.specs.Prelude.{◌≤◌, length};
ghost use Rattle.line_output.specs.Writer.{Writes};
ghost use Rattle.line_metrics.specs.MetricsText.{field, rate_field, figures_text, metrics_text};

use line_output::Writer;
use metrics_bits::MetricsBits;

// A blank and a number in decimal.
#[tactic(auto, using(crate::proofs::MetricsText::field_most))]
fn write_field(n: u32, to: &mut Writer<'_>)
    ensures written { Writes (field n) to.old to.new }
    ensures n_len_bound { length (field n) ≤ 11 }
{
    to.write_text(b" ");
    to.write_number(u64::from(n));
}

// A blank and the bits of a rate in hexadecimal.
fn write_rate_field(bits: u32, to: &mut Writer<'_>)
    ensures { Writes (rate_field bits) to.old to.new }
{
    to.write_text(b" ");
    to.write_bits(bits);
}

// The largest depth, the smallest and the rate of a strand or of both: no struct of the three, since MetricsBits has them by the tags' names.
#[tactic(auto, using(crate::proofs::MetricsText::figures_most))]
fn write_figures(largest: u32, smallest: u32, rate: u32, to: &mut Writer<'_>)
    ensures written { Writes (figures_text largest smallest rate) to.old to.new }
    ensures rate_len_bound { length (figures_text largest smallest rate) ≤ 31 }
{
    write_field(largest, to);
    write_field(smallest, to);
    write_rate_field(rate, to);
}

// Writes as much of a record's metrics as there is room for. They have at most 104 bytes.
#[tactic(auto, using(crate::proofs::MetricsText::metrics_most))]
pub fn write_metrics(m: MetricsBits, to: &mut Writer<'_>)
    ensures written { Writes (metrics_text m) to.old to.new }
    ensures m_len_bound { length (metrics_text m) ≤ 104 }
{
    write_figures(m.aD, m.aM, m.aE, to);
    write_figures(m.bD, m.bM, m.bE, to);
    write_figures(m.cD, m.cM, m.cE, to);
    write_field(m.nc, to);
}
