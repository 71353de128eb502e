// The texts that a record is reported with: a header and a line of what the record is, that there is none, or a refusal. Uses
// decimal, line_output, metrics_bits and line_metrics. By hand, not by Display, as line_output says.
#![tactic(auto)]

ghost use Rattle.std.specs.Prelude.{◌≤◌, length};
ghost use Rattle.line_output.specs.Text.{Written};
ghost use Rattle.line_output.specs.Writer.{Writes};
ghost use Rattle.line_metrics.specs.MetricsText.{metrics_text};
ghost use Rattle.line_format.specs.Line.{columns_in, kind_text, gate_text, columns_text, opening, closing, line_text, none_text, refused_text, Fits, Short, Typed};

use line_metrics::write_metrics;
use line_output::Writer;
use metrics_bits::MetricsBits;

// What stands above each record.
pub const HEADER: [u8; 59] = *b"kind gate bases quals errors aD aM aE bD bM bE cD cM cE nc\n";

// The text of a record with at most 1,024 positions is no longer than this.
pub const LINE_BYTES: usize = 12288;

// What a record is made of: strand A, strand B, or both. Not duplex_kind's DuplexConsensus: that is this and a number of positions, which no
// text has, so that a writer of it would be given a number it does not look at.
#[derive(Clone, Copy, Debug, PartialEq, Eq)]
pub enum Kind {
    Ab,
    Ba,
    Both,
}

// The consensus positions of a record, or the arrays that they stand in.
#[derive(Clone, Copy)]
pub struct RecordColumns<'a> {
    pub bases: &'a [u8],
    pub quals: &'a [u8],
    pub errors: &'a [u16],
}

#[tactic(auto, unfolding(crate::specs::Line::kind_text))]
fn write_kind(kind: Kind, to: &mut Writer<'_>)
    ensures { Writes (kind_text kind) to.old to.new }
{
    match kind {
        Kind::Ab => to.write_text(b"ab"),
        Kind::Ba => to.write_text(b"ba"),
        Kind::Both => to.write_text(b"both"),
    }
}

// The consensus gate's outcome, with a blank on each side.
#[tactic(auto, unfolding(crate::specs::Line::gate_text))]
fn write_gate(kept: bool, to: &mut Writer<'_>)
    ensures { Writes (gate_text kept) to.old to.new }
{
    if kept {
        to.write_text(b" kept ");
    } else {
        to.write_text(b" below ");
    }
}

// The header, and a line up to its columns.
fn write_opening(kind: Kind, kept: bool, to: &mut Writer<'_>)
    ensures { Writes (opening kind kept) to.old to.new }
{
    to.write_text(&HEADER);
    write_kind(kind, to);
    write_gate(kept, to);
}

// The consensus positions.
fn write_columns(row: RecordColumns, to: &mut Writer<'_>)
    ensures written { Writes (columns_text (columns_in row.entry)) to.old to.new }
    ensures typed { Typed (columns_in row.entry) }
{
    to.write_printed(row.bases);
    to.write_text(b" ");
    to.write_u8s(row.quals);
    to.write_text(b" ");
    to.write_u16s(row.errors);
}

// The end of a line, after its columns.
fn write_closing(metrics: MetricsBits, to: &mut Writer<'_>)
    ensures written { Writes (closing metrics) to.old to.new }
    ensures metrics_len_bound { length (metrics_text metrics) ≤ 104 }
{
    write_metrics(metrics, to);
    to.write_text(b"\n");
}

// Each of these writes as much of its text as there is room for to the front of out, and answers how many bytes that is.

// The header and the line of a record. That of a record with at most 1,024 positions has at most LINE_BYTES.
#[tactic(auto, using(crate::proofs::Line::line_most))]
pub fn write_record(
    kind: Kind,
    kept: bool,
    row: RecordColumns,
    metrics: MetricsBits,
    out: &mut [u8],
) -> usize
    ensures written { Written (line_text kind kept (columns_in row.entry) metrics) out.old out.new result }
    ensures metrics_len_bound { Short (columns_in row.entry) → Fits (line_text kind kept (columns_in row.entry) metrics) }
{
    let mut to = Writer::new(out, 0);
    write_opening(kind, kept, &mut to);
    write_columns(row, &mut to);
    write_closing(metrics, &mut to);
    to.at
}

// The header, and that there is no record.
#[tactic(auto, using(crate::proofs::Line::none_most))]
pub fn write_none(out: &mut [u8]) -> usize
    ensures written { Written none_text out.old out.new result }
    ensures none_text_len_bound { Fits none_text }
{
    let mut to = Writer::new(out, 0);
    to.write_text(&HEADER);
    to.write_text(b"none\n");
    to.at
}

// A refusal, with no header. Any number is taken: a Refusal would ask more of callers.
#[tactic(auto, using(crate::proofs::Line::refused_most))]
pub fn write_refused(number: u8, out: &mut [u8]) -> usize
    ensures written { Written (refused_text number) out.old out.new result }
    ensures number_len_bound { Fits (refused_text number) }
{
    let mut to = Writer::new(out, 0);
    to.write_text(b"refused ");
    to.write_number(u64::from(number));
    to.write_text(b"\n");
    to.at
}
