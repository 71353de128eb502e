// The line that a duplex record is reported with, from what the library answered and wrote. Uses lists, duplex_kind, duplex_metrics,
// line_output, line_format and line_report.
#![tactic(auto)]

ghost use Rattle.line_format.specs.Line.{columns_in, none_text, refused_text};
ghost use Rattle.line_report.specs.Report.{strands_in};
ghost use Rattle.line_record.specs.Line.{some_text, report_text, answer_text, Holds, HoldsOf, LineBy};

use duplex_kind::DuplexConsensus;
use duplex_metrics::Counts;
use line_format::{LINE_BYTES, RecordColumns, write_none, write_record, write_refused};
use line_report::{Report, record_report};
use lists::front;

// A text: its length, and its bytes at the front of zeros. No heap, so the bytes have a fixed room, and the text may be shorter.
// Not an ArrayVec: a Line is Copy, and its readers are promised zeros after the text, which an ArrayVec does not show.
#[derive(Clone, Copy)]
pub struct Line {
    pub length: usize,
    pub bytes: [u8; LINE_BYTES],
}

// The line of what a function writes to the front of zeros. It answers how long its text is.
fn line_by<F: FnOnce(&mut [u8]) -> usize>(write: F) -> Line
    requires { F.IsAlwaysCallable write }
    ensures { LineBy F.FnOnce write result }
{
    // No heap: room for the longest text.
    let mut bytes = [0; LINE_BYTES];
    let length = write(&mut bytes);
    Line { length, bytes }
}

// The line of a refusal. Any number is taken: a Refusal would ask more of callers.
pub fn refused_line(number: u8) -> Line
    ensures { Holds (refused_text number) result }
{
    line_by(|out| write_refused(number, out))
}

// The line where there is no record.
fn none_line() -> Line
    ensures { Holds none_text result }
{
    line_by(|out| write_none(out))
}

// The line of a record, which stands at the front of the arrays.
fn printed_line(report: Report, row: RecordColumns) -> Line
    ensures { HoldsOf (some_text report (columns_in row.entry)) (columns_in row.entry) result }
{
    let positions = report.positions;
    let bases = front(row.bases, positions);
    let quals = front(row.quals, positions);
    let errors = front(row.errors, positions);
    line_by(|out| {
        let within = RecordColumns {
            bases,
            quals,
            errors,
        };
        write_record(report.kind, report.kept, within, report.metrics, out)
    })
}

// Refused by any number, as record_line's answer may be.
fn report_line(report: Result<Option<Report>, u8>, row: RecordColumns) -> Line
    ensures { HoldsOf (report_text report (columns_in row.entry)) (columns_in row.entry) result }
{
    // In two steps: of one match with three arms the proof did not close.
    let report = match report {
        Ok(report) => report,
        Err(number) => return refused_line(number),
    };
    match report {
        Some(report) => printed_line(report, row),
        None => none_line(),
    }
}

// The line of what the library answered, from the depths and errors of the strands as bytes, the thresholds, and the arrays that a
// record was written to. An answer that is refused by any number is taken, as by record_report.
pub fn record_line(
    made: Result<Option<DuplexConsensus>, u8>,
    a: Counts<u8>,
    b: Counts<u8>,
    min_reads: &[u32],
    row: RecordColumns,
) -> Line
    ensures { HoldsOf (answer_text made (strands_in a.entry b.entry) min_reads.now (columns_in row.entry)) (columns_in row.entry) result }
{
    let report = record_report(made, a, b, min_reads, row.bases, row.errors);
    report_line(report, row)
}
