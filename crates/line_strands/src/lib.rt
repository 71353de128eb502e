// The text that duplexline prints for two strands given as bytes, once the thresholds are known to be valid. Uses refusals,
// settings, byte_numbers, molecule_evidence, duplex_outputs, duplex_kind, duplex_metrics, molecule_strand, molecule_errors,
// molecule_consensus, line_format, line_record and line_report.
#![tactic(auto)]

ghost use Rattle.std.specs.Prelude.{◌≡◌, is_some};
ghost use Rattle.refusals.specs.Outcome.{by_number};
ghost use Rattle.line_record.specs.Line.{Holds};
ghost use Rattle.line_report.specs.Report.{counts_in};
ghost use Rattle.molecule_errors.specs.Run.{run_in};
ghost use Rattle.molecule_strand.specs.Strand.{encoded_in};
ghost use Rattle.line_strands.specs.Strands.{counts_of, strands_text};

use duplex_kind::DuplexConsensus;
use duplex_metrics::Counts;
use line_format::RecordColumns;
use line_record::{Line, record_line};
use molecule_consensus::{EncodedMolecule, RecordBuffers};
use molecule_evidence::EvidenceBuffers;
use molecule_strand::EncodedStrand;
use refusals::Refusal;
use settings::Settings;

// The depths and errors of a strand; an absent one has none.
fn count_bytes<'a>(s: Option<EncodedStrand<'a>>) -> Counts<'a, u8>
    ensures { counts_in result ≡ counts_of (encoded_in s.entry) }
{
    s.map_or(
        Counts::none(),
        |s| Counts {
            depths: s.depths,
            errors: s.errors,
        },
    )
}

// An answer with its refusal as a number, as record_line takes it: its text is promised for any number, a refusal's or not.
fn numbered(made: Result<Option<DuplexConsensus>, Refusal>) -> Result<Option<DuplexConsensus>, u8>
    ensures { result ≡ by_number made }
{
    made.map_err(Refusal::number)
}

// The record of two strands, of one or of none, by the usual settings, and its line.
pub fn strands_line(m: EncodedMolecule, min_reads: &[u32]) -> Line
    ensures { Holds (strands_text min_reads.now (encoded_in m.entry.a) (encoded_in m.entry.b) (is_some m.entry.reads) (run_in m.entry.reads)) result }
{
    // Array by array, and not by a call that makes them: what is made elsewhere is copied here, and takes its room on the stack twice.
    let mut own = RecordBuffers {
        bases: [0; 1024],
        quals: [0; 1024],
        errors: [0; 1024],
        a: EvidenceBuffers {
            marks: [0; 1024],
            unconverted: [0; 1024],
            converted: [0; 1024],
        },
        b: EvidenceBuffers {
            marks: [0; 1024],
            unconverted: [0; 1024],
            converted: [0; 1024],
        },
    };
    let made = own.duplex_consensus_of_bytes(Settings::usual(), m);
    let row = RecordColumns {
        bases: &own.bases,
        quals: &own.quals,
        errors: &own.errors,
    };
    record_line(
        numbered(made),
        count_bytes(m.a),
        count_bytes(m.b),
        min_reads,
        row,
    )
}
