// The text that duplexline prints for an encoded molecule: the line program of document 01, but for reading and writing.
// Uses lists, refusals, methylation, byte_numbers, molecule_encoding, molecule_strand, molecule_consensus, duplex_min_reads, line_format,
// line_record and line_strands.
#![tactic(auto)]

ghost use Rattle.std.specs.Prelude.{◌≡◌, drop, get_or};
ghost use Rattle.molecule_encoding.specs.Parts.{parts_in};
ghost use Rattle.molecule_strand.specs.Strand.{encoded_pattern, encoded_in};
ghost use Rattle.line_molecule.specs.Line.{strand_in, parts_of, molecule_text, text_of, TextIn};
ghost use Rattle.line_record.specs.Line.{Holds};

use duplex_min_reads::validate_min_reads;
use line_record::{Line, refused_line};
use line_strands::strands_line;
use lists::get_or;
use molecule_consensus::EncodedMolecule;
use molecule_encoding::{Molecule, StrandFields, read_molecule};
use molecule_strand::{EncodedAnnotation, EncodedStrand, encoded_pattern};
use refusals::Refusal;

// An annotation's value is its pattern byte and then the evidence.
fn encoded_annotation_of<'a>(value: &'a [u8]) -> EncodedAnnotation<'a>
    ensures pattern { result.pattern ≡ encoded_pattern (get_or value.now 0 0) }
    ensures evidence { result.evidence.now ≡ drop 1 value.now }
{
    EncodedAnnotation {
        pattern: encoded_pattern(get_or(value, 0, 0)),
        evidence: value.get(1..).unwrap_or(&[]),
    }
}

// A strand of a molecule.
fn strand_of<'a>(s: Option<StrandFields<'a>>) -> Option<EncodedStrand<'a>>
    ensures { encoded_in result ≡ strand_in (parts_in s.entry) }
{
    s.map(|s| EncodedStrand {
        bases: s.bases,
        quals: s.quals,
        depths: s.depths,
        errors: s.errors,
        methylation: s.annotation.map(encoded_annotation_of),
    })
}

// The line of a molecule. A refusal of its thresholds ends it before the strands are looked at. More than 4 are refused as 4 are, so that
// no more are read.
fn molecule_line(m: Molecule) -> Line
    ensures { Holds (molecule_text (parts_of m.entry)) result }
{
    let values = m.thresholds.unwrap_or(&[]);
    // No heap: room for the 4.
    let mut thresholds = [0; 4];
    byte_numbers::read(values, &mut thresholds);
    let count = (values.len() / 4).min(4);
    let min_reads = &thresholds[..count];
    let answer = validate_min_reads(min_reads);
    let Ok(_) = answer else {
        return refused_line(answer.err().map_or(0, Refusal::number));
    };
    let encoded = EncodedMolecule {
        a: strand_of(m.a),
        b: strand_of(m.b),
        reads: m.reads,
    };
    strands_line(encoded, min_reads)
}

// The text for the bytes of an encoded molecule.
pub fn duplex_line(bytes: &[u8]) -> Line
    ensures { TextIn (text_of bytes.now) result }
{
    match read_molecule(bytes) {
        Err(refusal) => refused_line(refusal.number()),
        Ok(m) => molecule_line(m),
    }
}
