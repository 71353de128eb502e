// Why a position of a record shows N, document 02's #101, as an entry point for C programs: strands as bytes, and the answer as numbers. An
// array of wider numbers is passed as its bytes, low byte first. The reasons are duplex_reason's and their numbers rust_reason's; this
// crate owns what of the bytes a position needs. Row 13 is stated by the definitions of molecule_consensus, and what of a strand is looked
// at is c_interface's, as those of `gedrashiw_duplex_consensus`. Uses lists, refusals, byte_numbers,
// molecule_evidence, molecule_strand, duplex_kind, c_interface, duplex_reason and rust_reason.
#![tactic(auto)]

ghost use Rattle.std.specs.Prelude.{◌≡◌, ◌||◌, get_or};
ghost use Rattle.molecule_evidence.specs.Evidence.{marks_of};
ghost use Rattle.molecule_strand.specs.Rows.{kind_by};
ghost use Rattle.molecule_strand.specs.Strand.{encoded_in, strand_of, wrong_encoded_pattern};
ghost use Rattle.duplex_reason.specs.Record.{shown_at};
ghost use Rattle.rust_reason.specs.Reply.{reason_for};
ghost use Rattle.c_interface.specs.Entry.{told, strand_given, told_by};
ghost use Rattle.c_reason.specs.Reason.{bytes_reason};
ghost use Rattle.c_reason.specs.Parts.{reason_given, reason_by};

use c_interface::strand_told;
use duplex_kind::DuplexConsensus;
use duplex_reason::{NoCallReason, Shown, reason_in};
use lists::get_or;
use molecule_evidence::POSITION_BYTES;
use molecule_strand::{EncodedStrand, kind_of_depths};
use refusals::Refusal;
use rust_reason::Reason;

// A strand's bytes of depths, none of an absent one.
fn depths_of<'a>(s: Option<EncodedStrand<'a>>) -> &'a [u8]
    ensures { result.now ≡ (encoded_in s.entry).depths }
{
    s.map_or(&[], |s| s.depths)
}

// The kind of the record that two strands make, for which of their numbers the depths alone are read. Refuses by 13, 7, 8.
// The strands are two operands, here and below: a struct of both would be taken apart for each one's numbers.
fn kind_by(
    a: Option<EncodedStrand>,
    b: Option<EncodedStrand>,
) -> Result<Option<DuplexConsensus>, Refusal>
    ensures { result ≡ kind_by (encoded_in a.entry) (encoded_in b.entry) }
{
    // No heap: arrays of the most that is looked at.
    let mut a_depths = [0; 1024];
    let mut b_depths = [0; 1024];
    byte_numbers::read(depths_of(a), &mut a_depths);
    byte_numbers::read(depths_of(b), &mut b_depths);
    kind_of_depths(a, b, &a_depths, &b_depths)
}

// The mark of a position in bytes of evidence, 0 past their end.
// Not `get`: the product may pass a machine word, so that the position would be tested first; nor `nth` of `chunks_exact`, which walks
// over all positions before it.
fn mark_at(evidence: &[u8], position: usize) -> u8
    ensures { result ≡ get_or (marks_of evidence.now) position 0 }
{
    if position < evidence.len() / POSITION_BYTES {
        return evidence[POSITION_BYTES * position];
    }
    0
}

// What a strand that may be absent shows at a position; zeros past its end.
// Not duplex_reason's `shown_at`, no plainer: that takes a strand of numbers, and for one mark those of all its evidence would be read to
// an array.
#[tactic(auto, unfolding(molecule_strand::specs::Strand::strand_of, byte_numbers::specs::Groups::by_group, lists::specs::Table::tabulate))]
fn shown_at(s: Option<EncodedStrand>, position: usize) -> Shown
    ensures { result ≡ shown_at (strand_of (encoded_in s.entry)) position }
{
    s.map_or(
        Shown::default(),
        |s| Shown {
            annotation: s.annotation(),
            base: get_or(s.bases, position, 0),
            qual: get_or(s.quals, position, 0),
            mark: mark_at(s.evidence(), position),
        },
    )
}

// What is said of a position between two strands.
fn reason_given(
    a: Option<EncodedStrand>,
    b: Option<EncodedStrand>,
    position: usize,
) -> Result<NoCallReason, Refusal>
    ensures { result ≡ reason_given (encoded_in a.entry) (encoded_in b.entry) position }
{
    let at_a = shown_at(a, position);
    let at_b = shown_at(b, position);
    reason_in(kind_by(a, b), at_a, at_b, position)
}

// The same, of strands each of which may be refused.
fn reason_by(
    a: Result<Option<EncodedStrand>, Refusal>,
    b: Result<Option<EncodedStrand>, Refusal>,
    position: usize,
) -> Result<NoCallReason, Refusal>
    ensures { result ≡ reason_by (told_by a.entry) (told_by b.entry) position }
{
    reason_given(a?, b?, position)
}

// Why a position of the record that two strands make shows N: `no_call_reason` over bytes. Depths and errors are two bytes a position,
// evidence nine (mark, unconverted, converted). What is there or annotated is 0 for no, any other number for yes; a pattern is 0 for C to
// T, 1 for G to A. Of a strand that is not there nothing is looked at, and its pattern and evidence only with an annotation. Refuses by
// 13, 7, 8, as `gedrashiw_duplex_consensus` does without reads and by settings that refuse nothing, whether or not there is a record.
#[unsafe(no_mangle)]
pub extern "C" fn gedrashiw_no_call_reason(
    a_present: u8,
    a_annotated: u8,
    a_pattern: u8,
    a_bases: &[u8],
    a_quals: &[u8],
    a_depths: &[u8],
    a_errors: &[u8],
    a_evidence: &[u8],
    b_present: u8,
    b_annotated: u8,
    b_pattern: u8,
    b_bases: &[u8],
    b_quals: &[u8],
    b_depths: &[u8],
    b_errors: &[u8],
    b_evidence: &[u8],
    position: usize,
) -> Reason
    ensures { result ≡ reason_for (bytes_reason
        (wrong_encoded_pattern (told a_present a_annotated) a_pattern || wrong_encoded_pattern (told b_present b_annotated) b_pattern)
        (strand_given a_present a_annotated a_pattern a_bases.now a_quals.now a_depths.now a_errors.now a_evidence.now)
        (strand_given b_present b_annotated b_pattern b_bases.now b_quals.now b_depths.now b_errors.now b_evidence.now)
        position) }
{
    let a = EncodedStrand::new(a_bases, a_quals, a_depths, a_errors);
    let b = EncodedStrand::new(b_bases, b_quals, b_depths, b_errors);
    let a = strand_told(a_present, a_annotated, a_pattern, a, a_evidence);
    let b = strand_told(b_present, b_annotated, b_pattern, b, b_evidence);
    Reason::from(reason_by(a, b, position))
}
