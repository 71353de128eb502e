// The duplex record of strands given as bytes, written as bytes: what the entry point for C does. There is one way for strands with an
// annotation and without: bases and qualities are written where they go, evidence goes from bytes to bytes, and of a strand's numbers
// depths, errors and marks alone stand in arrays. Uses lists, refusals, settings, methylation, vanilla_caller, byte_numbers,
// molecule_evidence, molecule_strand, molecule_reads, duplex_molecule, duplex_arrays, duplex_evidence, duplex_kind, duplex_consensus,
// molecule_errors, molecule_consensus and c_record.
#![tactic(auto)]

ghost use Rattle.std.specs.Prelude.{◌≡◌, ◌/◌, ◌≤◌, [], is_some, length, take};
ghost use Rattle.lists.specs.Output.{put};
ghost use Rattle.settings.specs.Settings.{limited_to, told_by};
ghost use Rattle.vanilla_caller.specs.Strand.{annotation_in, arrays_in};
ghost use Rattle.byte_numbers.specs.Bytes.{bytes16};
ghost use Rattle.molecule_evidence.specs.Evidence.{marked_bytes, positions_marked};
ghost use Rattle.molecule_strand.specs.Strand.{encoded_in, numbers, strand_of, StrandRead};
ghost use Rattle.molecule_errors.specs.Run.{run_in};
ghost use Rattle.molecule_consensus.specs.Molecule.{molecule_in, seen_of};
ghost use Rattle.duplex_kind.specs.Limit.{lengths_of};
ghost use Rattle.duplex_molecule.specs.Molecule.{ct_input};
ghost use Rattle.duplex_arrays.specs.Positions.{PositionsAs};
ghost use Rattle.c_record.specs.Lent.{bytes_out, SameBytes};
ghost use Rattle.c_consensus.specs.Consensus.{MoleculeBytesAs};
ghost use Rattle.c_consensus.specs.Parts.{strand_read, StrandIs, settled_by, settled, within_limit, with_list, list_errors, errors_left, KeptAs, FitsIn, is_short};

use c_record::{ByteOutputs, written_of};
use duplex_arrays::{PositionOutputs, write_errors, write_positions};
use duplex_consensus::{combined_bases, counted_positions};
use duplex_evidence::write_marks;
use duplex_kind::{DuplexConsensus, limit_refusal};
use duplex_molecule::{CtInput, ct_input};
use lists::{copy, front};
use methylation::{ConversionPattern, EvidenceOutputs, EvidenceSlices};
use molecule_consensus::EncodedMolecule;
use molecule_evidence::write_marked;
use molecule_reads::count_run;
use molecule_strand::{EncodedStrand, kind_of_depths, read_strand, strand_of_numbers};
use refusals::{MAX_READS, Refusal, refuse};
use settings::{GivenSettings, Settings};
use vanilla_caller::{Lengths, VanillaConsensusRead};

fn annotation_of(s: Option<EncodedStrand>) -> Option<ConversionPattern>
    ensures { result ≡ (encoded_in s.entry).annotation }
{
    s.and_then(EncodedStrand::annotation)
}

// The bytes of a strand, of an absent one none.
fn bases_of<'a>(s: Option<EncodedStrand<'a>>) -> &'a [u8]
    ensures { result.now ≡ (encoded_in s.entry).bases }
{
    s.map_or(&[], |s| s.bases)
}

fn quals_of<'a>(s: Option<EncodedStrand<'a>>) -> &'a [u8]
    ensures { result.now ≡ (encoded_in s.entry).quals }
{
    s.map_or(&[], |s| s.quals)
}

fn evidence_of<'a>(s: Option<EncodedStrand<'a>>) -> &'a [u8]
    ensures { result.now ≡ (encoded_in s.entry).evidence }
{
    s.map_or(&[], EncodedStrand::evidence)
}

// Reads as many of a strand's depths, errors and marks as there is room for, and no counts of evidence.
fn read_to(s: Option<EncodedStrand>, depths: &mut [u16], errors: &mut [u16], marks: &mut [u8])
    ensures { StrandRead (encoded_in s.entry) (numbers depths.old errors.old marks.old [] []) (numbers depths.new errors.new marks.new [] []) }
{
    let mut evidence = EvidenceOutputs {
        marks,
        unconverted: &mut [],
        converted: &mut [],
    };
    read_strand(s, depths, errors, &mut evidence);
}

// The strand that was read to the front of these, or one of no positions. It has no counts of evidence.
fn strand_in<'a>(
    s: Option<EncodedStrand<'a>>,
    depths: &'a [u16],
    errors: &'a [u16],
    marks: &'a [u8],
) -> VanillaConsensusRead<'a>
    ensures { StrandIs (strand_read (encoded_in s.entry) (numbers depths.now errors.now marks.now [] [])) result }
{
    let evidence = EvidenceSlices::new(marks, &[], &[]);
    strand_of_numbers(s, depths, errors, evidence).unwrap_or(VanillaConsensusRead::new(
        &[],
        &[],
        &[],
        &[],
    ))
}

// The kind of a record and the settings that it is made by. Refuses by the kind's 13, then as the settings, then as the lengths by their
// limit, then by the kind's other rows.
fn settled(
    kind: Result<Option<DuplexConsensus>, Refusal>,
    settings: Result<Settings, Refusal>,
    within: Result<(), Refusal>,
) -> Result<(Option<DuplexConsensus>, Settings), Refusal>
    ensures { settled_by result ≡ settled (told_by settings) within kind }
{
    if let Err(Refusal::Broken) = kind {
        return Err(Refusal::Broken);
    }
    let settings = settings?;
    within?;
    Ok((kind?, settings))
}

// How long the numbers of a strand are that may be absent.
// Inlined, here and below, for speed: each call copies both strands.
#[inline(always)]
#[tactic(auto, using(crate::proofs::Limit::lengths_are), unfolding(molecule_strand::specs::Strand::strand_of))]
fn lengths_of(s: Option<EncodedStrand>) -> Option<Lengths>
    ensures { result ≡ lengths_of (strand_of (encoded_in s.entry)) }
{
    s.map(EncodedStrand::lengths)
}

// The rows that are tested of the lengths of two strands by a limit. Refuses by 7, 19.
#[inline(always)]
fn within_limit(
    limit: u16,
    a: Option<EncodedStrand>,
    b: Option<EncodedStrand>,
) -> Result<(), Refusal>
    ensures { result ≡ within_limit limit (encoded_in a.entry) (encoded_in b.entry) }
{
    limit_refusal(limit, lengths_of(a), lengths_of(b))
}

// The same with the list of reads, whose errors are counted where both strands make one record. The run is walked before these refuse
// anything: it is refused by 13, and a walk takes long. Refuses by 13, then as these, then by 9.
fn listed_kind(
    kind: Result<Option<DuplexConsensus>, Refusal>,
    settings: Result<Settings, Refusal>,
    within: Result<(), Refusal>,
    reads: Option<&[u8]>,
    a: VanillaConsensusRead,
    b: VanillaConsensusRead,
    errors: &mut [u16],
) -> Result<(Option<DuplexConsensus>, Settings), Refusal>
    ensures kind { settled_by result ≡ with_list (is_some reads.entry) (run_in reads.entry) (settled (told_by settings) within kind) }
    ensures errors { errors.new ≡ list_errors (is_some reads.entry) (run_in reads.entry) kind a.entry b.entry errors.old }
{
    let settled = settled(kind, settings, within);
    let Some(run) = reads else {
        return settled;
    };
    let s = combined_bases(Some(a), Some(b), counted_positions(kind, true));
    let list = count_run(run, s, errors);
    list.whole?;
    let settled = settled?;
    refuse(MAX_READS < list.count, Refusal::TooManyReads)?;
    Ok(settled)
}

// The errors of a record of two strands: those that were counted of a list, without one the estimate.
fn write_estimates(
    ct: CtInput,
    listed: bool,
    a: VanillaConsensusRead,
    b: VanillaConsensusRead,
    n: usize,
    errors: &mut [u16],
)
    ensures { errors.new ≡ errors_left ct listed n (arrays_in a.entry) (arrays_in b.entry) errors.old }
{
    if !listed {
        write_errors(ct, false, a, b, n, errors);
    }
}

// Bases, qualities and errors of the first n positions of two strands.
fn write_both(
    settings: Settings,
    a: VanillaConsensusRead,
    b: VanillaConsensusRead,
    listed: bool,
    n: usize,
    errors: &mut [u16],
    out: &mut ByteOutputs<'_>,
)
    ensures same_references { SameBytes out.old out.new }
    ensures positions { PositionsAs settings.ceiling.value n (ct_input (annotation_in a.entry) (annotation_in b.entry)) (arrays_in a.entry) (arrays_in b.entry)
        out.old.bases.now out.old.quals.now
        out.new.bases.now out.new.quals.now }
    ensures errors { out.new.errors.now ≡ put (bytes16 (take (length out.old.errors.now / 2) (take n (errors_left (ct_input (annotation_in a.entry) (annotation_in b.entry)) listed n (arrays_in a.entry) (arrays_in b.entry) errors.old)))) out.old.errors.now }
    ensures a_evidence { out.new.a_evidence.now ≡ out.old.a_evidence.now }
    ensures b_evidence { out.new.b_evidence.now ≡ out.old.b_evidence.now }
{
    let ct = ct_input(a.annotation(), b.annotation());
    let mut positions = PositionOutputs {
        bases: &mut *out.bases,
        quals: &mut *out.quals,
    };
    write_positions(settings.ceiling, ct, a, b, n, &mut positions);
    write_estimates(ct, listed, a, b, n, errors);
    byte_numbers::write(front(errors, n), out.errors);
}

// The evidence that a strand keeps at the first n positions of a record of two; none without an annotation. The marks that were read are
// written over: at this place nobody looks at them any more.
fn write_kept(
    ct: CtInput,
    s: Option<EncodedStrand>,
    a_bases: &[u8],
    b_bases: &[u8],
    n: usize,
    marks: &mut [u8],
    out: &mut [u8],
)
    ensures { KeptAs n ct (encoded_in s.entry) a_bases.now b_bases.now marks.old out.old out.new }
{
    let Some(pattern) = annotation_of(s) else {
        return;
    };
    write_marks(pattern, ct, a_bases, b_bases, n, marks);
    write_marked(front(marks, n), evidence_of(s), out);
}

// A strand alone, of n positions: its bytes as they are, by its errors and marks that were read.
fn write_single(
    s: Option<EncodedStrand>,
    n: usize,
    errors: &[u16],
    marks: &[u8],
    out: &mut ByteOutputs<'_>,
)
    ensures same_references { SameBytes out.old out.new }
    ensures bases { out.new.bases.now ≡ put (take (length out.old.bases.now) (encoded_in s.entry).bases) out.old.bases.now }
    ensures quals { out.new.quals.now ≡ put (take (length out.old.quals.now) (encoded_in s.entry).quals) out.old.quals.now }
    ensures errors { out.new.errors.now ≡ put (bytes16 (take (length out.old.errors.now / 2) (take n errors.now))) out.old.errors.now }
    ensures a_evidence { out.new.a_evidence.now ≡ put (marked_bytes (positions_marked (take n marks.now) (encoded_in s.entry).evidence out.old.a_evidence.now) (take n marks.now) (encoded_in s.entry).evidence) out.old.a_evidence.now }
    ensures b_evidence { out.new.b_evidence.now ≡ out.old.b_evidence.now }
{
    copy(bases_of(s), out.bases);
    copy(quals_of(s), out.quals);
    byte_numbers::write(front(errors, n), out.errors);
    write_marked(front(marks, n), evidence_of(s), out.a_evidence);
}

// The record, by arrays of N places, which no strand has more positions than that rows 7 and 19 let pass. A call clears them, which is
// most of what it takes longer than the call on numbers: hence as few places as will do, and no arrays for counts of evidence.
#[inline(always)]
fn consensus_within<const N: usize>(
    given: GivenSettings,
    m: EncodedMolecule,
    out: &mut ByteOutputs<'_>,
) -> Result<Option<DuplexConsensus>, Refusal>
    requires places { N ≤ 1024 }
    requires fits { FitsIn N given.limit (encoded_in m.a) × FitsIn N given.limit (encoded_in m.b) }
    ensures same_references { SameBytes out.old out.new }
    ensures made { MoleculeBytesAs given (seen_of (molecule_in m.entry))
        (bytes_out out.old)
        (bytes_out out.new)
        result }
{
    // No heap. No struct of a strand's three: of one of N places each a caller would have to prove that it fits in memory.
    let mut a_depths = [0; N];
    let mut a_errors = [0; N];
    let mut a_marks = [0; N];
    read_to(m.a, &mut a_depths, &mut a_errors, &mut a_marks);
    let mut b_depths = [0; N];
    let mut b_errors = [0; N];
    let mut b_marks = [0; N];
    read_to(m.b, &mut b_depths, &mut b_errors, &mut b_marks);
    let mut errors = [0; N];
    let of_strands = kind_of_depths(m.a, m.b, &a_depths, &b_depths);
    let a = strand_in(m.a, &a_depths, &a_errors, &a_marks);
    let b = strand_in(m.b, &b_depths, &b_errors, &b_marks);
    let within = within_limit(given.limit, m.a, m.b);
    let (kind, settings) = listed_kind(
        of_strands,
        given.tested(),
        within,
        m.reads,
        a,
        b,
        &mut errors,
    )?;
    let first = annotation_of(m.a);
    let second = annotation_of(m.b);
    out.refusal(written_of(first, second, kind))?;
    match kind {
        None => Ok(None),
        Some(DuplexConsensus::Ab(n)) => {
            write_single(m.a, n, &a_errors, &a_marks, out);
            Ok(kind)
        }
        Some(DuplexConsensus::Ba(n)) => {
            write_single(m.b, n, &b_errors, &b_marks, out);
            Ok(kind)
        }
        Some(DuplexConsensus::Both(n)) => {
            let listed = m.reads.is_some();
            write_both(settings, a, b, listed, n, &mut errors, out);
            let ct = ct_input(first, second);
            let a_bases = bases_of(m.a);
            let b_bases = bases_of(m.b);
            write_kept(ct, m.a, a_bases, b_bases, n, &mut a_marks, out.a_evidence);
            write_kept(ct, m.b, a_bases, b_bases, n, &mut b_marks, out.b_evidence);
            Ok(kind)
        }
    }
}

// Whether a strand has no more depths than so many.
fn is_short(s: Option<EncodedStrand>, places: usize) -> bool
    ensures { result ≡ is_short places (encoded_in s.entry) }
{
    s.is_none_or(|s| s.depths.len() / 2 <= places)
}

// The record of two strands, of one or of none, by a lab's settings. Evidence is not looked at without an annotation. Refuses by 13, 14,
// 7, 19, 8, 9, then by 12 for what is written.
#[tactic(auto, using(crate::proofs::Limit::fits_short, crate::proofs::Limit::fits_all))]
pub fn duplex_consensus_bytes(
    given: GivenSettings,
    m: EncodedMolecule,
    out: &mut ByteOutputs<'_>,
) -> Result<Option<DuplexConsensus>, Refusal>
    ensures same_references { SameBytes out.old out.new }
    ensures made { MoleculeBytesAs given (seen_of (molecule_in m.entry))
        (bytes_out out.old)
        (bytes_out out.new)
        result }
{
    // Strands of a read's usual length have fewer places.
    if is_short(m.a, 256) & is_short(m.b, 256) {
        return consensus_within::<256>(given, m, out);
    }
    if is_short(m.a, 512) & is_short(m.b, 512) {
        return consensus_within::<512>(given, m, out);
    }
    consensus_within::<1024>(given, m, out)
}

// The same of strands of no more positions than a preview shows, whatever the lab's limit: its memory is for no more.
#[tactic(auto, using(crate::proofs::Limit::fits_preview))]
pub fn preview_consensus_bytes(
    given: GivenSettings,
    m: EncodedMolecule,
    out: &mut ByteOutputs<'_>,
) -> Result<Option<DuplexConsensus>, Refusal>
    ensures same_references { SameBytes out.old out.new }
    ensures made { MoleculeBytesAs (limited_to 256 given) (seen_of (molecule_in m.entry))
        (bytes_out out.old)
        (bytes_out out.new)
        result }
{
    consensus_within::<256>(given.limited_to(256), m, out)
}
