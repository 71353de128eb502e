// Methylation evidence of a simplex consensus, from methylation.rs, as an entry point over numbers. Uses lists, refusals, dna,
// methylation, replies and source_reads.
#![tactic(auto)]

ghost use Rattle.std.specs.Prelude.{◌≡◌, ℕ, false, cond, ◌&&◌, ◌+◌, ◌-◌, ◌<◌, ◌≤◌, min, length, replicate, option_map};
ghost use Rattle.lists.specs.Output.{put};
ghost use Rattle.lists.specs.Table.{Tells};
ghost use Rattle.refusals.specs.Refusal.{FewReads};
ghost use Rattle.methylation.specs.Arrays.{evidence_arrays, HasPlaces, PutsEvidence};
ghost use Rattle.methylation.specs.Choices.{pattern_of, wrong_pattern};
ghost use Rattle.methylation.specs.Outputs.{evidence_out, SameEvidence};
ghost use Rattle.replies.specs.Choices.{yes};
ghost use Rattle.source_reads.specs.Reads.{read_leaves, any_leaves};
ghost use Rattle.simplex_methylation.specs.Simplex.{setting, setting_in, is_letter, marks_of, added, Countable, AddedAs, AnnotatedAs, EvidencedAs, evidence};

use dna::to_ascii_uppercase;
use lists::{get_or, part};
use methylation::{ConversionPattern, EvidenceOutputs, PatternBases, evidence_too_short};
use refusals::{MAX_POSITIONS, MAX_READS, Refusal, refuse};
use replies::Count;
use source_reads::{SourceRead, SourceReads, list_leaves};

// The reads, and what all have in common: the pattern, how many positions the consensus has, the reference bases by position, and the
// bytes of their alignment marks, or none where every position is counted.
#[derive(Clone, Copy)]
struct Common<'a> {
    pattern: ConversionPattern,
    consensus_len: usize,
    list: SourceReads<'a>,
    reference: &'a [u8],
    aligned: Option<&'a [u8]>,
}

// Whether a read shows the unconverted letter at a position, and whether the converted one.
#[derive(Clone, Copy)]
struct ShownLetters {
    unconverted: bool,
    converted: bool,
}

// Whether a base is a capital letter, or its lower case.
#[tactic(auto, unfolding(crate::specs::Simplex::is_letter))]
fn is_letter(letter: u8, base: u8) -> bool
    ensures { result ≡ is_letter letter base }
{
    to_ascii_uppercase(base) == letter
}

// Marks the positions whose reference base is the letter. Past the reference's end there is none.
#[tactic(auto, using(crate::proofs::Counts::flag_byte, lists::proofs::Output::begin, lists::proofs::Table::length_tabulate, lists::proofs::Told::next_table), unfolding(crate::specs::Simplex::marks_of, crate::specs::Simplex::informative))]
fn mark_informative(letter: u8, reference: &[u8], consensus_len: usize, marks_out: &mut [u8])
    requires { consensus_len ≤ length marks_out.old }
    ensures { marks_out.new ≡ put (marks_of letter reference.now consensus_len) marks_out.old }
{
    // By index: the reference may end before the position. The count stands beside the whole output: of a part that is lent, the proof of
    // the caller's loop did not close, as was tried with `clear`.
    for i in 0..consensus_len {
        marks_out[i] = u8::from(is_letter(letter, get_or(reference, i, 0)));
    }
}

// No read is counted at the first n positions. Not written out where it is called: of a part of a slice of the lent outputs, the proof of
// the loop that follows did not close.
#[tactic(auto, using(crate::proofs::Counts::filled))]
fn clear(n: usize, counts_out: &mut [u32])
    requires { n ≤ length counts_out.old }
    ensures { counts_out.new ≡ put (replicate n 0) counts_out.old }
{
    counts_out[..n].fill(0);
}

// One more where a read counts. Of at most 1,024 reads no count comes near the limit at which the Rust's stays.
#[tactic(auto, using(crate::proofs::Counts::one_added, crate::proofs::Counts::flag_small))]
fn count_one(so_far: u32, met: bool) -> u32
    requires { so_far < 1024 }
    ensures { result ≡ cond met (so_far + 1) so_far }
{
    so_far + u32::from(met)
}

// Counts what a read shows at each of the first n positions, as a closure answers it. By index: the closure asks for a place in other arrays.
// Both counts in one loop: in one loop for each, the aligned bases of 40 reads of 150 positions take 8,790 ns in place of 5,650.
#[tactic(auto, using(crate::proofs::Counts::kept, crate::proofs::Counts::few))]
fn add_counts<F: Fn(usize) -> ShownLetters>(n: usize, shows: F, out: &mut EvidenceOutputs<'_>)
    requires unconverted { Countable n out.old.unconverted.now }
    requires converted { Countable n out.old.converted.now }
    requires answers { (i : ℕ) → i < n → F.pre shows i }
    ensures same_references { SameEvidence out.old out.new }
    ensures marks { out.new.marks.now ≡ out.old.marks.now }
    ensures added { (told : ℕ → ShownLetters) → Tells n (F.post shows) told
        → (out.new.unconverted.now ≡ put (added n (λ i. (told i).unconverted) out.old.unconverted.now) out.old.unconverted.now)
        × (out.new.converted.now ≡ put (added n (λ i. (told i).converted) out.old.converted.now) out.old.converted.now) }
{
    let unconverted_out = &mut *out.unconverted;
    let converted_out = &mut *out.converted;
    for i in 0..n {
        let shown = shows(i);
        unconverted_out[i] = count_one(unconverted_out[i], shown.unconverted);
        converted_out[i] = count_one(converted_out[i], shown.converted);
    }
}

// What a base shows where it counts.
fn shown(letters: PatternBases, base: u8, counts: bool) -> ShownLetters
    ensures { result ≡ record { unconverted = counts && is_letter letters.unconverted base; converted = counts && is_letter letters.converted base } }
{
    ShownLetters {
        unconverted: counts & is_letter(letters.unconverted, base),
        converted: counts & is_letter(letters.converted, base),
    }
}

// How many positions of a read at an offset have a reference base and an alignment mark: at most `places`, and none past the end
// of either.
fn marked_places(places: usize, reference: usize, offset: usize, aligned: usize) -> usize
    ensures { result ≡ min (min places reference) (aligned - offset) }
{
    places.min(reference).min(aligned.saturating_sub(offset))
}

// Adds one read to the counts of the positions that it reaches.
#[tactic(auto, using(crate::proofs::OneRead::within))]
fn add_read(common: Common<'_>, read: SourceRead, out: &mut EvidenceOutputs<'_>)
    requires inside { read_leaves (length common.list.bytes.now) read ≡ false }
    requires unconverted { Countable common.consensus_len out.old.unconverted.now }
    requires converted { Countable common.consensus_len out.old.converted.now }
    ensures same_references { SameEvidence out.old out.new }
    ensures marks { out.new.marks.now ≡ out.old.marks.now }
    ensures added { AddedAs (setting_in common.entry) read common.entry.consensus_len
        out.old.unconverted.now out.old.converted.now
        out.new.unconverted.now out.new.converted.now }
{
    let letters = common.pattern.bases();
    let offset = read.offset;
    let reached = common.consensus_len.min(read.length);
    let Some(aligned) = common.aligned else {
        let bases = part(common.list.bytes, offset, reached);
        add_counts(bases.len(), |i| shown(letters, bases[i], true), out);
        return;
    };
    let reference = common.reference;
    let places = marked_places(reached, reference.len(), offset, aligned.len());
    let bases = part(common.list.bytes, offset, places);
    let marks = part(aligned, offset, places);
    let counts = |i: usize| is_letter(letters.reference, reference[i]) & (marks[i] != 0);
    add_counts(bases.len(), |i| shown(letters, bases[i], counts(i)), out);
}

// The marks and counts of the consensus, where there is room and no read leaves its bytes. At most 1,024 reads.
// What is required of the reads is no ghost field: of `Common` itself the imports would go in a circle, since `setting_in` reads it, and a
// struct around it would be asked by this one function.
fn write_evidence(common: Common<'_>, out: &mut EvidenceOutputs<'_>)
    requires few { FewReads common.list.reads.now }
    requires inside { any_leaves (length common.list.bytes.now) common.list.reads.now ≡ false }
    requires room { HasPlaces common.consensus_len (evidence_out out.old) }
    ensures same_references { SameEvidence out.old out.new }
    ensures puts { PutsEvidence (evidence (setting_in common.entry) common.entry.list.reads.now common.entry.consensus_len) (evidence_out out.old) (evidence_out out.new) }
{
    let letters = common.pattern.bases();
    let n = common.consensus_len;
    mark_informative(letters.reference, common.reference, n, out.marks);
    clear(n, out.unconverted);
    clear(n, out.converted);
    for &read in common.list.reads {
        add_read(common, read, out);
    }
}

// The same as a call of the library, of a pattern's number. Refuses by 13, 7, 9, 10, 12, and answers how many are written.
fn annotate_simplex_methylation(
    pattern: u8,
    list: SourceReads<'_>,
    reference: &[u8],
    aligned: Option<&[u8]>,
    consensus_len: usize,
    out: &mut EvidenceOutputs<'_>,
) -> Result<usize, Refusal>
    ensures same_references { SameEvidence out.old out.new }
    ensures evidenced { EvidencedAs (wrong_pattern pattern)
        (record { pattern = pattern_of pattern; bytes = list.entry.bytes.now; reference = reference.now; aligned = option_map (λ marks. marks.now) aligned.entry })
        list.entry.reads.now consensus_len (evidence_out out.old) (evidence_out out.new) result }
{
    let pattern = ConversionPattern::try_from(pattern)?;
    let leaving = list_leaves(list.reads, list.bytes.len());
    refuse(MAX_POSITIONS < consensus_len, Refusal::TooLong)?;
    refuse(MAX_READS < list.reads.len(), Refusal::TooManyReads)?;
    refuse(leaving, Refusal::PartOutside)?;
    refuse(
        evidence_too_short(consensus_len, out.lengths()),
        Refusal::OutputTooShort,
    )?;
    let common = Common {
        pattern,
        consensus_len,
        list,
        reference,
        aligned,
    };
    write_evidence(common, out);
    Ok(consensus_len)
}

// Marks the consensus positions whose reference base is the pattern's (C for C to T, G for G to A), in any case, and counts there
// the reads that show it unconverted and converted, where they are aligned. With `count_all_positions` every base of every read
// is counted. Bases, and alignment marks (0 is none), are in the orientation in which the reads were sequenced, and so is
// `reference`: a byte for each consensus position, 0 where there is none. The mark of a base lies in `aligned` where the base lies
// in `bytes`; one past the end is none. A pattern is 1 for C to T, 2 for G to A; `count_all_positions` is 0 for no, any other number for
// yes. Refuses by 13, 7, 9, 10, 12.
#[unsafe(no_mangle)]
pub extern "C" fn gedrashiw_annotate_simplex_methylation(
    consensus_len: usize,
    reads: &[SourceRead],
    bytes: &[u8],
    reference: &[u8],
    pattern: u8,
    aligned: &[u8],
    count_all_positions: u8,
    marks_out: &mut [u8],
    unconverted_out: &mut [u32],
    converted_out: &mut [u32],
) -> Count
    ensures { AnnotatedAs (wrong_pattern pattern) (setting (pattern_of pattern) bytes.now reference.now aligned.now (yes count_all_positions)) reads.now consensus_len
        (evidence_arrays marks_out.old unconverted_out.old converted_out.old)
        (evidence_arrays marks_out.new unconverted_out.new converted_out.new)
        result }
{
    let mut out = EvidenceOutputs {
        marks: marks_out,
        unconverted: unconverted_out,
        converted: converted_out,
    };
    let aligned = (count_all_positions == 0).then_some(aligned);
    let answer = annotate_simplex_methylation(
        pattern,
        SourceReads { reads, bytes },
        reference,
        aligned,
        consensus_len,
        &mut out,
    );
    Count::from(answer)
}
