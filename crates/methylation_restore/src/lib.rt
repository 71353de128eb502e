// Restoring the unconverted bases of a sequence by a strand's annotation, from methylation.rs, and a strand's bases so restored,
// from duplex_caller.rs. Uses lists, refusals, dna and methylation.
#![tactic(auto)]

ghost use Rattle.std.specs.Prelude.{◌≡◌, ◌≤◌, length};
ghost use Rattle.lists.specs.Output.{put};
ghost use Rattle.refusals.specs.Outcome.{answer, after};
ghost use Rattle.methylation.specs.Annotation.{pattern_held, evidence_held};
ghost use Rattle.methylation_restore.specs.Restore.{restored_base, restored_to, restored, restore_refused, strand_bases, strand_refused};

use dna::eq_ignore_ascii_case;
use lists::copy;
use methylation::{MethylationAnnotation, PatternBases};
use refusals::{MAX_POSITIONS, Refusal, refuse};

fn restored_base(letters: PatternBases, mark: u8, base: u8) -> u8
    ensures { result ≡ restored_base letters mark base }
{
    if (mark != 0) & eq_ignore_ascii_case(base, letters.converted) {
        letters.unconverted
    } else {
        base
    }
}

fn restore(bases: &mut [u8], letters: PatternBases, marks: &[u8])
    requires { length marks.now ≤ length bases.old }
    ensures { bases.new ≡ put (restored_to (length marks.now) letters marks.now bases.old) bases.old }
{
    // The bases by their place: of what is written through `iter_mut` the proof learns nothing.
    for (i, &mark) in marks.iter().enumerate() {
        bases[i] = restored_base(letters, mark, bases[i]);
    }
}

// Puts the unconverted letter, C or G, at each informative position whose base is the converted one, T or A, in any case. Every
// other base stays. Of the evidence the marks alone are looked at. Answers how many positions there are. Refuses by 7, 8.
pub fn restore_unconverted_bases(
    consensus_bases: &mut [u8],
    annotation: MethylationAnnotation<'_>,
) -> Result<usize, Refusal>
    ensures value { result ≡ answer (restore_refused consensus_bases.old annotation.entry.evidence.marks.now) (length consensus_bases.old) }
    ensures consensus_bases_after { consensus_bases.new ≡ after (restore_refused consensus_bases.old annotation.entry.evidence.marks.now) (restored annotation.entry.pattern annotation.entry.evidence.marks.now consensus_bases.old) consensus_bases.old }
{
    let n = consensus_bases.len();
    let marks = annotation.evidence.marks;
    let too_long = (MAX_POSITIONS < n) | (MAX_POSITIONS < marks.len());
    refuse(too_long, Refusal::TooLong)?;
    refuse(marks.len() != n, Refusal::Ragged)?;
    restore(consensus_bases, annotation.pattern.bases(), marks);
    Ok(n)
}

// A strand's bases, restored by its own annotation, of whose evidence the marks alone are looked at; without one a copy. Answers how many
// there are. Refuses by 7, 8, 12.
pub fn methylation_strand_bases(
    bases: &[u8],
    annotation: Option<MethylationAnnotation<'_>>,
    out: &mut [u8],
) -> Result<usize, Refusal>
    ensures value { result ≡ answer (strand_refused (pattern_held annotation.entry) bases.now (evidence_held annotation.entry).marks out.old) (length bases.now) }
    ensures out_after { out.new ≡ after (strand_refused (pattern_held annotation.entry) bases.now (evidence_held annotation.entry).marks out.old) (strand_bases (pattern_held annotation.entry) (evidence_held annotation.entry).marks bases.now) out.old }
{
    let n = bases.len();
    let marks_too_long = annotation.is_some_and(|m| MAX_POSITIONS < m.evidence.marks.len());
    let marks_ragged = annotation.is_some_and(|m| m.evidence.marks.len() != n);
    refuse((MAX_POSITIONS < n) | marks_too_long, Refusal::TooLong)?;
    refuse(marks_ragged, Refusal::Ragged)?;
    refuse(out.len() < n, Refusal::OutputTooShort)?;
    copy(bases, out);
    if let Some(m) = annotation {
        restore(out, m.pattern.bases(), m.evidence.marks);
    }
    Ok(n)
}
