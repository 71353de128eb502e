// The reads of a run: the next one, how many there are, and their errors. A run, as an encoded molecule (the tray of document 01)
// and the entry points for C have it, is whole fields of the tag-length-value encoding, each a read. A read's bases stay a part of it.
// Uses lists, refusals, fields, molecule_fields and source_reads.
#![tactic(auto)]

ghost use Rattle.std.specs.Prelude.{◌≡◌, [], ◌∷◌, drop};
ghost use Rattle.source_reads.specs.Arrays.{combined_in, shown_in};
ghost use Rattle.source_reads.specs.Reads.{shown_errors, counted_errors};
ghost use Rattle.molecule_reads.specs.Run.{reads_of, next_read, counted};

use fields::next_field;
use molecule_fields::{is_read, read_flags};
use refusals::{Refusal, refuse};
use source_reads::{
    CombinedBases, ExpectedBases, ShownBases, SourceRead, add_read_errors, counted_within,
};

// The bytes from a place of a run on; past its end none.
fn bytes_from(run: &[u8], at: usize) -> &[u8]
    ensures { result.now ≡ drop at run.now }
{
    run.get(at..).unwrap_or(&[])
}

// The read that begins at a place of a run, or none where no bytes are left. The next one begins at its offset plus its length
// (`NextReads`). Refuses by 13 where what is left does not begin with a whole field that is a read.
#[tactic(auto, using(crate::proofs::Next::end_next, crate::proofs::Next::none_next, crate::proofs::Next::cut_next, crate::proofs::Next::next_is, crate::proofs::Next::parted))]
pub fn next_read(run: &[u8], at: usize) -> Result<Option<SourceRead>, Refusal>
    ensures { result ≡ next_read run.now at }
{
    // Speed: behind this branch there are bytes, and a walk need not wait for what stands where there are none, which took half as long again.
    if run.len() <= at {
        return Ok(None);
    }
    let Some(f) = next_field(bytes_from(run, at))? else {
        return Ok(None);
    };
    refuse(!is_read(f.tag, f.value.len()), Refusal::Broken)?;
    // The bases follow the flags, to the field's end.
    let length = f.value.len() - 2;
    let end = run.len() - f.rest.len();
    Ok(Some(SourceRead {
        flags: read_flags(f),
        offset: end - length,
        length,
    }))
}

// How many reads a run has up to its end or to where it is broken, and whether it is whole: a broken one is refused by 13.
#[derive(Clone, Copy)]
pub struct ReadCount {
    pub count: usize,
    pub whole: Result<(), Refusal>,
}

// Adds the errors of a read at the first positions, no more than there are numbers, against what it should show. Where nothing is shown,
// as of a run that is only counted, its bases are not looked for.
#[tactic(auto, using(source_reads::proofs::Counted::none_shown))]
fn add_shown_read(read: SourceRead, run: &[u8], shown: ShownBases<'_>, errors: &mut [u16])
    ensures { errors.new ≡ shown_errors (read ∷ []) run.now (shown_in shown.entry) errors.old }
{
    if shown.positions == 0 {
        return;
    }
    add_read_errors(read, run, shown, errors);
}

// Walks a run once: how many reads it has, and the errors of each added. One walk for both: where a read is depends on those before it, so
// that a second walk would wait for each read's bytes again. Of a broken run, the reads before the break count.
#[tactic(auto, using(crate::proofs::Run::next_further, crate::proofs::Run::next_within, crate::proofs::Run::run_end, crate::proofs::Run::run_broken, crate::proofs::Walk::same_length, crate::proofs::Walk::all_counted, crate::proofs::Walk::broken_counted))]
fn count_shown_run(run: &[u8], shown: ShownBases<'_>, errors: &mut [u16]) -> ReadCount
    ensures count { result ≡ counted run.now }
    ensures errors { errors.new ≡ shown_errors (reads_of run.now) run.now (shown_in shown.entry) errors.old }
{
    let mut count = 0;
    let mut at = 0;
    // No index is counted up: a walk goes by what was read.
    loop {
        match next_read(run, at) {
            Ok(Some(read)) => {
                add_shown_read(read, run, shown, errors);
                count += 1;
                at = read.offset + read.length;
            }
            Ok(None) => return ReadCount {
                count,
                whole: Ok(()),
            },
            Err(refusal) => return ReadCount {
                count,
                whole: Err(refusal),
            },
        }
    }
}

// How many reads a run has.
pub fn count_reads(run: &[u8]) -> ReadCount
    ensures { result ≡ counted run.now }
{
    let nothing = ShownBases {
        positions: 0,
        first: &[],
        last: &[],
    };
    count_shown_run(run, nothing, &mut [])
}

// How many reads a run has, and, in the same walk, the errors of each added at the first positions: as many as are asked for, no more
// than each array has, and no more than a strand may have. Of a broken run, the reads before the break count.
#[tactic(auto, using(source_reads::proofs::Counted::none_counted, source_reads::proofs::Counted::as_expected))]
pub fn count_run(run: &[u8], s: CombinedBases<'_>, errors: &mut [u16]) -> ReadCount
    ensures count { result ≡ counted run.now }
    ensures errors { errors.new ≡ counted_errors (reads_of run.now) run.now (combined_in s.entry) errors.old }
{
    if counted_within(s, errors.len()) == 0 {
        return count_reads(run);
    }
    let expected = ExpectedBases::counted(s, errors.len());
    count_shown_run(run, expected.shown(), errors)
}
