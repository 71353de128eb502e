// The source reads of a duplex record as a run of reads, as an encoded molecule and the entry points for C have them: how many are
// listed, and their errors. Uses refusals, vanilla_caller, duplex_molecule, duplex_kind, duplex_consensus, molecule_fields and molecule_reads, and a
// definition of source_reads.
#![tactic(auto)]

ghost use Rattle.std.specs.Prelude.{◌≡◌, is_some};
ghost use Rattle.duplex_kind.specs.Kind.{given_of};
ghost use Rattle.duplex_consensus.specs.Consensus.{combined_of, counted_positions};
ghost use Rattle.source_reads.specs.Reads.{counted_errors};
ghost use Rattle.molecule_reads.specs.Run.{reads_of};
ghost use Rattle.molecule_errors.specs.Run.{run_in, count_listed, listed};

use duplex_consensus::combined_bases;
use duplex_kind::{DuplexConsensus, GivenReads};
use molecule_reads::{ReadCount, count_reads, count_run};
use refusals::Refusal;
use vanilla_caller::VanillaConsensusRead;

// How many reads are listed. Without a list no run is looked at.
pub fn count_listed(run: Option<&[u8]>) -> Option<ReadCount>
    ensures { result ≡ count_listed (is_some run.entry) (run_in run.entry) }
{
    run.map(count_reads)
}

// The list of reads that a run is, of which no part leaves it. Refuses by 13 where it is broken.
pub fn read_list(run: Option<&[u8]>) -> Result<Option<GivenReads>, Refusal>
    ensures { result ≡ listed (is_some run.entry) (run_in run.entry) }
{
    let Some(reads) = count_listed(run) else {
        return Ok(None);
    };
    reads.whole?;
    Ok(Some(GivenReads {
        count: reads.count,
        leaving: false,
    }))
}

// Counts the errors of a record that was made: all positions of a record of two strands with a list. No other run is walked, and a refusal
// of any type that is Copy will do. A and B are the two operands, as the caller has them.
#[tactic(auto, using(duplex_consensus::proofs::Counting::none_asked))]
pub fn count_errors<E: Copy>(
    made: Result<Option<DuplexConsensus>, E>,
    run: Option<&[u8]>,
    a: Option<VanillaConsensusRead>,
    b: Option<VanillaConsensusRead>,
    errors: &mut [u16],
)
    ensures { errors.new ≡ counted_errors (reads_of (run_in run.entry)) (run_in run.entry)
        (combined_of (given_of a.entry) (given_of b.entry) (counted_positions (is_some run.entry) made)) errors.old }
{
    if let (Ok(Some(DuplexConsensus::Both(n))), Some(run)) = (made, run) {
        count_run(run, combined_bases(a, b, n), errors);
    }
}
