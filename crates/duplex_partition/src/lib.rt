// The partition of a molecule's reads by strand, from duplex_caller.rs. Uses lists and refusals only.
#![tactic(auto)]

ghost use Rattle.std.specs.Prelude.{◌≡◌, ◌≤◌, length};
ghost use Rattle.lists.specs.Output.{put};
ghost use Rattle.refusals.specs.Refusal.{FewReads};
ghost use Rattle.refusals.specs.Outcome.{answer};
ghost use Rattle.duplex_partition.specs.Partition.{strand_of, read_strand, offence, first_offence, mi_leaves, any_mi_leaves, on_a, on_b, base_mi, PartitionedAs};

use lists::{part, part_leaves};
use refusals::{MAX_READS, Refusal, refuse};

// A read's MI as a part of a byte buffer, or none, as C lays it out.
#[repr(C)]
#[derive(Clone, Copy, Debug, Default, PartialEq, Eq)]
pub struct MiPart {
    // Whether there is one (0: no).
    pub present: usize,
    pub offset: usize,
    pub length: usize,
}

// The strand that an MI names by its last two bytes; with the number that C sees.
#[derive(Clone, Copy, Debug, PartialEq, Eq)]
pub enum MiStrand {
    A = 1,
    B = 2,
}

// The first read's MI without its last two bytes, as a part of the caller's bytes: C is told where it is, and no slice comes back.
#[derive(Clone, Copy)]
pub struct BaseMi {
    pub offset: usize,
    pub length: usize,
}

// So many read numbers are written to the list of A and to that of B. No reads have no base MI.
#[derive(Clone, Copy)]
pub struct Partition {
    pub a: usize,
    pub b: usize,
    pub base_mi: Option<BaseMi>,
}

// How many numbers each list has. Not duplex_reads's StrandCounts, nor one type for both: that is what a gate compares with its
// thresholds, in their u32; these become a Partition's lengths, and neither crate uses the other.
#[derive(Clone, Copy)]
struct Counts {
    a: usize,
    b: usize,
}

// A molecule's reads, and the bytes that their MIs are parts of.
#[derive(Clone, Copy)]
struct MiReads<'a> {
    reads: &'a [MiPart],
    bytes: &'a [u8],
}

// The strand that an MI ending in /A or /B names. Any other names none.
pub fn extract_strand_from_mi_bytes(mi_bytes: &[u8]) -> Option<MiStrand>
    ensures { result ≡ strand_of mi_bytes.now }
{
    match mi_bytes {
        [.., b'/', b'A'] => Some(MiStrand::A),
        [.., b'/', b'B'] => Some(MiStrand::B),
        _ => None,
    }
}

fn read_strand(bytes: &[u8], read: MiPart) -> Option<MiStrand>
    ensures { result ≡ read_strand bytes.now read }
{
    extract_strand_from_mi_bytes(part(bytes, read.offset, read.length))
}

// Refuses a read by 5 without an MI, and by 6 where it names no strand.
fn read_offence(bytes: &[u8], read: MiPart) -> Result<(), Refusal>
    ensures { result ≡ answer (offence bytes.now read) tt }
{
    refuse(read.present == 0, Refusal::NoMi)?;
    refuse(read_strand(bytes, read).is_none(), Refusal::NoStrand)
}

fn read_leaves(size: usize, read: MiPart) -> bool
    ensures { result ≡ mi_leaves size read }
{
    (read.present != 0) & part_leaves(read.offset, read.length, size)
}

impl MiReads<'_> {
    // Whether some read's MI leaves the bytes.
    fn any_leaves(self) -> bool
        ensures { result ≡ any_mi_leaves (length self.entry.bytes.now) self.entry.reads.now }
    {
        let size = self.bytes.len();
        self.reads.iter().any(|&read| read_leaves(size, read))
    }

    // Refuses by the first read at fault.
    fn first_offence(self) -> Result<(), Refusal>
        ensures { result ≡ answer (first_offence self.entry.bytes.now self.entry.reads.now) tt }
    {
        for &read in self.reads {
            read_offence(self.bytes, read)?;
        }
        Ok(())
    }

    // Writes the numbers of the reads of A and of B, and answers how many. So few that a read's number fits its 16 bits.
    fn write_partition(self, a_out: &mut [u16], b_out: &mut [u16]) -> Counts
        requires reads_len_bound { FewReads self.reads.now }
        requires reads_in_bounds { (length self.reads.now ≤ length a_out.old) × (length self.reads.now ≤ length b_out.old) }
        ensures a_value { (result.a ≡ length (on_a self.entry.bytes.now self.entry.reads.now)) × (result.b ≡ length (on_b self.entry.bytes.now self.entry.reads.now)) }
        ensures a_out_after { a_out.new ≡ put (on_a self.entry.bytes.now self.entry.reads.now) a_out.old }
        ensures b_out_after { b_out.new ≡ put (on_b self.entry.bytes.now self.entry.reads.now) b_out.old }
    {
        // Two lists grow, each by its own reads: an iterator over a list's places would have a `None` to answer for at each of its reads.
        let mut a = 0;
        let mut b = 0;
        for (i, &read) in self.reads.iter().enumerate() {
            match read_strand(self.bytes, read) {
                Some(MiStrand::A) => {
                    a_out[a] = i as u16;
                    a += 1;
                }
                Some(MiStrand::B) => {
                    b_out[b] = i as u16;
                    b += 1;
                }
                None => {}
            }
        }
        Counts { a, b }
    }

    // The first read's MI without its last two bytes.
    fn base_mi(self) -> Option<BaseMi>
        ensures { result ≡ base_mi self.entry.reads.now }
    {
        let first = self.reads.first()?;
        Some(BaseMi {
            offset: first.offset,
            length: first.length.saturating_sub(2),
        })
    }
}

// The numbers of the reads of strand A and of B, each in arrival order. Refuses by 9, 10, 12, then 5 or 6 by the first read
// at fault.
#[tactic(auto, using(crate::proofs::Offence::own_rows))]
pub fn partition_records_by_strand(
    reads: &[MiPart],
    bytes: &[u8],
    a_out: &mut [u16],
    b_out: &mut [u16],
) -> Result<Partition, Refusal>
    ensures { PartitionedAs reads.now bytes.now a_out.old b_out.old a_out.new b_out.new result }
{
    let n = reads.len();
    // One value here: whoever calls for C has the two apart.
    let given = MiReads { reads, bytes };
    refuse(MAX_READS < n, Refusal::TooManyReads)?;
    refuse(given.any_leaves(), Refusal::PartOutside)?;
    refuse(
        (a_out.len() < n) | (b_out.len() < n),
        Refusal::OutputTooShort,
    )?;
    given.first_offence()?;
    let counts = given.write_partition(a_out, b_out);
    Ok(Partition {
        a: counts.a,
        b: counts.b,
        base_mi: given.base_mi(),
    })
}
