// Numbers as bytes, low byte first, for each type of number in use: read from bytes, and written as bytes to a lent output, as many
// whole numbers as there is room for. Its specs also have groups of one width, for what is made of several numbers. Uses lists.
#![tactic(auto)]

ghost use Rattle.std.specs.Prelude.{◌≡◌, ◌/◌, ◌<◌, List, ℕ, length, take};
ghost use Rattle.lists.specs.Output.{put};
ghost use Rattle.byte_numbers.specs.Bytes.{number_of, bytes_of, all_bytes};
ghost use Rattle.byte_numbers.specs.Groups.{by_group};
ghost use Rattle.byte_numbers.specs.Lengths.{length_bytes};
ghost use Rattle.std.proofs.Common.{rules};

use lists::{copy, get_or};

// A type of number that stands as so many bytes.
pub trait LittleEndian: Copy {
    ghost SIZE: { ℕ };

    const SIZE: usize;

    ghost nought: { Self };

    ghost of_bytes: { List ℕ → Self };

    ghost to_bytes: { Self → List ℕ };

    // The number of the first bytes; where there are fewer than it has, those above are 0.
    fn from_bytes(bytes: &[u8]) -> Self
        ensures { result ≡ of_bytes (take SIZE bytes.now) };

    // Writes as many of its bytes as there is room for to the front of out.
    fn write_bytes(self, out: &mut [u8])
        ensures { out.new ≡ put (take (length out.old) (to_bytes self)) out.old };

    ghost some: { 0 < SIZE };

    ghost fixed: { (x : Self) → length (to_bytes x) ≡ SIZE };
}

impl LittleEndian for u16 {
    ghost SIZE = { 2 };

    const SIZE: usize = 2;

    ghost nought = { 0 };

    ghost of_bytes = { number_of };

    ghost to_bytes = { bytes_of 2 };

    ghost some = { Prim.search rules };

    ghost fixed = { length_bytes 2 };

    #[tactic(auto, using(crate::proofs::Bytes::two_le))]
    fn from_bytes(bytes: &[u8]) -> u16 {
        u16::from_le_bytes([get_or(bytes, 0, 0), get_or(bytes, 1, 0)])
    }

    #[tactic(auto, using(crate::proofs::Bytes::le_bytes16))]
    fn write_bytes(self, out: &mut [u8]) {
        copy(&self.to_le_bytes(), out);
    }
}

impl LittleEndian for u32 {
    ghost SIZE = { 4 };

    const SIZE: usize = 4;

    ghost nought = { 0 };

    ghost of_bytes = { number_of };

    ghost to_bytes = { bytes_of 4 };

    ghost some = { Prim.search rules };

    ghost fixed = { length_bytes 4 };

    #[tactic(auto, using(crate::proofs::Bytes::four_le))]
    fn from_bytes(bytes: &[u8]) -> u32 {
        u32::from_le_bytes([
            get_or(bytes, 0, 0),
            get_or(bytes, 1, 0),
            get_or(bytes, 2, 0),
            get_or(bytes, 3, 0),
        ])
    }

    #[tactic(auto, using(crate::proofs::Bytes::le_bytes32))]
    fn write_bytes(self, out: &mut [u8]) {
        copy(&u32::to_le_bytes(self), out);
    }
}

// Reads as many numbers as out has room for.
pub fn read<N: LittleEndian>(bytes: &[u8], out: &mut [N])
    ensures { out.new ≡ put (take (length out.old) (by_group N.SIZE N.of_bytes bytes.now)) out.old }
{
    let size = N::SIZE;
    let n = out.len().min(bytes.len() / size);
    // By index: of what is written through out.iter_mut().zip(bytes.chunks_exact(size)) the proof learns no number (tried).
    for i in 0..n {
        let at = size * i;
        out[i] = N::from_bytes(&bytes[at..at + size]);
    }
}

// Writes the bytes of as many numbers as out has room for.
pub fn write<N: LittleEndian>(numbers: &[N], out: &mut [u8])
    ensures { out.new ≡ put (all_bytes N.to_bytes N.nought (take (length out.old / N.SIZE) numbers.now)) out.old }
{
    let size = N::SIZE;
    let n = (out.len() / size).min(numbers.len());
    // By index: of what is written through numbers.iter().zip(out.chunks_exact_mut(size)) the proof learns no byte (tried).
    for i in 0..n {
        let at = size * i;
        numbers[i].write_bytes(&mut out[at..at + size]);
    }
}
