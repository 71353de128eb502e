// 32-bit numbers as hexadecimal text: eight digits, most significant first, in lower case. Uses lists.
// Not by `write!` with {:08x}: tried into fixed memory, the arm where it fails stays open, and this never does; a String needs a heap.
#![tactic(auto)]

ghost use Rattle.std.specs.Prelude.{◌≡◌, ◌-◌, ◌<◌, length, take};
ghost use Rattle.lists.specs.Output.{put};
ghost use Rattle.hexadecimal.specs.Hexadecimal.{hex_digit, digit_at, hexadecimal};

// How many digits a 32-bit number has.
pub const HEXADECIMAL_DIGITS: usize = 8;

// Not by `char::from_digit`: it answers an Option of a char, and neither is wanted here.
fn hex_digit(value: u8) -> u8
    requires { value < 16 }
    ensures { result ≡ hex_digit value }
{
    if value < 10 {
        b'0' + value
    } else {
        b'a' + (value - 10)
    }
}

#[tactic(auto, unfolding(crate::specs::Hexadecimal::digit_at))]
fn digit_at(n: u32, place: usize) -> u8
    requires { place < 8 }
    ensures { result ≡ digit_at n place }
{
    let weight = 16u32.pow(7 - place as u32);
    hex_digit((n / weight % 16) as u8)
}

// Writes as many of a number's eight digits as there is room for to the front of out, and answers how many digits it has.
#[tactic(auto, using(crate::proofs::Hexadecimal::length_hexadecimal))]
pub fn write_hexadecimal(n: u32, out: &mut [u8]) -> usize
    ensures value { result ≡ length (hexadecimal n) }
    ensures out_after { out.new ≡ put (take (length out.old) (hexadecimal n)) out.old }
{
    // By index: of what is written through out.iter_mut().enumerate().take(8) the proof learns no digit (tried).
    for i in 0..out.len().min(HEXADECIMAL_DIGITS) {
        out[i] = digit_at(n, i);
    }
    HEXADECIMAL_DIGITS
}
