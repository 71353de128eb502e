// Numbers as decimal text, most significant digit first and without leading zeros. Uses lists (its laws only).
// Not by `write!` and Display: into fixed memory its clause leaves open that it fails, and this never does; a String needs a heap.
#![tactic(auto)]

ghost use Rattle.std.specs.Prelude.{◌≡◌, ◌+◌, ◌<◌, length, take, set};
ghost use Rattle.lists.specs.Output.{put};
ghost use Rattle.decimal.specs.Decimal.{decimal, digit};

// The character of a digit at a place of out, if that is there.
fn write_digit(value: u8, out: &mut [u8], at: usize)
    requires { value < 10 }
    ensures { out.new ≡ set out.old at (digit value) }
{
    if at < out.len() {
        out[at] = b'0' + value;
    }
}

// Writes as much of a number's text as there is room for to the front of out, and answers how many digits the number has.
#[tactic(auto, using(crate::proofs::Decimal::length_one, crate::proofs::Decimal::length_more, crate::proofs::Decimal::digits_within, crate::proofs::Decimal::put_first, crate::proofs::Decimal::put_more))]
pub fn write_decimal(n: u64, out: &mut [u8]) -> usize
    ensures value { result ≡ length (decimal n) }
    ensures out_after { out.new ≡ put (take (length out.old) (decimal n)) out.old }
{
    if n < 10 {
        write_digit(n as u8, out, 0);
        return 1;
    }
    let at = write_decimal(n / 10, out);
    write_digit((n % 10) as u8, out, at);
    at + 1
}
