// Total reads, copies, fronts and parts of slices, for any element type. The laws on lists and on lent outputs that every crate
// cites are in specs/ and proofs/, over any element type too. Uses nothing.
#![tactic(auto)]

ghost use Rattle.std.specs.Prelude.{◌≡◌, length, take, get_or};
ghost use Rattle.lists.specs.Output.{put};
ghost use Rattle.lists.specs.Part.{leaves, part};

// The element at a place, or another value past the end.
pub fn get_or<T: Copy>(xs: &[T], place: usize, otherwise: T) -> T
    ensures { result ≡ get_or xs.now place otherwise }
{
    // Not get and unwrap_or: those ask T: Drop of callers.
    if place < xs.len() {
        xs[place]
    } else {
        otherwise
    }
}

// Writes as much of xs as there is room for to the front of out.
pub fn copy<T: Copy>(xs: &[T], out: &mut [T])
    ensures { out.new ≡ put (take (length out.old) xs.now) out.old }
{
    let n = out.len().min(xs.len());
    // By index: copy_from_slice calls memmove, which whoever links the library for C would have to bring.
    for i in 0..n {
        out[i] = xs[i];
    }
}

// The first n elements, or all where there are fewer.
pub fn front<T>(xs: &[T], n: usize) -> &[T]
    ensures { result.now ≡ take n xs.now }
{
    xs.get(..n).unwrap_or(xs)
}

// The part of so many elements from an offset on; empty where it would leave the buffer.
pub fn part<T>(xs: &[T], offset: usize, count: usize) -> &[T]
    ensures { result.now ≡ part offset count xs.now }
{
    // Not get: whether the part is there is part_leaves, which callers ask too; get would need the sum tested first.
    if part_leaves(offset, count, xs.len()) {
        return &[];
    }
    &xs[offset..offset + count]
}

// Whether the part of so many elements from an offset on leaves a buffer of a size. The sum of the two may pass a machine word.
pub fn part_leaves(offset: usize, count: usize, size: usize) -> bool
    ensures { result ≡ leaves offset count size }
{
    if size < offset {
        return true;
    }
    size - offset < count
}
