// An answer put into lent arrays.
ghost use Rattle.std.specs.Prelude.{◌≡◌};
ghost use Rattle.lent.specs.Given.{put_in};

// At most so many items are put.
const MOST: usize = 16;

// Items in the first places of a lent array: at most 16, and all of them or none.
fn put<T: Copy>(out: &mut [T], xs: &[T])
    ensures { out.new ≡ put_in xs.now out.old }
{
    let n = xs.len();
    if n <= MOST && n <= out.len() {
        out[..n].copy_from_slice(xs);
    }
}

// Numbers in the first places of a lent array: at most 16, and all of them or none.
pub fn put_numbers(out: &mut [f64], xs: &[f64])
    ensures { out.new ≡ put_in xs.now out.old }
{
    put(out, xs)
}

// Whole numbers in the first places of a lent array: at most 16, and all of them or none.
pub fn put_wholes(out: &mut [u64], zs: &[u64])
    ensures { out.new ≡ put_in zs.now out.old }
{
    put(out, zs)
}
