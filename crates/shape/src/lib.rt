// Shapes by value, and the canonical order of a tensor's elements (01, "Element types"; "Rank at most 6": shapes as arrays by value).
#![tactic(auto)]

ghost use Rattle.std.specs.Prelude.{◌≡◌, ◌*◌, ◌≤◌, ◌<◌, max, min, take, unwrap_or, IfSome};
ghost use Rattle.shape.specs.Index.{size, volume, unravel, ravel, Within, is_within, element_at, in_six};
ghost use Rattle.shape.specs.Place.{place_in};
ghost use Rattle.shape.specs.Dims.{dims_of, Sized, Fills};

use limits::Limits;

// The first rank numbers of dims are the dimensions.
#[derive(Clone, Copy)]
pub struct Shape {
    pub rank: usize,
    pub dims: [usize; Limits::RANK],
}

// The number of elements.
pub fn size_of(s: Shape) -> usize
    requires { Sized s }
    ensures { result ≡ size (dims_of s) }
{
    let mut n = 1;
    for d in &s.dims[..s.rank] {
        n *= d;
    }
    n
}

// n times d, 0 counted as 1, and 4097 for every product above 4096.
fn capped_product(n: usize, d: usize) -> usize
    requires { (1 ≤ n) × (n ≤ 4097) }
    ensures { result ≡ min (n * max 1 d) 4097 }
{
    n.saturating_mul(d.max(1)).min(Limits::PAST_VOLUME)
}

// The product of the dimensions with every 0 counted as 1, and 4097 for every product above 4096: no sum or product wraps.
pub fn volume_of(s: Shape) -> usize
    requires { s.rank ≤ 6 }
    ensures { result ≡ min (volume (dims_of s)) 4097 }
{
    let mut n = 1;
    for &d in &s.dims[..s.rank] {
        n = capped_product(n, d);
    }
    n
}

// The index at a canonical position.
pub fn index_at(s: Shape, k: usize) -> [usize; Limits::RANK]
    requires { Sized s × (k < size (dims_of s)) }
    ensures { result ≡ in_six (unravel (dims_of s) k) }
{
    let mut step = size_of(s);
    let mut left = k;
    let mut index = [0; Limits::RANK];
    for d in 0..s.rank {
        step /= s.dims[d];
        index[d] = left / step;
        left %= step;
    }
    index
}

// The canonical position of an index.
pub fn position(s: Shape, index: [usize; Limits::RANK]) -> usize
    requires { Sized s × Within (dims_of s) index }
    ensures { result ≡ ravel (dims_of s) index }
{
    let mut p = 0;
    for d in 0..s.rank {
        p = p * s.dims[d] + index[d];
    }
    p
}

// Whether each coordinate is below its dimension.
pub fn within(s: Shape, index: [usize; Limits::RANK]) -> bool
    requires { s.rank ≤ 6 }
    ensures { result ≡ is_within (dims_of s) index }
{
    s.dims[..s.rank]
        .iter()
        .zip(index.iter())
        .all(|(&d, &i)| i < d)
}

// The element at an index, or z where it is no index of the shape.
pub fn element_at(x: &[u64], s: Shape, index: [usize; Limits::RANK], z: u64) -> u64
    requires { Sized s × Fills x.now s }
    ensures { result ≡ element_at x.now (dims_of s) index z }
{
    if within(s, index) {
        x[position(s, index)]
    } else {
        z
    }
}

// The first place of x among the first count numbers.
pub fn place_in(list: [usize; Limits::LIST], count: usize, x: usize) -> Option<usize>
    requires { count ≤ 6 }
    ensures place { unwrap_or result count ≡ place_in (take count list) x }
    ensures within { IfSome result (λ p. p < count) }
{
    list[..count].iter().position(|&y| y == x)
}
