// Copies of bytes. Those of crate frames stay within it, since what is public asks nothing of its callers. By place: the
// library's copies, which were tried, are calls of memcpy and memmove, for which the archive would need a C library.
ghost use Rattle.std.specs.Prelude.{◌≡◌, ◌++◌, ◌+◌, ◌-◌, ◌^◌, ◌≤◌, ◌<◌, length, take, drop};
ghost use Rattle.bits.specs.Onto.{onto, over};

// Holds what stands from place i on, of the held bytes with the piece behind them, and tells how many bytes that are.
pub(crate) fn slide(held: &mut [u8], count: usize, piece: &[u8], i: usize) -> usize
    requires { (count ≤ length held.old) × (i ≤ count + length piece.now) × (count + length piece.now ≤ i + length held.old) × (count + length piece.now < 2 ^ 64) }
    ensures { (result ≡ count + length piece.now - i) × (held.new ≡ onto (drop i (take count held.old ++ piece.now)) held.old) }
{
    let n = count + piece.len() - i;
    if i == 0 {
        put_at(piece, held, count);
        return n;
    }
    if count <= i {
        put_at(&piece[i - count..piece.len()], held, 0);
        return n;
    }
    let m = count - i;
    shift(held, i, m);
    put_at(piece, held, m);
    n
}

// Moves n bytes from place i on to the front.
fn shift(held: &mut [u8], i: usize, n: usize)
    requires { i + n ≤ length held.old }
    ensures { held.new ≡ take n (drop i held.old) ++ drop n held.old }
{
    for k in 0..n {
        held[k] = held[i + k];
    }
}

// Writes the part over the output from byte i on.
pub(crate) fn put_at(part: &[u8], out: &mut [u8], i: usize)
    requires { i + length part.now ≤ length out.old }
    ensures { out.new ≡ over i part.now out.old }
{
    for k in 0..part.len() {
        out[i + k] = part[k];
    }
}
