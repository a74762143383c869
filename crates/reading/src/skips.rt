// The bytes that a call skipped, and how many of them were what.
ghost use Rattle.std.specs.Prelude.{◌≡◌, slice_index, take, drop};
ghost use Rattle.reading.specs.Skips.{byte_in, Counted};

// How many bytes were skipped that are neither D3 nor B5, that are D3, and that are B5. Sums go round at 2^64.
#[derive(Clone, Copy)]
pub struct Skips {
    pub others: u64,
    pub d3: u64,
    pub b5: u64,
}

impl Skips {
    pub fn none() -> Skips
        ensures { result ≡ record { others = 0; d3 = 0; b5 = 0 } }
    {
        Skips {
            others: 0,
            d3: 0,
            b5: 0,
        }
    }

    // One more byte that was skipped.
    pub fn count(self, byte: u8) -> Skips
        ensures { Counted self byte result }
    {
        match byte {
            0xD3 => Skips {
                d3: self.d3.wrapping_add(1),
                ..self
            },
            0xB5 => Skips {
                b5: self.b5.wrapping_add(1),
                ..self
            },
            _ => Skips {
                others: self.others.wrapping_add(1),
                ..self
            },
        }
    }
}

// The byte at place i of the first `count` bytes of an area and of the bytes of a piece from `from` on, as one stream; 0 if
// there is none.
pub fn byte_at(area: &[u8], count: usize, piece: &[u8], from: usize, i: usize) -> u8
    ensures { result ≡ byte_in area.now count piece.now from i }
{
    if i < count {
        return byte_or(area, i);
    }
    match from.checked_add(i - count) {
        Some(j) => byte_or(piece, j),
        None => 0,
    }
}

// The byte at a place; 0 if there is none.
fn byte_or(bytes: &[u8], i: usize) -> u8
    ensures { result ≡ slice_index bytes.now i }
{
    bytes.get(i).copied().unwrap_or(0)
}

// The first n bytes, or all of them.
pub(crate) fn front(bytes: &[u8], n: usize) -> &[u8]
    ensures { result.now ≡ take n bytes.now }
{
    &bytes[..n.min(bytes.len())]
}

// The bytes from place n on, if there are any.
pub(crate) fn behind(bytes: &[u8], n: usize) -> &[u8]
    ensures { result.now ≡ drop n bytes.now }
{
    &bytes[n.min(bytes.len())..]
}
