//! BLAKE2s over plain words, as RFC 7693, 3.1 and 3.2, writes it: for digests that no caller
//! reaches in a test's time.

use blake2_compress::consts::{BLAKE2S_IV, SIGMA};

// G: mixes four words with two of the block (3.1).
fn mix(a: u32, b: u32, c: u32, d: u32, x: u32, y: u32) -> [u32; 4] {
    let a = a.wrapping_add(b).wrapping_add(x);
    let d = (d ^ a).rotate_right(16);
    let c = c.wrapping_add(d);
    let b = (b ^ c).rotate_right(12);
    let a = a.wrapping_add(b).wrapping_add(y);
    let d = (d ^ a).rotate_right(8);
    let c = c.wrapping_add(d);
    let b = (b ^ c).rotate_right(7);
    [a, b, c, d]
}

// A round: mixes the columns, and then the diagonals, which begin in the same places.
fn round(v: [u32; 16], m: &[u32; 16], row: &[usize; 16]) -> [u32; 16] {
    let mut v = v;
    for k in 0..8usize {
        let turn = k / 4;
        let a = k % 4;
        let b = 4 + (a + turn) % 4;
        let c = 8 + (a + 2 * turn) % 4;
        let d = 12 + (a + 3 * turn) % 4;
        let x = m[row[2 * k] % 16];
        let y = m[row[2 * k + 1] % 16];
        let [p, q, r, s] = mix(v[a], v[b], v[c], v[d], x, y);
        v[a] = p;
        v[b] = q;
        v[c] = r;
        v[d] = s;
    }
    v
}

// F: the chaining words after a block (3.2).
pub(crate) fn compress(h: [u32; 8], block: &[u8; 64], counter: u64, last: bool) -> [u32; 8] {
    let mut m = [0; 16];
    for (i, word) in m.iter_mut().enumerate() {
        if let Some(bytes) = block[..].as_chunks::<4>().0.get(i) {
            *word = u32::from_le_bytes(*bytes);
        }
    }
    let mut v = [0; 16];
    v[..8].copy_from_slice(&h);
    v[8..].copy_from_slice(&BLAKE2S_IV);
    v[12] ^= (counter % (1 << 32)) as u32;
    v[13] ^= (counter >> 32) as u32;
    if last {
        v[14] ^= u32::MAX;
    }
    for row in SIGMA {
        v = round(v, &m, &row);
    }
    let mut h = h;
    for (i, word) in h.iter_mut().enumerate() {
        *word ^= v[i % 8] ^ v[8 + i % 8];
    }
    h
}
