// Bytes copied from one part of memory to another, and parts of them.
#![tactic(auto)]

ghost use Rattle.std.specs.Prelude.{◌≡◌, ◌+◌, ◌≤◌, min, length, take, drop};
ghost use Rattle.laws.specs.Rows.{over};

const BLOCK: usize = 4096;

// Copies src, of 4,096 bytes at most, over dst, which is as long. They go through an array of their own, so that the
// compiler sees them all read before any is written, and makes one call of C's memmove: `copy_from_slice` alone
// becomes a loop that moves sixteen bytes at a time.
fn copy_block(dst: &mut [u8], src: &[u8])
    requires { (length dst.old ≡ length src.now) × (length src.now ≤ 4096) }
    ensures { dst.new ≡ src.now }
{
    let mut held = [0u8; BLOCK];
    let waiting = &mut held[..src.len()];
    waiting.copy_from_slice(src);
    dst.copy_from_slice(waiting);
}

// The n bytes from `start` on, or as many of them as there are.
pub fn part<'a>(bytes: &'a [u8], start: usize, n: usize) -> &'a [u8]
    ensures result_value { result.now ≡ take n (drop start bytes.now) }
    ensures ref_ptr_value { result.ref_ptr ≡ (bytes.entry.ref_ptr.0, min start (length bytes.now) + bytes.entry.ref_ptr.1) }
{
    let from = start.min(bytes.len());
    let size = n.min(bytes.len() - from);
    &bytes[from..from + size]
}

// Copies the front of src over the front of dst: as many bytes as both have.
pub fn copy_front(dst: &mut [u8], src: &[u8])
    ensures { dst.new ≡ over (take (length dst.old) src.now) dst.old }
{
    let n = dst.len().min(src.len());
    for at in (0..n).step_by(BLOCK) {
        let end = n.min(at + BLOCK);
        copy_block(&mut dst[at..end], &src[at..end]);
    }
}
