//! The effect of calls on the bytes of a disk in memory.

ghost use Rattle.std.specs.Prelude.{◌≡◌, ◌+◌, ◌-◌, ◌≤◌, length, vec_len, vec_capacity};
ghost use Rattle.crsm_port_image.specs.Bytes.{overwritten, ReadsAt};
ghost use Rattle.crsm_port_image.specs.Image.{ranged};
ghost use Rattle.crsm_disk.specs.Ranges.{painted_on};

// A range that was written.
#[derive(Clone, Copy)]
pub(crate) struct Range {
    pub(crate) at: u64,
    pub(crate) count: usize,
}

// Copies as many bytes from offset `at` on as there are and fit, and returns their number.
pub(crate) fn copy(bytes: &[u8], at: u64, buf: &mut [u8]) -> usize
    ensures { ReadsAt bytes.now at buf.old buf.new result }
{
    let from = at.min(bytes.len() as u64) as usize;
    let behind = &bytes[from..];
    let n = buf.len().min(behind.len());
    buf[..n].copy_from_slice(&behind[..n]);
    n
}

// Overwrites bytes from offset `at` on, and fills a gap before it with zeros. The caller has reserved the room.
pub(crate) fn overwrite(bytes: &mut Vec<u8>, at: usize, piece: &[u8])
    requires { vec_len bytes.old + ((at - vec_len bytes.old) + length piece.now) ≤ vec_capacity bytes.old }
    ensures items { bytes.new.items ≡ overwritten bytes.old.items at piece.now }
    ensures len { vec_len bytes.new ≤ vec_len bytes.old + ((at - vec_len bytes.old) + length piece.now) }
    ensures capacity { vec_capacity bytes.old ≤ vec_capacity bytes.new }
{
    if at <= bytes.len() && piece.len() <= bytes.len() - at {
        bytes[at..at + piece.len()].copy_from_slice(piece);
    } else {
        let _ = bytes.resize(at, 0);
        let _ = bytes.extend_from_slice(piece);
    }
}

// Sets ranges to `fill`, up to the end of the image.
pub(crate) fn paint(image: &mut [u8], ranges: &[Range], fill: u8)
    ensures { image.new ≡ painted_on ranges.now fill image.old }
{
    for range in ranges {
        paint_range(image, range.at as usize, range.count, fill);
    }
}

fn paint_range(image: &mut [u8], at: usize, count: usize, fill: u8)
    ensures { image.new ≡ ranged at count fill image.old }
{
    let from = at.min(image.len());
    let to = from + count.min(image.len() - from);
    image[from..to].fill(fill);
}
