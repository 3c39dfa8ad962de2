//! Bytes moved within a buffer, many at a time.
ghost use Rattle.std.specs.Prelude.{◌≡◌, ◌+◌, ◌-◌, ◌≤◌, length, drop};
ghost use Rattle.std.specs.List.{copy_within};
ghost use lib.Seq.{paste};

/// How many bytes are moved at once at most.
const PART: usize = 4096;

/// Up to so many bytes are moved by way of a buffer that is made as fast as they are moved.
const FEW: usize = 256;

/// Moves a part of at most as many bytes as the second buffer has, by way of that buffer.
fn move_part(bytes: &mut [u8], between: &mut [u8], from: usize, to: usize, count: usize)
    requires few { count ≤ length between.old }
    requires source { from + count ≤ length bytes.old }
    requires target { to + count ≤ length bytes.old }
    ensures { bytes.new ≡ paste bytes.old to (drop from bytes.old) count }
{
    between[..count].copy_from_slice(&bytes[from..from + count]);
    bytes[to..to + count].copy_from_slice(&between[..count]);
}

/// Moves few bytes at once.
fn move_few(bytes: &mut [u8], from: usize, to: usize, count: usize)
    requires few { count ≤ FEW }
    requires source { from + count ≤ length bytes.old }
    requires target { to + count ≤ length bytes.old }
    ensures { bytes.new ≡ paste bytes.old to (drop from bytes.old) count }
{
    let mut between = [0u8; FEW];
    move_part(bytes, &mut between, from, to, count);
}

/// Moves bytes towards the front, the first ones first.
#[inline(never)]
fn move_down(bytes: &mut [u8], from: usize, to: usize, count: usize)
    requires down { to ≤ from }
    requires within { from + count ≤ length bytes.old }
    ensures { bytes.new ≡ paste bytes.old to (drop from bytes.old) count }
{
    let mut between = [0u8; PART];
    let mut done = 0;
    while done < count {
        let size = PART.min(count - done);
        move_part(bytes, &mut between, from + done, to + done, size);
        done += size;
    }
}

/// Moves bytes towards the end, the last ones first.
#[inline(never)]
fn move_up(bytes: &mut [u8], from: usize, to: usize, count: usize)
    requires up { from ≤ to }
    requires within { to + count ≤ length bytes.old }
    ensures { bytes.new ≡ paste bytes.old to (drop from bytes.old) count }
{
    let mut between = [0u8; PART];
    let mut left = count;
    while 0 < left {
        let size = PART.min(left);
        move_part(
            bytes,
            &mut between,
            from + (left - size),
            to + (left - size),
            size,
        );
        left -= size;
    }
}

/// Moves the bytes between two places to another place, which they may overlap.
pub(crate) fn move_bytes(bytes: &mut [u8], start: usize, end: usize, target: usize)
    requires order { start ≤ end }
    requires source { end ≤ length bytes.old }
    requires room { target + (end - start) ≤ length bytes.old }
    ensures len { length bytes.new ≡ length bytes.old }
    ensures after { bytes.new ≡ copy_within bytes.old start end target }
{
    let count = end - start;
    if target == start {
        return;
    }
    if count <= FEW {
        move_few(bytes, start, target, count);
    } else if target < start {
        move_down(bytes, start, target, count);
    } else {
        move_up(bytes, start, target, count);
    }
}
