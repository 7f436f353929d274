// Bytes that are copied to the front of a buffer.
ghost use Rattle.std.specs.Prelude.{◌≡◌, ◌<◌, ◌+◌, ◌^◌, drop, length, take, min};

/// Copies the bytes from this place on, as many as there is room for, and says how many.
pub fn copy_from(bytes: &[u8], place: usize, buf: &mut [u8]) -> usize
    ensures front { take result buf.new ≡ take result (drop place bytes.now) }
    ensures count { result ≡ min (length (drop place bytes.now)) (length buf.old) }
    ensures fits { place + result < 2 ^ 64 }
{
    if place >= bytes.len() {
        return 0;
    }
    let rest = &bytes[place..];
    let count = rest.len().min(buf.len());
    buf[..count].copy_from_slice(&rest[..count]);
    count
}
