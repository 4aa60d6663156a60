//! Writes digits into a buffer, without needless zeros and with the point moved.

ghost use Rattle.std.specs.Prelude.{◌≡◌, ◌+◌, ◌<◌, ◌≤◌, ◌++◌, ◌==◌, pos, negsuc, ℕ, [], ◌∷◌, length, take, replicate, unsigned_abs};
ghost use Rattle.ix_base.specs.Decimals.{pointed};
ghost use Rattle.scale_sign.specs.Scaled.{signed};
ghost use Rattle.scale_sign.specs.WrittenDigits.{strip, or_zero, cut, stripped_rest, cut_rest, zeros_by, moved_decimal};

use crate::parts::are_empty;

// Writes one byte.
fn put(out: &mut [u8], at: usize, byte: u8) -> usize
    requires { at < length out.old }
    ensures count { result ≡ at + 1 }
    ensures wrote { take result out.new ≡ take at out.old ++ byte ∷ [] }
{
    out[at] = byte;
    at + 1
}

// Writes these bytes.
fn put_all(out: &mut [u8], at: usize, bytes: &[u8]) -> usize
    requires { at + length bytes.now ≤ length out.old }
    ensures count { result ≡ at + length bytes.now }
    ensures wrote { take result out.new ≡ take at out.old ++ bytes.now }
{
    let mut end = at;
    for byte in bytes {
        end = put(out, end, *byte);
    }
    end
}

// Writes zeros.
fn put_zeros(out: &mut [u8], at: usize, count: usize) -> usize
    requires { at + count ≤ length out.old }
    ensures count { result ≡ at + count }
    ensures wrote { take result out.new ≡ take at out.old ++ replicate count 48 }
{
    let mut end = at;
    for _i in 0..count {
        end = put(out, end, b'0');
    }
    end
}

/// The digits without the zeros in front.
pub fn stripped(bytes: &[u8]) -> &[u8]
    ensures value { result.now ≡ strip bytes.now }
    ensures bound { length result.now ≤ length bytes.now }
{
    let mut start = 0;
    while start < bytes.len() && bytes[start] == b'0' {
        start += 1;
    }
    &bytes[start..]
}

/// The digits without the zeros at the end.
pub fn trimmed(bytes: &[u8]) -> &[u8]
    ensures value { result.now ≡ cut bytes.now }
    ensures bound { length result.now ≤ length bytes.now }
{
    let mut end = bytes.len();
    while 0 < end && bytes[end - 1] == b'0' {
        end -= 1;
    }
    &bytes[..end]
}

// The rest of the bytes behind others, without the zeros in front of all of them.
fn stripped_after<'a>(before: &[u8], bytes: &'a [u8]) -> &'a [u8]
    ensures value { before.now ++ result.now ≡ stripped_rest before.now bytes.now }
    ensures bound { length result.now ≤ length bytes.now }
{
    if before.is_empty() {
        stripped(bytes)
    } else {
        bytes
    }
}

// The bytes in front of others, without the zeros at the end of all of them.
fn trimmed_before<'a>(bytes: &'a [u8], after: &[u8]) -> &'a [u8]
    ensures value { result.now ++ after.now ≡ cut_rest bytes.now after.now }
    ensures bound { length result.now ≤ length bytes.now }
{
    if after.is_empty() {
        trimmed(bytes)
    } else {
        bytes
    }
}

// So many zeros, but none where nothing stands beside them.
fn zeros_beside(first: &[u8], second: &[u8], count: usize) -> usize
    ensures value { result ≡ zeros_by (first.now ++ second.now) count }
    ensures bound { result ≤ count }
{
    if are_empty(first, second) { 0 } else { count }
}

// Writes the digits in front of the point, the zeros last.
fn write_whole(out: &mut [u8], at: usize, first: &[u8], second: &[u8], zeros: usize) -> usize
    requires { at + length first.now + length second.now + zeros < length out.old }
    ensures bound { result ≤ at + length first.now + length second.now + zeros + 1 }
    ensures more { at < result }
    ensures wrote { take result out.new ≡ take at out.old ++ or_zero (strip ((first.now ++ second.now) ++ replicate zeros 48)) }
{
    let first = stripped(first);
    let second = stripped_after(first, second);
    let zeros = zeros_beside(first, second, zeros);
    let end = put_all(out, at, first);
    let end = put_all(out, end, second);
    let end = put_zeros(out, end, zeros);
    if end == at { put(out, at, b'0') } else { end }
}

// Writes the digits behind the point, the zeros first, and the point where there are some.
fn write_fraction(out: &mut [u8], at: usize, zeros: usize, first: &[u8], second: &[u8]) -> usize
    requires { at + length first.now + length second.now + zeros < length out.old }
    ensures bound { result ≤ at + length first.now + length second.now + zeros + 1 }
    ensures wrote { take result out.new ≡ take at out.old ++ pointed (cut (replicate zeros 48 ++ (first.now ++ second.now))) }
{
    let second = trimmed(second);
    let first = trimmed_before(first, second);
    let zeros = zeros_beside(first, second, zeros);
    if are_empty(first, second) {
        at
    } else {
        let end = put(out, at, b'.');
        let end = put_zeros(out, end, zeros);
        let end = put_all(out, end, first);
        put_all(out, end, second)
    }
}

// Writes the decimal with its point moved to the right.
fn write_raised(out: &mut [u8], at: usize, front: &[u8], back: &[u8], places: usize) -> usize
    requires { at + length front.now + length back.now + places + 2 ≤ length out.old }
    ensures bound { result ≤ length out.new }
    ensures wrote { take result out.new ≡ take at out.old ++ moved_decimal (pos places) front.now back.now }
{
    let moved = places.min(back.len());
    let end = write_whole(out, at, front, &back[..moved], places - moved);
    write_fraction(out, end, 0, &back[moved..], &[])
}

// Writes the decimal with its point moved to the left.
fn write_lowered(out: &mut [u8], at: usize, front: &[u8], back: &[u8], places: usize) -> usize
    requires room { at + length front.now + length back.now + places + 2 ≤ length out.old }
    ensures bound { result ≤ length out.new }
    ensures wrote { (s : ℕ) → s + 1 ≡ places →
        take result out.new ≡ take at out.old ++ moved_decimal (negsuc s) front.now back.now }
{
    let kept = front.len().saturating_sub(places);
    let end = write_whole(out, at, &front[..kept], &[], 0);
    let zeros = places - (front.len() - kept);
    write_fraction(out, end, zeros, &front[kept..], back)
}

// Writes a minus where there is one.
pub fn put_sign(out: &mut [u8], negative: bool) -> usize
    requires { 0 < length out.old }
    ensures bound { result ≤ 1 }
    ensures wrote { take result out.new ≡ signed negative [] }
{
    if negative { put(out, 0, b'-') } else { 0 }
}

// Writes the decimal of these parts with its point moved by the scale. No power of ten is ever a machine number.
pub fn write_moved(out: &mut [u8], at: usize, front: &[u8], back: &[u8], scale: i32) -> usize
    requires room { at + length front.now + length back.now + unsigned_abs scale + 2 ≤ length out.old }
    ensures bound { result ≤ length out.new }
    ensures wrote { take result out.new ≡ take at out.old ++ moved_decimal scale front.now back.now }
{
    if scale < 0 {
        write_lowered(out, at, front, back, scale.unsigned_abs() as usize)
    } else {
        write_raised(out, at, front, back, scale.unsigned_abs() as usize)
    }
}
