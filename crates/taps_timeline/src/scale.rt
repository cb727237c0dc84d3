// Where a moment stands on a line.

/// From here on moments are counted in coarser units, so that products fit.
const LONG: u64 = 1 << 40;

const COARSE: u64 = 1 << 24;

/// The place, from 0 to `width`, of a moment between the first and the last.
pub fn place_of(at: u64, first: u64, last: u64, width: u64) -> u64 {
    let mut passed = at.saturating_sub(first);
    let mut whole = last.saturating_sub(first);
    if whole >= LONG {
        passed /= COARSE;
        whole /= COARSE;
    }
    if whole == 0 {
        0
    } else {
        (passed.saturating_mul(width) / whole).min(width)
    }
}
