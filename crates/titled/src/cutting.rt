//! Where a line ends, and where the next title line begins.
// Two functions: one looks for a byte and the other for two, so the scans differ.
ghost use Rattle.std.specs.Prelude.{◌≡◌, ℕ, ◌+◌, ◌-◌, ◌<◌, ◌≤◌, length, slice_index};
ghost use Rattle.titled.specs.Titles.{TitleBehind};

/// How many bytes the first line has, its newline included.
pub(crate) fn line_end(bytes: &[u8]) -> usize
    ensures within { result ≤ length bytes.now }
    ensures further { 0 < length bytes.now → 0 < result }
    ensures behind_a_newline { result < length bytes.now → slice_index bytes.now (result - 1) ≡ 10 }
    ensures none_before { (k : ℕ) → k + 1 < result → slice_index bytes.now k ≡ 10 → ⊥ }
{
    bytes
        .iter()
        .position(|byte| *byte == b'\n')
        .map_or(bytes.len(), |at| at + 1)
}

/// Where the next title line begins, or the end.
pub(crate) fn next_title(bytes: &[u8]) -> usize
    ensures within { result ≤ length bytes.now }
    ensures further { 0 < length bytes.now → 0 < result }
    ensures behind_a_newline { result < length bytes.now → TitleBehind bytes.now (result - 1) }
    ensures none_before { (k : ℕ) → k + 1 < result → TitleBehind bytes.now k → ⊥ }
{
    bytes
        .windows(2)
        .position(|pair| pair == b"\n#".as_slice())
        .map_or(bytes.len(), |at| at + 1)
}
