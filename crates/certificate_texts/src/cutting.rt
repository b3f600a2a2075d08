// Cutting a text at a mark.
ghost use Rattle.std.specs.Prelude.{◌≡◌, ◌≢◌, ◌<◌, ◌≤◌, ◌++◌, ℕ, length, slice_index};
ghost use Rattle.certificate_lines.specs.Cutting.{Lacks, Starts};

// The place of the first such byte, or the number of bytes.
fn place_of(text: &[u8], mark: u8) -> usize
    ensures within { result ≤ length text.now }
    ensures before { (k : ℕ) → k < result → slice_index text.now k ≢ mark }
    ensures found { result < length text.now → slice_index text.now result ≡ mark }
{
    for (i, byte) in text.iter().enumerate() {
        if *byte == mark {
            return i;
        }
    }
    text.len()
}

/// What stands before the first such mark, and the rest from that mark on.
pub(crate) fn cut(text: &[u8], mark: u8) -> (&[u8], &[u8])
    ensures joined { text.now ≡ result.0.now ++ result.1.now }
    ensures lacks { Lacks mark result.0.now }
    ensures starts { Starts mark result.1.now }
{
    let place = place_of(text, mark);
    (&text[..place], &text[place..])
}
