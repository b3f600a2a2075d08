// The files of sheets.
ghost use Rattle.std.specs.Prelude.{◌≡◌, ◌==◌, ◌≢◌, [], IfSome, option_map};
ghost use Rattle.std.specs.List.{list_all, slice_split};
ghost use Rattle.command_line.specs.Words as line;

/// Whether each word is a sheet's file.
pub(crate) fn are_sheets(words: &[String]) -> bool
    ensures { result ≡ list_all line.is_sheet (line.texts_of words.now) }
{
    words.iter().all(|word| is_sheet(word.as_str()))
}

// Whether the word is a sheet's file.
fn is_sheet(word: &str) -> bool
    ensures { result ≡ line.is_sheet word.now }
{
    stem_of(word).is_some()
}

/// What stands behind the last slash and before the ending `.csv`, where that isn't empty.
pub fn stem_of(word: &str) -> Option<&str>
    ensures stem { option_map (λ s. s.now) result ≡ line.stem_of word.now }
    ensures some { IfSome result (λ s. s.now ≢ []) }
{
    let Some(path) = before_csv(word) else {
        return None;
    };
    let stem = last_part(path);
    if stem.is_empty() { None } else { Some(stem) }
}

// What stands before the ending `.csv`.
fn before_csv(word: &str) -> Option<&str>
    ensures { option_map (λ s. s.now) result ≡ line.before_csv word.now }
{
    word.strip_suffix(".csv")
}

// What stands behind the last slash.
fn last_part(path: &str) -> &str
    ensures { result.now ≡ line.last_part (slice_split (λ b. b == 47) path.now) }
{
    match path.rsplit_once('/') {
        Some((_, part)) => part,
        None => path,
    }
}
