// Files in a list, each with its name: which stands under a name, and putting bytes there.
ghost use Rattle.std.specs.Prelude.{◌≡◌, ◌↔◌, IsTrue, None, IfSome, IfNone, OnOk, OnErr, option_map};
ghost use Rattle.std.specs.FinMap as finmap;
ghost use Rattle.std.specs.List.{IsDistinct};
ghost use Rattle.std.specs.Str.{bytes_eq};
ghost use Rattle.solver_io.specs.Held.{IsPlaceOf, files_of, first_held, names_of};

use std::alloc::{AllocError, Global};

/// Whether no two of the files have the same name: the test for what a folder in memory requires, which tests make.
pub fn has_distinct_names(files: &[(String, Vec<u8>)]) -> bool
    ensures { IsTrue result ↔ IsDistinct bytes_eq (names_of files.now) }
{
    for i in (0..files.len()).rev() {
        if place_of(&files[i + 1..], &files[i].0).is_some() {
            return false;
        }
    }
    true
}

// The place of the first file of this name.
fn place_of(files: &[(String, Vec<u8>)], name: &str) -> Option<usize>
    ensures found { IfSome result (IsPlaceOf files.now name.now) }
    ensures none { IfNone result (first_held name.now files.now ≡ None) }
{
    for (i, file) in files.iter().enumerate() {
        if file.0.as_str() == name {
            return Some(i);
        }
    }
    None
}

// The bytes of the first file of this name.
pub(crate) fn content_of<'a>(files: &'a [(String, Vec<u8>)], name: &str) -> Option<&'a [u8]>
    ensures { option_map (λ s. s.now) result ≡ finmap.get (files_of files.now) name.now }
{
    match place_of(files, name) {
        Some(i) => Some(&files[i].1),
        None => None,
    }
}

// Puts the bytes in the place of those of the first file of this name, or a new file at the end.
pub(crate) fn put(
    alloc: Global,
    files: &mut Vec<(String, Vec<u8>)>,
    name: &str,
    bytes: &[u8],
) -> Result<(), AllocError>
    ensures ok { OnOk result (files_of files.new.items
        ≡ finmap.insert (files_of files.old.items) name.now bytes.now) }
    ensures err { OnErr result (files.new.items ≡ files.old.items) }
{
    let copy = bytes.to_vec(alloc)?;
    match place_of(files, name) {
        Some(i) => files[i].1 = copy,
        None => {
            let name = String::from_str(alloc, name)?;
            files.push((name, copy))?;
        }
    }
    Ok(())
}
