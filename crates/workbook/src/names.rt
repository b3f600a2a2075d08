// The names of a workbook.
ghost use Rattle.std.specs.Prelude.{◌≡◌, ◌++◌, ◌∷◌, [], ℕ, List, None, OnErr, OnOk, true, false, IfOk, MatchBool, length, map, option_map, string_bytes};
ghost use Rattle.std.specs.List.{IsDistinct, list_any};
ghost use Rattle.std.specs.Char.{to_ascii_lowercase};
ghost use Rattle.std.specs.Map.{keys_of, lookup};
ghost use Rattle.indexmap.specs.IndexMap.{shift_remove_entry};
ghost use Rattle.workbook.specs.Changed.{after_change};
ghost use Rattle.workbook.specs.EditedNames.{retexted, with_named, without};
ghost use Rattle.workbook.specs.Keyed.{is_key};
ghost use Rattle.workbook.specs.Saving.{saved_name, saved_names};
ghost use Rattle.workbook.specs.State.{is_called, is_same_sheet, text_of};

use crate::change::Change;
use cell_refs::SheetId;
use indexmap::IndexMap;
use memory::Memory;
use sheet_csv::Rows;
use std::alloc::Global;
use std::marker::Model;
use std::mem::drop;

/// A name: the sheet for which it stands, or none for the whole workbook, the sheet and the name as they are spelled, its text,
/// and a comment, if it has one.
#[derive(Drop)]
pub(crate) struct Name {
    pub(crate) sheet: Option<SheetId>,
    pub(crate) sheet_text: String,
    pub(crate) name: String,
    pub(crate) text: String,
    pub(crate) comment: Option<String>,
}

impl Model for Name {
    ghost use Rattle.std.specs.Prelude.{option_map, string_bytes};
    ghost use Rattle.workbook.specs.Codes.{name_code};
    ghost use Rattle.workbook.specs.State as state;

    ghost Value = { state.Name };

    ghost coded = { name_code };

    ghost view = { λ n. record {
      sheet = option_map (λ s. s.0) n.sheet;
      sheet_text = string_bytes n.sheet_text;
      name = string_bytes n.name;
      text = string_bytes n.text;
      comment = option_map string_bytes n.comment;
    } };
}

impl Name {
    // Whether it is the name of the sheet, in any case of ASCII letters.
    fn is_called(&self, sheet: Option<SheetId>, name: &str) -> bool
        ensures { result ≡ is_called (option_map (λ s. s.0) sheet) name.now self.now }
    {
        is_same_sheet(self.sheet, sheet) && self.name.as_str().eq_ignore_ascii_case(name)
    }

    // Adds its record at the end.
    fn add_to(&self, rows: &mut Rows) -> Result<(), Memory>
        ensures { OnOk result (rows.new ≡ rows.old ++ saved_name self.now ∷ []) }
    {
        let sheet = self.sheet_text.as_str();
        let name = self.name.as_str();
        let text = self.text.as_str();
        match &self.comment {
            Some(comment) => rows.add(&[sheet, name, text, comment.as_str()]),
            None => rows.add(&[sheet, name, text]),
        }
    }
}

/// Whether two sheets are the same.
pub(crate) fn is_same_sheet(named: Option<SheetId>, sheet: Option<SheetId>) -> bool
    ensures { result ≡ is_same_sheet (option_map (λ s. s.0) named) (option_map (λ s. s.0) sheet) }
{
    match (named, sheet) {
        (None, None) => true,
        (Some(named), Some(sheet)) => named.0 == sheet.0,
        _ => false,
    }
}

/// A sheet, or none, and a name in small letters.
#[derive(PartialEq, Eq, Hash, Drop)]
pub(crate) struct Key {
    sheet: Option<u8>,
    letters: Vec<u8>,
}

impl Key {
    pub(crate) fn new(alloc: Global, sheet: Option<SheetId>, name: &str) -> Result<Key, Memory>
        ensures sheet { IfOk result (λ k. k.sheet ≡ option_map (λ s. s.0) sheet) }
        ensures letters { IfOk result (λ k. k.letters.items ≡ map to_ascii_lowercase name.now) }
    {
        let letters = small_letters(alloc, name.as_bytes())?;
        let sheet = match sheet {
            Some(sheet) => Some(sheet.0),
            None => None,
        };
        Ok(Key { sheet, letters })
    }
}

// The bytes with ASCII letters made small.
fn small_letters(alloc: Global, bytes: &[u8]) -> Result<Vec<u8>, Memory>
    ensures { IfOk result (λ v. v.items ≡ map to_ascii_lowercase bytes.now) }
{
    let letters = bytes
        .iter()
        .map(|byte| byte.to_ascii_lowercase())
        .collect(alloc)?;
    Ok(letters)
}

/// Names in their order. No two have one sheet and one name.
#[derive(Drop)]
pub(crate) struct Names {
    names: IndexMap<Key, Name>,
}

impl Model for Names {
    ghost use Rattle.std.specs.Prelude.{List, map};
    ghost use Rattle.workbook.specs.State as state;
    ghost use Rattle.workbook.specs.Codes.{name_code};
    ghost use Rattle.std.specs.Coded.{coded_list};
    ghost use Rattle.workbook.specs.Keyed.{AllAreKeyed};

    ghost Value = { List state.Name };

    ghost coded = { coded_list name_code };

    ghost view = { λ a. map (λ e. e.1) a.names.entries };

    ghost invariant = { λ a. AllAreKeyed a.names.entries };
}

impl Names {
    pub(crate) fn new(alloc: Global) -> Names
        ensures { result ≡ [] }
    {
        Names {
            names: IndexMap::new(alloc),
        }
    }

    /// How many there are.
    pub(crate) fn len(&self) -> usize
        ensures { result ≡ length self.now }
    {
        self.names.len()
    }

    /// The text of a name.
    pub(crate) fn text(&self, key: &Key) -> Option<&str>
        ensures { (name : List ℕ) → key.now.letters.items ≡ map to_ascii_lowercase name
            → option_map (λ t. t.now) result ≡ text_of self.now key.now.sheet name }
    {
        match self.names.get(key) {
            Some(name) => Some(name.text.as_str()),
            None => None,
        }
    }

    /// The text of a name, for which each is looked at.
    pub(crate) fn find(&self, sheet: Option<SheetId>, name: &str) -> Option<&str>
        ensures { option_map (λ t. t.now) result
            ≡ text_of self.now (option_map (λ s. s.0) sheet) name.now }
    {
        for place in 0..self.names.len() {
            let Some((_, own)) = self.names.get_index(place) else {
                unreachable!()
            };
            if own.is_called(sheet, name) {
                return Some(own.text.as_str());
            }
        }
        None
    }

    /// Puts a name last, if it is not there yet, and says so.
    pub(crate) fn add(&mut self, alloc: Global, name: Name) -> Result<bool, Memory>
        ensures { IfOk result (λ fresh. MatchBool fresh
            ((list_any (is_called name.sheet name.name) self.old ≡ false)
            × (self.new ≡ self.old ++ name ∷ []))
            ((list_any (is_called name.sheet name.name) self.old ≡ true) × (self.new ≡ self.old))) }
    {
        let key = Key::new(alloc, name.sheet, name.name.as_str())?;
        if self.text(&key).is_some() {
            return Ok(false);
        }
        insert_new(&mut self.names, key, name)?;
        Ok(true)
    }
}

impl Names {
    /// Makes an edit of one of them.
    pub(crate) fn change(&mut self, alloc: Global, change: Change) -> Result<(), Memory>
        ensures ok { OnOk result (self.new ≡ after_change self.old change) }
        ensures err { OnErr result (self.new ≡ self.old) }
    {
        let Change { sheet, name, given } = change;
        let Some(given) = given else {
            return self.remove(alloc, sheet, name.as_str());
        };
        self.put(
            alloc,
            Name {
                sheet,
                sheet_text: given.sheet_text,
                name,
                text: given.text,
                comment: None,
            },
        )
    }

    // Gives a name a text: in its place and beside its comment, where it is there, and else last.
    fn put(&mut self, alloc: Global, name: Name) -> Result<(), Memory>
        ensures ok { OnOk result (self.new ≡ with_named self.old name) }
        ensures err { OnErr result (self.new ≡ self.old) }
    {
        let key = Key::new(alloc, name.sheet, name.name.as_str())?;
        if self.text(&key).is_some() {
            put_text(&mut self.names, &key, name.text);
            return Ok(());
        }
        insert_new(&mut self.names, key, name)?;
        Ok(())
    }

    // Takes a name away, where it is there.
    fn remove(&mut self, alloc: Global, sheet: Option<SheetId>, name: &str) -> Result<(), Memory>
        ensures ok { OnOk result (self.new
            ≡ without (option_map (λ s. s.0) sheet) name.now self.old) }
        ensures err { OnErr result (self.new ≡ self.old) }
    {
        let key = Key::new(alloc, sheet, name)?;
        remove_key(&mut self.names, &key);
        Ok(())
    }

    /// The records of the names, in their order and as they are spelled.
    pub(crate) fn rows(&self, alloc: Global) -> Result<Rows, Memory>
        ensures { IfOk result (λ rows. rows ≡ saved_names self.now) }
    {
        let mut rows = Rows::new(alloc);
        for place in 0..self.names.len() {
            let Some((_, own)) = self.names.get_index(place) else {
                unreachable!()
            };
            own.add_to(&mut rows)?;
        }
        Ok(rows)
    }
}

// Takes a name away by its key.
fn remove_key(names: &mut IndexMap<Key, Name>, key: &Key)
    ensures entries { names.new.entries ≡ shift_remove_entry (is_key key.now) names.old.entries }
    ensures unique { IsDistinct is_key (keys_of names.old.entries) }
{
    // (this call lends the proof that the keys are distinct)
    let _count = names.len();
    drop(names.shift_remove(key));
}

// Puts a text in the place of that of a name.
fn put_text(names: &mut IndexMap<Key, Name>, key: &Key, text: String)
    ensures entries { names.new.entries
        ≡ retexted (is_key key.now) (string_bytes text) names.old.entries }
    ensures unique { IsDistinct is_key (keys_of names.old.entries) }
{
    if let Some(own) = names.get_mut(key) {
        own.text = text;
    }
}

// Puts a name last whose key is not there.
fn insert_new(names: &mut IndexMap<Key, Name>, key: Key, name: Name) -> Result<(), Memory>
    requires { lookup (is_key key) names.old.entries ≡ None }
    ensures ok { OnOk result (names.new.entries ≡ names.old.entries ++ (key, name) ∷ []) }
    ensures err { OnErr result (names.new.entries ≡ names.old.entries) }
{
    match names.insert(key, name) {
        Ok(_) => Ok(()),
        Err(_) => Err(Memory),
    }
}
