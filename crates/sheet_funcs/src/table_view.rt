// Tables of records, whose first field is the key.
ghost use Rattle.std.specs.Prelude.{◌≡◌, ◌<◌, ◌^◌, length, slice_index_or};
ghost use Rattle.sheet_model.specs.declared.value.Value.TheVariants.{Empty};
ghost use Rattle.sheet_funcs.specs.Arguments.{grid_of};
ghost use Rattle.sheet_funcs.specs.Products.{transposed};
ghost use Rattle.sheet_funcs.specs.TableViews.{HasKeys, IsIndexed, IsTable, field_place, keys_of};

use crate::given::full_elements;
use crate::items::{columns_of, rows_of};
use sheet_model::{Arg, Value};

/// Records of fields among the elements of a grid: how many records there are and how far one is behind the one before, and the
/// same of a record's fields.
#[derive(Clone, Copy)]
pub(crate) struct TableView<'a> {
    pub(crate) items: &'a [Value],
    pub(crate) keys: u32,
    pub(crate) key_step: u32,
    pub(crate) fields: u32,
    field_step: u32,
}

impl TableView<'_> {
    /// A field of a record, both from 0.
    pub(crate) fn at(&self, key: u32, field: u32) -> &Value
        requires indexed { IsIndexed self.now }
        requires key { key < self.now.keys }
        requires field { field < self.now.fields }
        ensures { result.now
            ≡ slice_index_or self.now.items.now (field_place self.now key field) Empty }
    {
        &self.items[key as usize * self.key_step as usize
            + field as usize * self.field_step as usize]
    }
}

/// The table whose records are the rows of an argument.
pub(crate) fn down(arg: &Arg) -> TableView<'_>
    ensures indexed { IsIndexed result }
    ensures records { IsTable result (grid_of arg.now) }
{
    TableView {
        items: full_elements(arg),
        keys: rows_of(arg),
        key_step: columns_of(arg),
        fields: columns_of(arg),
        field_step: 1,
    }
}

/// The table whose records are the columns of an argument.
pub(crate) fn across(arg: &Arg) -> TableView<'_>
    ensures indexed { IsIndexed result }
    ensures records { IsTable result (transposed (grid_of arg.now)) }
{
    TableView {
        items: full_elements(arg),
        keys: columns_of(arg),
        key_step: 1,
        fields: rows_of(arg),
        field_step: columns_of(arg),
    }
}

/// The table of which the keys alone are there, and so many fields are told.
pub(crate) fn keys_alone(keys: &[Value], fields: u32) -> TableView<'_>
    requires { length keys.now < 2 ^ 32 }
    ensures fields { result.fields ≡ fields }
    ensures count { result.keys ≡ length keys.now }
    ensures keys { keys_of result ≡ keys.now }
    ensures spaced { HasKeys result }
{
    TableView {
        items: keys,
        keys: keys.len() as u32,
        key_step: 1,
        fields,
        field_step: 0,
    }
}
