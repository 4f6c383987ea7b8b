//! The columns of a table, and its key.

ghost use Rattle.std.specs.Prelude.{
  bytes_eq,
  ◌≡◌,
  ◌<◌,
  ◌≤◌,
  [],
  IfOk,
  IfSome,
  count_by,
  length,
  map,
  option_map,
  position,
  slice_get,
  Some,
};
ghost use Rattle.std.specs.List.{list_any};
ghost use Rattle.row_core.specs.Refusals.{IsAnswer, first_of};
ghost use Rattle.row_core.specs.Schema.{
  IsSchema,
  column_of,
  columns_of,
  fits,
  has_twins,
  in_key,
  is_in_key,
  key_of,
  key_place,
  key_tests,
  keyed,
  keyed_of,
  kind_in,
  schema_of,
};
ghost use Rattle.row_core.specs.Value.{kind_of, same_kind, value_of};

use crate::NoMemory;
use crate::failure::Failure;
use crate::name::Name;
use crate::value::{Kind, Value, ValueRefused, Values};
use list_core::DeepCopy;
use std::alloc::Global;
use std::marker::Model;
use thiserror::Error;

/// The most columns of a table.
pub const COLUMN_LIMIT: usize = 16;

/// A column: its name, the kind of its values, and its index in the table's key, if it is in the key.
#[derive(Clone, Copy, Debug, PartialEq, Eq)]
pub struct Column {
    pub name: Name,
    pub kind: Kind,
    pub key: Option<usize>,
}

/// The columns of a table: at most 16, with different names. Contracts see the list of them.
#[derive(Debug, Drop)]
pub struct Schema {
    columns: Vec<Column>,
}

impl Model for Schema {
    ghost use Rattle.std.specs.Prelude.{List};
    ghost use Rattle.row_core.specs.declared.schema.Column.{Column};
    ghost use Rattle.row_core.specs.Schema.{IsSchema};

    ghost Value = { List Column };

    ghost view = { λ s. s.columns.items };

    ghost invariant = { λ s. IsSchema s.columns.items };
}

/// Why columns are refused, in the order of the tests.
#[derive(Clone, Copy, Debug, PartialEq, Eq, Error)]
pub enum SchemaRefused {
    /// There are more than 16.
    #[error("more than 16 columns")]
    TooMany,
    /// Two have the same name.
    #[error("two columns have one name")]
    TwiceNamed,
}

/// Why a key is refused. For each name, from left to right, both are tested in this order.
#[derive(Clone, Copy, Debug, PartialEq, Eq, Error)]
pub enum KeyRefused {
    /// No column has that name.
    #[error("no column has that name")]
    NoColumn,
    /// The name occurs twice.
    #[error("the name stands twice")]
    TwiceNamed,
}

impl DeepCopy for Schema {
    fn copy(&self, alloc: Global) -> Result<Schema, NoMemory> {
        Ok(Schema {
            columns: Vec::from_slice(alloc, &self.columns)?,
        })
    }
}

impl Schema {
    /// Returns a schema with columns of these names and kinds, in this order.
    pub fn new(alloc: Global, columns: &[(Name, Kind)]) -> Result<Schema, Failure<SchemaRefused>>
        ensures { IsAnswer (schema_of columns.now) result }
    {
        if columns.len() > COLUMN_LIMIT {
            return Err(Failure::Refused(SchemaRefused::TooMany));
        }
        if has_twins(columns) {
            return Err(Failure::Refused(SchemaRefused::TwiceNamed));
        }
        Ok(Schema {
            columns: collect_columns(alloc, columns)?,
        })
    }

    /// Returns the number of columns.
    pub fn width(&self) -> u32
        ensures width { result ≡ length self.now }
        ensures schema { IsSchema self.now }
    {
        self.columns.len() as u32
    }

    /// Returns the columns, in order.
    pub fn as_slice(&self) -> &[Column]
        ensures columns { result.now ≡ self.now }
        ensures schema { IsSchema result.now }
    {
        &self.columns
    }

    /// Returns the name of the column at index `i`.
    pub fn name(&self, i: u32) -> Name
        requires { i < length self.now }
        ensures { option_map (λ column. column.name) (slice_get self.now i) ≡ Some result }
    {
        self.columns[i as usize].name
    }

    /// Returns the kind of the column at index `i`.
    pub fn kind(&self, i: u32) -> Kind
        requires { i < length self.now }
        ensures { option_map (λ column. column.kind) (slice_get self.now i) ≡ Some result }
    {
        self.columns[i as usize].kind
    }

    /// Returns the kinds of the columns, in order.
    pub fn kinds(&self, alloc: Global) -> Result<Vec<Kind>, NoMemory>
        ensures { IfOk result (λ kinds. kinds.items ≡ map (λ column. column.kind) self.now) }
    {
        kinds_of(alloc, &self.columns)
    }

    /// Returns the index of the column with that name.
    pub fn column(&self, name: Name) -> Option<u32>
        ensures { result ≡ column_of self.now name }
    {
        let place = column_place(&self.columns, name)?;
        Some(place as u32)
    }

    /// Returns the kind of the column with that name.
    pub fn column_kind(&self, name: Name) -> Option<Kind>
        ensures { result ≡ kind_in self.now name }
    {
        kind_among(&self.columns, name)
    }

    /// Returns whether there are as many values as columns, each of its column's kind.
    pub fn fits(&self, values: &Values) -> bool
        ensures { result ≡ fits self.now values.now }
    {
        values_fit(&self.columns, values.as_slice())
    }

    /// Returns these columns with a key of the named columns, in the order of the names. If there are no names, the
    /// schema has no key.
    ///
    /// # Errors
    ///
    /// For each name, from left to right, `NoColumn` and then `TwiceNamed`; `NoMemory` only after these. The columns
    /// are then dropped.
    pub fn with_key(self, alloc: Global, names: &[Name]) -> Result<Schema, Failure<KeyRefused>>
        ensures columns { IsAnswer (keyed_of self names.now) result }

        // The key's columns are the named ones, in their order.
        ensures key { IfOk result (λ schema. map Some (key_of schema)
            ≡ map (column_of self) names.now) }
    {
        if let Some(refused) = key_refusal(&self.columns, names) {
            return Err(Failure::Refused(refused));
        }
        Ok(Schema {
            columns: keyed_columns(alloc, &self.columns, names)?,
        })
    }

    /// Returns the number of columns in the key; 0 without a key.
    pub fn key_len(&self) -> u32
        ensures { result ≡ length (key_of self.now) }
    {
        count_in_key(&self.columns) as u32
    }

    /// Returns the index of the column at index `i` of the key. The key's columns are in the order of its names.
    pub fn key_column(&self, i: u32) -> u32
        requires { i < length (key_of self.now) }
        ensures { slice_get (key_of self.now) i ≡ Some result }
    {
        match key_place(&self.columns, i as usize) {
            Some(place) => place as u32,
            None => unreachable!(),
        }
    }

    /// Returns the indexes of the key's columns, in the order of its names.
    pub fn key_places(&self, alloc: Global) -> Result<Vec<u32>, NoMemory>
        ensures { IfOk result (λ places. places.items ≡ key_of self.now) }
    {
        let mut places = Vec::with_capacity(alloc, self.key_len() as usize)?;
        for i in 0..self.key_len() {
            places.push(self.key_column(i))?;
        }
        Ok(places)
    }

    /// Reads the bytes as a value of the column at index `i`.
    pub fn read_value(
        &self,
        alloc: Global,
        i: u32,
        bytes: &[u8],
    ) -> Result<Value, Failure<ValueRefused>>
        requires { i < length self.now }
        ensures { IfSome (slice_get self.now i)
            (λ column. IsAnswer (value_of column.kind bytes.now) result) }
    {
        Value::read(alloc, self.kind(i), bytes)
    }
}

// Returns a column for each pair.
fn collect_columns(alloc: Global, pairs: &[(Name, Kind)]) -> Result<Vec<Column>, NoMemory>
    ensures { IfOk result (λ columns. columns.items ≡ columns_of pairs.now) }
{
    let mut columns = Vec::with_capacity(alloc, pairs.len())?;
    for pair in pairs {
        columns.push(Column {
            name: pair.0,
            kind: pair.1,
            key: None,
        })?;
    }
    Ok(columns)
}

// Returns the kinds of the columns.
fn kinds_of(alloc: Global, columns: &[Column]) -> Result<Vec<Kind>, NoMemory>
    ensures { IfOk result (λ kinds. kinds.items ≡ map (λ column. column.kind) columns.now) }
{
    let mut kinds = Vec::with_capacity(alloc, columns.len())?;
    for column in columns {
        kinds.push(column.kind)?;
    }
    Ok(kinds)
}

// Returns whether some name occurs twice.
fn has_twins(pairs: &[(Name, Kind)]) -> bool
    ensures { result ≡ has_twins pairs.now }
{
    for i in 0..pairs.len() {
        if is_among(pairs[i].0, &pairs[i + 1..]) {
            return true;
        }
    }
    false
}

fn is_among(name: Name, pairs: &[(Name, Kind)]) -> bool
    ensures { result ≡ list_any (λ other. bytes_eq name other.0) pairs.now }
{
    pairs.iter().any(|pair| name == pair.0)
}

fn column_place(columns: &[Column], name: Name) -> Option<usize>
    ensures { result ≡ column_of columns.now name }
{
    columns.iter().position(|column| column.name == name)
}

fn kind_among(columns: &[Column], name: Name) -> Option<Kind>
    ensures { result ≡ kind_in columns.now name }
{
    let place = column_place(columns, name)?;
    columns.get(place).map(|column| column.kind)
}

fn values_fit(columns: &[Column], values: &[Value]) -> bool
    ensures { result ≡ fits columns.now values.now }
{
    if columns.len() != values.len() {
        return false;
    }
    for i in 0..columns.len() {
        if !values[i].is_of(columns[i].kind) {
            return false;
        }
    }
    true
}

// Returns how many of the columns are in the key.
fn count_in_key(columns: &[Column]) -> usize
    ensures count { result ≡ count_by is_in_key columns.now }
    ensures few { result ≤ length columns.now }
{
    columns.iter().filter(|column| column.key.is_some()).count()
}

// Returns the index of the column at index `i` of the key.
fn key_place(columns: &[Column], i: usize) -> Option<usize>
    ensures { result ≡ key_place columns.now i }
{
    columns.iter().position(|column| column.key == Some(i))
}

// Returns the first reason to refuse a key with these names.
fn key_refusal(columns: &[Column], names: &[Name]) -> Option<KeyRefused>
    ensures { result ≡ first_of (key_tests columns.now [] names.now) }
{
    for i in 0..names.len() {
        let name = names[i];
        if column_place(columns, name).is_none() {
            return Some(KeyRefused::NoColumn);
        }
        if place_among(&names[..i], name).is_some() {
            return Some(KeyRefused::TwiceNamed);
        }
    }
    None
}

// Returns the index of the name in the list.
fn place_among(names: &[Name], name: Name) -> Option<usize>
    ensures { result ≡ position (λ other. bytes_eq other name) names.now }
{
    names.iter().position(|other| *other == name)
}

// Returns the columns with a key of the named ones.
fn keyed_columns(alloc: Global, columns: &[Column], names: &[Name]) -> Result<Vec<Column>, NoMemory>
    ensures { IfOk result (λ items. items.items ≡ keyed columns.now names.now) }
{
    let mut items = Vec::with_capacity(alloc, columns.len())?;
    for column in columns {
        items.push(in_key(names, column))?;
    }
    Ok(items)
}

// Returns the column with its index in the key of these names.
fn in_key(names: &[Name], column: &Column) -> Column
    ensures { result ≡ in_key names.now column.now }
{
    Column {
        name: column.name,
        kind: column.kind,
        key: place_among(names, column.name),
    }
}
