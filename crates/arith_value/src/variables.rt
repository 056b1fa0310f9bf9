//! The variables of a shell.

ghost use Rattle.std.specs.Prelude.{◌≡◌, [], IfOk};
ghost use Rattle.arith_value.specs.Variables.{IsAscending, IsSet, NamesBeginning, find, read, shown};

use crate::fault::ValueFault;
use listed::Text;
use std::alloc::Global;
use std::collections::BTreeMap;
use std::marker::Model;

/// The variables of a shell: a contract sees the names with their values, in the order of the names' octets.
#[derive(Debug, Drop)]
pub struct Variables {
    /// Their values, by name.
    values: BTreeMap<String, i64>,
}

impl Model for Variables {
    ghost use Rattle.std.specs.Prelude.{ℕ, List, ℤ};
    ghost use Rattle.arith_value.specs.Variables.{shown};

    ghost Value = { List (List ℕ × ℤ) };

    ghost view = { λ v. shown v.values.entries };
}

impl Variables {
    /// No variables.
    pub fn new(alloc: Global) -> Variables
        ensures { result ≡ [] }
    {
        Variables {
            values: BTreeMap::new(alloc),
        }
    }

    /// The value of a name, or none where it is unset.
    pub fn get(&self, name: &str) -> Option<i64>
        ensures { result ≡ find name.now self.now }
    {
        value_of(&self.values, name)
    }

    /// The value of a name, which is 0 where it is unset.
    pub fn read(&self, name: &str) -> i64
        ensures { result ≡ read name.now self.now }
    {
        self.get(name).unwrap_or(0)
    }

    /// Assigns a value to a name. Where no memory is left, the variables are as they were.
    #[inline(never)]
    pub fn set(&mut self, alloc: Global, name: &str, value: i64) -> Result<(), ValueFault>
        ensures { IsSet name.now value self.old result self.new }
    {
        put(alloc, &mut self.values, name, value)
    }

    /// The names that begin with a text, in the order of their octets.
    pub fn names_beginning(&self, alloc: Global, beginning: &str) -> Result<Vec<Text>, ValueFault>
        ensures exact { NamesBeginning beginning.now self.now result }
        ensures ascending { IfOk result (λ found. IsAscending found.items) }
    {
        keys_beginning(alloc, &self.values, beginning)
    }
}

/// The value at a name.
fn value_of(values: &BTreeMap<String, i64>, name: &str) -> Option<i64>
    ensures { result ≡ find name.now (shown values.now.entries) }
{
    values.get(name).copied()
}

/// Puts a value at a name.
fn put(
    alloc: Global,
    values: &mut BTreeMap<String, i64>,
    name: &str,
    value: i64,
) -> Result<(), ValueFault>
    ensures { IsSet name.now value (shown values.old.entries) result (shown values.new.entries) }
{
    if let Some(place) = values.get_mut(name) {
        *place = value;
        return Ok(());
    }
    let key = String::from_str(alloc, name)?;
    values.insert(key, value)?;
    Ok(())
}

/// The names that begin with a text.
fn keys_beginning(
    alloc: Global,
    values: &BTreeMap<String, i64>,
    beginning: &str,
) -> Result<Vec<Text>, ValueFault>
    ensures exact { NamesBeginning beginning.now (shown values.now.entries) result }
    ensures ascending { IfOk result (λ found. IsAscending found.items) }
{
    let mut names = Vec::new(alloc);
    for name in values.keys() {
        if name.as_bytes().starts_with(beginning.as_bytes()) {
            let text = String::from_str(alloc, name.as_str())?;
            names.push(Text::new(text))?;
        }
    }
    Ok(names)
}
