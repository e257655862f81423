// A lattice file from a document of TOML.
ghost use Rattle.std.specs.Prelude.{◌≡◌, None, Some, is_none, option_map, option_copied, codes, OnOk, IfOk, IfErr};
ghost use Rattle.std.specs.Option.{option_and_then};
ghost use Rattle.toml.specs.Data.{as_array, as_table, get_member};
ghost use Rattle.toml.specs.View.{view, items_view, table_view};
ghost use Rattle.rt_base.specs.First.{fault_if};
ghost use Rattle.rt_lattice.specs.declared.fault.LatFault.TheVariants.{Shape};
ghost use Rattle.rt_lattice.specs.Files.{SaysFile, strings_in, pair_in, pairs_in, role_names_in};
ghost use Rattle.rt_lattice.specs.Files.{names_at, below_at, roles_at, is_known_key, other_key};
ghost use Rattle.rt_lattice.specs.Faults.{IsFaultOf, names_fault, form_fault};

use crate::fault::LatFault;
use crate::file::{File, Pair, RoleName};
use crate::spelling::{names_of, shape};
use rt_base::{Bytes, Sequence};
use rt_lines::Names;
use std::alloc::{AllocError, Global};
use toml::{Table, Value};

// The bytes of a string.
fn bytes_of(alloc: Global, string: &str) -> Result<Bytes, AllocError>
    ensures { IfOk result (λ bytes. bytes ≡ string.now) }
{
    let bytes = string.as_bytes().to_vec(alloc)?;
    Ok(Bytes::from_vec(bytes))
}

// The strings of values, where all are strings.
fn strings_of(alloc: Global, values: &[Value]) -> Result<Option<Sequence<Bytes>>, AllocError>
    ensures { IfOk result (λ strings. strings ≡ strings_in (items_view values.now)) }
{
    let mut strings = Sequence::new(alloc);
    for value in values {
        let Some(string) = value.as_str() else {
            return Ok(None);
        };
        strings.push(bytes_of(alloc, string)?)?;
    }
    Ok(Some(strings))
}

// The pair of two values, where these are strings.
fn pair_of(alloc: Global, values: &[Value]) -> Result<Option<Pair>, AllocError>
    ensures { IfOk result (λ pair. pair ≡ pair_in (items_view values.now)) }
{
    if values.len() != 2 {
        return Ok(None);
    }
    let Some(lower) = values[0].as_str() else {
        return Ok(None);
    };
    let Some(upper) = values[1].as_str() else {
        return Ok(None);
    };
    let lower = bytes_of(alloc, lower)?;
    let upper = bytes_of(alloc, upper)?;
    Ok(Some(Pair { lower, upper }))
}

// The items of a value, where it is an array.
fn items_of(value: &Value) -> Option<&[Value]>
    ensures { option_map (λ items. items_view items.now) result ≡ as_array (view value.now) }
{
    let array = value.as_array()?;
    Some(array.as_slice())
}

// The pairs of values, where all are arrays of two strings.
fn pairs_of(alloc: Global, values: &[Value]) -> Result<Option<Sequence<Pair>>, AllocError>
    ensures { IfOk result (λ pairs. pairs ≡ pairs_in (items_view values.now)) }
{
    let mut pairs = Sequence::new(alloc);
    for value in values {
        let Some(items) = items_of(value) else {
            return Ok(None);
        };
        let Some(pair) = pair_of(alloc, items)? else {
            return Ok(None);
        };
        pairs.push(pair)?;
    }
    Ok(Some(pairs))
}

// The keys of a table with what stands there, where all that is strings.
fn role_names_of(alloc: Global, table: &Table) -> Result<Option<Sequence<RoleName>>, AllocError>
    ensures { IfOk result (λ roles. roles ≡ role_names_in (table_view table.now)) }
{
    let mut roles = Sequence::new(alloc);
    for (key, value) in table.iter() {
        let Some(name) = value.as_str() else {
            return Ok(None);
        };
        let key = bytes_of(alloc, key.as_str())?;
        let name = bytes_of(alloc, name)?;
        roles.push(RoleName { key, name })?;
    }
    Ok(Some(roles))
}

// Whether the key is one of a lattice file.
fn is_known(key: &str) -> bool
    ensures { result ≡ is_known_key key.now }
{
    key == "names" || key == "below" || key == "roles"
}

// The least key of a table that is none of a lattice file. The keys of a table ascend.
fn other_key(table: &Table) -> Option<&str>
    ensures { option_copied result ≡ other_key (table_view table.now) }
{
    for (key, _) in table.iter() {
        if !is_known(key.as_str()) {
            return Some(key.as_str());
        }
    }
    None
}

// What stands at a key.
fn value_at<'a>(table: &'a Table, key: &str) -> Option<&'a Value>
    ensures { option_map (λ value. view value.now) result ≡ get_member key.now (table_view table.now) }
{
    table.get(key)
}

// What stands at a key, where it is an array.
fn array_at<'a>(table: &'a Table, key: &str) -> Option<&'a [Value]>
    ensures { option_map (λ items. items_view items.now) result ≡ option_and_then as_array (get_member key.now (table_view table.now)) }
{
    match value_at(table, key) {
        Some(value) => items_of(value),
        None => None,
    }
}

// The names of a document.
fn names_in(alloc: Global, table: &Table) -> Result<Names, LatFault>
    ensures names { IfOk result (λ names. names_at (table_view table.now) ≡ Some names) }
    ensures none { OnOk result (names_fault (names_at (table_view table.now)) ≡ None) }
    ensures fault { IfErr result (IsFaultOf (names_fault (names_at (table_view table.now)))) }
{
    let Some(values) = array_at(table, "names") else {
        return Err(shape(alloc, "names"));
    };
    let Some(strings) = strings_of(alloc, values)? else {
        return Err(shape(alloc, "names"));
    };
    names_of(alloc, strings.items())
}

// The pairs of a document.
fn below_in(alloc: Global, table: &Table) -> Result<Sequence<Pair>, LatFault>
    ensures pairs { IfOk result (λ pairs. below_at (table_view table.now) ≡ Some pairs) }
    ensures fault { IfErr result (IsFaultOf (fault_if (is_none (below_at (table_view table.now))) (Shape (codes "below")))) }
{
    let Some(values) = array_at(table, "below") else {
        return Err(shape(alloc, "below"));
    };
    match pairs_of(alloc, values)? {
        Some(pairs) => Ok(pairs),
        None => Err(shape(alloc, "below")),
    }
}

// What stands at a key, where it is a table.
fn table_at<'a>(table: &'a Table, key: &str) -> Option<&'a Table>
    ensures { option_map (λ inner. table_view inner.now) result ≡ option_and_then as_table (get_member key.now (table_view table.now)) }
{
    match value_at(table, key) {
        Some(value) => value.as_table(),
        None => None,
    }
}

// The roles of a document, with their names.
fn roles_in(alloc: Global, table: &Table) -> Result<Sequence<RoleName>, LatFault>
    ensures roles { IfOk result (λ roles. roles_at (table_view table.now) ≡ Some roles) }
    ensures fault { IfErr result (IsFaultOf (fault_if (is_none (roles_at (table_view table.now))) (Shape (codes "roles")))) }
{
    let Some(roles) = table_at(table, "roles") else {
        return Err(shape(alloc, "roles"));
    };
    match role_names_of(alloc, roles)? {
        Some(roles) => Ok(roles),
        None => Err(shape(alloc, "roles")),
    }
}

// What a document says, where its form is right.
pub(crate) fn file_of(alloc: Global, table: &Table) -> Result<File, LatFault>
    ensures says { IfOk result (SaysFile (table_view table.now)) }
    ensures none { OnOk result (form_fault (table_view table.now) ≡ None) }
    ensures fault { IfErr result (IsFaultOf (form_fault (table_view table.now))) }
{
    let names = names_in(alloc, table)?;
    let below = below_in(alloc, table)?;
    let roles = roles_in(alloc, table)?;
    match other_key(table) {
        Some(key) => Err(shape(alloc, key)),
        None => Ok(File {
            names,
            below,
            roles,
        }),
    }
}
