//! Measures the calls of a table of names.
ghost use Rattle.std.specs.Prelude.{◌≤◌};

mod by_key;
mod by_name;
mod by_place;
mod names;
mod whole;

use crate::clock::{mean, now};
use crate::lines::Lines;
use extent_table::Table;
use names::{fill, names_of};
use slot_codec::Name;
use std::alloc::AllocError;
use std::test::Fail;

/// How often each measurement is made. The least is taken, since other processes run.
const ROUNDS: u64 = 8;

/// Times each call at a table with room for `room` names. One name fewer is live, so that any may
/// be set.
pub fn measure(rt: &HostRuntime, room: u64, lines: &mut Lines) -> Result<(), Fail>
    requires { room ≤ 65536 }
{
    let names = names_of(rt.alloc(), 'o', room.saturating_sub(1))?;
    let mut table = made(rt, room, lines)?;
    fill(&mut table, &names);
    measure_filled(rt, &mut table, &names, lines)?;
    Ok(())
}

/// Times the making of an empty table.
fn made(rt: &HostRuntime, room: u64, lines: &mut Lines) -> Result<Table, Fail>
    requires { room ≤ 65536 }
{
    let start = now(rt);
    let table = Table::with_room(rt.alloc(), room)?;
    lines.add(rt, "with_room", " #", &[mean(rt, start, 1)]);
    Ok(table)
}

/// Times the calls at a table where these names are live.
fn measure_filled(
    rt: &HostRuntime,
    table: &mut Table,
    names: &[Name],
    lines: &mut Lines,
) -> Result<(), AllocError> {
    calls(rt, table, names, lines)?;
    passes(rt, table, names, lines)
}

/// Times the calls of one name, key or place.
fn calls(
    rt: &HostRuntime,
    table: &mut Table,
    names: &[Name],
    lines: &mut Lines,
) -> Result<(), AllocError> {
    let by_name = by_name::time(rt, table, names);
    table.keep();
    let kept = by_name::time(rt, table, names);
    let by_key = by_key::time(rt, table)?;
    let by_place = by_place::time(rt, table);
    lines.add(rt, "never kept", by_name::TEXT, &by_name);
    lines.add(rt, "kept", by_name::TEXT, &kept);
    lines.add(rt, "in_order", by_key::TEXT, &by_key);
    by_place::show(rt, &by_place, lines);
    Ok(())
}

/// Times the calls that go over the whole table.
fn passes(
    rt: &HostRuntime,
    table: &mut Table,
    names: &[Name],
    lines: &mut Lines,
) -> Result<(), AllocError> {
    let others = names_of(rt.alloc(), 'p', names.len() as u64)?;
    let first = &names[..names.len().min(1)];
    let one = whole::time(rt, table, first, first);
    let all = whole::time(rt, table, names, names);
    let new = whole::time(rt, table, names, &others);
    lines.add(rt, "one name changed", whole::TEXT, &one);
    lines.add(rt, "all names changed", whole::TEXT, &all);
    lines.add(rt, "all names replaced", whole::TEXT, &new);
    Ok(())
}
