//! Whether a table that was read keeps the rules of its kind, and the layout that it gives.
ghost use Rattle.std.specs.Prelude.{◌≡◌, ◌≤◌, ◌↔◌, IsOk, IfOk, IfErr, IsNone, IfSome, length, vec_capacity};
ghost use Rattle.slot_codec.specs.declared.codec.Kind.TheVariants.{Settled, Moving};
ghost use Rattle.table_rules.specs.{Rules.{AllHold, FirstBroken, IsValid, last_of, number_of}, Breaks.{BreaksAt}};
ghost use Rattle.table_check.specs.{Checked.{CanCheck, IsLayoutOf, checked, of_kind}, Firsts.{HoldBelow}, Tried.{named}, Placed.{placed}};
ghost use Rattle.extent_table.specs.Extents.{records_of};

use crate::TableFault;
use crate::apart::first_overlap;
use crate::balance::first_unbalanced;
use crate::frame::{Frame, framed};
use crate::places::{PlaceRule, first_place};
use crate::resume::first_misplaced;
use crate::room::first_without_room;
use extent_table::Table;
use segment_layout::Layout;
use size_class::{Grid, Row, SIZE_MAX};
use slot_codec::{Header, Kind};

/// A rule, as it is tried: place by place, or all at once.
#[derive(Clone, Copy, Debug, PartialEq, Eq)]
pub(crate) enum Rule {
    AtPlaces(PlaceRule),
    Apart,
    Balanced,
    Room,
    Resume,
}

/// Tries a table under a header as a settled one, whatever kind the header has, against a divisor and
/// the length of the data part, in bytes. At Ok it keeps all rules of a settled table, and its layout
/// is answered. `order` is scratch and takes no memory.
pub fn check_settled<const C: usize>(
    table: &Table,
    header: &Header,
    k: u64,
    length: u64,
    order: &mut Vec<u32>,
) -> Result<Layout<C>, TableFault>
    requires can { CanCheck C k header.now table.now.now (vec_capacity order.old) }
    ensures valid { IsOk result ↔ IsValid (checked C k length Settled header.now table.now.now) }
    ensures layout { IfOk result (IsLayoutOf k header.now) }
    ensures broken { IfErr result (λ fault. FirstBroken (checked C k length Settled header.now table.now.now)
        fault.rule fault.at) }
    ensures capacity { vec_capacity order.new ≡ vec_capacity order.old }
{
    check_as(Kind::Settled, table, header, k, length, order)
}

/// Tries a table under a header as a moving one, as `check_settled` does a settled one. At Ok the
/// layout has capacity 0 from the boundary on.
pub fn check_moving<const C: usize>(
    table: &Table,
    header: &Header,
    k: u64,
    length: u64,
    order: &mut Vec<u32>,
) -> Result<Layout<C>, TableFault>
    requires can { CanCheck C k header.now table.now.now (vec_capacity order.old) }
    ensures valid { IsOk result ↔ IsValid (checked C k length Moving header.now table.now.now) }
    ensures layout { IfOk result (IsLayoutOf k header.now) }
    ensures broken { IfErr result (λ fault. FirstBroken (checked C k length Moving header.now table.now.now)
        fault.rule fault.at) }
    ensures capacity { vec_capacity order.new ≡ vec_capacity order.old }
{
    check_as(Kind::Moving, table, header, k, length, order)
}

/// Tries a table under a header as one of a kind, whatever kind the header has.
fn check_as<const C: usize>(
    kind: Kind,
    table: &Table,
    header: &Header,
    k: u64,
    length: u64,
    order: &mut Vec<u32>,
) -> Result<Layout<C>, TableFault>
    requires can { CanCheck C k header.now table.now.now (vec_capacity order.old) }
    ensures valid { IsOk result ↔ IsValid (checked C k length kind header.now table.now.now) }
    ensures layout { IfOk result (IsLayoutOf k header.now) }
    ensures broken { IfErr result (λ fault. FirstBroken (checked C k length kind header.now table.now.now)
        fault.rule fault.at) }
    ensures capacity { vec_capacity order.new ≡ vec_capacity order.old }
{
    let frame = framed(C as u8, SIZE_MAX, k, length, with_kind(kind, header));
    match first_broken(table, &frame, order) {
        Some(fault) => Err(fault),
        None => Ok(layout_of(table, &frame)),
    }
}

/// The header, with its kind set.
fn with_kind(kind: Kind, header: &Header) -> Header
    ensures { result ≡ of_kind kind header.now }
{
    Header { kind, ..*header }
}

/// The layout of a valid table.
fn layout_of<const C: usize>(table: &Table, frame: &Frame) -> Layout<C>
    requires fits { C ≤ 32 }
    requires same { frame.now.classes ≡ C }
    requires valid { IsValid (placed table.now frame.now) }
    ensures layout { IsLayoutOf frame.now.k frame.now.header result }
{
    Layout::of(
        frame.k,
        Row::of(frame.header.caps),
        Grid::of(frame.header.used),
    )
}

/// The first rule that is broken, and the least place at which it is.
fn first_broken(table: &Table, frame: &Frame, order: &mut Vec<u32>) -> Option<TableFault>
    requires room { length (records_of table.now.now) ≤ vec_capacity order.old }
    ensures valid { IsNone result → IsValid (placed table.now frame.now) }
    ensures first { IfSome result (λ fault. FirstBroken (placed table.now frame.now) fault.rule fault.at) }
    ensures capacity { vec_capacity order.new ≡ vec_capacity order.old }
{
    'rules: for number in 1..last_rule(frame) + 1 {
        if let Some(at) = first_of(table, frame, order, rule_of(number)) {
            return Some(TableFault { rule: number, at });
        }
    }
    None
}

/// The number of the last rule that a table of the header's kind is to keep.
fn last_rule(frame: &Frame) -> u8
    ensures { result ≡ last_of frame.now.header.kind }
{
    match frame.header.kind {
        Kind::Settled => 10,
        Kind::Moving => 12,
    }
}

/// The rule of a number.
fn rule_of(number: u8) -> Rule
    requires low { 1 ≤ number }
    requires high { number ≤ 12 }
    ensures { number_of (named result) ≡ number }
{
    match number {
        1 => Rule::AtPlaces(PlaceRule::SizeFits),
        2 => Rule::AtPlaces(PlaceRule::EmptyAtZero),
        3 => Rule::AtPlaces(PlaceRule::EndsWithin),
        4 => Rule::AtPlaces(PlaceRule::KindFits),
        5 => Rule::AtPlaces(PlaceRule::NothingAbove),
        6 => Rule::AtPlaces(PlaceRule::RowFits),
        7 => Rule::AtPlaces(PlaceRule::LowerStands),
        8 => Rule::Apart,
        9 => Rule::Balanced,
        10 => Rule::AtPlaces(PlaceRule::BuffersFull),
        11 => Rule::Room,
        _ => Rule::Resume,
    }
}

/// The least place at which a rule is broken, where the rules before it hold.
fn first_of(table: &Table, frame: &Frame, order: &mut Vec<u32>, rule: Rule) -> Option<u64>
    requires due { number_of (named rule) ≤ last_of frame.now.header.kind }
    requires lower { HoldBelow (number_of (named rule)) (placed table.now frame.now) }
    requires room { length (records_of table.now.now) ≤ vec_capacity order.old }
    ensures none { IsNone result → AllHold (named rule) (placed table.now frame.now) }
    ensures first { IfSome result (λ at. BreaksAt (named rule) (placed table.now frame.now) at) }
    ensures capacity { vec_capacity order.new ≡ vec_capacity order.old }
{
    match rule {
        Rule::AtPlaces(rule) => first_place(table, frame, rule),
        Rule::Apart => first_overlap(table, frame, order),
        Rule::Balanced => first_unbalanced(table, frame),
        Rule::Room => first_without_room(table, frame),
        Rule::Resume => first_misplaced(table, frame, order),
    }
}
