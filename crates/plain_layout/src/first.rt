//! The first rule that a table breaks, and where.
ghost use Rattle.std.specs.Prelude.{◌≡◌, ◌≤◌, ◌<◌, ◌↔◌, IsTrue, IsNone, IfSome};
ghost use Rattle.table_rules.specs.{Breaks.{BreaksAt}, Rules.{AllHold, FirstBroken, IsValid, RuleAt, last_of, moving_places, number_of, places_of}};
ghost use Rattle.plain_layout.specs.{Firsts.{named}, Plain.{placed}};

use crate::Table;
use slot_codec::Kind;

/// The rules of a table, in order. The last two are those of a moving one.
#[derive(Clone, Copy, Debug, PartialEq, Eq)]
pub enum Rule {
    SizeFits,
    EmptyAtZero,
    EndsWithin,
    KindFits,
    NothingAbove,
    RowFits,
    LowerStands,
    ApartFromEarlier,
    Balances,
    BuffersFull,
    RoomToResume,
    PlacesToResume,
}

impl Table {
    /// Whether a rule holds at a place: a record, a class, or 0.
    pub fn holds(&self, rule: Rule, at: usize) -> bool
        requires divisor { 1 ≤ self.now.k }
        requires within { at < places_of (named rule) (placed self.now) }
        ensures { IsTrue result ↔ RuleAt (named rule) (placed self.now) at }
    {
        let _boundary = self.table_boundary();
        match rule {
            Rule::SizeFits => self.size_fits(at),
            Rule::EmptyAtZero => self.empty_at_zero(at),
            Rule::EndsWithin => self.ends_within(at),
            Rule::KindFits => self.kind_fits(),
            Rule::NothingAbove => self.nothing_above(at as u8),
            Rule::RowFits => self.row_fits(at as u8),
            Rule::LowerStands => self.lower_stands(at),
            Rule::ApartFromEarlier => self.apart_from_earlier(at),
            Rule::Balances => self.balances(at as u8),
            Rule::BuffersFull => self.buffers_full(at as u8),
            Rule::RoomToResume => self.room_to_resume(),
            Rule::PlacesToResume => self.places_to_resume(at),
        }
    }

    /// How many places a rule has, counted from 0.
    pub fn places(&self, rule: Rule) -> usize
        ensures { result ≡ places_of (named rule) (placed self.now) }
    {
        match rule {
            Rule::KindFits => 1,
            Rule::EndsWithin => self.records.len() + 1,
            Rule::NothingAbove => 32,
            Rule::RowFits | Rule::Balances | Rule::BuffersFull => usize::from(
                self.table_boundary(),
            ),
            Rule::RoomToResume => self.moving_places(1),
            Rule::PlacesToResume => self.moving_places(self.records.len()),
            _ => self.records.len(),
        }
    }

    /// How many places a rule of moving tables has, which are none in a settled one.
    fn moving_places(&self, places: usize) -> usize
        ensures { result ≡ moving_places self.now.header.kind places }
    {
        match self.header.kind {
            Kind::Settled => 0,
            Kind::Moving => places,
        }
    }

    /// The first place at which a rule is broken.
    pub fn first_of(&self, rule: Rule) -> Option<usize>
        requires divisor { 1 ≤ self.now.k }
        ensures none { IsNone result → AllHold (named rule) (placed self.now) }
        ensures first { IfSome result (λ at. BreaksAt (named rule) (placed self.now) at) }
    {
        'places: for at in 0..self.places(rule) {
            if !self.holds(rule, at) {
                return Some(at);
            }
        }
        None
    }

    /// The number of the first rule that is broken, and the least place at which it is. None
    /// exactly where the table is valid: all rules hold at all their places.
    pub fn first_broken(&self) -> Option<(u8, u64)>
        requires divisor { 1 ≤ self.now.k }
        ensures first { IfSome result (λ first. FirstBroken (placed self.now) first.0 first.1) }
        ensures valid { IsNone result ↔ IsValid (placed self.now) }
    {
        'rules: for number in 1..self.last_rule() + 1 {
            if let Some(at) = self.first_of(rule_of(number)) {
                return Some((number, at as u64));
            }
        }
        None
    }

    /// The number of the last rule that the table is to keep.
    fn last_rule(&self) -> u8
        ensures { result ≡ last_of self.now.header.kind }
    {
        match self.header.kind {
            Kind::Settled => 10,
            Kind::Moving => 12,
        }
    }
}

/// The rule of a number.
pub fn rule_of(number: u8) -> Rule
    requires low { 1 ≤ number }
    requires high { number ≤ 12 }
    ensures { number_of (named result) ≡ number }
{
    match number {
        1 => Rule::SizeFits,
        2 => Rule::EmptyAtZero,
        3 => Rule::EndsWithin,
        4 => Rule::KindFits,
        5 => Rule::NothingAbove,
        6 => Rule::RowFits,
        7 => Rule::LowerStands,
        8 => Rule::ApartFromEarlier,
        9 => Rule::Balances,
        10 => Rule::BuffersFull,
        11 => Rule::RoomToResume,
        _ => Rule::PlacesToResume,
    }
}
