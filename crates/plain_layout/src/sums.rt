//! Sums over the records of a table.
ghost use Rattle.std.specs.Prelude.{◌≡◌, ◌≤◌, ◌<◌, ◌^◌};
ghost use Rattle.byte_ranges.specs.Lists.{sum_below};
ghost use Rattle.plain_layout.specs.Plain.{placed};
ghost use Rattle.table_rules.specs.Tables.{dead_in_buffer, live, live_in_buffer, live_in_payload, size_sum};
ghost use Rattle.size_class.specs.Classes.{width};

use crate::Table;

impl Table {
    /// The bytes of all objects together.
    #[tactic(auto, using(crate::proofs::SumSteps::sizes_more))]
    pub fn bytes(&self) -> u128
        ensures { result ≡ size_sum self.now.records.items }
    {
        let mut bytes = 0;
        'records: for at in 0..self.records.len() {
            bytes += u128::from(self.size(at));
        }
        bytes
    }

    /// The bytes of the objects of a class.
    #[tactic(auto, using(table_rules::proofs::TableLaws::size_sum_more))]
    pub fn live(&self, c: u8) -> u128
        ensures sum { result ≡ live (placed self.now) c }
        ensures small { result < 2 ^ 127 }
    {
        let mut bytes = 0;
        'records: for at in 0..self.records.len() {
            if self.is_of(c, at) {
                bytes += u128::from(self.size(at));
            }
        }
        bytes
    }

    /// The bytes of the objects of a class that lie in its payload segment.
    #[tactic(auto, using(table_rules::proofs::TableLaws::size_sum_more))]
    pub fn live_in_payload(&self, c: u8) -> u128
        requires divisor { 1 ≤ self.now.k }
        ensures sum { result ≡ live_in_payload (placed self.now) c }
        ensures small { result < 2 ^ 127 }
    {
        let mut bytes = 0;
        'records: for at in 0..self.records.len() {
            if self.is_of(c, at) && self.lies_in_payload(c, at) {
                bytes += u128::from(self.size(at));
            }
        }
        bytes
    }

    /// The bytes of the objects of a class that lie in a buffer.
    #[tactic(auto, using(table_rules::proofs::TableLaws::size_sum_more))]
    pub fn live_in_buffer(&self, j: u8, c: u8) -> u128
        requires divisor { 1 ≤ self.now.k }
        ensures sum { result ≡ live_in_buffer (placed self.now) j c }
        ensures small { result < 2 ^ 127 }
    {
        let mut bytes = 0;
        'records: for at in 0..self.records.len() {
            if self.is_of(c, at) && self.lies_in_buffer(j, at) {
                bytes += u128::from(self.size(at));
            }
        }
        bytes
    }

    /// The bytes that entries of a class have taken in all buffers for objects that are gone.
    #[tactic(auto, using(segment_layout::proofs::StepLaws::sum_below_next))]
    pub fn dead(&self, c: u8) -> u128
        requires divisor { 1 ≤ self.now.k }
        ensures sum { result ≡ sum_below width (λ j. dead_in_buffer (placed self.now) j c) }
        ensures small { result ≤ 2 ^ 69 }
    {
        let mut bytes = 0;
        'buffers: for j in 0..32u8 {
            bytes += u128::from(self.entry(j, c)).saturating_sub(self.live_in_buffer(j, c));
        }
        bytes
    }
}
