//! Which calls fail, and how many were made.
ghost use Rattle.std.specs.Prelude.{◌≡◌};
ghost use Rattle.disk_mem.specs.Calls.{ListedCalls, AfterChanges, breaks_of, none_made, fails_change, fails_read, next_change_fails, next_read_fails, after_change, after_read};

use std::marker::Model;

/// Which calls fail: the changing calls and the others of these numbers, or all after so many
/// changing calls.
#[derive(Drop)]
enum Rule {
    Listed(Vec<u64>, Vec<u64>),
    StopAfter(u64),
}

impl Rule {
    /// Whether the next changing call fails, after so many.
    fn fails_change(&self, made: u64) -> bool
        ensures { result ≡ fails_change (breaks_of self.now) made }
    {
        match self {
            Rule::Listed(changes, _) => changes.as_slice().contains(&made.saturating_add(1)),
            Rule::StopAfter(n) => *n <= made,
        }
    }

    /// Whether the next other call fails, after so many changing calls and so many others.
    fn fails_read(&self, changes_made: u64, made: u64) -> bool
        ensures { result ≡ fails_read (breaks_of self.now) changes_made made }
    {
        match self {
            Rule::Listed(_, reads) => reads.as_slice().contains(&made.saturating_add(1)),
            Rule::StopAfter(n) => *n <= changes_made,
        }
    }
}

/// The calls made. Each counts, failed ones too; a count stays at its last value.
#[derive(Drop)]
pub struct Calls {
    rule: Rule,
    changes: u64,
    reads: u64,
    failed_changes: u64,
    failed_reads: u64,
}

impl Model for Calls {
    ghost use Rattle.disk_mem.specs.Calls.{Calls, breaks_of};

    ghost Value = { Calls };

    ghost view = { λ c. record {
      breaks = breaks_of c.rule;
      changes = c.changes;
      reads = c.reads;
      failed_changes = c.failed_changes;
      failed_reads = c.failed_reads;
    } };
}

impl Calls {
    fn new(rule: Rule) -> Calls
        ensures { result ≡ none_made (breaks_of rule) }
    {
        Calls {
            rule,
            changes: 0,
            reads: 0,
            failed_changes: 0,
            failed_reads: 0,
        }
    }

    /// Fails the listed calls, counted from 1.
    pub fn listed(changes: Vec<u64>, reads: Vec<u64>) -> Calls
        ensures { result ≡ none_made (ListedCalls changes.items reads.items) }
    {
        Calls::new(Rule::Listed(changes, reads))
    }

    /// Fails each call after `n` changing calls.
    pub fn stop_after(n: u64) -> Calls
        ensures { result ≡ none_made (AfterChanges n) }
    {
        Calls::new(Rule::StopAfter(n))
    }

    /// Counts a changing call, and answers whether it is to fail.
    pub fn change(&mut self) -> bool
        ensures fails { result ≡ next_change_fails self.old }
        ensures after { self.new ≡ after_change self.old }
    {
        let fails = self.rule.fails_change(self.changes);
        self.changes = self.changes.saturating_add(1);
        if fails {
            self.failed_changes = self.failed_changes.saturating_add(1);
        }
        fails
    }

    /// Counts a call that isn't a changing one, and answers whether it is to fail.
    pub fn read(&mut self) -> bool
        ensures fails { result ≡ next_read_fails self.old }
        ensures after { self.new ≡ after_read self.old }
    {
        let fails = self.rule.fails_read(self.changes, self.reads);
        self.reads = self.reads.saturating_add(1);
        if fails {
            self.failed_reads = self.failed_reads.saturating_add(1);
        }
        fails
    }

    /// How many changing calls were failed.
    pub fn failed_changes(&self) -> u64
        ensures { result ≡ self.now.failed_changes }
    {
        self.failed_changes
    }
}
