//! The text of a summary, and of what a cache counted.
ghost use Rattle.std.specs.Prelude.{◌≡◌, ◌+◌, ◌≤◌, ◌++◌, length};
ghost use Rattle.arrayvec.specs.ArrayVec.{array_vec_len};
ghost use Rattle.work_command.specs.Summaries.{answer_lines, cache_lines, cost_line, cost_lines, count_line, store_lines, summary_text};
ghost use Rattle.command_face.specs.Lines.{numbered};

use arrayvec::ArrayVec;
use command_face::push;
use itoa::Buffer;
use read_cache::Cached;
use size_class::CLASSES;
use work_session::{Cost, Summary};

/// The twelve lines of a summary, each with its newline; they have at most 900 bytes.
pub fn summary_text(summary: &Summary) -> ArrayVec<u8, 4096>
    ensures lines { result.items ≡ summary_text summary.now }
    ensures short { array_vec_len result ≤ 900 }
{
    let mut text = ArrayVec::new();
    push_answers(&mut text, summary);
    push_store(&mut text, summary);
    push_costs(&mut text, summary);
    text
}

/// The lines of a summary, and three of what the cache counted whose store did the jobs.
pub fn cached_text(summary: &Summary, cached: &Cached<CLASSES>) -> ArrayVec<u8, 4096>
    ensures { result.items ≡ summary_text summary.now ++ cache_lines cached.now.list }
{
    let mut text = summary_text(summary);
    push_count(&mut text, b"hits", u128::from(cached.hits()));
    push_count(&mut text, b"misses", u128::from(cached.misses()));
    push_count(&mut text, b"drops", u128::from(cached.drops()));
    text
}

/// Adds how many jobs there were, and how they were answered.
fn push_answers(text: &mut ArrayVec<u8, 4096>, summary: &Summary)
    requires room { array_vec_len text.old ≤ 2000 }
    ensures lines { text.new.items ≡ text.old.items ++ answer_lines summary.now }
    ensures short { array_vec_len text.new ≤ array_vec_len text.old + 300 }
{
    push_count(text, b"requests", u128::from(summary.requests));
    push_count(text, b"ok", u128::from(summary.ok));
    push_count(text, b"kept", u128::from(summary.kept));
    push_count(text, b"read", u128::from(summary.read));
    push_count(text, b"refused", u128::from(summary.refused));
}

/// Adds what the store has after them, and how many bytes were moved.
fn push_store(text: &mut ArrayVec<u8, 4096>, summary: &Summary)
    requires room { array_vec_len text.old ≤ 2000 }
    ensures lines { text.new.items ≡ text.old.items ++ store_lines summary.now }
    ensures short { array_vec_len text.new ≤ array_vec_len text.old + 300 }
{
    push_count(text, b"names", u128::from(summary.names));
    push_count(text, b"bytes", u128::from(summary.bytes));
    push_count(text, b"length", u128::from(summary.length));
    push_count(text, b"moved", summary.moved);
}

/// Adds what that cost.
fn push_costs(text: &mut ArrayVec<u8, 4096>, summary: &Summary)
    requires room { array_vec_len text.old ≤ 2000 }
    ensures lines { text.new.items ≡ text.old.items ++ cost_lines summary.now }
    ensures short { array_vec_len text.new ≤ array_vec_len text.old + 300 }
{
    push_cost(text, b"linear", &summary.linear);
    push_cost(text, b"flat", &summary.flat);
    push_cost(text, b"seek", &summary.seek);
}

/// Adds a line of a word and a number.
#[tactic(auto, unfolding(crate::specs::Summaries::count_line))]
fn push_count(text: &mut ArrayVec<u8, 4096>, word: &[u8], n: u128)
    requires word { length word.now ≤ 8 }
    requires room { array_vec_len text.old ≤ 3000 }
    ensures line { text.new.items ≡ text.old.items ++ count_line word.now n }
    ensures short { array_vec_len text.new ≤ array_vec_len text.old + 60 }
{
    push(text, word);
    push_wide(text, n);
    push(text, b"\n");
}

/// Adds a line of a word and what two rows weigh.
#[tactic(auto, unfolding(crate::specs::Summaries::cost_line))]
fn push_cost(text: &mut ArrayVec<u8, 4096>, word: &[u8], cost: &Cost)
    requires word { length word.now ≤ 8 }
    requires room { array_vec_len text.old ≤ 3000 }
    ensures line { text.new.items ≡ text.old.items ++ cost_line word.now cost.now }
    ensures short { array_vec_len text.new ≤ array_vec_len text.old + 100 }
{
    push(text, word);
    push_wide(text, cost.moved);
    push_wide(text, cost.asked);
    push(text, b"\n");
}

/// Adds a blank and a number's decimal digits, at most 41 bytes.
#[tactic(auto, unfolding(command_face::specs::Lines::numbered))]
fn push_wide(text: &mut ArrayVec<u8, 4096>, n: u128)
    requires room { array_vec_len text.old ≤ 3100 }
    ensures digits { text.new.items ≡ text.old.items ++ numbered n }
    ensures short { array_vec_len text.new ≤ array_vec_len text.old + 41 }
{
    let mut digits = Buffer::new();
    push(text, b" ");
    push(text, digits.format(n).as_bytes());
}
