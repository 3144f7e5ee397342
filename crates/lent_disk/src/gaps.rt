//! Memory that is read through gaps.
ghost use Rattle.std.specs.Prelude.{◌≡◌, ◌⊎◌, ◌-◌, ◌≤◌, length, take};
ghost use Rattle.byte_ranges.specs.Ranges.{SameOutside, resized};
ghost use Rattle.lent_disk.specs.Gaps.{IsGapOf, Misses, part_at, seen, zeroed};

use crate::gap::Gap;

/// Writes zeros into a gap.
pub fn fill(memory: &mut [u8], gap: Gap)
    requires gap { IsGapOf gap (length memory.old) }
    ensures filled { memory.new ≡ zeroed gap memory.old }
    ensures same_length { length memory.new ≡ length memory.old }
{
    memory[gap.from..gap.to].fill(0);
}

/// Writes zeros into the shortest of three gaps, and answers the two others in order.
pub fn keep_two(memory: &mut [u8], first: Gap, second: Gap, third: Gap) -> (Gap, Gap)
    requires first { IsGapOf first (length memory.old) }
    requires second { IsGapOf second (length memory.old) }
    requires third { IsGapOf third (length memory.old) }
    ensures seen { seen result.0 result.1 memory.new ≡ zeroed third (seen first second memory.old) }
    ensures lower { (result.0 ≡ first) ⊎ (result.0 ≡ second) }
    ensures upper { (result.1 ≡ second) ⊎ (result.1 ≡ third) }
    ensures same_length { length memory.new ≡ length memory.old }
{
    let least = first.size().min(second.size()).min(third.size());
    if first.size() == least {
        fill(memory, first);
        return (second, third);
    }
    if second.size() == least {
        fill(memory, second);
        return (first, third);
    }
    fill(memory, third);
    (first, second)
}

/// Takes a range out of two gaps, and answers two. The range is written next: what it reads as isn't kept.
pub fn part(memory: &mut [u8], lower: Gap, upper: Gap, at: usize, after: usize) -> (Gap, Gap)
    requires order { at ≤ after }
    requires fits { after ≤ length memory.old }
    requires lower { IsGapOf lower (length memory.old) }
    requires upper { IsGapOf upper (length memory.old) }
    ensures seen { SameOutside at (after - at) (seen lower upper memory.old)
        (seen result.0 result.1 memory.new) }
    ensures lower { IsGapOf result.0 (length memory.old) }
    ensures upper { IsGapOf result.1 (length memory.old) }
    ensures lower_misses { Misses at after result.0 }
    ensures upper_misses { Misses at after result.1 }
    ensures same_length { length memory.new ≡ length memory.old }
{
    let (low, middle) = keep_two(memory, lower.before(at), lower.since(after), upper);
    keep_two(memory, low, middle.before(at), middle.since(after))
}

/// The two gaps of a file that grows from `end` to all of these bytes, of which the new ones are a gap.
pub fn extend(file: &mut [u8], end: usize, lower: Gap, upper: Gap) -> (Gap, Gap)
    requires fits { end ≤ length file.old }
    requires lower { IsGapOf lower end }
    requires upper { IsGapOf upper end }
    ensures seen { seen result.0 result.1 file.new
        ≡ resized (seen lower upper (take end file.old)) (length file.old) }
    ensures lower { IsGapOf result.0 (length file.old) }
    ensures upper { IsGapOf result.1 (length file.old) }
    ensures same_length { length file.new ≡ length file.old }
{
    let grown = Gap {
        from: end,
        to: file.len(),
    };
    if upper.to == end {
        let joined = Gap {
            from: upper.from,
            to: grown.to,
        };
        return (lower, joined);
    }
    keep_two(file, lower, upper, grown)
}

/// Writes zeros into bytes that were copied from a position on, where these are in a gap.
pub fn blank(out: &mut [u8], at: usize, gap: Gap)
    requires { gap.from ≤ gap.to }
    ensures { out.new ≡ zeroed (part_at at (length out.old) gap) out.old }
{
    let n = out.len();
    fill(out, gap.part_at(at, n));
}
