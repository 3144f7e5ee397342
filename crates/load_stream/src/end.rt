//! The end of a dump.
ghost use Rattle.std.specs.Prelude.{◌≡◌, ◌++◌, ◌↔◌, [], Ok, IsTrue, false, true};
ghost use Rattle.disk_face.specs.Counts.{HasCause};
ghost use Rattle.size_class.specs.Rows.{cells_of};

use ask_lines::Ahead;
use disk_face::{Source, SourceFault};
use size_class::{CLASSES, Row};

/// Whether each class has as many bytes as its volume, and the input is read to its end.
pub(crate) fn is_whole<I: Source>(
    filled: &Row<CLASSES>,
    volumes: &Row<CLASSES>,
    ahead: &mut Ahead,
    input: &mut I,
) -> Result<bool, SourceFault>
    ensures filled { result ≡ Ok true → cells_of filled.now ≡ cells_of volumes.now }
    ensures ended { IsTrue (I.state input.old).tells → result ≡ Ok true
        → (ahead.old ++ (I.state input.old).left ≡ []) × (ahead.new ++ (I.state input.new).left ≡ []) }
    ensures more { IsTrue (I.state input.old).tells → result ≡ Ok false
        → cells_of filled.now ≡ cells_of volumes.now → ahead.old ++ (I.state input.old).left ≡ [] → ⊥ }
    ensures told { (I.state input.new).tells ≡ (I.state input.old).tells }
    ensures cause { HasCause (I.state input.old).faults (I.state input.new).faults result }
{
    if !are_same(&filled.cells(), &volumes.cells()) {
        return Ok(false);
    }
    let byte = ahead.next(input)?;
    Ok(byte.is_none())
}

/// Whether these are the same numbers.
fn are_same(numbers: &[u64], others: &[u64]) -> bool
    ensures { IsTrue result ↔ (numbers.now ≡ others.now) }
{
    numbers == others
}
