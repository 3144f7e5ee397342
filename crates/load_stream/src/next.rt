//! The next object of a dump: its line, and where it goes.
ghost use Rattle.std.specs.Prelude.{◌≡◌, ◌⊎◌, ◌∷◌, ◌++◌, ◌<◌, ◌≤◌, ◌+◌, ℕ, List, None, Ok, IfOk, IfSome, IsNone, IsTrue, option_copied};
ghost use Rattle.disk_face.specs.Counts.{HasCause};
ghost use Rattle.size_class.specs.{Rows.{cells_of}, declared.TheConstants.{SIZE_MAX}};
ghost use Rattle.slot_codec.specs.{Choice.{rises}, Names.{IsName}};
ghost use Rattle.segment_layout.specs.Layouts.{caps_of, divisor_of};
ghost use Rattle.ask_text.specs.{Asks.{line_of}, declared.ask.Ask.{Ask}};
ghost use Rattle.ask_text.specs.declared.ask.Ask.TheVariants as line;
ghost use Rattle.dump_stream.specs.Placing.{spot_at};
ghost use Rattle.load_stream.specs.Steps.{HasNoObject, HasRoom, NoneStands, StandsNext};

use ask_lines::{Ahead, next_ask};
use ask_text::Ask;
use disk_face::{Source, SourceFault};
use extent_table::Spot;
use segment_layout::Layout;
use size_class::{CLASSES, Row, SIZE_MAX, class_of};
use slot_codec::Name;

/// The name and the size of the next object, and its line is taken; none where no object's text stands
/// in front.
pub(crate) fn next_put<I: Source>(
    ahead: &mut Ahead,
    input: &mut I,
) -> Result<Option<(Name, u64)>, SourceFault>
    ensures named { IfOk result (λ found. IfSome found (λ r. IsName r.0)) }
    ensures small { IfOk result (λ found. IfSome found (λ r. r.1 < 4294967296)) }
    ensures line { IsTrue (I.state input.old).tells → IfOk result (λ found. IfSome found (λ r.
        ahead.old ++ (I.state input.old).left
        ≡ line_of (line.Put r.0 r.1) ++ 10 ∷ (ahead.new ++ (I.state input.new).left))) }
    ensures none { IsTrue (I.state input.old).tells → result ≡ Ok None
        → HasNoObject (ahead.old ++ (I.state input.old).left) }
    ensures told { (I.state input.new).tells ≡ (I.state input.old).tells }
    ensures cause { HasCause (I.state input.old).faults (I.state input.new).faults result }
{
    let found = next_ask(ahead, input)?;
    match found {
        Some(ask) => Ok(put_named(&ask)),
        None => Ok(None),
    }
}

/// The name and the size that a line asks to put, where it does and the word is a name.
fn put_named(ask: &Ask) -> Option<(Name, u64)>
    ensures some { IfSome result (λ r. ask.now ≡ line.Put r.0 r.1) }
    ensures named { IfSome result (λ r. IsName r.0) }
    ensures none { IsNone result → (name : List ℕ) (size : ℕ) → IsName name
        → ask.now ≡ line.Put name size → ⊥ }
{
    match ask {
        Ask::Put { name, size } => {
            let name = Name::new(name.as_bytes())?;
            Some((name, *size))
        }
        _ => None,
    }
}

/// Where an object goes that comes behind others, of which this is the last name, and which fill so much
/// of each class; none where it can't stand there.
pub(crate) fn stand(
    layout: &Layout<CLASSES>,
    filled: &Row<CLASSES>,
    last: Option<&Name>,
    name: &Name,
    size: u64,
) -> Option<Spot>
    requires named { IsName name.now }
    ensures stands { IfSome result (λ spot. StandsNext (option_copied last.entry) (caps_of layout.now)
        (cells_of filled.now) name.now size) }
    ensures spot { IfSome result (λ spot. spot
        ≡ spot_at (divisor_of layout.now) (caps_of layout.now) (cells_of filled.now) size) }
    ensures none { IsNone result → StandsNext (option_copied last.entry) (caps_of layout.now)
        (cells_of filled.now) name.now size → ⊥ }
{
    if size > SIZE_MAX || !rises(last, name) {
        return None;
    }
    if size == 0 {
        return Some(Spot { place: 0, size });
    }
    let class = class_of(size);
    let before = filled.get(class);
    if size > layout.caps().get(class).saturating_sub(before) {
        return None;
    }
    Some(Spot {
        place: layout.start(class) + before,
        size,
    })
}

/// Whether a name is greater than the one before it, if there is one.
fn rises(before: Option<&Name>, name: &Name) -> bool
    ensures { result ≡ rises (option_copied before.entry) name.now }
{
    match before {
        None => true,
        Some(before) => before.cmp(name).is_lt(),
    }
}
