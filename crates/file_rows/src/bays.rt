//! What the tests of bays share: mounts that are answered or refused, and causes as words.
ghost use Rattle.std.specs.Prelude.{◌≡◌, None, IsTrue, IsFalse};
ghost use Rattle.disk_face.specs.Mounts.{has_file};
ghost use Rattle.disk_file.specs.Bays.{bay_state};

use disk_face::{Bay, Mounted};
use disk_file::{Cause, FileBay, Host};
use std::process::Abort;

/// A cause as a word, which can be compared.
pub fn word(cause: Option<Cause>) -> &'static str {
    match cause {
        None => "none",
        Some(Cause::System(_)) => "system",
        Some(Cause::NoRoom(_)) => "no room",
        Some(Cause::NoFolder(_)) => "no folder",
        Some(Cause::NoName) => "no name",
        Some(Cause::LongName) => "long name",
        Some(Cause::Folder) => "folder",
        Some(Cause::Special) => "special",
        Some(Cause::InUse) => "in use",
        Some(Cause::OwnStream) => "own stream",
        Some(Cause::Ended) => "ended",
        Some(Cause::NoneTaken) => "none taken",
        Some(Cause::Lost) => "lost",
        Some(Cause::Gone) => "gone",
    }
}

/// Mounts a name, and is answered so.
pub fn mounts<H: Host>(
    rt: &impl Abort,
    bay: &mut FileBay<H>,
    name: &str,
    make: bool,
    answer: Mounted,
)
    requires { (bay_state bay.old).last_mount ≡ None }
    ensures ready { IsTrue (has_file answer) → IsTrue (bay_state bay.new).is_ready }
    ensures untold { IsFalse (bay_state bay.old).tells → IsFalse (bay_state bay.new).tells }
{
    assert_eq!(rt; bay.mount(name, make).expect(rt, "a mount"), answer);
}

/// Mounts a name, and is refused for a cause.
pub fn refuses<H: Host>(rt: &impl Abort, bay: &mut FileBay<H>, name: &str, make: bool, cause: &str)
    requires { (bay_state bay.old).last_mount ≡ None }
    ensures { (bay_state bay.new).last_mount ≡ None }
{
    assert!(rt; bay.mount(name, make).is_err());
    assert_eq!(rt; word(bay.cause()), cause);
}
