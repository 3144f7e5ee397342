//! A scratch file, which is there while something is measured on it.
ghost use Rattle.std.specs.Prelude.{◌≡◌, None, OnOk, IsTrue, IsFalse};

use disk_face::{Bay, Disk, Mounted};
use disk_file::FileBay;
use std::fs;
use std::test::Fail;

/// What is measured on a file.
pub trait Measured {
    /// What it gives.
    type Times: Drop;

    /// Measures on a file that is open.
    fn times<D: Disk + Drop>(&self, rt: &HostRuntime, disk: D) -> Result<Self::Times, Fail>
        requires ready { IsTrue (D.state disk).is_ready }
        requires untold { IsFalse (D.state disk).tells };
}

/// Measures on a scratch file, which is removed: a new one, or also one that is there where `is_new` is
/// false.
pub fn on_scratch<M: Measured>(
    rt: &HostRuntime,
    name: &str,
    is_new: bool,
    what: &M,
) -> Result<M::Times, Fail> {
    on_bay(rt, FileBay::new(rt), name, is_new, what)
}

/// The same in a bay.
fn on_bay<B: Bay + Drop, M: Measured>(
    rt: &HostRuntime,
    bay: B,
    name: &str,
    is_new: bool,
    what: &M,
) -> Result<M::Times, Fail>
    requires none { (B.state bay).last_mount ≡ None }
    requires untold { IsFalse (B.state bay).tells }
{
    let mut bay = bay;
    mount(&mut bay, name, is_new)?;
    let measured = what.times(rt, bay);
    let removed = fs::remove_file(rt, name);
    let times = measured?;
    removed?;
    Ok(times)
}

/// Mounts a file.
fn mount<B: Bay>(bay: &mut B, name: &str, is_new: bool) -> Result<(), Fail>
    requires { (B.state bay.old).last_mount ≡ None }
    ensures ready { OnOk result (IsTrue (B.state bay.new).is_ready) }
    ensures told { (B.state bay.new).tells ≡ (B.state bay.old).tells }
{
    match bay.mount(name, true) {
        Ok(Mounted::Made) => Ok(()),
        Ok(Mounted::There) if !is_new => Ok(()),
        _ => Err("a scratch file")?,
    }
}
