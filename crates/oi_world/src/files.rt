ghost use Rattle.std.specs.Prelude.{◌≡◌, ◌≤◌, ◌+◌, Some, IfOk, OnOk, OnErr, vec_len};
ghost use Rattle.std.specs.Option.{option_map};
ghost use Rattle.std.specs.FinMap as finite;
ghost use Rattle.oi_world.specs.Desk.{HasCause, GivesRead};
ghost use Rattle.oi_world.specs.Mem.{files_of};

use crate::desk::DeskFault;
use oi_base::NoMemory;
use std::alloc::Global;
use std::collections::BTreeMap;

/// What a name holds.
pub fn find<'a>(files: &'a BTreeMap<String, Vec<u8>>, name: &str) -> Option<&'a [u8]>
    ensures { option_map (λ bytes. bytes.now) result ≡ finite.get (files_of files.now) name.now }
{
    match files.get(name) {
        None => None,
        Some(bytes) => Some(bytes.as_slice()),
    }
}

/// The first `limit + 1` bytes of what a name holds.
pub fn read(
    alloc: Global,
    files: &BTreeMap<String, Vec<u8>>,
    name: &str,
    limit: u32,
) -> Result<Vec<u8>, DeskFault>
    ensures found { GivesRead (Some (files_of files.now)) name.now limit result }
    ensures short { IfOk result (λ bytes. vec_len bytes ≤ limit + 1) }
    ensures never_failed { HasCause 0 0 result }
{
    let Some(bytes) = find(files, name) else {
        return Err(DeskFault::Absent);
    };
    let end = bytes.len().min(limit as usize + 1);
    Ok(copied(alloc, &bytes[..end])?)
}

fn copied(alloc: Global, bytes: &[u8]) -> Result<Vec<u8>, NoMemory>
    ensures { IfOk result (λ copy. copy.items ≡ bytes.now) }
{
    Ok(Vec::from_slice(alloc, bytes)?)
}

/// Makes a name hold these bytes.
pub fn store(
    alloc: Global,
    files: &mut BTreeMap<String, Vec<u8>>,
    name: &str,
    bytes: &[u8],
) -> Result<(), NoMemory>
    ensures ok { OnOk result (files_of files.new ≡ finite.insert (files_of files.old) name.now bytes.now) }
    ensures err { OnErr result (files_of files.new ≡ files_of files.old) }
{
    let key = String::from_str(alloc, name)?;
    let value = Vec::from_slice(alloc, bytes)?;
    files.insert(key, value)?;
    Ok(())
}
