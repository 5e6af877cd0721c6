ghost use Rattle.ir_bodies.specs.Endings.{noted};
ghost use Rattle.ir_phrases.specs.Gives.{Gives};

use ir_phrases::{ReadFault, Reader};

/// Passes the notes after what was read, and gives it.
pub fn noted<T: Drop>(reader: &mut Reader<'_>, read: T) -> Result<T, ReadFault>
    ensures { Gives result reader.new ((noted read).parse reader.old) }
{
    reader.notes()?;
    Ok(read)
}
