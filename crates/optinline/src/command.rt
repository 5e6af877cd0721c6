ghost use Rattle.std.specs.Prelude.{◌≡◌, ◌≢◌, ◌<◌, ◌↔◌, ◌⊎◌, IsErrOf, IfOk, IfSome, None, Some, [], codes};
ghost use Rattle.std.specs.Option.{option_map};
ghost use Rattle.oi_world.specs.Desk.{Files, HasCause, read_of};
ghost use Rattle.oi_world.specs.declared.desk.DeskFault.TheVariants.{Absent};
ghost use Rattle.optinline.specs.declared.status.TheConstants.{DONE, REFUSED, TOO_LONG, NOT_BUILT, ABSENT};
ghost use Rattle.optinline.specs.Words.{texts_of, command_of};
ghost use Rattle.optinline.specs.Delivered.{Delivers};
ghost use Rattle.optinline.specs.Answer.{Answer, answer_of, refusal, IsAnswer, HasCauses, IsAbsent, IsTooLong, IsRefused, IsNotBuilt, IsAccepted, IsStatus, IsUntouched, Answered, Interrupted, EndedEarly, Leaves, Runs};

use crate::answer::{MODULE_LIMIT, build_reply, refuse};
use crate::reply::{Reply, write_all};
use crate::status::{DESK_FAILED, NO_COMMAND, NO_MEMORY};
use crate::words::command;
use oi_base::NoMemory;
use oi_world::{Desk, DeskFault};
use std::alloc::Global;

/// What a file holds, up to one byte past the limit; `None` where it isn't there.
fn read_file<D: Desk>(
    alloc: Global,
    desk: &mut D,
    name: &str,
    limit: u32,
) -> Result<Option<Vec<u8>>, DeskFault>
    requires { D.faults desk.old < u64.MAX }
    ensures found { IfOk result (λ file. IfSome (D.files desk.old) (λ files. option_map (λ v. v.items) file ≡ read_of files name.now limit)) }
    ensures present { IsErrOf result Absent → ⊥ }
    ensures files { D.files desk.new ≡ D.files desk.old }
    ensures said { D.said desk.new ≡ D.said desk.old }
    ensures cause { HasCause (D.faults desk.old) (D.faults desk.new) result }
{
    match desk.read(alloc, name, limit) {
        Ok(bytes) => Ok(Some(bytes)),
        Err(DeskFault::Absent) => Ok(None),
        Err(fault) => Err(fault),
    }
}

/// The answer to words that are no command.
fn no_command(alloc: Global) -> Result<Reply, NoMemory>
    ensures answer { IfOk result (λ r. answer_of r ≡ refusal NO_COMMAND (codes "words\n")) }
    ensures status { IfOk result (λ r. r.status ≡ NO_COMMAND) }
    ensures quiet { IfOk result (λ r. r.writes.items ≡ []) }
{
    Ok(refuse(alloc, NO_COMMAND, String::from_str(alloc, "words\n")?))
}

/// What the words answer. It reads the files that they name, and changes none.
fn reply<D: Desk>(alloc: Global, words: &[String], desk: &mut D) -> Result<Reply, DeskFault>
    requires { D.faults desk.old < u64.MAX }
    ensures answer { IfOk result (λ r. IfSome (D.files desk.old) (λ files. IsAnswer (texts_of words.now) files (answer_of r))) }
    ensures words { IfOk result (λ r. (r.status ≡ NO_COMMAND) ↔ (command_of (texts_of words.now) ≡ None)) }
    ensures status { IfOk result (λ r. IsStatus r.status) }
    ensures quiet { IfOk result (λ r. r.status ≢ DONE → r.writes.items ≡ []) }
    ensures present { IsErrOf result Absent → ⊥ }
    ensures files { D.files desk.new ≡ D.files desk.old }
    ensures said { D.said desk.new ≡ D.said desk.old }
    ensures cause { HasCause (D.faults desk.old) (D.faults desk.new) result }
{
    let Some(build) = command(words) else {
        return Ok(no_command(alloc)?);
    };
    let file = read_file(alloc, desk, build.module, MODULE_LIMIT)?;
    Ok(build_reply(alloc, &build, file)?)
}

/// Writes the files of an answer, in order, and then says its text.
fn carry_out<D: Desk>(desk: &mut D, reply: &Reply) -> Result<(), DeskFault>
    requires { D.faults desk.old < u64.MAX }
    ensures leaves { Leaves (answer_of reply.now) (D.files desk.old) (D.files desk.new) (D.said desk.old) (D.said desk.new) result }
    ensures cause { HasCause (D.faults desk.old) (D.faults desk.new) result }
{
    write_all(desk, reply.writes.as_slice())?;
    desk.say(reply.said.as_bytes())
}

/// Runs a command. Its answer is known before the first file is written.
fn run<D: Desk>(alloc: Global, words: &[String], desk: &mut D) -> Result<u8, DeskFault>
    requires { D.faults desk.old < u64.MAX }
    ensures runs { IfSome (D.files desk.old) (λ files. Runs (texts_of words.now) files (D.files desk.old) (D.files desk.new) (D.said desk.old) (D.said desk.new) result) }
    ensures causes { IfOk result (λ status. IfSome (D.files desk.old) (λ files. HasCauses (texts_of words.now) files status)) }
    ensures delivers { IfOk result (λ status. status ≡ DONE → IfSome (D.files desk.old) (λ files. (after : Files) × (D.files desk.new ≡ Some after) × Delivers (texts_of words.now) files after)) }
    ensures words { IfOk result (λ status. (status ≡ NO_COMMAND) ↔ (command_of (texts_of words.now) ≡ None)) }
    ensures status { IfOk result (λ status. IsStatus status) }
    ensures no_end { IfOk result (λ status. (status ≢ DESK_FAILED) × (status ≢ NO_MEMORY)) }
    ensures quiet { IfOk result (λ status. status ≢ DONE → D.files desk.new ≡ D.files desk.old) }
    ensures present { IsErrOf result Absent → ⊥ }
    ensures cause { HasCause (D.faults desk.old) (D.faults desk.new) result }
{
    let reply = reply(alloc, words, desk)?;
    carry_out(desk, &reply)?;
    Ok(reply.status)
}

/// Runs the command that these words are, over this desk, and answers its status.
///
/// The one command so far is `build MODULE OBJECT DECISIONS CERT BUDGET`. Statuses are 0 (it was carried out), 2 (the
/// words are no command), 3 (a call of the desk failed), 4 (MODULE is the text of no valid module), 9 (it has more bytes
/// than its limit), 12 (memory ran out), 13 (it is valid, and something of it is not built yet) and 18 (it is not there).
/// The program answers 19 where the system does not give its words; `tool` never does.
pub fn tool<D: Desk>(alloc: Global, words: &[String], desk: &mut D) -> u8
    requires { D.faults desk.old < u64.MAX }

    // Where no call of the desk failed and memory was found, the run is answered whole.
    ensures answered { result ≢ DESK_FAILED → result ≢ NO_MEMORY → IfSome (D.files desk.old) (λ files.
        (a : Answer) × IsAnswer (texts_of words.now) files a × Answered a result (D.files desk.old) (D.files desk.new) (D.said desk.old) (D.said desk.new)) }

    // Where the answer is 0, the words are a build of the text of a valid module. OBJECT is the ELF file of an image
    // that, on every input, does what the module says as long as that is defined, in both directions; its text has the
    // size of the map that DECISIONS holds, no map gives less, and CERT is the certificate of that.
    ensures refines { result ≡ DONE → IfSome (D.files desk.old) (λ files. (after : Files) × (D.files desk.new ≡ Some after) × Delivers (texts_of words.now) files after) }

    // Each status comes exactly where its cause holds.
    ensures words { result ≢ DESK_FAILED → result ≢ NO_MEMORY → (result ≡ NO_COMMAND) ↔ (command_of (texts_of words.now) ≡ None) }
    ensures failed { (result ≡ DESK_FAILED) ↔ (D.faults desk.old < D.faults desk.new) }
    ensures absent { result ≢ DESK_FAILED → result ≢ NO_MEMORY → IfSome (D.files desk.old) (λ files. (result ≡ ABSENT) ↔ IsAbsent (texts_of words.now) files) }
    ensures too_long { result ≢ DESK_FAILED → result ≢ NO_MEMORY → IfSome (D.files desk.old) (λ files. (result ≡ TOO_LONG) ↔ IsTooLong (texts_of words.now) files) }
    ensures refused { result ≢ DESK_FAILED → result ≢ NO_MEMORY → IfSome (D.files desk.old) (λ files. (result ≡ REFUSED) ↔ IsRefused (texts_of words.now) files) }
    ensures not_built { result ≢ DESK_FAILED → result ≢ NO_MEMORY → IfSome (D.files desk.old) (λ files. (result ≡ NOT_BUILT) ↔ IsNotBuilt (texts_of words.now) files) }
    ensures done { result ≢ DESK_FAILED → result ≢ NO_MEMORY → IfSome (D.files desk.old) (λ files. (result ≡ DONE) ↔ IsAccepted (texts_of words.now) files) }
    ensures statuses { IsStatus result ⊎ ((result ≡ DESK_FAILED) ⊎ (result ≡ NO_MEMORY)) }

    // A build of a valid module of which all is built is done, unless the desk fails or memory runs out.
    ensures complete { IfSome (D.files desk.old) (λ files. IsAccepted (texts_of words.now) files → D.faults desk.new ≡ D.faults desk.old → (result ≡ DONE) ⊎ (result ≡ NO_MEMORY)) }

    // After another status than 0, 3 and 12 all files are as before. A run that ended early has done nothing, or a
    // prefix of its answer's writes, and has said nothing; what a failed call left is not known.
    ensures untouched { result ≢ DONE → result ≢ DESK_FAILED → result ≢ NO_MEMORY → D.files desk.new ≡ D.files desk.old }
    ensures interrupted { result ≡ DESK_FAILED → IfSome (D.files desk.old) (λ files.
        IsUntouched (D.files desk.old) (D.files desk.new) (D.said desk.old) (D.said desk.new)
        ⊎ ((a : Answer) × IsAnswer (texts_of words.now) files a × Interrupted a (D.files desk.old) (D.files desk.new) (D.said desk.old) (D.said desk.new))) }
    ensures no_memory { result ≡ NO_MEMORY → IfSome (D.files desk.old) (λ files.
        IsUntouched (D.files desk.old) (D.files desk.new) (D.said desk.old) (D.said desk.new)
        ⊎ ((a : Answer) × IsAnswer (texts_of words.now) files a × EndedEarly a (D.files desk.old) (D.files desk.new) (D.said desk.old) (D.said desk.new))) }
{
    match run(alloc, words, desk) {
        Ok(status) => status,
        Err(DeskFault::NoMemory) => NO_MEMORY,
        Err(_) => DESK_FAILED,
    }
}
