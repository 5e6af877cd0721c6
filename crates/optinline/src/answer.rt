ghost use Rattle.std.specs.Prelude.{ℕ, List, ◌≡◌, ◌≢◌, ◌≤◌, ◌++◌, [], IfOk, length};
ghost use Rattle.std.specs.Option.{option_map};
ghost use Rattle.std.specs.String.{string_bytes};
ghost use Rattle.oi_world.specs.Desk.{Files};
ghost use Rattle.ir_core.specs.Proper.{IsProper};
ghost use Rattle.ir_phrases.specs.declared.fault.ReadFault.TheVariants as faults;
ghost use Rattle.optinline.specs.Words.{view};
ghost use Rattle.optinline.specs.Unbuilt.{unbuilt};
ghost use Rattle.optinline.specs.Answer.{Answer, IsAnswer, answer_of, refusal, refused, not_yet, rule_word, fault_place, fault_word, summary, heading, leaf, built, module_limit, IsValidAnswer, IsReadAnswer, IsModuleAnswer, IsFileAnswer, IsBuildStatus};

use crate::faults::{fault_place, fault_word};
use crate::object::build_object;
use crate::reply::{FileWrite, Reply};
use crate::status::{ABSENT, DONE, NOT_BUILT, REFUSED, TOO_LONG};
use crate::unbuilt::first_unbuilt;
use crate::words::Build;
use ir_core::{FuncRule, Module, Verified};
use ir_reader::{ReadFault, read_module};
use ir_verifier::{RuleFault, verify};
use oi_base::{NoMemory, Place};
use std::alloc::{AllocError, Global};

/// How many bytes a module has at most.
pub const MODULE_LIMIT: u32 = 1_048_576;

/// An answer that writes nothing.
pub fn refuse(alloc: Global, status: u8, said: String) -> Reply
    ensures answer { answer_of result ≡ refusal status (string_bytes said) }
    ensures status { result.status ≡ status }
    ensures quiet { result.writes.items ≡ [] }
{
    Reply {
        status,
        writes: Vec::new(alloc),
        said,
    }
}

/// The line of a build whose text has so many bytes.
fn summary(alloc: Global, text: usize) -> Result<String, AllocError>
    ensures { IfOk result (λ s. string_bytes s ≡ summary text) }
{
    format!(in alloc; "text {text} candidates 0 inlined 0 nodes 1\n")
}

/// The first two lines of a certificate.
#[tactic(auto, unfolding(crate::specs::Answer::heading))]
fn heading(alloc: Global, text: usize) -> Result<String, AllocError>
    ensures { IfOk result (λ s. string_bytes s ≡ heading text) }
{
    format!(in alloc; "certificate 1\ntext {text}\n")
}

/// A tree of one leaf.
#[tactic(auto, unfolding(crate::specs::Answer::leaf))]
fn leaf(alloc: Global, part: usize) -> Result<String, AllocError>
    ensures { IfOk result (λ s. string_bytes s ≡ leaf part) }
{
    format!(in alloc; "tree\nL {part}\n")
}

/// The certificate of a text of so many bytes, of which the code of `main` is a part.
fn certificate(alloc: Global, text: usize, part: usize) -> Result<Vec<u8>, AllocError>
    ensures { IfOk result (λ bytes. bytes.items ≡ heading text ++ leaf part) }
{
    let mut bytes = Vec::from_slice(alloc, heading(alloc, text)?.as_bytes())?;
    bytes.extend_from_slice(leaf(alloc, part)?.as_bytes())?;
    Ok(bytes)
}

fn write_of(alloc: Global, name: &str, bytes: Vec<u8>) -> Result<FileWrite, AllocError>
    ensures { IfOk result (λ w. (string_bytes w.name ≡ name.now) × (w.bytes ≡ bytes)) }
{
    Ok(FileWrite {
        name: String::from_str(alloc, name)?,
        bytes,
    })
}

/// The answer to a build of a verified module of which all is built.
#[tactic(auto, unfolding(crate::specs::Answer::built))]
fn built(alloc: Global, build: &Build<'_>, v: &Verified) -> Result<Reply, NoMemory>
    requires { unbuilt v.now ≡ [] }
    ensures answer { IfOk result (λ r. answer_of r ≡ built (view build.now) v.now) }
    ensures status { IfOk result (λ r. r.status ≡ DONE) }
{
    let object = build_object(alloc, v)?;
    let cert = certificate(alloc, object.size, object.body_size)?;
    let said = summary(alloc, object.size)?;
    let writes = vec![in alloc;
        write_of(alloc, build.object, object.file)?,
        write_of(alloc, build.decisions, Vec::new(alloc))?,
        write_of(alloc, build.cert, cert)?,
    ]?;
    Ok(Reply {
        status: DONE,
        writes,
        said,
    })
}

/// The answer where a module has a fault at a place.
#[tactic(auto, unfolding(crate::specs::Answer::refused))]
fn refused(alloc: Global, place: Place, cause: &str) -> Result<Reply, AllocError>
    ensures answer { IfOk result (λ r. answer_of r ≡ refused place cause.now) }
    ensures status { IfOk result (λ r. r.status ≡ REFUSED) }
    ensures quiet { IfOk result (λ r. r.writes.items ≡ []) }
{
    let (line, column) = (place.line, place.column);
    let said = format!(in alloc; "module {line}:{column} {cause}\n")?;
    Ok(refuse(alloc, REFUSED, said))
}

/// The answer where a rule is broken at a place.
fn rule_broken(alloc: Global, rule: u8, place: Place) -> Result<Reply, AllocError>
    ensures answer { IfOk result (λ r. answer_of r ≡ refused place (rule_word rule)) }
    ensures status { IfOk result (λ r. r.status ≡ REFUSED) }
    ensures quiet { IfOk result (λ r. r.writes.items ≡ []) }
{
    let cause = format!(in alloc; "rule {rule}")?;
    refused(alloc, place, cause.as_str())
}

/// The answer where something at a place isn't built yet.
fn not_yet(alloc: Global, place: Place) -> Result<Reply, AllocError>
    ensures answer { IfOk result (λ r. answer_of r ≡ not_yet place) }
    ensures status { IfOk result (λ r. r.status ≡ NOT_BUILT) }
    ensures quiet { IfOk result (λ r. r.writes.items ≡ []) }
{
    let (line, column) = (place.line, place.column);
    let said = format!(in alloc; "not built {line}:{column}\n")?;
    Ok(refuse(alloc, NOT_BUILT, said))
}

/// The answer to a build of a valid module.
fn valid_reply(alloc: Global, build: &Build<'_>, v: &Verified) -> Result<Reply, NoMemory>
    ensures answer { IfOk result (λ r. IsValidAnswer (view build.now) v.now (answer_of r)) }
    ensures status { IfOk result (λ r. IsBuildStatus r.status) }
    ensures quiet { IfOk result (λ r. r.status ≢ DONE → r.writes.items ≡ []) }
{
    match first_unbuilt(v.module()) {
        Some(place) => Ok(not_yet(alloc, place)?),
        None => built(alloc, build, v),
    }
}

/// The answer to a build of a module that was read.
fn read_reply(alloc: Global, build: &Build<'_>, m: Module) -> Result<Reply, NoMemory>
    requires { IsProper m }
    ensures answer { IfOk result (λ r. IsReadAnswer (view build.now) m (answer_of r)) }
    ensures status { IfOk result (λ r. IsBuildStatus r.status) }
    ensures quiet { IfOk result (λ r. r.status ≢ DONE → r.writes.items ≡ []) }
{
    match verify(alloc, m) {
        Ok(v) => valid_reply(alloc, build, &v),
        Err(RuleFault::Rule(rule, place)) => Ok(rule_broken(alloc, rule, place)?),
        Err(RuleFault::Unassigned(unassigned)) => Ok(rule_broken(
            alloc,
            FuncRule::Assignment.number(),
            unassigned.place,
        )?),
        Err(RuleFault::NoMemory) => Err(NoMemory),
    }
}

/// The answer to a module that is not read.
fn unread_reply(alloc: Global, fault: ReadFault) -> Result<Reply, NoMemory>
    ensures answer { IfOk result (λ r. (fault ≢ faults.NoMemory) × (answer_of r ≡ refused (fault_place fault) (fault_word fault))) }
    ensures status { IfOk result (λ r. IsBuildStatus r.status) }
    ensures quiet { IfOk result (λ r. r.status ≢ DONE → r.writes.items ≡ []) }
{
    match fault {
        ReadFault::NoMemory => Err(NoMemory),
        _ => Ok(refused(alloc, fault_place(fault), fault_word(fault))?),
    }
}

/// The answer to a build of a module with these bytes, within the limit.
fn module_reply(alloc: Global, build: &Build<'_>, bytes: &[u8]) -> Result<Reply, NoMemory>
    requires { length bytes.now ≤ module_limit }
    ensures answer { IfOk result (λ r. IsModuleAnswer (view build.now) bytes.now (answer_of r)) }
    ensures status { IfOk result (λ r. IsBuildStatus r.status) }
    ensures quiet { IfOk result (λ r. r.status ≢ DONE → r.writes.items ≡ []) }
{
    match read_module(alloc, bytes) {
        Ok(m) => read_reply(alloc, build, m),
        Err(fault) => unread_reply(alloc, fault),
    }
}

/// The answer to a build, by what the file of the module holds.
pub fn build_reply(
    alloc: Global,
    build: &Build<'_>,
    file: Option<Vec<u8>>,
) -> Result<Reply, NoMemory>
    ensures answer { IfOk result (λ r. IsFileAnswer (view build.now) (option_map (λ v. v.items) file) (answer_of r)) }
    ensures status { IfOk result (λ r. IsBuildStatus r.status) }
    ensures quiet { IfOk result (λ r. r.status ≢ DONE → r.writes.items ≡ []) }
{
    let module = build.module;
    let Some(bytes) = file else {
        return Ok(refuse(alloc, ABSENT, format!(in alloc; "absent {module}\n")?));
    };
    if bytes.len() > MODULE_LIMIT as usize {
        return Ok(refuse(alloc, TOO_LONG, format!(in alloc; "too long {module}\n")?));
    }
    module_reply(alloc, build, bytes.as_slice())
}

/// The answer is a function of the words and the files: there is always one, and one at most.
pub fn an_answer_is_a_function()
    ensures some { (words : List (List ℕ)) (files : Files) → (a : Answer) × IsAnswer words files a }
    ensures one { (words : List (List ℕ)) (files : Files) (a b : Answer) → IsAnswer words files a → IsAnswer words files b → a ≡ b }
{}
