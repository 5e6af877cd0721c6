ghost use Rattle.std.specs.Prelude.{◌≡◌, ◌<◌, length, Err, IfOk, IfErr};
ghost use Rattle.std.specs.Option.{option_map};
ghost use Rattle.std.specs.Prelude.{slice_get};
ghost use Rattle.ir_core.specs.declared.limits.TheConstants.{MOST_SITES};
ghost use Rattle.ir_core.specs.declared.module.Module as modules;
ghost use Rattle.call_graph.specs.declared.sites.Site.{Site};
ghost use Rattle.call_graph.specs.Sites.{all_sites};
ghost use Rattle.ir_grammar.specs.Reading.{read};
ghost use Rattle.ir_phrases.specs.declared.fault.ReadFault.TheVariants as faults;
ghost use Rattle.ir_phrases.specs.Gives.{GivesAll};
ghost use Rattle.ir_reader.specs.Refusals.{ReadsWithin, IsRefusal};

use crate::module::text_form;
use call_graph::{Functions, sites_of};
use ir_core::{Func, MOST_SITES, Module};
use ir_grammar::Which;
use ir_phrases::{ReadFault, Reader};
use oi_base::{NoMemory, Place};
use std::alloc::Global;

/// The place of the first call site beyond the limit.
fn site_beyond(alloc: Global, funcs: &[Func]) -> Result<Option<Place>, NoMemory>
    ensures { IfOk result (λ o. o ≡ option_map (λ (s : Site). s.place) (slice_get (all_sites funcs.now) MOST_SITES)) }
{
    let functions = Functions::of(alloc, funcs)?;
    let sites = sites_of(alloc, &functions)?;
    Ok(sites.get(MOST_SITES).map(|site| site.place))
}

/// The module that the bytes are a text of, but for the limit on call sites.
fn read_text(alloc: Global, bytes: &[u8]) -> Result<Module, ReadFault>
    requires { length bytes.now < 4294967295 }
    ensures { GivesAll result (read bytes.now) }
{
    let mut reader = Reader::start(alloc, bytes)?;
    text_form(&mut reader)
}

/// Reads a module's text (docs/ACCEPTED_TEXT.md): one pass over its tokens.
///
/// It is read exactly where it is a text of the accepted grammar within the limits. A refusal names the first fault:
/// the first place in the text decides, and the limit on call sites is tested last.
pub fn read_module(alloc: Global, bytes: &[u8]) -> Result<Module, ReadFault>
    requires { length bytes.now < 4294967295 }
    ensures module_of_it { IfOk result (ReadsWithin bytes.now) }
    ensures read { (m : modules.Module) → ReadsWithin bytes.now m → IfErr result (λ e. e ≡ faults.NoMemory) }
    ensures fault { IfErr result (IsRefusal bytes.now) }
{
    let found = read_text(alloc, bytes)?;
    match site_beyond(alloc, found.funcs.as_slice())? {
        Some(place) => Err(ReadFault::Limit(place, Which::Sites)),
        None => Ok(found),
    }
}
