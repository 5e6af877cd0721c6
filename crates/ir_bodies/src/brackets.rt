ghost use Rattle.std.specs.Prelude.{◌≡◌, ◌+◌, Some};
ghost use Rattle.ir_core.specs.declared.limits.TheConstants.{MOST_PARAMS};
ghost use Rattle.ir_grammar.specs.declared.which.Which.TheVariants as limits;
ghost use Rattle.ir_grammar.specs.Forms.{choose};
ghost use Rattle.ir_grammar.specs.Tokens.{is_past, over, stated};
ghost use Rattle.ir_grammar.specs.Attributes.{argument};
ghost use Rattle.ir_grammar.specs.Operations.{one_more_item, more_items, item_list, in_brackets, arguments};
ghost use Rattle.ir_grammar.specs.Entities.{param_name, param};
ghost use Rattle.ir_phrases.specs.Gives.{Gives};

use ir_core::{LocalId, MOST_PARAMS, Param, Params, TypedOperand, TypedOperands};
use ir_grammar::{Barred, Kind, Which};
use ir_phrases::{ReadFault, Reader, push, push_short};

fn next_argument(reader: &mut Reader<'_>, so_many: usize) -> Result<TypedOperand, ReadFault>
    ensures { Gives result reader.new ((choose (is_past (Some MOST_PARAMS) (so_many + 1)) (over limits.Params) (argument stated)).parse reader.old) }
{
    if so_many >= MOST_PARAMS {
        return Err(reader.beyond(Which::Params));
    }
    reader.argument()
}

/// `,` and one more argument.
fn one_more_argument(
    reader: &mut Reader<'_>,
    arguments: TypedOperands,
) -> Result<TypedOperands, ReadFault>
    ensures { Gives result reader.new ((one_more_item stated (argument stated) arguments).parse reader.old) }
{
    let mut arguments = arguments;
    reader.sign(b',')?;
    let next = next_argument(reader, arguments.len())?;
    push_short(&mut arguments, next)?;
    Ok(arguments)
}

/// { `,` argument }, after these.
fn more_arguments(
    reader: &mut Reader<'_>,
    arguments: TypedOperands,
) -> Result<TypedOperands, ReadFault>
    ensures { Gives result reader.new ((more_items stated (argument stated) arguments).parse reader.old) }
{
    let mut arguments = arguments;
    while reader.is_sign(b',') {
        arguments = one_more_argument(reader, arguments)?;
    }
    Ok(arguments)
}

/// [ argument { `,` argument } ]
fn argument_list(reader: &mut Reader<'_>) -> Result<TypedOperands, ReadFault>
    ensures { Gives result reader.new ((item_list stated (argument stated)).parse reader.old) }
{
    let mut arguments = TypedOperands::new(reader.alloc());
    if !reader.is_type() {
        return Ok(arguments);
    }
    let first = reader.argument()?;
    push_short(&mut arguments, first)?;
    more_arguments(reader, arguments)
}

/// `(` [ argument { `,` argument } ] `)`
#[tactic(auto, unfolding(ir_grammar::specs::Operations::arguments))]
pub fn arguments(reader: &mut Reader<'_>) -> Result<TypedOperands, ReadFault>
    ensures { Gives result reader.new ((arguments stated).parse reader.old) }
{
    reader.sign(b'(')?;
    let arguments = argument_list(reader)?;
    reader.sign(b')')?;
    Ok(arguments)
}

/// [ LOCAL ]
#[tactic(auto, unfolding(ir_grammar::specs::Entities::param_name))]
fn param_name(reader: &mut Reader<'_>) -> Result<LocalId, ReadFault>
    ensures { Gives result reader.new (param_name.parse reader.old) }
{
    if reader.is_kind(Kind::Local) {
        let name = reader.text(Kind::Local)?;
        return reader.define(name);
    }
    reader.define_next()
}

/// type { attr } [ LOCAL ]
#[tactic(auto, unfolding(ir_grammar::specs::Entities::param))]
fn param(reader: &mut Reader<'_>) -> Result<Param, ReadFault>
    ensures { Gives result reader.new ((param stated).parse reader.old) }
{
    let ty = reader.type_form()?;
    reader.attribute_list(Barred::Values)?;
    let name = param_name(reader)?;
    Ok(Param { ty, name })
}

fn next_param(reader: &mut Reader<'_>, so_many: usize) -> Result<Param, ReadFault>
    ensures { Gives result reader.new ((choose (is_past (Some MOST_PARAMS) (so_many + 1)) (over limits.Params) (param stated)).parse reader.old) }
{
    if so_many >= MOST_PARAMS {
        return Err(reader.beyond(Which::Params));
    }
    param(reader)
}

/// `,` and one more parameter.
fn one_more_param(reader: &mut Reader<'_>, params: Params) -> Result<Params, ReadFault>
    ensures { Gives result reader.new ((one_more_item stated (param stated) params).parse reader.old) }
{
    let mut params = params;
    reader.sign(b',')?;
    let next = next_param(reader, params.len())?;
    push(&mut params, next)?;
    Ok(params)
}

/// { `,` parameter }, after these.
fn more_params(reader: &mut Reader<'_>, params: Params) -> Result<Params, ReadFault>
    ensures { Gives result reader.new ((more_items stated (param stated) params).parse reader.old) }
{
    let mut params = params;
    while reader.is_sign(b',') {
        params = one_more_param(reader, params)?;
    }
    Ok(params)
}

/// [ parameter { `,` parameter } ]
fn param_list(reader: &mut Reader<'_>) -> Result<Params, ReadFault>
    ensures { Gives result reader.new ((item_list stated (param stated)).parse reader.old) }
{
    let mut params = Params::new(reader.alloc());
    if !reader.is_type() {
        return Ok(params);
    }
    let first = param(reader)?;
    push(&mut params, first)?;
    more_params(reader, params)
}

/// `(` [ parameter { `,` parameter } ] `)`
pub fn params(reader: &mut Reader<'_>) -> Result<Params, ReadFault>
    ensures { Gives result reader.new ((in_brackets stated (param stated)).parse reader.old) }
{
    reader.sign(b'(')?;
    let params = param_list(reader)?;
    reader.sign(b')')?;
    Ok(params)
}
