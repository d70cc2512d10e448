//! Rings whose variables commute.

ghost use Rattle.std.specs.Prelude.{◌≡◌, ◌≤◌, length, map, string_bytes, true, false, IfOk, OnOk, IfErr};
ghost use Rattle.monomials.specs.Polynomials.{Each};
ghost use Rattle.plural_text.specs.Names.{AreNames, IsName};
ghost use Rattle.prime_field.specs.Modular.{in_table};
ghost use Rattle.script_model.specs.declared.values.Refusal.TheVariants as refused;
ghost use Rattle.script_model.specs.Orders.{checked};
ghost use Rattle.script_model.specs.Statements as spec;
ghost use Rattle.script_values.specs.declared.stop.Stop.TheVariants.{Refused};
ghost use Rattle.script_values.specs.Gives.{Gives};

use crate::blocks::{blocks_of, checked_order};
use crate::names::{different, names_of, too_many};
use algebra::Algebra;
use monomials::Block;
use plural_syntax::{Order, Vars};
use prime_field::Field;
use script_model::values::Refusal;
use script_values::{Ring, Stop};
use std::alloc::Global;

/// The ring of a `ring` statement: of this characteristic, in these variables, which commute, with this order.
/// It is refused by `Characteristic`, then by `Limit` for more than 16 variables, then by `Taken` for a name that
/// stands twice, then by `BadOrder`.
pub fn new_ring(
    alloc: Global,
    bytes: &[u8],
    characteristic: u64,
    vars: &Vars,
    order: &Order,
) -> Result<Ring, Stop>
    requires names { Each IsName (spec.names_of bytes.now vars.now) }
    ensures { Gives result (spec.new_ring bytes.now characteristic (spec.names_of bytes.now vars.now) order.now) }
{
    let field = field_of(characteristic)?;
    if too_many(vars) {
        return Err(Stop::Refused(Refusal::Limit));
    }
    let names = names_of(alloc, bytes, vars)?;
    different(alloc, &names)?;
    let blocks = blocks_of(alloc, bytes, names.len(), order)?;
    ring_of(alloc, field, names, blocks)
}

// The field of a characteristic of the table.
fn field_of(characteristic: u64) -> Result<Field, Stop>
    ensures field { IfOk result (λ f. f ≡ characteristic) }
    ensures listed { OnOk result (in_table characteristic ≡ true) }
    ensures unlisted { IfErr result (λ e. in_table characteristic ≡ false) }
    ensures refused { IfErr result (λ e. e ≡ Refused (refused.Characteristic characteristic)) }
{
    if let Ok(p) = u32::try_from(characteristic)
        && let Ok(field) = Field::of(p)
    {
        return Ok(field);
    }
    Err(Stop::Refused(Refusal::Characteristic(characteristic)))
}

// The ring of these names and blocks.
fn ring_of(
    alloc: Global,
    field: Field,
    names: Vec<String>,
    blocks: Vec<Block>,
) -> Result<Ring, Stop>
    requires names { AreNames (length names.items) (map string_bytes names.items) }
    requires not_empty { 1 ≤ length names.items }
    requires fits { length names.items ≤ 16 }
    ensures { Gives result (spec.ring_of field (map string_bytes names.items) (checked (length names.items) blocks.items)) }
{
    let n = names.len();
    let order = checked_order(alloc, &blocks, n)?;
    let algebra = Algebra::commuting(alloc, field, order, n)?;
    Ok(Ring::new(alloc, names, blocks, algebra, false)?)
}
