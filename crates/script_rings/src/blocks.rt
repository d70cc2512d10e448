//! The blocks of a ring's order.

ghost use Rattle.std.specs.Prelude.{◌≡◌, ◌+◌, ◌≤◌, ℕ, List, length, map, IfOk, OnOk, IfErr, Some, [], ◌∷◌, ◌++◌};
ghost use Rattle.monomials.specs.Blocks.{block_len, order_of};
ghost use Rattle.plural_syntax.specs.declared.tree.Item.{Item as TreeItem};
ghost use Rattle.script_model.specs.Orders as spec;
ghost use Rattle.script_model.specs.Tokens.{number as number_in};
ghost use Rattle.script_rings.specs.Walks.{covered_by, ordered, walked, weighted_block};
ghost use Rattle.script_values.specs.Gives.{Stops};

use monomials::{Block, BlockWeights, Order, OrderFault};
use plural_syntax::{Item, ItemAfter, TokenAfter, TokenGroup};
use script_model::values::Refusal;
use script_values::Stop;
use script_values::tokens::{number, text};
use std::alloc::{AllocError, Global};

/// The order of these blocks.
pub(crate) fn checked_order(alloc: Global, blocks: &[Block], n: usize) -> Result<Order, Stop>
    requires not_empty { 1 ≤ n }
    requires fits { n ≤ 16 }
    ensures order { IfOk result (λ o. o ≡ order_of n blocks.now) }
    ensures checked { OnOk result (spec.checked n blocks.now ≡ Some blocks.now) }
    ensures refused { IfErr result (λ e. Stops e (ordered (spec.checked n blocks.now))) }
{
    match Order::new(alloc, blocks, n) {
        Ok(order) => Ok(order),
        Err(OrderFault::Cover) => Err(Stop::Refused(Refusal::BadOrder)),
        Err(OrderFault::Weight) => Err(Stop::Refused(Refusal::BadOrder)),
        Err(OrderFault::Memory) => Err(Stop::Memory),
    }
}

/// The blocks of an order's items. They need be no order yet.
pub(crate) fn blocks_of(
    alloc: Global,
    bytes: &[u8],
    n: usize,
    order: &plural_syntax::Order,
) -> Result<Vec<Block>, Stop>
    ensures blocks { IfOk result (λ blocks. spec.blocks_of bytes.now n order.now ≡ spec.checked n blocks.items) }
    ensures refused { IfErr result (λ e. Stops e (ordered (spec.blocks_of bytes.now n order.now))) }
{
    let mut blocks = Vec::new(alloc);
    push_order(&mut blocks, alloc, bytes, n, order)?;
    Ok(blocks)
}

// Appends the blocks of all items, which cover the variables that are left.
fn push_order(
    blocks: &mut Vec<Block>,
    alloc: Global,
    bytes: &[u8],
    left: usize,
    order: &plural_syntax::Order,
) -> Result<(), Stop>
    ensures goes_on { OnOk result ((n : ℕ) → covered_by blocks.old.items + left ≡ n →
        walked bytes.now n blocks.old.items (spec.items_of order.now) ≡ spec.checked n blocks.new.items) }
    ensures refused { IfErr result (λ e. (n : ℕ) → covered_by blocks.old.items + left ≡ n →
        Stops e (ordered (walked bytes.now n blocks.old.items (spec.items_of order.now)))) }
{
    match order {
        plural_syntax::Order::One { item } => {
            let _left = push_item(blocks, alloc, bytes, left, item, 0)?;
            Ok(())
        }
        plural_syntax::Order::Many { items, .. } => {
            let more = items.more.as_slice();
            let left = push_item(blocks, alloc, bytes, left, &items.first, more.len())?;
            push_items(blocks, alloc, bytes, left, more)
        }
    }
}

// Appends the blocks of the last items, which cover the variables that are left.
fn push_items(
    blocks: &mut Vec<Block>,
    alloc: Global,
    bytes: &[u8],
    left: usize,
    more: &[ItemAfter],
) -> Result<(), Stop>
    ensures goes_on { OnOk result ((n : ℕ) → covered_by blocks.old.items + left ≡ n →
        walked bytes.now n blocks.old.items (map (λ a. a.item) more.now) ≡ spec.checked n blocks.new.items) }
    ensures refused { IfErr result (λ e. (n : ℕ) → covered_by blocks.old.items + left ≡ n →
        Stops e (ordered (walked bytes.now n blocks.old.items (map (λ a. a.item) more.now)))) }
{
    let mut left = left;
    let mut more = more;
    while let Some((after, rest)) = more.split_first() {
        left = push_item(blocks, alloc, bytes, left, &after.item, rest.len())?;
        more = rest;
    }
    Ok(())
}

// Appends the block of an item with so many items behind it, and answers how many variables are left then. A block
// that is longer than what is left is refused at once, so that nothing is added up beyond the number of variables.
fn push_item(
    blocks: &mut Vec<Block>,
    alloc: Global,
    bytes: &[u8],
    left: usize,
    item: &Item,
    behind: usize,
) -> Result<usize, Stop>
    ensures left { IfOk result (λ r. covered_by blocks.new.items + r ≡ covered_by blocks.old.items + left) }
    ensures goes_on { OnOk result ((n : ℕ) (rest : List TreeItem) → covered_by blocks.old.items + left ≡ n → length rest ≡ behind →
        walked bytes.now n blocks.old.items (item.now ∷ rest) ≡ walked bytes.now n blocks.new.items rest) }
    ensures refused { IfErr result (λ e. (n : ℕ) (rest : List TreeItem) → covered_by blocks.old.items + left ≡ n → length rest ≡ behind →
        Stops e (ordered (walked bytes.now n blocks.old.items (item.now ∷ rest)))) }
{
    let name = text(bytes, &item.name);
    if is_component(name) {
        if behind > 0 || item.numbers.is_some() {
            return Err(Stop::Refused(Refusal::BadOrder));
        }
        return Ok(left);
    }
    let Some(block) = block_of(alloc, bytes, left, name, &item.numbers)? else {
        return Err(Stop::Refused(Refusal::BadOrder));
    };
    let len = block.covered();
    if len > left {
        return Err(Stop::Refused(Refusal::BadOrder));
    }
    push_block(blocks, block)?;
    Ok(left - len)
}

fn push_block(blocks: &mut Vec<Block>, block: Block) -> Result<(), AllocError>
    ensures { OnOk result (blocks.new.items ≡ blocks.old.items ++ block ∷ []) }
{
    Ok(blocks.push(block)?)
}

// Whether it is an item without effect.
fn is_component(name: &[u8]) -> bool
    ensures { result ≡ spec.is_component name.now }
{
    name == b"c".as_slice() || name == b"C".as_slice()
}

// An item's block, if it has one.
fn block_of(
    alloc: Global,
    bytes: &[u8],
    left: usize,
    name: &[u8],
    numbers: &Option<TokenGroup>,
) -> Result<Option<Block>, AllocError>
    ensures { IfOk result (λ b. b ≡ spec.block_of left name.now (map (number_in bytes.now) (spec.group_tokens numbers.now))) }
{
    if name == b"lp".as_slice() {
        return Ok(item_len(bytes, left, numbers).map(|len| Block::Lex { len }));
    }
    if name == b"dp".as_slice() {
        return Ok(item_len(bytes, left, numbers).map(|len| Block::DegRev { len }));
    }
    if name == b"Dp".as_slice() {
        return Ok(item_len(bytes, left, numbers).map(|len| Block::DegLex { len }));
    }
    weighted_block(alloc, bytes, name, numbers)
}

// The same, of the items with weights.
fn weighted_block(
    alloc: Global,
    bytes: &[u8],
    name: &[u8],
    numbers: &Option<TokenGroup>,
) -> Result<Option<Block>, AllocError>
    ensures { IfOk result (λ b. b ≡ weighted_block name.now (map (number_in bytes.now) (spec.group_tokens numbers.now))) }
{
    if name == b"wp".as_slice() {
        let weights = weights_of(alloc, bytes, numbers)?;
        return Ok(Some(Block::WeightRev { weights }));
    }
    if name == b"Wp".as_slice() {
        let weights = weights_of(alloc, bytes, numbers)?;
        return Ok(Some(Block::WeightLex { weights }));
    }
    if name == b"a".as_slice() {
        let weights = weights_of(alloc, bytes, numbers)?;
        return Ok(Some(Block::Extra { weights }));
    }
    Ok(None)
}

// How many variables an item covers: all that are left, or as many as it says.
fn item_len(bytes: &[u8], left: usize, numbers: &Option<TokenGroup>) -> Option<usize>
    ensures { result ≡ spec.item_len left (map (number_in bytes.now) (spec.group_tokens numbers.now)) }
{
    let Some(group) = numbers else {
        return Some(left);
    };
    if group.list.more.is_empty() {
        Some(number(bytes, &group.list.first) as usize)
    } else {
        None
    }
}

// The numbers of an item as weights.
fn weights_of(
    alloc: Global,
    bytes: &[u8],
    numbers: &Option<TokenGroup>,
) -> Result<BlockWeights, AllocError>
    ensures { IfOk result (λ weights. weights ≡ map (number_in bytes.now) (spec.group_tokens numbers.now)) }
{
    let mut weights = Vec::new(alloc);
    if let Some(group) = numbers {
        weights.push(number(bytes, &group.list.first))?;
        push_numbers(&mut weights, bytes, group.list.more.as_slice())?;
    }
    Ok(BlockWeights::of(weights))
}

// Appends further numbers.
fn push_numbers(numbers: &mut Vec<u64>, bytes: &[u8], more: &[TokenAfter]) -> Result<(), AllocError>
    ensures { OnOk result (numbers.new.items ≡ numbers.old.items ++ map (number_in bytes.now) (map (λ a. a.token) more.now)) }
{
    let mut more = more;
    while let Some((after, rest)) = more.split_first() {
        numbers.push(number(bytes, &after.token))?;
        more = rest;
    }
    Ok(())
}

/// The same blocks, in memory of their own.
pub(crate) fn copy_blocks(alloc: Global, blocks: &[Block]) -> Result<Vec<Block>, AllocError>
    ensures { IfOk result (λ copies. copies.items ≡ blocks.now) }
{
    let mut copies = Vec::with_capacity(alloc, blocks.len())?;
    for block in blocks {
        copies.push(copy_block(alloc, block)?)?;
    }
    Ok(copies)
}

fn copy_block(alloc: Global, block: &Block) -> Result<Block, AllocError>
    ensures { IfOk result (λ copy. copy ≡ block.now) }
{
    Ok(match block {
        Block::Extra { weights } => Block::Extra {
            weights: copy_weights(alloc, weights)?,
        },
        Block::Lex { len } => Block::Lex { len: *len },
        Block::DegRev { len } => Block::DegRev { len: *len },
        Block::DegLex { len } => Block::DegLex { len: *len },
        Block::WeightRev { weights } => Block::WeightRev {
            weights: copy_weights(alloc, weights)?,
        },
        Block::WeightLex { weights } => Block::WeightLex {
            weights: copy_weights(alloc, weights)?,
        },
    })
}

fn copy_weights(alloc: Global, weights: &BlockWeights) -> Result<BlockWeights, AllocError>
    ensures { IfOk result (λ copy. copy ≡ weights.now) }
{
    Ok(BlockWeights::of(Vec::from_slice(alloc, weights.as_slice())?))
}
