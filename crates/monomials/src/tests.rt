ghost use Rattle.std.specs.Prelude.{◌≡◌, ◌≤◌, length};

use crate::{Block, BlockWeights, Expo, Order, OrderFault};
use std::alloc::{AllocError, Global};
use std::cmp::Ordering;
use std::test::Fail;

// For each order monomials in x, y and z, by their exponents, from the greatest to the least.
const FALLING: &str = "\
lp 200 110 101 100 030 020 011 010 003 002 001 000
dp 030 003 200 110 020 101 011 002 100 010 001 000
Dp 030 003 200 110 101 020 011 002 100 010 001 000
wp(2,3,1) 030 020 110 200 011 010 101 003 100 002 001 000
Wp(2,3,1) 030 020 110 200 011 101 010 003 100 002 001 000
a(0,0,1),dp 003 002 101 011 001 030 200 110 020 100 010 000
lp(1),dp(2) 200 110 101 100 030 003 020 011 002 010 001 000
a(1),wp(1,1),lp(1) 200 110 101 100 030 020 011 010 003 002 001 000";

fn blocks(alloc: Global, name: &str) -> Result<Vec<Block>, AllocError> {
    let blocks = match name {
        "lp" => vec![in alloc; Block::Lex { len: 3 }]?,
        "dp" => vec![in alloc; Block::DegRev { len: 3 }]?,
        "Dp" => vec![in alloc; Block::DegLex { len: 3 }]?,
        "wp(2,3,1)" => vec![in alloc;
            Block::WeightRev {
                weights: BlockWeights::of(vec![in alloc; 2, 3, 1]?)
            },
        ]?,
        "Wp(2,3,1)" => vec![in alloc;
            Block::WeightLex {
                weights: BlockWeights::of(vec![in alloc; 2, 3, 1]?)
            },
        ]?,
        "a(0,0,1),dp" => {
            let weights = BlockWeights::of(vec![in alloc; 0, 0, 1]?);
            vec![in alloc; Block::Extra { weights }, Block::DegRev { len: 3 }]?
        }
        "lp(1),dp(2)" => vec![in alloc; Block::Lex { len: 1 }, Block::DegRev { len: 2 }]?,
        _ => {
            let extra = Block::Extra {
                weights: BlockWeights::of(vec![in alloc; 1]?),
            };
            let weighted = Block::WeightRev {
                weights: BlockWeights::of(vec![in alloc; 1, 1]?),
            };
            vec![in alloc; extra, weighted, Block::Lex { len: 1 }]?
        }
    };
    Ok(blocks)
}

fn exponent(digit: Option<u8>) -> u16
    ensures { result ≤ 15 }
{
    digit.map_or(0, |d| u16::from(d % 16))
}

fn monomial(word: &str) -> Expo
    ensures { length result ≡ 3 }
{
    let mut digits = word.bytes();
    let x = exponent(digits.next());
    let y = exponent(digits.next());
    let z = exponent(digits.next());
    Expo::of(&[x, y, z])
}

fn is_falling(order: &Order, text: &str) -> bool
    requires { order.now.vars ≡ 3 }
{
    for (i, a) in text.split(' ').enumerate() {
        for (j, b) in text.split(' ').enumerate() {
            if order.compare(&monomial(a), &monomial(b)) != j.cmp(&i) {
                return false;
            }
        }
    }
    true
}

#[test]
fn monomials_fall(rt: HostRuntime) -> Result<(), Fail> {
    for line in FALLING.lines() {
        if let Some((name, text)) = line.split_once(' ') {
            let order = Order::new(rt.alloc(), &blocks(rt.alloc(), name)?, 3)?;
            assert!(rt; is_falling(&order, text), "{name}");
        }
    }
    Ok(())
}

#[test]
fn blocks_cover_the_variables(rt: HostRuntime) -> Result<(), Fail> {
    let alloc = rt.alloc();
    let short = [Block::DegRev { len: 1 }];
    assert!(rt; matches!(Order::new(alloc, &short, 2), Err(OrderFault::Cover)));
    let empty = [Block::DegRev { len: 0 }, Block::Lex { len: 2 }];
    assert!(rt; matches!(Order::new(alloc, &empty, 2), Err(OrderFault::Cover)));
    let late = [
        Block::Lex { len: 2 },
        Block::Extra {
            weights: BlockWeights::of(vec![in alloc; 1]?),
        },
    ];
    assert!(rt; matches!(Order::new(alloc, &late, 2), Err(OrderFault::Cover)));
    let long = [
        Block::Extra {
            weights: BlockWeights::of(vec![in alloc; 1, 1, 1]?),
        },
        Block::Lex { len: 2 },
    ];
    assert!(rt; matches!(Order::new(alloc, &long, 2), Err(OrderFault::Cover)));
    Ok(())
}

#[test]
fn weights_are_in_range(rt: HostRuntime) -> Result<(), Fail> {
    let alloc = rt.alloc();
    let zero = [Block::WeightRev {
        weights: BlockWeights::of(vec![in alloc; 1, 0]?),
    }];
    assert!(rt; matches!(Order::new(alloc, &zero, 2), Err(OrderFault::Weight)));
    assert!(rt; matches!(Order::new(alloc, &zero, 3), Err(OrderFault::Cover)));
    let great = [Block::WeightLex {
        weights: BlockWeights::of(vec![in alloc; 65536, 1]?),
    }];
    assert!(rt; matches!(Order::new(alloc, &great, 2), Err(OrderFault::Weight)));
    let greatest = [Block::WeightLex {
        weights: BlockWeights::of(vec![in alloc; 65535, 1]?),
    }];
    assert!(rt; Order::new(alloc, &greatest, 2).is_ok());
    Ok(())
}

#[test]
fn weights_keep_their_numbers(rt: HostRuntime) -> Result<(), Fail> {
    let weights = BlockWeights::of(vec![in rt.alloc(); 2, 3]?);
    assert_eq!(rt; weights.as_slice(), [2, 3].as_slice());
    assert_eq!(rt; weights.into_vec().as_slice(), [2, 3].as_slice());
    Ok(())
}

#[test]
fn a_row_of_zeros_says_nothing(rt: HostRuntime) -> Result<(), Fail> {
    let alloc = rt.alloc();
    let blocks = [
        Block::Extra {
            weights: BlockWeights::of(vec![in alloc; 0, 0]?),
        },
        Block::Lex { len: 2 },
    ];
    let order = Order::new(alloc, &blocks, 2)?;
    let greater = order.compare(&Expo::var(2, 1), &Expo::of(&[0, 9]));
    assert_eq!(rt; greater, Ordering::Greater);
    Ok(())
}

#[test]
fn an_extra_row_stands_in_front(rt: HostRuntime) -> Result<(), Fail> {
    let alloc = rt.alloc();
    let order = Order::new(alloc, &[Block::Lex { len: 2 }], 2)?;
    let extra = order.with_extra(alloc, &[2, 2])?;
    let ordering = extra.compare(&Expo::of(&[9, 0]), &Expo::var(2, 2));
    assert_eq!(rt; ordering, Ordering::Less);
    assert!(rt; extra.same(&extra.copy(alloc)?) && !extra.same(&order));
    Ok(())
}

#[test]
fn equal_rows_are_the_same(rt: HostRuntime) -> Result<(), Fail> {
    let alloc = rt.alloc();
    let lex = Order::new(alloc, &[Block::Lex { len: 2 }], 2)?;
    let degrees = [Block::DegRev { len: 1 }, Block::DegRev { len: 1 }];
    assert!(rt; lex.same(&Order::new(alloc, &degrees, 2)?));
    let dp = Order::new(alloc, &[Block::DegRev { len: 2 }], 2)?;
    assert!(rt; !dp.same(&Order::new(alloc, &[Block::DegLex { len: 2 }], 2)?));
    Ok(())
}

/// Threads may share and send values of this type.
fn shared<T: Sync + Send>() {}

#[test]
fn threads_share_monomials_and_orders() {
    shared::<Expo>();
    shared::<Order>();
}
