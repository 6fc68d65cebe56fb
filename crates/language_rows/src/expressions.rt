ghost use Rattle.std.specs.Prelude.{◌≤◌};

use context_blocks::{Block, Context};
use expr_text::{ExprFault, parse, print};
use guards_base::Text;
use language_joint::evaluated;
use std::alloc::Global;
use std::test::Fail;

fn fault_of(alloc: Global, text: &str, blocks: u16, width: u8) -> Option<ExprFault>
    requires { blocks ≤ 256 }
{
    match parse(alloc, text.as_bytes(), blocks, width) {
        Ok(_) => None,
        Err(fault) => Some(fault),
    }
}

fn refused_at(alloc: Global, text: &str, blocks: u16, width: u8) -> Option<u16>
    requires { blocks ≤ 256 }
{
    match fault_of(alloc, text, blocks, width) {
        Some(ExprFault::Grammar { at }) => Some(at),
        _ => None,
    }
}

/// The value with 8 blocks and one input word, on blocks whose words are all 7, with the input 5 in cycle 3.
fn value_of(alloc: Global, text: &str) -> Result<Option<i64>, Fail> {
    let expr = parse(alloc, text.as_bytes(), 8, 1)?;
    let mut context = Context::zeroed(alloc, 8)?;
    for block in 0..8 {
        if u16::from(block) < context.len() {
            context.set_block(block, Block { words: [7; 8] });
        }
    }
    if expr.fits(context.len(), 4) {
        Ok(Some(evaluated(&expr, &context, &[5, 0, 0, 0], 3)))
    } else {
        Ok(None)
    }
}

#[test]
fn values(rt: HostRuntime) -> Result<(), Fail> {
    let rows = [
        ("7 / 0", 0),
        ("-7 / 2", -3),
        ("-7 % 2", -1),
        ("7 % 0", 0),
        ("sat(3 * 5, 0, 10)", 10),
        ("mid(9, 1, 5)", 5),
        ("ramp(0, -7, 3)", -3),
        ("pick(1, 2, 3)", 2),
        ("pick(-1, 2, 3)", 3),
        ("1 - 2 - 3", -4),
        ("2 + 3 * 4", 14),
        ("(2 + 3) * 4", 20),
        ("b3.7 * in0 + cycle", 38),
        ("9223372036854775807 + 1", i64::MIN),
        ("(-9223372036854775807 - 1) / -1", i64::MIN),
        ("(-9223372036854775807 - 1) % -1", 0),
        ("--3", 3),
    ];
    for (text, value) in rows.iter() {
        assert_eq!(rt; value_of(rt.alloc(), text)?, Some(*value), "{text}");
    }
    Ok(())
}

#[test]
fn refusals(rt: HostRuntime) -> Result<(), Fail> {
    let rows = [
        ("", 0),
        ("   ", 3),
        ("b0.0 +", 6),
        ("b8.0", 1),
        ("b07.0", 2),
        ("b7", 2),
        ("b7.8", 3),
        ("b 7.0", 1),
        ("1 1", 2),
        ("00", 1),
        ("9223372036854775808", 18),
        ("92233720368547758070", 19),
        ("in1", 2),
        ("in0in0", 3),
        ("cycle1", 5),
        ("cycl", 4),
        ("sat(1, 2)", 8),
        ("sat(1, 2, 3, 4)", 11),
        ("sat (1", 6),
        ("s at(1, 2, 3)", 1),
        ("(1))", 3),
        ("1, 2", 1),
        ("1 + + 1", 4),
        ("x", 0),
        ("1\t+ 1", 1),
        ("+1", 0),
        ("-", 1),
        ("- ", 2),
        ("()", 1),
        ("1 +", 3),
        ("b", 1),
        ("b0", 2),
        ("b0.", 3),
        ("i", 1),
        ("in", 2),
        ("in 0", 2),
        ("mid", 3),
        ("mid(", 4),
        ("pick(1 2, 3)", 7),
        ("0x1", 1),
        ("1 // 2", 3),
    ];
    for (text, at) in rows.iter() {
        assert_eq!(rt; refused_at(rt.alloc(), text, 8, 1), Some(*at), "{text}");
    }
    assert_eq!(rt; refused_at(rt.alloc(), "in0", 8, 0), Some(0));
    assert_eq!(rt; refused_at(rt.alloc(), "b0.0", 0, 1), Some(0));
    Ok(())
}

/// The text that the parsed text is printed as.
fn printed(alloc: Global, text: &str) -> Result<Text, ExprFault> {
    let expr = parse(alloc, text.as_bytes(), 256, 4)?;
    Ok(print(alloc, &expr)?)
}

#[test]
fn canonical_texts(rt: HostRuntime) -> Result<(), Fail> {
    let rows = [
        ("1+2*3", "(1 + (2 * 3))"),
        (" ( 1 ) ", "1"),
        ("-(1-2)", "-(1 - 2)"),
        ("- - cycle", "--cycle"),
        (" b255.7 ", "b255.7"),
        (
            "sat(in0,ramp( 0,b12.3 ,in3),pick(1,2,3)%4)",
            "sat(in0, ramp(0, b12.3, in3), (pick(1, 2, 3) % 4))",
        ),
        ("9223372036854775807/0", "(9223372036854775807 / 0)"),
    ];
    for (text, canonical) in rows.iter() {
        let first = printed(rt.alloc(), text)?;
        assert_eq!(rt; first.as_str(), *canonical);
        let again = printed(rt.alloc(), first.as_str())?;
        assert_eq!(rt; again.as_str(), *canonical);
    }
    Ok(())
}

/// So many times the front, and then the end.
fn repeated(alloc: Global, front: &str, times: usize, end: &str) -> Result<String, Fail> {
    let mut text = String::new(alloc);
    for _ in 0..times {
        text.push_str(front)?;
    }
    text.push_str(end)?;
    Ok(text)
}

#[test]
fn sizes(rt: HostRuntime) -> Result<(), Fail> {
    let alloc = rt.alloc();
    let rows = [
        (" ", 1099, None),
        (" ", 1100, Some(ExprFault::TooLong)),
        ("(", 1099, Some(ExprFault::Grammar { at: 1100 })),
        ("-", 15, None),
        (
            "-",
            16,
            Some(ExprFault::TooLarge {
                nodes: 17,
                depth: 17,
            }),
        ),
        (
            "-",
            1099,
            Some(ExprFault::TooLarge {
                nodes: 1100,
                depth: 1100,
            }),
        ),
        (
            "1+",
            32,
            Some(ExprFault::TooLarge {
                nodes: 65,
                depth: 33,
            }),
        ),
    ];
    for (front, times, fault) in rows.iter() {
        let text = repeated(alloc, front, *times, "1")?;
        assert_eq!(rt; fault_of(alloc, text.as_str(), 8, 1), *fault);
    }
    Ok(())
}
