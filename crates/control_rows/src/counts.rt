use alpha_count::{Alpha, Decay};
use std::test::Fail;

// Errant in cycles 0, 3 and 4. In cycle 2 the exact quotient lies above 16383.
#[test]
fn both_laws(rt: HostRuntime) -> Result<(), Fail> {
    let slow = Decay::Multiply { keep: 32_767 };
    let a = Alpha::zero().step(true, slow);
    let b = a.step(false, slow);
    let c = b.step(false, slow);
    let d = c.step(true, slow);
    assert_eq!(rt; a.units(), 65_536);
    assert_eq!(rt; b.units(), 32_767);
    assert_eq!(rt; c.units(), 16_383);
    assert_eq!(rt; d.units(), 81_919);
    assert_eq!(rt; d.step(true, slow).units(), 147_455);
    let even = Decay::Subtract { decrement: 16_384 };
    let e = a.step(false, even).step(false, even);
    assert_eq!(rt; e.units(), 32_768);
    assert_eq!(rt; e.step(true, even).step(true, even).units(), 163_840);
    assert_eq!(rt;
        e.step(false, even).step(false, even).step(false, even),
        Alpha::zero()
    );
    Ok(())
}

// The cap holds, and a threshold is reached exactly.
#[test]
fn ends(rt: HostRuntime) -> Result<(), Fail> {
    let keep = Decay::Multiply { keep: 65_536 };
    let most = Alpha::of(16_777_216).ok_or("within the cap")?;
    assert_eq!(rt; most.step(true, keep), most);
    assert_eq!(rt; most.step(false, keep), most);
    assert_eq!(rt; Alpha::of(16_777_217), None);
    assert!(rt; most.reached(16_777_216));
    assert!(rt; !most.reached(16_777_217));
    Ok(())
}
