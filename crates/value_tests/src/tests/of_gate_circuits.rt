// A small circuit, of which one implication shows only by cases.

use gate_circuits::circuit::{Circuit, Gate, Inputs};
use gate_circuits::implied::{Implied, Pair};
use std::alloc::Global;
use std::test::Fail;

/// Adds a gate with two inputs.
fn add(alloc: Global, circuit: &mut Circuit, is_all: bool, a: usize, b: usize) -> Result<(), Fail> {
    let count = circuit.len();
    if a >= count || b >= count {
        return Err(Fail::from("no such input"));
    }
    let mut inputs = Inputs::new(alloc);
    inputs.push(a)?;
    inputs.push(b)?;
    if is_all {
        circuit.push(Gate::All { inputs })?;
    } else {
        circuit.push(Gate::Any { inputs })?;
    }
    Ok(())
}

/// The leaves a, b and c, a or b, a or c, both of these, b and c, and a or these two.
fn circuit(alloc: Global) -> Result<Circuit, Fail> {
    let mut circuit = Circuit::new(alloc);
    for _ in 0..3 {
        circuit.push(Gate::Leaf)?;
    }
    for (is_all, a, b) in [
        (false, 0, 1),
        (false, 0, 2),
        (true, 3, 4),
        (true, 1, 2),
        (false, 0, 6),
    ] {
        add(alloc, &mut circuit, is_all, a, b)?;
    }
    Ok(circuit)
}

/// What was found beforehand of a pair where these are asked, and what is answered.
fn answered(alloc: Global, asked: &[Pair], pair: Pair) -> Result<(Option<bool>, bool), Fail> {
    let circuit = circuit(alloc)?;
    let count = circuit.len();
    if pair.first >= count || pair.second >= count {
        return Err(Fail::from("no such gate"));
    }
    let implied = Implied::of(alloc, circuit, asked, &[], &[])?;
    let found = implied.found(pair);
    Ok((found, implied.implies(alloc, pair)?))
}

#[test]
fn an_implication_is_found_by_cases(rt: HostRuntime) -> Result<(), Fail> {
    let pair = Pair {
        first: 5,
        second: 7,
    };
    assert!(rt; answered(rt.alloc(), &[pair], pair)? == (Some(true), true));
    assert!(rt; answered(rt.alloc(), &[], pair)? == (None, true));
    let other = Pair {
        first: 3,
        second: 7,
    };
    let (_, implied) = answered(rt.alloc(), &[], other)?;
    assert!(rt; !implied);
    Ok(())
}
